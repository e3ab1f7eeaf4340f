//! The most that a command takes.

/// The sheet files.
pub const SHEETS: usize = 64;

/// The octets of one sheet file.
pub const SHEET_OCTETS: u64 = 4194304;

/// The octets of all sheet files.
pub const SHEETS_OCTETS: u64 = 16777216;

/// The octets of the text of a frame.
pub const HEX_OCTETS: u64 = 1048576;

/// The octets of the text of a value.
pub const JSON_OCTETS: u64 = 4194304;

/// The octets of a script.
pub const SCRIPT_OCTETS: u64 = 4194304;

/// The octets of a file of packets.
pub const PACKETS_OCTETS: u64 = 16777216;

/// The octets of one packet of such a file.
pub const PACKET_OCTETS: usize = 65536;

/// The octets of a frame.
pub const FRAME_OCTETS: u64 = 65536;

/// The octets of a report.
pub const REPORT_OCTETS: u64 = 67108864;
