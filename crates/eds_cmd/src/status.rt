//! How a command ended.

use eds_base::{Fault, Refusal, Text};
use eds_host::HostFail;
use eds_pack::PackFail;
use eds_replay::Differs;
use eds_script::BadLine;
use eds_value::ValueFail;

/// What has passed its limit.
#[derive(Clone, Copy, PartialEq, Eq)]
pub enum What {
    /// The sheet files.
    Files,
    /// The octets of one sheet file.
    File,
    /// The octets of all sheet files.
    Sheets,
    /// The octets of the input file.
    Input,
    /// The octets of a frame.
    Frame,
    /// The octets of a report.
    Report,
    /// The deliveries and firings of a line of a script.
    Deliveries,
}

/// What is wrong with the input file.
#[derive(Drop)]
pub enum DataFault {
    /// It has an octet that is no hex digit and no blank, or an odd number of digits.
    Hex,
    /// The frame begins with no value, or eight bits or more follow the value.
    Frame(Fault),
    /// The text of a value gives none.
    Json(ValueFail),
    /// A value can't be packed.
    Pack(PackFail),
    /// A packet of that number, from 1, can't be read.
    Packet(u32, Fault),
    /// A line of a script means nothing: the first one.
    Line(BadLine),
    /// A wire of a script ties nothing: the first one.
    Wire(HostFail),
    /// A recording of a session and what left the run don't agree: the first pair.
    Differs(Differs),
}

/// How a command ended.
#[derive(Drop)]
pub enum Status {
    /// It was done.
    Done,
    /// A rule is broken.
    Sheet(Refusal),
    /// The words are no command.
    Usage,
    /// The input file is refused.
    Data(DataFault),
    /// A read of the file of that name failed.
    ReadFault(Text),
    /// A write of the report failed.
    WriteFault,
    /// An allocation was refused. Nothing was written.
    Memory,
    /// A limit was passed: the stated most, as a number. Of deliveries and firings it is the number of the line.
    Limit(What, u64),
    /// There is no file of that name.
    NoFile(Text),
}

impl Status {
    ghost use Rattle.eds_cmd.specs.Status.{number_of};
    ghost use Rattle.std.specs.Prelude.{◌≡◌};

    /// The number that the program ends with.
    pub fn number(&self) -> u8
        ensures { result ≡ number_of self.now }
    {
        match self {
            Status::Done => 0,
            Status::Sheet(_) => 1,
            Status::Usage => 2,
            Status::Data(_) => 3,
            Status::ReadFault(_) => 4,
            Status::WriteFault => 5,
            Status::Memory => 6,
            Status::Limit(_, _) => 7,
            Status::NoFile(_) => 8,
        }
    }
}
