//! Why a command ends before it is done, with the report.

ghost use Rattle.std.specs.Prelude.{◌≡◌, IfOk};
ghost use Rattle.eds_cmd.specs.Stops as stops;

use crate::report::{
    bad_line_line, deliveries_line, differs_line, fault_line, limit_line, line_why_text,
    no_file_line, octets_of, packet_fault_line, refusal_line, wire_why_text,
};
use crate::status::{DataFault, Status, What};
use eds_base::{Fault, Memory, Octets, Refusal, Text};
use eds_host::HostFail;
use eds_pack::PackFail;
use eds_replay::Differs;
use eds_script::BadLine;
use eds_types::TypeTable;
use eds_value::{ValueFail, path_text};
use std::alloc::Global;

/// What ends a command before it is done.
#[derive(Drop)]
pub enum Cause {
    /// A rule is broken.
    Sheet(Refusal),
    /// The input file is refused.
    Data(DataFault),
    /// A limit was passed.
    Limit(What, u64),
    /// There is no file of that name.
    NoFile(Text),
}

impl Cause {
    /// The status of the command.
    pub fn status(self) -> Status
        ensures { result ≡ stops.status_of self }
    {
        match self {
            Cause::Sheet(refusal) => Status::Sheet(refusal),
            Cause::Data(fault) => Status::Data(fault),
            Cause::Limit(what, most) => Status::Limit(what, most),
            Cause::NoFile(name) => Status::NoFile(name),
        }
    }
}

/// What ends a command before it is done, and the whole report.
#[derive(Drop)]
pub struct Stop {
    pub cause: Cause,
    pub report: Octets,
}

/// A file is missing.
pub fn missing(alloc: Global, name: &str) -> Result<Stop, Memory>
    ensures { IfOk result (λ s. s ≡ stops.missing name.now) }
{
    let report = no_file_line(alloc, name)?;
    Ok(Stop {
        cause: Cause::NoFile(Text::of(alloc, name)?),
        report: octets_of(report),
    })
}

/// A limit was passed.
pub fn limited(alloc: Global, what: What, most: u64) -> Result<Stop, Memory>
    ensures { IfOk result (λ s. s ≡ stops.limited what most) }
{
    let report = limit_line(alloc, what, most)?;
    Ok(Stop {
        cause: Cause::Limit(what, most),
        report: octets_of(report),
    })
}

/// A rule is broken.
pub fn refused(alloc: Global, refusal: Refusal) -> Result<Stop, Memory>
    ensures { IfOk result (λ s. s ≡ stops.refused refusal) }
{
    let report = refusal_line(alloc, &refusal)?;
    Ok(Stop {
        cause: Cause::Sheet(refusal),
        report: octets_of(report),
    })
}

/// The text of a frame is no hex.
pub fn bad_hex(alloc: Global) -> Result<Stop, Memory>
    ensures { IfOk result (λ s. s ≡ stops.bad_hex) }
{
    let report = fault_line(alloc, "BadHex", "$")?;
    Ok(Stop {
        cause: Cause::Data(DataFault::Hex),
        report: octets_of(report),
    })
}

/// A frame begins with no value of the type.
pub fn frame_fault(alloc: Global, table: &TypeTable, fault: Fault) -> Result<Stop, Memory>
    ensures { IfOk result (λ s. s ≡ stops.frame_fault table.now fault.reason fault.path) }
{
    let place = path_text(alloc, table, &fault.path)?;
    let report = fault_line(alloc, fault.reason.name(), place.as_str())?;
    Ok(Stop {
        cause: Cause::Data(DataFault::Frame(fault)),
        report: octets_of(report),
    })
}

/// The packet of a number can't be read as a value of the type.
pub fn packet_fault(
    alloc: Global,
    table: &TypeTable,
    packet: u32,
    fault: Fault,
) -> Result<Stop, Memory>
    ensures { IfOk result (λ s. s ≡ stops.packet_fault table.now packet fault.reason fault.path) }
{
    let place = path_text(alloc, table, &fault.path)?;
    let report = packet_fault_line(alloc, fault.reason.name(), place.as_str(), packet)?;
    Ok(Stop {
        cause: Cause::Data(DataFault::Packet(packet, fault)),
        report: octets_of(report),
    })
}

/// The text of a value gives none of the type.
pub fn value_fault(alloc: Global, table: &TypeTable, fail: ValueFail) -> Result<Stop, Memory>
    ensures { IfOk result (λ s. s ≡ stops.value_fault table.now fail) }
{
    let report = match &fail {
        ValueFail::NotJson => fault_line(alloc, "NotJson", "$")?,
        ValueFail::WrongShape(path) => {
            let place = path_text(alloc, table, path)?;
            fault_line(alloc, "WrongShape", place.as_str())?
        }
    };
    Ok(Stop {
        cause: Cause::Data(DataFault::Json(fail)),
        report: octets_of(report),
    })
}

/// A value can't be packed, for another reason than that there is no room.
pub fn pack_fault(alloc: Global, table: &TypeTable, fail: PackFail) -> Result<Stop, Memory>
    requires { fail.need ≡ 0 }
    ensures { IfOk result (λ s. s ≡ stops.pack_fault table.now fail.reason fail.path) }
{
    let place = path_text(alloc, table, &fail.path)?;
    let report = fault_line(alloc, fail.reason.name(), place.as_str())?;
    Ok(Stop {
        cause: Cause::Data(DataFault::Pack(fail)),
        report: octets_of(report),
    })
}

/// A line of a script means nothing.
pub fn bad_line(alloc: Global, bad: BadLine) -> Result<Stop, Memory>
    ensures { IfOk result (λ s. s ≡ stops.bad_line bad) }
{
    let report = bad_line_line(alloc, bad.line, line_why_text(bad.why))?;
    Ok(Stop {
        cause: Cause::Data(DataFault::Line(bad)),
        report: octets_of(report),
    })
}

/// A wire of a script ties nothing.
pub fn bad_wire(alloc: Global, fail: HostFail) -> Result<Stop, Memory>
    ensures { IfOk result (λ s. s ≡ stops.bad_wire fail) }
{
    let report = bad_line_line(alloc, fail.line, wire_why_text(fail.why))?;
    Ok(Stop {
        cause: Cause::Data(DataFault::Wire(fail)),
        report: octets_of(report),
    })
}

/// A line of a script, by its number, is a storm, behind the lines of what left the run until then.
pub fn storm(alloc: Global, events: Vec<u8>, line: u32) -> Result<Stop, Memory>
    ensures { IfOk result (λ s. s ≡ stops.storm events.items line) }
{
    let mut report = events;
    let last = deliveries_line(alloc, line)?;
    report.extend_from_slice(last.as_bytes())?;
    Ok(Stop {
        cause: Cause::Limit(What::Deliveries, u64::from(line)),
        report: Octets::from_vec(report),
    })
}

/// A recording and what left the run don't agree.
pub fn differing(alloc: Global, differs: Differs) -> Result<Stop, Memory>
    ensures { IfOk result (λ s. s ≡ stops.differing differs) }
{
    let report = differs_line(
        alloc,
        differs.line,
        differs.want.as_str(),
        differs.got.as_str(),
    )?;
    Ok(Stop {
        cause: Cause::Data(DataFault::Differs(differs)),
        report: octets_of(report),
    })
}
