//! The sheet and the script of a demonstration.

ghost use Rattle.std.specs.Prelude.{◌≡◌, ◌≤◌, ◌<◌, ◌∷◌, [], None, Ok, IfOk, string_bytes};
ghost use Rattle.eds_sheet.specs.Compiled.{compiled, seen_sheet};
ghost use Rattle.eds_sheet.specs.Firsts.{WhereFirstsAreTold};
ghost use Rattle.eds_cmd.specs.Demo.{demo_frame, demo_script, demo_sheet, frame_lines as lines_of_frame, packet_text as text_of_packet};
ghost use Rattle.eds_cmd.specs.Demonstrated.{IsDemonstrated};
ghost use Rattle.eds_cmd.specs.Target.{IsUsable};

use crate::limits::SHEET_OCTETS;
use crate::perform::{components_of, sheet_by};
use crate::report::{demo_line, octets_of};
use crate::run::count_script;
use crate::status::Status;
use eds_base::{Items, Memory, Octets};
use eds_sheet::Sheet;
use std::alloc::{AllocError, Global};

// The integer types, and the container from which all packets derive.
const FRONT: &str =
    "[\"PackageFile\",[\"Package\",{\"name\":\"Gen\"},[\"DataTypeSet\",[\"IntegerDataType\",{\"name\":\"U8\"},[\"IntegerDataEncoding\",{\"sizeInBits\":\"8\",\"encoding\":\"unsigned\"}]],[\"IntegerDataType\",{\"name\":\"U16\"},[\"IntegerDataEncoding\",{\"sizeInBits\":\"16\",\"encoding\":\"unsigned\"}]],[\"ContainerDataType\",{\"name\":\"Base\",\"abstract\":\"true\"},[\"EntryList\",[\"Entry\",{\"name\":\"K\",\"type\":\"U16\"}]]]";

// The interface of the bus, and the component.
const BACK: &str =
    "],[\"DeclaredInterfaceSet\",[\"Interface\",{\"name\":\"Sub\",\"level\":\"subnetwork\"},[\"GenericTypeSet\",[\"GenericType\",{\"name\":\"Unit\"}]],[\"CommandSet\",[\"Command\",{\"name\":\"send\"},[\"Argument\",{\"name\":\"unit\",\"type\":\"Unit\"}]],[\"Command\",{\"name\":\"recv\"},[\"Argument\",{\"name\":\"unit\",\"type\":\"Unit\",\"mode\":\"notify\"}]]]]],[\"ComponentSet\",[\"Component\",{\"name\":\"Echo\"},[\"RequiredInterfaceSet\",[\"Interface\",{\"name\":\"bus\",\"type\":\"Sub\"},[\"GenericTypeMapSet\",[\"GenericTypeMap\",{\"name\":\"Unit\",\"type\":\"Base\"}]]]],[\"Implementation\",[\"VariableSet\",[\"Variable\",{\"name\":\"n\",\"type\":\"U16\"}]],[\"ActivitySet\",[\"Activity\",{\"name\":\"echo\"},[\"Argument\",{\"name\":\"unit\",\"type\":\"Base\"}],[\"Body\",[\"MathOperation\",{\"outputVariableRef\":\"n\"},[\"VariableRef\",{\"variableRef\":\"n\"}],[\"Value\",{\"value\":\"1\"}],[\"Operator\",{\"operator\":\"add\"}]],[\"SendCommandPrimitive\",{\"interface\":\"bus\",\"command\":\"send\"},[\"ArgumentValue\",{\"name\":\"unit\"},[\"ArgumentRef\",{\"argumentRef\":\"unit\"}]]]]]],[\"StateMachineSet\",[\"StateMachine\",{\"name\":\"m\"},[\"EntryState\",{\"name\":\"S\"}],[\"Transition\",{\"fromState\":\"S\",\"toState\":\"S\"},[\"OnCommandPrimitive\",{\"interface\":\"bus\",\"command\":\"recv\"}],[\"Do\",{\"activity\":\"echo\"},[\"ArgumentValue\",{\"name\":\"unit\"},[\"ArgumentRef\",{\"argumentRef\":\"unit\"}]]]]]]]]]]]";

// The packet of a number.
fn packet_text(alloc: Global, i: u32) -> Result<String, AllocError>
    ensures { IfOk result (λ s. string_bytes s ≡ text_of_packet i) }
{
    let number = format!(in alloc; "{i}")?;
    let mut text = String::from_str(alloc, "[\"ContainerDataType\",{\"name\":\"C")?;
    text.push_str(number.as_str())?;
    text.push_str(
        "\",\"baseType\":\"Base\"},[\"ConstraintSet\",[\"ValueConstraint\",{\"entry\":\"K\",\"value\":\"",
    )?;
    text.push_str(number.as_str())?;
    text.push_str("\"}]],[\"EntryList\",[\"Entry\",{\"name\":\"V\",\"type\":\"U8\"}]]]")?;
    Ok(text)
}

// The sheet, of so many packets.
fn sheet_text(alloc: Global, n: u32) -> Result<String, Memory>
    requires { n ≤ 500 }
    ensures { IfOk result (λ s. string_bytes s ≡ demo_sheet n) }
{
    let mut text = String::from_str(alloc, FRONT)?;
    for i in 1..n + 1 {
        let packet = packet_text(alloc, i)?;
        text.push_str(",")?;
        text.push_str(packet.as_str())?;
    }
    text.push_str(BACK)?;
    Ok(text)
}

// The octets of a frame of a number, where there are so many packets.
fn frame_octets(n: u32, i: u32) -> [u8; 3]
    requires few { n ≤ 500 }
    requires within { i < 10000 }
    ensures { result ≡ demo_frame n i }
{
    let packet = i % (n + 1);
    [(packet / 256) as u8, (packet % 256) as u8, (i % 256) as u8]
}

// A frame that arrives, and a nanosecond that passes.
fn frame_lines(alloc: Global, n: u32, i: u32) -> Result<String, AllocError>
    requires few { n ≤ 500 }
    requires within { i < 10000 }
    ensures { IfOk result (λ s. string_bytes s ≡ lines_of_frame n i) }
{
    let hex = hex::encode(alloc, frame_octets(n, i))?;
    let hex = hex.as_str();
    Ok(format!(in alloc; "frame Gen/Echo:bus recv {hex}\ntick 1\n")?)
}

// The script, where there are so many packets.
fn script_text(alloc: Global, n: u32) -> Result<String, Memory>
    requires { n ≤ 500 }
    ensures { IfOk result (λ s. string_bytes s ≡ demo_script n) }
{
    let mut text = String::new(alloc);
    for i in 1..10 * (n + 1) + 1 {
        let lines = frame_lines(alloc, n, i)?;
        text.push_str(lines.as_str())?;
    }
    Ok(text)
}

/// The sheet and the script of a demonstration with so many packets, from 1 to 500: a component counts the packets that come
/// over a bus and sends them back, each packet comes ten times, and ten frames are no packet.
pub fn demo(alloc: Global, n: u64) -> Result<(Octets, Octets), Memory>
    requires some { 1 ≤ n }
    requires few { n ≤ 500 }
    ensures sheet { IfOk result (λ x. x.0 ≡ demo_sheet n) }
    ensures script { IfOk result (λ x. x.1 ≡ demo_script n) }
{
    let sheet = sheet_text(alloc, n as u32)?;
    let script = script_text(alloc, n as u32)?;
    Ok((octets_of(sheet), octets_of(script)))
}

// The sheet of a file that breaks no rule. Of one that does, no more is told than that there is none.
fn sheet_in(alloc: Global, file: Octets) -> Result<Sheet, Memory>
    ensures sheet { WhereFirstsAreTold (λ firsts. IfOk result (λ s. compiled firsts (file ∷ []) None ≡ Ok (seen_sheet s))) }
    ensures usable { IfOk result IsUsable }
{
    if file.len() as u64 > SHEET_OCTETS {
        return Err(Memory);
    }
    let mut files = Items::new(alloc);
    files.push(file)?;
    sheet_by(alloc, &files, None).map_err(|_| Memory)
}

/// The report on a demonstration with so many packets, from 1 to 500: what its sheet declares, and what is sent and refused until
/// when in a run of its script. The sheet and the script are the program's own: that the sheet is refused, or that the run comes
/// to no end, would be told as want of memory.
pub fn demonstrate(alloc: Global, n: u64) -> Result<Octets, Memory>
    requires some { 1 ≤ n }
    requires few { n ≤ 500 }
    ensures { WhereFirstsAreTold (λ firsts. IfOk result (λ o. IsDemonstrated firsts n Status.Done o)) }
{
    let (file, script) = demo(alloc, n)?;
    let sheet = sheet_in(alloc, file)?;
    let components = components_of(&sheet);
    let counted = count_script(alloc, &components, script.as_slice())?;
    let line = demo_line(alloc, n, sheet.counts, counted.tally, counted.end)?;
    Ok(octets_of(line))
}
