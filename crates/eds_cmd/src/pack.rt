//! From the text of a value to the report on its octets.

ghost use Rattle.std.specs.Prelude.{◌≡◌, IfErr, IfOk, Ok, string_bytes};
ghost use Rattle.eds_cmd.specs.Endings.{EndsAs, StopSays};
ghost use Rattle.eds_cmd.specs.Pack.{Packs, PacksValue};
ghost use Rattle.eds_cmd.specs.Target.{IsKnown, type_in};
ghost use Rattle.eds_types.specs.Plain.{plain};
ghost use Rattle.eds_value.specs.Json.{value_in};

use crate::report::bits_report;
use crate::stop::{Stop, pack_fault, value_fault};
use crate::target::Target;
use eds_base::Fail;
use eds_pack::pack;
use eds_types::Value;
use eds_value::from_json;
use std::alloc::Global;

// The value that a text gives.
fn value_for(alloc: Global, target: &Target<'_>, text: &[u8]) -> Result<Value, Fail<Stop>>
    requires { IsKnown (type_in target.now) }
    ensures value { IfOk result (λ v. value_in target.now.table.now target.now.id.0 text.now ≡ Ok (plain v)) }
    ensures fault { IfErr result (StopSays (Packs (type_in target.now) text.now)) }
{
    match from_json(alloc, target.table, target.id, text) {
        Ok(value) => Ok(value),
        Err(Fail::Named(fail)) => Err(Fail::Named(value_fault(alloc, target.table, fail)?)),
        Err(Fail::Memory) => Err(Fail::Memory),
    }
}

// The report on the octets of a value.
fn packed_value(alloc: Global, target: &Target<'_>, value: &Value) -> Result<String, Fail<Stop>>
    requires { IsKnown (type_in target.now) }
    ensures { EndsAs string_bytes (PacksValue (type_in target.now) (plain value.now)) result }
{
    match pack(alloc, target.table, target.id, value) {
        Ok((octets, size)) => {
            let text = hex::encode(alloc, octets.as_slice())?;
            Ok(bits_report(alloc, text.as_str(), size)?)
        }
        Err(Fail::Named(fail)) => Err(Fail::Named(pack_fault(alloc, target.table, fail)?)),
        Err(Fail::Memory) => Err(Fail::Memory),
    }
}

/// The report on the octets of the value that a text gives.
pub fn packed(alloc: Global, target: &Target<'_>, text: &[u8]) -> Result<String, Fail<Stop>>
    requires { IsKnown (type_in target.now) }
    ensures { EndsAs string_bytes (Packs (type_in target.now) text.now) result }
{
    let value = value_for(alloc, target, text)?;
    packed_value(alloc, target, &value)
}
