//! Values once more.

ghost use Rattle.std.specs.Prelude.{◌≡◌, map, IfOk};
ghost use Rattle.eds_types.specs.Plain.{plain};

use crate::Value;
use eds_base::{Items, Memory, Octets, Text};
use std::alloc::Global;

fn copy_octets(alloc: Global, octets: &Octets) -> Result<Octets, Memory>
    ensures { IfOk result (λ o. o ≡ octets.now) }
{
    Ok(Items::from_vec(octets.as_slice().to_vec(alloc)?))
}

/// Values once more, in order.
#[cycle(copy)]
pub fn copy_all(alloc: Global, values: &[Value]) -> Result<Vec<Value>, Memory>
    ensures { IfOk result (λ vs. map plain vs.items ≡ map plain values.now) }
{
    let mut all = Vec::new(alloc);
    for value in values {
        let copy = copy_value(alloc, value)?;
        all.push(copy)?;
    }
    Ok(all)
}

#[cycle(copy)]
fn copy_value(alloc: Global, value: &Value) -> Result<Value, Memory>
    ensures { IfOk result (λ v. plain v ≡ plain value.now) }
{
    match value {
        Value::Num(n) => Ok(Value::Num(*n)),
        Value::Label(label) => Ok(Value::Label(Text::of(alloc, label.as_str())?)),
        Value::Bool(truth) => Ok(Value::Bool(*truth)),
        Value::Text(text) => Ok(Value::Text(Text::of(alloc, text.as_str())?)),
        Value::Bits(bits, octets) => Ok(Value::Bits(*bits, copy_octets(alloc, octets)?)),
        Value::Items(items) => Ok(Value::Items(copy_all(alloc, items.as_slice())?)),
        Value::Fields(id, values) => Ok(Value::Fields(*id, copy_all(alloc, values.as_slice())?)),
    }
}

impl Value {
    ghost use Rattle.std.specs.Prelude.{◌≡◌, IfOk};
    ghost use Rattle.eds_types.specs.Plain.{plain};

    /// The same value once more.
    pub fn copy(&self, alloc: Global) -> Result<Value, Memory>
        ensures { IfOk result (λ v. plain v ≡ plain self.now) }
    {
        copy_value(alloc, self)
    }
}
