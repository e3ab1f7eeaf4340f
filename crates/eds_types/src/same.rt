//! Whether two values are one.

ghost use Rattle.std.specs.Prelude.{◌≡◌, map};
ghost use Rattle.eds_types.specs.Plain.{plain, plains_of};
ghost use Rattle.eds_types.specs.Reading.{same, same_all};

use crate::Value;

#[cycle(same)]
#[tactic(auto, unfolding(crate::specs::Reading::same, crate::specs::Reading::same_all))]
fn are_same(one: &[Value], other: &[Value]) -> bool
    ensures { result ≡ same_all (plains_of (map plain one.now)) (plains_of (map plain other.now)) }
{
    if one.len() != other.len() {
        return false;
    }
    for (i, value) in one.iter().enumerate() {
        if !is_same(value, &other[i]) {
            return false;
        }
    }
    true
}

#[cycle(same)]
#[tactic(auto, unfolding(crate::specs::Reading::same, crate::specs::Reading::same_all))]
fn is_same(one: &Value, other: &Value) -> bool
    ensures { result ≡ same (plain one.now) (plain other.now) }
{
    match one {
        Value::Num(m) => match other {
            Value::Num(n) => *m == *n,
            _ => false,
        },
        Value::Label(label) => match other {
            Value::Label(with) => label.as_str() == with.as_str(),
            _ => false,
        },
        Value::Bool(truth) => match other {
            Value::Bool(with) => *truth == *with,
            _ => false,
        },
        Value::Text(text) => match other {
            Value::Text(with) => text.as_str() == with.as_str(),
            _ => false,
        },
        Value::Bits(bits, octets) => match other {
            Value::Bits(with, others) => *bits == *with && octets.as_slice() == others.as_slice(),
            _ => false,
        },
        Value::Items(items) => match other {
            Value::Items(others) => are_same(items.as_slice(), others.as_slice()),
            _ => false,
        },
        Value::Fields(id, values) => match other {
            Value::Fields(with, others) => {
                id.0 == with.0 && are_same(values.as_slice(), others.as_slice())
            }
            _ => false,
        },
    }
}

impl Value {
    ghost use Rattle.std.specs.Prelude.{◌≡◌, ◌↔◌, IsTrue};
    ghost use Rattle.eds_types.specs.Plain.{plain};

    /// Whether another value is this one.
    pub fn is(&self, other: &Value) -> bool
        ensures { IsTrue result ↔ (plain self.now ≡ plain other.now) }
    {
        is_same(self, other)
    }
}
