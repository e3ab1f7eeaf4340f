//! One number for the values of many packets.

ghost use Rattle.std.specs.Prelude.{◌≡◌, ◌+◌, ◌*◌, ◌%◌, ◌^◌};

use eds_types::Value;

/// What the entries of packets add up to, modulo 2^64. Each entry in turn makes it 31 times what it was, plus the entry's
/// weight.
#[derive(Drop)]
pub(crate) struct Sum {
    pub(crate) total: u64,
}

impl Sum {
    /// The sum of no packets.
    pub(crate) fn new() -> Sum
        ensures { result.total ≡ 0 }
    {
        Sum { total: 0 }
    }

    fn add(&mut self, weight: u64)
        ensures { self.new.total ≡ (31 * self.old.total + weight) % 2 ^ 64 }
    {
        self.total = self.total.wrapping_mul(31).wrapping_add(weight);
    }

    /// Adds the entries of a packet.
    pub(crate) fn add_packet(&mut self, packet: &Value) {
        if let Value::Fields(_, entries) = packet {
            for entry in entries {
                self.add(weight(entry));
            }
        }
    }
}

// A number modulo 2^64, 0 or 1 for a truth value, and for a label the octet of its first letter.
fn weight(entry: &Value) -> u64 {
    match entry {
        Value::Num(number) => (number.cast_unsigned() & u128::from(u64::MAX)) as u64,
        Value::Bool(truth) => u64::from(*truth),
        Value::Label(label) => u64::from(*label.as_str().as_bytes().first().unwrap_or(&0)),
        _ => 0,
    }
}
