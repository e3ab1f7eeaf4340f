//! Whether a value packs.

ghost use Rattle.std.specs.Prelude.{◌≡◌, ◌↔◌, ℕ, ◌<◌, length, Bool, true, IsTrue, IfSome};
ghost use Rattle.eds_types.specs.Plain.{Plain, plain, num};
ghost use Rattle.eds_pack.specs.Packs.{Packs};
ghost use Rattle.eds_act.specs.Does.{Conforms, Tells};

use eds_base::TypeId;
use eds_pack::conforms;
use eds_types::packs::packed_sizes;
use eds_types::{Kind, TypeTable, Value};

// The most bits that a number of an integer type may have.
const MOST_BITS: u32 = 64;

// Whether a number packs as a type, told at once where that is an integer type.
#[inline(always)]
fn number_packs(table: &TypeTable, id: TypeId, number: &i128) -> Option<bool>
    requires known { id.0 < length table.now }
    ensures { IfSome result (λ b. IsTrue b ↔ ((n : ℕ) × Packs table.now id.0 (num number.now) n)) }
{
    table.keeps_rules();
    packed_sizes();
    match &table.row(id).kind {
        Kind::Int(form, spans) if form.bits <= MOST_BITS => Some(spans.holds(*number)),
        _ => None,
    }
}

/// Whether a value packs as a type.
#[inline(always)]
pub(crate) fn packs(table: &TypeTable, id: TypeId, value: &Value) -> bool
    requires known { id.0 < length table.now }
    ensures told { (packs : ℕ → Plain → Bool) → Tells table.now packs → packs id.0 (plain value.now) ≡ result }
    ensures conforms { result ≡ true → Conforms table.now id.0 (plain value.now) }
{
    if let Value::Num(number) = value {
        if let Some(told) = number_packs(table, id, number) {
            return told;
        }
    }
    conforms(table, id, value)
}
