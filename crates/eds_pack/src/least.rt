//! Least numbers of types.

ghost use Rattle.std.specs.Prelude.{ℕ, ℤ, pos, List, [], ◌∷◌, ◌++◌, IfSome, IfNone, option_map};
ghost use Rattle.std.specs.Option.{option_copied};
ghost use Rattle.eds_base.specs.declared.ids.TypeId.{TypeId as Id};
ghost use Rattle.eds_base.specs.Spans.{IsWithin};
ghost use Rattle.eds_pack.specs.Building.{LeastOf, IsListedIn, LabelOf, HasContainer};
ghost use Rattle.eds_pack.specs.Defaults.{IsFirst};

use eds_base::{Spans, Text, TypeId};
use eds_types::{TypeTable, is_under};

/// 0 where the numbers have it, and else the least of them.
pub(crate) fn first_number(numbers: &Spans) -> Option<i128>
    ensures some { IfSome result (λ n. IsFirst numbers.now n) }
    ensures none { IfNone result ((n : ℤ) → IsWithin numbers.now n → ⊥) }
{
    if numbers.holds(0) {
        Some(0)
    } else {
        numbers.first_common(numbers)
    }
}

/// The lesser of a listed number, where it is in a set, and of the least one before it.
fn lesser(least: Option<i128>, listed: &(Text, i128), set: &Spans) -> Option<i128>
    ensures { (done : List (List ℕ × ℤ)) → LeastOf (IsListedIn done set.now) least → LeastOf (IsListedIn (done ++ listed.now ∷ []) set.now) result }
{
    let number = listed.1;
    if !set.holds(number) {
        return least;
    }
    match least {
        None => Some(number),
        Some(best) => { if best <= number { least } else { Some(number) } }
    }
}

/// The least number of a listing that is in a set.
pub(crate) fn least_listed(listing: &[(Text, i128)], set: &Spans) -> Option<i128>
    ensures { LeastOf (IsListedIn listing.now set.now) result }
{
    let mut least = None;
    for listed in listing {
        least = lesser(least, listed, set);
    }
    least
}

/// A label that is listed with a number.
pub(crate) fn label_of(listing: &[(Text, i128)], number: i128) -> Option<&Text>
    ensures { LabelOf listing.now number (option_copied result) }
{
    for listed in listing {
        let own = listed.1;
        if own == number {
            return Some(&listed.0);
        }
    }
    None
}

/// The concrete container at or under another one with the least number that is in a set.
pub(crate) fn least_container(table: &TypeTable, id: TypeId, set: &Spans) -> Option<TypeId>
    ensures { LeastOf (HasContainer table.now id.0 set.now) (option_map (λ (k : Id). pos k.0) result) }
{
    for n in 0..table.len() {
        if set.holds(i128::from(n))
            && table.is_concrete(TypeId(n))
            && is_under(table, TypeId(n), id)
        {
            return Some(TypeId(n));
        }
    }
    None
}
