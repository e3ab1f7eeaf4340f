//! The domains of integer types and sub-ranges.

ghost use Rattle.std.specs.Prelude.{◌≡◌, ◌↔◌, ◌≤ℤ◌, ◌<ℤ◌, ℤ, pos, IfOk};
ghost use Rattle.eds_base.specs.Spans.{IsWithin, Rises, bottom, top};
ghost use Rattle.eds_domains.specs.Ranges.{IsFrom, IsTo};
ghost use Rattle.eds_domains.specs.Domains.{narrowed, domain_of, has_none};

use crate::range::{End, Range};
use eds_base::{Memory, Spans};
use eds_bits::{IntForm, bounds_of};
use std::alloc::Global;

/// The least number that a set may hold.
pub const BOTTOM: i128 = -18_446_744_073_709_551_616;

/// The greatest number that a set may hold.
pub const TOP: i128 = 18_446_744_073_709_551_616;

/// The least number from `low` on that a lower end admits, or one above all that a set may hold.
fn raised(end: End, low: i128) -> i128
    ensures from { low ≤ℤ result }
    ensures admits { (n : ℤ) → n ≤ℤ top → (result ≤ℤ n ↔ ((low ≤ℤ n) × IsFrom end n)) }
{
    match end {
        End::Open => low,
        End::Inclusive(n) => low.max(n),
        End::Exclusive(n) => low.max(n.saturating_add(1)),
    }
}

/// The greatest number up to `high` that an upper end admits, or one below all that a set may hold.
fn lowered(end: End, high: i128) -> i128
    ensures to { result ≤ℤ high }
    ensures admits { (n : ℤ) → bottom ≤ℤ n → (n ≤ℤ result ↔ ((n ≤ℤ high) × IsTo end n)) }
{
    match end {
        End::Open => high,
        End::Inclusive(n) => high.min(n),
        End::Exclusive(n) => high.min(n.saturating_sub(1)),
    }
}

/// The numbers from `low` to `high`, none where `low` is above `high`. Fails only where no memory is left.
pub fn interval(alloc: Global, low: i128, high: i128) -> Result<Spans, Memory>
    requires from_bottom { bottom ≤ℤ low }
    requires to_top { high ≤ℤ top }
    ensures rises { IfOk result Rises }
    ensures numbers { IfOk result (λ s. (n : ℤ) → IsWithin s n ↔ ((low ≤ℤ n) × (n ≤ℤ high))) }
{
    let mut spans = Spans::new(alloc);
    if low <= high {
        spans.push(low, high)?;
    }
    Ok(spans)
}

/// The domain of an integer type (CCSDS 876.0-B, integer data types): the numbers of its form that its range admits. Fails only
/// where no memory is left.
pub fn domain_of(alloc: Global, form: IntForm, range: Range) -> Result<Spans, Memory>
    ensures { IfOk result (λ s. s ≡ domain_of form range) }
{
    let bounds = bounds_of(form);
    interval(
        alloc,
        raised(range.low, bounds.least),
        lowered(range.high, bounds.greatest),
    )
}

/// Whether a form has no number that a range admits, so that the domain of an integer type is empty.
pub fn is_empty_domain(form: IntForm, range: Range) -> bool
    ensures { result ≡ has_none (domain_of form range) }
{
    let bounds = bounds_of(form);
    lowered(range.high, bounds.greatest) < raised(range.low, bounds.least)
}

/// The intervals of a set rise.
pub fn rises(spans: &Spans)
    ensures { Rises spans.now }
{
    let _intervals = spans.as_slice();
}

/// The domain of a sub-range (CCSDS 876.0-B, sub-range data types): the numbers of its base that its range admits. Fails only
/// where no memory is left.
pub fn narrowed(alloc: Global, base: &Spans, range: Range) -> Result<Spans, Memory>
    ensures { IfOk result (λ s. s ≡ narrowed range base.now) }
{
    let admitted = interval(alloc, raised(range.low, BOTTOM), lowered(range.high, TOP))?;
    let both = base.meet(alloc, &admitted)?;
    rises(base);
    rises(&both);
    Ok(both)
}
