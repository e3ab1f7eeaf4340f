//! Sets of whole numbers, kept as intervals.

ghost use Rattle.std.specs.Prelude.{◌≡◌, ◌↔◌, ℤ, List, [], ◌≤ℤ◌, ◌<ℤ◌, ◌⊎◌, length, slice_get, IsTrue, IfOk, OnOk, OnErr, IfSome, IfNone};
ghost use Rattle.std.specs.Option.{option_copied};
ghost use Rattle.eds_base.specs.Spans.{Lies, IsWithin, Rises, Takes, bottom, top};

use crate::Memory;
use std::alloc::Global;
use std::marker::Model;

/// The whole numbers from the lowest to the highest, both among them.
#[derive(Clone, Copy, PartialEq, Eq)]
pub struct Span {
    pub low: i128,
    pub high: i128,
}

/// A set of whole numbers from -2^64 to 2^64: a rising list of intervals, where between two neighbours at least one
/// number is missing. So one set has one list.
#[derive(Drop)]
pub struct Spans {
    inner: Vec<Span>,
}

impl Model for Spans {
    ghost use Rattle.std.specs.Prelude.{List};
    ghost use Rattle.eds_base.specs.declared.spans.Span.{Span};
    ghost use Rattle.eds_base.specs.Spans.{Rises};

    ghost Value = { List Span };

    ghost view = { λ s. s.inner.items };

    ghost invariant = { λ s. Rises s.inner.items };
}

impl Spans {
    /// No numbers.
    pub fn new(alloc: Global) -> Spans
        ensures { result ≡ [] }
    {
        Spans {
            inner: Vec::new(alloc),
        }
    }

    /// How many intervals there are.
    pub fn len(&self) -> usize
        ensures { result ≡ length self.now }
    {
        self.inner.len()
    }

    /// The interval at a place, in rising order.
    pub fn get(&self, i: usize) -> Option<&Span>
        ensures { option_copied result ≡ slice_get self.now i }
    {
        self.inner.get(i)
    }

    /// All intervals, in rising order.
    pub fn as_slice(&self) -> &[Span]
        ensures same { result.now ≡ self.now }
        ensures rises { Rises self.now }
    {
        self.inner.as_slice()
    }

    /// Adds the numbers from `low` to `high`, which lie above all others.
    pub fn push(&mut self, low: i128, high: i128) -> Result<(), Memory>
        requires some { low ≤ℤ high }
        requires above { (n : ℤ) → IsWithin self.old n → n <ℤ low }
        requires from_bottom { bottom ≤ℤ low }
        requires to_top { high ≤ℤ top }
        ensures added { OnOk result ((n : ℤ) → low ≤ℤ n → n ≤ℤ high → IsWithin self.new n) }
        ensures kept { OnOk result ((n : ℤ) → IsWithin self.old n → IsWithin self.new n) }
        ensures no_others { OnOk result ((n : ℤ) → IsWithin self.new n → IsWithin self.old n ⊎ ((low ≤ℤ n) × (n ≤ℤ high))) }
        ensures refused { OnErr result (self.new ≡ self.old) }
    {
        let last = self.inner.len();
        if last > 0 && self.inner[last - 1].high + 1 == low {
            self.inner[last - 1].high = high;
            return Ok(());
        }
        self.inner.push(Span { low, high })?;
        Ok(())
    }

    /// Adds the numbers that lie in both intervals, which lie above all others.
    fn push_common(&mut self, one: &Span, two: &Span) -> Result<(), Memory>
        requires above { (n m : ℤ) → IsWithin self.old n → Lies one.now m → Lies two.now m → n <ℤ m }
        requires from_bottom { bottom ≤ℤ one.now.low }
        requires to_top { one.now.high ≤ℤ top }
        ensures { OnOk result (Takes one.now two.now self.old self.new) }
    {
        let low = one.low.max(two.low);
        let high = one.high.min(two.high);
        if low <= high {
            self.push(low, high)?;
        }
        Ok(())
    }

    /// Whether a number is among them.
    pub fn holds(&self, n: i128) -> bool
        ensures { IsTrue result ↔ IsWithin self.now n }
    {
        let mut left = self.as_slice();
        while !left.is_empty() {
            let middle = left.len() / 2;
            let span = &left[middle];
            if n < span.low {
                left = &left[..middle];
            } else if span.high < n {
                left = &left[middle + 1..];
            } else {
                return true;
            }
        }
        false
    }

    /// The least number that both have, and `None` where they have none.
    pub fn first_common(&self, other: &Spans) -> Option<i128>
        ensures common { IfSome result (λ n. IsWithin self.now n × IsWithin other.now n) }
        ensures least { IfSome result (λ n. (m : ℤ) → IsWithin self.now m → IsWithin other.now m → n ≤ℤ m) }
        ensures apart { IfNone result ((m : ℤ) → IsWithin self.now m → IsWithin other.now m → ⊥) }
    {
        let mut ours = self.as_slice();
        let mut theirs = other.as_slice();
        while let [one, ours_after @ ..] = ours {
            let [two, theirs_after @ ..] = theirs else {
                return None;
            };
            let low = one.low.max(two.low);
            if low <= one.high && low <= two.high {
                return Some(low);
            }
            if one.high < two.high {
                ours = ours_after;
            } else {
                theirs = theirs_after;
            }
        }
        None
    }

    /// The numbers that both have.
    pub fn meet(&self, alloc: Global, other: &Spans) -> Result<Spans, Memory>
        ensures common { IfOk result (λ s. (n : ℤ) → IsWithin s n → IsWithin self.now n × IsWithin other.now n) }
        ensures all { IfOk result (λ s. (n : ℤ) → IsWithin self.now n → IsWithin other.now n → IsWithin s n) }
    {
        let mut both = Spans::new(alloc);
        let mut ours = self.as_slice();
        let mut theirs = other.as_slice();
        while let [one, ours_after @ ..] = ours {
            let [two, theirs_after @ ..] = theirs else {
                return Ok(both);
            };
            both.push_common(one, two)?;
            if one.high < two.high {
                ours = ours_after;
            } else {
                theirs = theirs_after;
            }
        }
        Ok(both)
    }
}
