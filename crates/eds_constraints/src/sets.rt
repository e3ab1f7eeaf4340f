//! The numbers that constraints admit.

ghost use Rattle.std.specs.Prelude.{◌≡◌, ◌≤ℤ◌, map, option_map, slice_get, IfOk};
ghost use Rattle.std.specs.Option.{option_copied};
ghost use Rattle.eds_base.specs.Numbers.{whole_number as whole_number_of, flag_value as flag_value_of};
ghost use Rattle.eds_base.specs.Spans.{bottom, top};
ghost use Rattle.eds_types.specs.Domains.{int_domain_by};
ghost use Rattle.eds_types.specs.Reading.{is_within as is_of_domain};
ghost use Rattle.eds_types.specs.Rows.{chain, chain_within, list_has, numbers};
ghost use Rattle.eds_constraints.specs.ConstrainedRows.{AreRead};
ghost use Rattle.eds_domains.specs.Domains.{narrowed as narrowed_by};
ghost use Rattle.eds_constraints.specs.Named.{IsKindOf, number_of_label as number_labelled};
ghost use Rattle.eds_constraints.specs.Sets.{one_number as one_number_alone, all_numbers as every_number, met as met_sets, concrete_under as concrete_at_or_under, truth_number as truth_as_number, number_within as number_in_domain, value_set as value_set_of, type_set as type_set_of, set_by as set_by_kind, set_of as set_of_test};

use crate::asked::Test;
use crate::rows::{NamedRows, base_of, is_concrete, row_of};
use eds_base::{Items, Memory, Spans, TypeId, flag_value, whole_number};
use eds_domains::{BOTTOM, Range, TOP, interval, narrowed, rises};
use eds_types::{Kind, TypeRow};
use std::alloc::Global;

// ---- sets

fn one_number(alloc: Global, n: i128) -> Result<Spans, Memory>
    requires from_bottom { bottom ≤ℤ n }
    requires to_top { n ≤ℤ top }
    ensures { IfOk result (λ s. s ≡ one_number_alone n) }
{
    interval(alloc, n, n)
}

/// Every number that a set may hold.
pub(crate) fn all_numbers(alloc: Global) -> Result<Spans, Memory>
    ensures { IfOk result (λ s. s ≡ every_number) }
{
    interval(alloc, BOTTOM, TOP)
}

/// The numbers that two sets have in common.
pub(crate) fn met(alloc: Global, one: &Spans, other: &Spans) -> Result<Spans, Memory>
    ensures { IfOk result (λ s. s ≡ met_sets one.now other.now) }
{
    let both = one.meet(alloc, other)?;
    rises(one);
    rises(other);
    rises(&both);
    Ok(both)
}

fn copied(alloc: Global, set: &Spans) -> Result<Spans, Memory>
    ensures { IfOk result (λ s. s ≡ set.now) }
{
    let both = set.meet(alloc, set)?;
    rises(set);
    rises(&both);
    Ok(both)
}

// ---- containers

// Whether a type is among the last of a chain.
fn is_within(rows: &[TypeRow], most: u32, id: TypeId, above: TypeId) -> bool
    ensures { result ≡ list_has (chain_within most rows.now id.0) above.0 }
{
    if most == 0 {
        return false;
    }
    if id.0 == above.0 {
        return true;
    }
    match base_of(rows, id) {
        None => false,
        Some(base) => is_within(rows, most - 1, base, above),
    }
}

/// Whether a type is another, or derives from it.
fn is_under(rows: &[TypeRow], id: TypeId, above: TypeId) -> bool
    ensures { result ≡ list_has (chain rows.now id.0) above.0 }
{
    is_within(rows, 16, id, above)
}

fn concrete_under(alloc: Global, rows: &[TypeRow], id: TypeId) -> Result<Spans, Memory>
    requires { AreRead rows.now }
    ensures { IfOk result (λ s. s ≡ concrete_at_or_under rows.now id.0) }
{
    let mut set = Spans::new(alloc);
    for k in 0..rows.len() {
        let one = TypeId(k as u32);
        if is_concrete(rows, one) && is_under(rows, one, id) {
            set.push(k as i128, k as i128)?;
        }
    }
    rises(&set);
    Ok(set)
}

/// For each type the concrete containers at or under it.
pub(crate) fn concrete_sets(alloc: Global, rows: &[TypeRow]) -> Result<Items<Spans>, Memory>
    requires { AreRead rows.now }
    ensures { IfOk result (λ s. s ≡ map (concrete_at_or_under rows.now) (numbers rows.now)) }
{
    let mut sets = Items::new(alloc);
    for id in 0..rows.len() {
        sets.push(concrete_under(alloc, rows, TypeId(id as u32))?)?;
    }
    Ok(sets)
}

// ---- what a constraint admits

fn truth_number(truth: bool) -> i128
    ensures { result ≡ truth_as_number truth }
{
    if truth { 1 } else { 0 }
}

fn is_in(domain: &Spans, n: i128) -> bool
    ensures { result ≡ is_of_domain domain.now n }
{
    domain.holds(n)
}

fn number_within(alloc: Global, domain: &Spans, n: i128) -> Result<Spans, Memory>
    ensures { IfOk result (λ s. s ≡ number_in_domain domain.now n) }
{
    rises(domain);
    if is_in(domain, n) {
        one_number(alloc, n)
    } else {
        Ok(Spans::new(alloc))
    }
}

fn number_set(alloc: Global, domain: &Spans, text: &str) -> Result<Option<Spans>, Memory>
    ensures { IfOk result (λ s. s ≡ option_map (number_in_domain domain.now) (whole_number_of text.now)) }
{
    match whole_number(text) {
        None => Ok(None),
        Some(n) => Ok(Some(number_within(alloc, domain, n)?)),
    }
}

fn label_set(
    alloc: Global,
    names: &NamedRows,
    target: TypeId,
    label: &str,
) -> Result<Option<Spans>, Memory>
    requires { AreRead names.now.rows.now }
    ensures { IfOk result (λ s. s ≡ option_map one_number_alone (number_labelled names.now.rows.now target.0 label.now)) }
{
    match names.number_of_label(target, label) {
        None => Ok(None),
        Some(n) => Ok(Some(one_number(alloc, n)?)),
    }
}

fn truth_set(alloc: Global, text: &str) -> Result<Option<Spans>, Memory>
    ensures { IfOk result (λ s. s ≡ option_map (λ b. one_number_alone (truth_as_number b)) (flag_value_of text.now)) }
{
    match flag_value(text) {
        None => Ok(None),
        Some(truth) => Ok(Some(one_number(alloc, truth_number(truth))?)),
    }
}

fn value_set(
    alloc: Global,
    names: &NamedRows,
    target: TypeId,
    kind: &Kind,
    text: &str,
) -> Result<Option<Spans>, Memory>
    requires read { AreRead names.now.rows.now }
    requires kind { IsKindOf names.now.rows.now target.0 kind.now }
    ensures { IfOk result (λ s. s ≡ value_set_of kind.now text.now) }
{
    match kind {
        Kind::Int(_, domain) => number_set(alloc, domain, text),
        Kind::Enum(_, _) => label_set(alloc, names, target, text),
        Kind::Bool(_) => truth_set(alloc, text),
        _ => Ok(None),
    }
}

fn range_set(alloc: Global, kind: &Kind, range: Range) -> Result<Option<Spans>, Memory>
    ensures { IfOk result (λ s. s ≡ option_map (narrowed_by range) (int_domain_by kind.now)) }
{
    match kind {
        Kind::Int(_, domain) => Ok(Some(narrowed(alloc, domain, range)?)),
        _ => Ok(None),
    }
}

fn set_among(sets: &[Spans], id: TypeId) -> Option<&Spans>
    ensures { option_copied result ≡ slice_get sets.now id.0 }
{
    sets.get(id.0 as usize)
}

fn kept_set(alloc: Global, rows: &[TypeRow], sets: &[Spans], kept: TypeId) -> Result<Spans, Memory>
    requires read { AreRead rows.now }
    requires sets { sets.now ≡ map (concrete_at_or_under rows.now) (numbers rows.now) }
    ensures { IfOk result (λ s. s ≡ concrete_at_or_under rows.now kept.0) }
{
    match set_among(sets, kept) {
        None => concrete_under(alloc, rows, kept),
        Some(set) => copied(alloc, set),
    }
}

fn type_set(
    alloc: Global,
    rows: &[TypeRow],
    sets: &[Spans],
    target: TypeId,
    kept: TypeId,
) -> Result<Option<Spans>, Memory>
    requires read { AreRead rows.now }
    requires sets { sets.now ≡ map (concrete_at_or_under rows.now) (numbers rows.now) }
    ensures { IfOk result (λ s. s ≡ type_set_of rows.now target.0 kept.0) }
{
    if is_under(rows, kept, target) {
        Ok(Some(kept_set(alloc, rows, sets, kept)?))
    } else {
        Ok(None)
    }
}

fn set_by(
    alloc: Global,
    names: &NamedRows,
    sets: &[Spans],
    target: TypeId,
    kind: &Kind,
    test: &Test,
) -> Result<Option<Spans>, Memory>
    requires read { AreRead names.now.rows.now }
    requires sets { sets.now ≡ map (concrete_at_or_under names.now.rows.now) (numbers names.now.rows.now) }
    requires kind { IsKindOf names.now.rows.now target.0 kind.now }
    ensures { IfOk result (λ s. s ≡ set_by_kind names.now.rows.now target.0 kind.now test.now) }
{
    match test {
        Test::Value(text) => value_set(alloc, names, target, kind, text.as_str()),
        Test::Within(range) => range_set(alloc, kind, *range),
        Test::Under(kept) => type_set(alloc, names.rows, sets, target, *kept),
    }
}

/// What a constraint admits of an entry of this type, None exactly where it stands for nothing there.
pub(crate) fn set_of(
    alloc: Global,
    names: &NamedRows,
    sets: &[Spans],
    target: TypeId,
    test: &Test,
) -> Result<Option<Spans>, Memory>
    requires read { AreRead names.now.rows.now }
    requires sets { sets.now ≡ map (concrete_at_or_under names.now.rows.now) (numbers names.now.rows.now) }
    ensures { IfOk result (λ s. s ≡ set_of_test names.now.rows.now target.0 test.now) }
{
    match row_of(names.rows, target) {
        None => Ok(None),
        Some(row) => set_by(alloc, names, sets, target, &row.kind, test),
    }
}
