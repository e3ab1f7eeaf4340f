//! Wires between ends.

ghost use Rattle.std.specs.Prelude.{◌≡◌, ◌++◌, ◌∷◌, [], List, None, Ok, OnOk, IfOk, IfErr};
ghost use Rattle.std.specs.Option.{option_copied};
ghost use Rattle.eds_host.specs.declared.wiring.Tie.{Tie as tie_now};
ghost use Rattle.eds_host.specs.Links.{HasTies, Stops, place_of, link_of};
ghost use Rattle.eds_host.specs.Wires.{tie_of, ties_of, wrong_between as wrong_between_of};
ghost use Rattle.eds_plan.specs.Ends.{end_at};
ghost use Rattle.eds_plan.specs.Interfaces.{agrees as agrees_of, same_interface as same_interface_of, same_type as same_type_of, type_named as type_named_of};

use eds_base::{Fail, Memory, Text};
use eds_plan::{End, EndPlan, Instance, Plan, TypeMap};
use std::alloc::Global;
use std::collections::BTreeMap;
use std::marker::Model;

/// Why a wire ties nothing.
#[derive(Clone, Copy, PartialEq, Eq)]
pub enum WireWhy {
    /// Its lower end is no required one, or its upper end no provided one.
    WireEnd,
    /// The interfaces of its ends differ, or their maps.
    WireType,
    /// An earlier wire ties one of its ends.
    WireTwice,
}

/// The first wire that ties nothing, by the number of its line.
#[derive(Clone, Copy, PartialEq, Eq)]
pub struct HostFail {
    pub why: WireWhy,
    pub line: u32,
}

/// The ends that the texts of a wire name, where there are such, and the number of its line.
#[derive(Clone, Copy)]
pub struct Asked {
    pub line: u32,
    pub lower: Option<End>,
    pub upper: Option<End>,
}

/// A required end and the provided one to which a wire ties it.
#[derive(Clone, Copy)]
pub struct Tie {
    pub lower: End,
    pub upper: End,
}

/// An end, in the order of components and their ends.
#[derive(Clone, Copy, PartialEq, Eq, PartialOrd, Ord)]
pub struct Place {
    pub comp: u32,
    pub face: u16,
}

/// For each end that is tied the end at the other side.
type Others = BTreeMap<Place, End>;

/// What wires tie. Clauses see the ties, in the order of the wires.
#[derive(Drop)]
pub struct Links {
    ties: Vec<Tie>,
    others: Others,
}

impl Model for Links {
    ghost use Rattle.std.specs.Prelude.{List};
    ghost use Rattle.eds_host.specs.declared.wiring.Tie.{Tie as tie_now};
    ghost use Rattle.eds_host.specs.Links.{HasTies};

    ghost Value = { List tie_now };

    ghost view = { λ l. l.ties.items };

    ghost invariant = { λ l. HasTies l.others l.ties.items };
}

fn key_of(end: End) -> Place
    ensures { result ≡ place_of end }
{
    Place {
        comp: end.comp.0,
        face: end.face,
    }
}

// The end that the map has for an end.
fn other_in(others: &Others, end: End) -> Option<End>
    ensures { result ≡ link_of others.now end }
{
    others.get(&key_of(end)).copied()
}

impl Links {
    ghost use Rattle.std.specs.Prelude.{◌≡◌};
    ghost use Rattle.eds_host.specs.Wires.{other_end as other_end_of};

    /// The end at the other side of an end's wire.
    pub(crate) fn other_end(&self, end: End) -> Option<End>
        ensures { result ≡ other_end_of self.now end }
    {
        other_in(&self.others, end)
    }
}

// The type that a map has for a name, of one name the first.
fn type_named(map: &TypeMap, name: &Text) -> Option<u32>
    ensures { result ≡ type_named_of map.now name.now }
{
    for field in map.as_slice() {
        if field.0.as_str() == name.as_str() {
            return Some(field.1.0);
        }
    }
    None
}

fn same_type(a: Option<u32>, b: Option<u32>) -> bool
    ensures { result ≡ same_type_of a b }
{
    match (a, b) {
        (None, None) => true,
        (Some(a), Some(b)) => a == b,
        _ => false,
    }
}

// Two maps have the same type for each of these names.
fn agrees(one: &TypeMap, other: &TypeMap, names: &TypeMap) -> bool
    ensures { result ≡ agrees_of one.now other.now names.now }
{
    for field in names.as_slice() {
        if !same_type(type_named(one, &field.0), type_named(other, &field.0)) {
            return false;
        }
    }
    true
}

// One interface under equal maps.
fn same_interface(one: &Instance, other: &Instance) -> bool
    ensures { result ≡ same_interface_of one.now other.now }
{
    one.face.0 == other.face.0
        && agrees(&one.map, &other.map, &one.map)
        && agrees(&one.map, &other.map, &other.map)
}

/// What a plan has of an end.
pub(crate) fn end_plan(plan: &Plan, end: End) -> Option<&EndPlan>
    ensures { option_copied result ≡ end_at plan.now end }
{
    let component = plan.get(end.comp.0 as usize)?;
    component.ends.get(usize::from(end.face))
}

// What is wrong with a wire between two ends.
fn wrong_between(
    others: &Others,
    lower: End,
    upper: End,
    one: &EndPlan,
    other: &EndPlan,
) -> Option<WireWhy>
    ensures why { (ts : List tie_now) → HasTies others.now ts → result ≡ wrong_between_of ts lower upper one.now other.now }
    ensures lower { result ≡ None → link_of others.now lower ≡ None }
    ensures upper { result ≡ None → link_of others.now upper ≡ None }
{
    if !one.required || other.required {
        return Some(WireWhy::WireEnd);
    }
    if !same_interface(&one.instance, &other.instance) {
        return Some(WireWhy::WireType);
    }
    if other_in(others, lower).is_some() || other_in(others, upper).is_some() {
        return Some(WireWhy::WireTwice);
    }
    None
}

// The ends that a wire ties, or what is wrong with it.
fn judge(plan: &Plan, others: &Others, asked: &Asked) -> Result<Tie, WireWhy>
    ensures what { (ts : List tie_now) → HasTies others.now ts → result ≡ tie_of plan.now ts asked.now.lower asked.now.upper }
    ensures lower { IfOk result (λ t. link_of others.now t.lower ≡ None) }
    ensures upper { IfOk result (λ t. link_of others.now t.upper ≡ None) }
{
    let (Some(lower), Some(upper)) = (asked.lower, asked.upper) else {
        return Err(WireWhy::WireEnd);
    };
    match (end_plan(plan, lower), end_plan(plan, upper)) {
        (Some(one), Some(other)) => match wrong_between(others, lower, upper, one, other) {
            None => Ok(Tie { lower, upper }),
            Some(why) => Err(why),
        },
        _ => Err(WireWhy::WireEnd),
    }
}

// Ties two ends.
fn tie_ends(others: &mut Others, t: Tie) -> Result<(), Memory>
    requires lower { link_of others.old t.lower ≡ None }
    requires upper { link_of others.old t.upper ≡ None }
    ensures { OnOk result ((ts : List tie_now) → HasTies others.old ts → HasTies others.new (ts ++ t ∷ [])) }
{
    others.insert(key_of(t.upper), t.lower)?;
    others.insert(key_of(t.lower), t.upper)?;
    Ok(())
}

/// Ties the ends of wires, or tells the first wire that ties nothing.
#[tactic(auto, using(crate::proofs::Tying::next_ties, crate::proofs::Tying::stop_ties, crate::proofs::Tying::done_ties))]
pub(crate) fn tie_all(alloc: Global, plan: &Plan, asked: &[Asked]) -> Result<Links, Fail<HostFail>>
    ensures links { IfOk result (λ l. ties_of plan.now asked.now ≡ Ok l) }
    ensures fail { IfErr result (λ f. Stops f (ties_of plan.now asked.now)) }
{
    let mut ties = Vec::new(alloc);
    let mut others = BTreeMap::new(alloc);
    for wire in asked {
        match judge(plan, &others, wire) {
            Ok(t) => {
                tie_ends(&mut others, t)?;
                ties.push(t)?;
            }
            Err(why) => {
                return Err(Fail::Named(HostFail {
                    why,
                    line: wire.line,
                }));
            }
        }
    }
    Ok(Links { ties, others })
}
