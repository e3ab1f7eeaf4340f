//! The transitions of a machine, found by the state that they leave and what they wait for, and the timers of each state.

ghost use Rattle.std.specs.Prelude.{◌≡◌, ◌≤◌, ◌++◌, [], ◌∷◌, IfOk, OnOk, length, if◌then◌else◌};
ghost use Rattle.std.specs.Ordering.{is_eq};
ghost use Rattle.eds_plan.specs.Places.{sort_of, key_of as key_that_is, noted_under, TellsPlaces, TellsTimers};

use crate::{Op, Transition, Trigger};
use eds_base::{Items, Memory};
use std::alloc::Global;
use std::collections::BTreeMap;
use std::marker::Model;

/// A state and a trigger, as the table has them: the trigger's sort and what it names, and the state.
#[derive(Clone, Copy, PartialEq, Eq, PartialOrd, Ord)]
struct Key {
    sort: u8,
    first: u64,
    second: u16,
    state: u16,
}

/// The positions of transitions by what they leave and wait for.
type Places = BTreeMap<Key, Items<u16>>;

/// The nanoseconds that timers wait, by the state that their transitions leave.
type Timers = BTreeMap<u16, Items<u64>>;

fn sort_of(op: Op) -> u8
    ensures { result ≡ sort_of op }
{
    match op {
        Op::Command => 3,
        Op::Get => 4,
        Op::Set => 5,
        Op::Val => 6,
    }
}

fn key_of(state: u16, trigger: Trigger) -> Key
    ensures { result ≡ key_that_is state trigger }
{
    match trigger {
        Trigger::Start => Key {
            sort: 0,
            first: 0,
            second: 0,
            state,
        },
        Trigger::Command(end, member) => Key {
            sort: 1,
            first: u64::from(end),
            second: member,
            state,
        },
        Trigger::Timer(nanoseconds) => Key {
            sort: 2,
            first: nanoseconds,
            second: 0,
            state,
        },
        Trigger::Param(end, member, op) => Key {
            sort: sort_of(op),
            first: u64::from(end),
            second: member,
            state,
        },
    }
}

// Puts an item behind those of its key.
fn note<K: Ord + Drop, T: Drop>(
    alloc: Global,
    notes: &mut BTreeMap<K, Items<T>>,
    key: K,
    item: T,
) -> Result<(), Memory>
    ensures { OnOk result ((q : K) → noted_under K.cmp notes.new q ≡ (if is_eq (K.cmp key q) then noted_under K.cmp notes.old q ++ item ∷ [] else noted_under K.cmp notes.old q)) }
{
    let mut list = match notes.remove(&key) {
        Some(list) => list,
        None => Items::new(alloc),
    };
    list.push(item)?;
    notes.insert(key, list)?;
    Ok(())
}

// The items of a key.
fn noted<'a, K: Ord, T>(notes: &'a BTreeMap<K, Items<T>>, key: &K) -> &'a [T]
    ensures { result.now ≡ noted_under K.cmp notes.now key.now }
{
    match notes.get(key) {
        Some(items) => items.as_slice(),
        None => &[],
    }
}

// The positions of some transitions by their keys.
fn places_of(alloc: Global, transitions: &[Transition]) -> Result<Places, Memory>
    requires few { length transitions.now ≤ 65536 }
    ensures { IfOk result (λ m. TellsPlaces m transitions.now) }
{
    let mut places = BTreeMap::new(alloc);
    for (place, transition) in transitions.iter().enumerate() {
        let key = key_of(transition.from, transition.event);
        note(alloc, &mut places, key, place as u16)?;
    }
    Ok(places)
}

// The waiting times of some transitions' timers by the states that they leave.
fn timers_of(alloc: Global, transitions: &[Transition]) -> Result<Timers, Memory>
    ensures { IfOk result (λ m. TellsTimers m transitions.now) }
{
    let mut timers = BTreeMap::new(alloc);
    for transition in transitions {
        if let Trigger::Timer(nanoseconds) = transition.event {
            note(alloc, &mut timers, transition.from, nanoseconds)?;
        }
    }
    Ok(timers)
}

/// Transitions in document order, found by the state that they leave and the trigger that they wait for, with the timers
/// of each state. Contracts see them as a list.
#[derive(Drop)]
pub struct Transitions {
    list: Items<Transition>,
    places: Places,
    timers: Timers,
}

impl Model for Transitions {
    ghost use Rattle.std.specs.Prelude.{List};
    ghost use Rattle.eds_plan.specs.declared.machine.Transition.{Transition};
    ghost use Rattle.eds_plan.specs.Places.{TellsPlaces, TellsTimers};
    ghost use Rattle.eds_types.specs.contracts.value.Value as value;
    ghost use Rattle.eds_plan.specs.contracts.activity.Guard as guard;
    ghost use Rattle.std.specs.Coded.{codes};

    ghost Value = { List Transition };

    ghost coded = { Prim.hlevel (codes, value.the_row.coded, guard.the_row.coded) };

    ghost view = { λ o. o.list };

    ghost invariant = { λ o. TellsPlaces o.places o.list × TellsTimers o.timers o.list };
}

impl Transitions {
    ghost use Rattle.std.specs.Prelude.{◌≡◌, ◌≤◌, length, slice_get, IfOk};
    ghost use Rattle.std.specs.Option.{option_copied};
    ghost use Rattle.eds_plan.specs.Matching.{matching as matching_of, timers as timers_from};

    /// These transitions, at most 65,536, with their tables.
    pub fn of(alloc: Global, list: Items<Transition>) -> Result<Transitions, Memory>
        requires few { length list ≤ 65536 }
        ensures { IfOk result (λ ts. ts ≡ list) }
    {
        let places = places_of(alloc, list.as_slice())?;
        let timers = timers_of(alloc, list.as_slice())?;
        Ok(Transitions {
            list,
            places,
            timers,
        })
    }

    /// How many transitions there are.
    pub fn len(&self) -> usize
        ensures { result ≡ length self.now }
    {
        self.list.len()
    }

    /// The transition at a position from 0, None exactly past the end.
    pub fn get(&self, place: usize) -> Option<&Transition>
        ensures { option_copied result ≡ slice_get self.now place }
    {
        self.list.get(place)
    }

    /// All of them.
    pub fn as_slice(&self) -> &[Transition]
        ensures { result.now ≡ self.now }
    {
        self.list.as_slice()
    }

    /// The positions of exactly those that leave the state and wait for the trigger, in document order.
    pub fn matching(&self, state: u16, trigger: Trigger) -> &[u16]
        ensures { result.now ≡ matching_of state trigger self.now }
    {
        noted(&self.places, &key_of(state, trigger))
    }

    /// The nanoseconds that the timers of exactly those that leave the state wait, in document order.
    pub fn timers(&self, state: u16) -> &[u64]
        ensures { result.now ≡ timers_from state self.now }
    {
        noted(&self.timers, &state)
    }
}
