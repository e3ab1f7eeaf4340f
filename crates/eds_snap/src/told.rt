//! What lines told of components.

ghost use Rattle.std.specs.Prelude.{◌≡◌, None, OnOk, IfOk, map, option_map, slice_set};
ghost use Rattle.eds_snap.specs.Readings.{with_machine, with_variable, with_wait};
ghost use Rattle.eds_snap.specs.Seen.{told_now};
ghost use Rattle.eds_types.specs.Plain.{plain};
ghost use Rattle.eds_act.specs.Does.{waits as waits_in};
ghost use Rattle.eds_snap.specs.Entries.{blank, is_told as told_in, told_of};

use eds_act::waits;
use eds_base::{Items, Memory};
use eds_plan::{ComponentPlan, Machine, MachineState, Outstanding, Plan, VarPlan};
use eds_types::Value;
use std::alloc::Global;

/// What lines told of a component: of each variable and each machine, where one did; and transactions under way.
#[derive(Drop)]
pub(crate) struct Told {
    pub(crate) variables: Items<Option<Value>>,
    pub(crate) machines: Items<Option<MachineState>>,
    pub(crate) outstanding: Items<Outstanding>,
}

// ---- nothing

fn blank_variables(alloc: Global, variables: &[VarPlan]) -> Result<Items<Option<Value>>, Memory>
    ensures { IfOk result (λ s. map (option_map plain) s ≡ map (λ x. None) variables.now) }
{
    let mut slots = Items::new(alloc);
    for variable in variables {
        slots.push(None)?;
    }
    Ok(slots)
}

fn blank_machines(
    alloc: Global,
    machines: &[Machine],
) -> Result<Items<Option<MachineState>>, Memory>
    ensures { IfOk result (λ s. s ≡ map (λ m. None) machines.now) }
{
    let mut slots = Items::new(alloc);
    for machine in machines {
        slots.push(None)?;
    }
    Ok(slots)
}

fn blank_of(alloc: Global, component: &ComponentPlan) -> Result<Told, Memory>
    ensures { IfOk result (λ t. told_now t ≡ blank component.now) }
{
    let variables = blank_variables(alloc, component.variables.as_slice())?;
    let machines = blank_machines(alloc, component.machines.as_slice())?;
    Ok(Told {
        variables,
        machines,
        outstanding: Items::new(alloc),
    })
}

/// Nothing was told of the components.
pub(crate) fn all_blank(alloc: Global, plan: &Plan) -> Result<Vec<Told>, Memory>
    ensures { IfOk result (λ v. map told_now v.items ≡ map blank plan.now) }
{
    let mut all = Vec::new(alloc);
    for component in plan.as_slice() {
        let told = blank_of(alloc, component)?;
        all.push(told)?;
    }
    Ok(all)
}

// ---- whether something was told

fn is_variable_in(slots: &[Option<Value>], place: usize) -> bool
    ensures { result ≡ told_in (map (option_map plain) slots.now) place }
{
    match slots.get(place) {
        None => false,
        Some(slot) => slot.is_some(),
    }
}

fn is_machine_in(slots: &[Option<MachineState>], place: usize) -> bool
    ensures { result ≡ told_in slots.now place }
{
    match slots.get(place) {
        None => false,
        Some(slot) => slot.is_some(),
    }
}

/// Whether a line told what the variable of a component holds.
pub(crate) fn is_variable_told(told: &[Told], comp: usize, place: usize) -> bool
    ensures { result ≡ told_in (told_of (map told_now told.now) comp).variables place }
{
    match told.get(comp) {
        None => false,
        Some(own) => is_variable_in(own.variables.as_slice(), place),
    }
}

/// Whether a line told where the machine of a component stands.
pub(crate) fn is_machine_told(told: &[Told], comp: usize, place: usize) -> bool
    ensures { result ≡ told_in (told_of (map told_now told.now) comp).machines place }
{
    match told.get(comp) {
        None => false,
        Some(own) => is_machine_in(own.machines.as_slice(), place),
    }
}

/// Whether a line told of the transaction.
pub(crate) fn is_wait_told(told: &[Told], comp: usize, waiting: Outstanding) -> bool
    ensures { result ≡ waits_in (told_of (map told_now told.now) comp).outstanding waiting.face waiting.member waiting.name }
{
    match told.get(comp) {
        None => false,
        Some(own) => waits(
            own.outstanding.as_slice(),
            waiting.face,
            waiting.member,
            waiting.name,
        ),
    }
}

// ---- what one more line tells

fn set_variable(own: &mut Told, place: usize, value: Value)
    ensures { told_now own.new ≡ with_variable place (plain value) (told_now own.old) }
{
    if place < own.variables.len() {
        own.variables.set(place, Some(value));
    }
}

fn set_machine(own: &mut Told, place: usize, state: MachineState)
    ensures { told_now own.new ≡ with_machine place state (told_now own.old) }
{
    if place < own.machines.len() {
        own.machines.set(place, Some(state));
    }
}

fn add_wait(own: &mut Told, waiting: Outstanding) -> Result<(), Memory>
    ensures { OnOk result (told_now own.new ≡ with_wait waiting (told_now own.old)) }
{
    own.outstanding.push(waiting)
}

/// The variable of a component holds this.
pub(crate) fn put_variable(told: &mut Vec<Told>, comp: usize, place: usize, value: Value)
    ensures { map told_now told.new.items ≡ slice_set (map told_now told.old.items) comp (with_variable place (plain value) (told_of (map told_now told.old.items) comp)) }
{
    if comp < told.len() {
        set_variable(&mut told[comp], place, value);
    }
}

/// The machine of a component stands so.
pub(crate) fn put_machine(told: &mut Vec<Told>, comp: usize, place: usize, state: MachineState)
    ensures { map told_now told.new.items ≡ slice_set (map told_now told.old.items) comp (with_machine place state (told_of (map told_now told.old.items) comp)) }
{
    if comp < told.len() {
        set_machine(&mut told[comp], place, state);
    }
}

/// One more transaction of a component is under way.
pub(crate) fn put_wait(
    told: &mut Vec<Told>,
    comp: usize,
    waiting: Outstanding,
) -> Result<(), Memory>
    ensures { OnOk result (map told_now told.new.items ≡ slice_set (map told_now told.old.items) comp (with_wait waiting (told_of (map told_now told.old.items) comp))) }
{
    if comp < told.len() {
        add_wait(&mut told[comp], waiting)
    } else {
        Ok(())
    }
}
