//! All components.

ghost use Rattle.std.specs.Prelude.{◌≡◌, ◌<◌, length};
ghost use Rattle.eds_plan.specs.Plans.{component_at, machine_at};

use crate::{ComponentPlan, Machine, Trigger};
use eds_base::{CompId, Items, Memory};
use std::alloc::Global;
use std::marker::Model;

/// The components of a sheet, in document order. Contracts see them as a list.
#[derive(Drop)]
pub struct Plan {
    components: Items<ComponentPlan>,
}

impl Model for Plan {
    ghost use Rattle.std.specs.Prelude.{List};
    ghost use Rattle.eds_plan.specs.declared.component.ComponentPlan.{ComponentPlan};
    ghost use Rattle.eds_types.specs.contracts.value.Value as value;
    ghost use Rattle.eds_plan.specs.contracts.activity.Guard as guard;
    ghost use Rattle.eds_plan.specs.contracts.activity.Statement as statement;
    ghost use Rattle.std.specs.Coded.{codes};

    ghost Value = { List ComponentPlan };

    ghost coded = { Prim.hlevel (codes, value.the_row.coded, guard.the_row.coded, statement.the_row.coded) };

    ghost view = { λ o. o.components };
}

// The component of a number.
fn component_of(components: &[ComponentPlan], comp: CompId) -> &ComponentPlan
    requires { comp.0 < length components.now }
    ensures { result.now ≡ component_at components.now comp.0 }
{
    &components[comp.0 as usize]
}

// The machine of a number.
fn machine_of(component: &ComponentPlan, machine: u16) -> &Machine
    requires { machine < length component.now.machines }
    ensures { result.now ≡ machine_at component.now machine }
{
    &component.machines.as_slice()[machine as usize]
}

impl Plan {
    ghost use Rattle.std.specs.Prelude.{◌≡◌, ◌<◌, ◌++◌, [], ◌∷◌, length, slice_get, OnOk, OnErr};
    ghost use Rattle.std.specs.Option.{option_copied};
    ghost use Rattle.eds_plan.specs.Matching.{matching as matching_of};
    ghost use Rattle.eds_plan.specs.Plans.{component_at, machine_at};

    /// No components.
    pub fn new(alloc: Global) -> Plan
        ensures { result ≡ [] }
    {
        Plan {
            components: Items::new(alloc),
        }
    }

    /// Puts a component last. Where memory is refused, nothing changes.
    pub fn push(&mut self, component: ComponentPlan) -> Result<(), Memory>
        ensures ok { OnOk result (self.new ≡ self.old ++ component ∷ []) }
        ensures err { OnErr result (self.new ≡ self.old) }
    {
        self.components.push(component)
    }

    /// How many components there are.
    pub fn len(&self) -> usize
        ensures { result ≡ length self.now }
    {
        self.components.len()
    }

    /// The component at a position from 0, None exactly past the end.
    pub fn get(&self, i: usize) -> Option<&ComponentPlan>
        ensures { option_copied result ≡ slice_get self.now i }
    {
        self.components.get(i)
    }

    /// All of them.
    pub fn as_slice(&self) -> &[ComponentPlan]
        ensures { result.now ≡ self.now }
    {
        self.components.as_slice()
    }

    /// The component of a number.
    pub fn component(&self, comp: CompId) -> &ComponentPlan
        requires { comp.0 < length self.now }
        ensures { result.now ≡ component_at self.now comp.0 }
    {
        component_of(self.components.as_slice(), comp)
    }

    /// The positions of exactly those transitions of a machine that leave the state and wait for the trigger, in document
    /// order.
    pub fn matching(&self, comp: CompId, machine: u16, state: u16, trigger: Trigger) -> &[u16]
        requires component { comp.0 < length self.now }
        requires machine { machine < length (component_at self.now comp.0).machines }
        ensures { result.now ≡ matching_of state trigger (machine_at (component_at self.now comp.0) machine).transitions }
    {
        let component = component_of(self.components.as_slice(), comp);
        machine_of(component, machine)
            .transitions
            .matching(state, trigger)
    }
}
