//! Values that go to variables.

ghost use Rattle.std.specs.Prelude.{◌≡◌, ℕ, ◌<◌, length, Bool, true, map, List, Option, None, Some, option_map, slice_set, slice_get, IfOk, if◌then◌else◌};
ghost use Rattle.eds_base.specs.declared.ids.TypeId.{TypeId};
ghost use Rattle.eds_types.specs.Plain.{Plain, plain};
ghost use Rattle.eds_plan.specs.Plans.{variable_types};
ghost use Rattle.eds_act.specs.Does.{Item, Conforms, Tells, AllConform, storing, halts, goes};
ghost use Rattle.eds_act.specs.Running.{world, IsKnown, OnHalted, stored};

use crate::ActEnd;
use crate::check::packs;
use crate::event::Event;
use eds_base::TypeId;
use eds_plan::{ComponentPlan, Halt};
use eds_types::{TypeTable, Value};

// The type of a variable.
#[inline(always)]
fn variable_type(comp: &ComponentPlan, at: u16) -> Option<TypeId>
    ensures { option_map (λ (id : TypeId). id.0) result ≡ slice_get (variable_types comp.now) at }
{
    let variable = comp.variables.get(at as usize)?;
    Some(variable.id)
}

/// Puts a value at a place, if it is there.
pub(crate) fn put(variables: &mut Vec<Value>, at: usize, value: Value)
    ensures { map plain variables.new.items ≡ slice_set (map plain variables.old.items) at (plain value) }
{
    if at < variables.len() {
        variables[at] = value;
    }
}

// Puts a value at a place, where it packs as the type.
#[inline(always)]
fn put_as(table: &TypeTable, id: TypeId, variables: &mut Vec<Value>, at: u16, value: Value) -> bool
    requires known { id.0 < length table.now }
    ensures told { (packs : ℕ → Plain → Bool) → Tells table.now packs → packs id.0 (plain value) ≡ result }
    ensures conforms { result ≡ true → Conforms table.now id.0 (plain value) }
    ensures put { map plain variables.new.items ≡ (if result then slice_set (map plain variables.old.items) at (plain value) else map plain variables.old.items) }
{
    if !packs(table, id, &value) {
        return false;
    }
    put(variables, at as usize, value);
    true
}

/// Puts a value into a variable of the component, where it packs.
#[inline(always)]
pub(crate) fn store(
    table: &TypeTable,
    comp: &ComponentPlan,
    event: &mut Event,
    at: u16,
    value: Option<Value>,
) -> ActEnd
    requires known { IsKnown table.now (variable_types comp.now) }
    requires conform { AllConform table.now (variable_types comp.now) (map plain event.old.variables.items) }
    ensures conform { AllConform table.now (variable_types comp.now) (map plain event.new.variables.items) }
    ensures comp { event.new.comp ≡ event.old.comp }
    ensures left { event.new.left ≡ event.old.left }
    ensures kept { OnHalted result (world event.new ≡ world event.old) }
    ensures stored { (packs : ℕ → Plain → Bool) → Tells table.now packs → (next : List Item) → storing packs (slice_get (variable_types comp.now) at) at (option_map plain value) next (world event.old) ≡ stored result next (world event.new) }
{
    match variable_type(comp, at) {
        None => ActEnd::Halted(Halt::OutOfRange),
        Some(id) => match value {
            None => ActEnd::Halted(Halt::OutOfRange),
            Some(value) => {
                if put_as(table, id, &mut event.variables, at, value) {
                    ActEnd::Done
                } else {
                    ActEnd::Halted(Halt::OutOfRange)
                }
            }
        },
    }
}
