//! Whole components and plans.

ghost use Rattle.std.specs.Prelude.{◌≡◌, true, IfOk};
ghost use Rattle.eds_plan.specs.Fitting.{ComponentFits};
ghost use Rattle.eds_fits.specs.Deciding.{does_fitting as does_fitting_in, component_fits as component_fits_in, ranks_of as ranks_in, plan_fits};
ghost use Rattle.eds_fits.specs.Fitting.{Conforms, ComponentsFit};

use crate::activity::bodies_fit;
use crate::component::declares_known;
use crate::machine::{Whole, machines_fit};
use crate::rank::ranks_of;
use eds_base::Memory;
use eds_plan::ComponentPlan;
use eds_types::TypeTable;
use std::alloc::Global;

fn does_fitting(alloc: Global, whole: &Whole, ranks: &[usize]) -> Result<bool, Memory>
    ensures { IfOk result (λ b. b ≡ does_fitting_in whole.now.table.now whole.now.component.now ranks.now) }
{
    let bodies = bodies_fit(alloc, whole, ranks, whole.component.activities.as_slice())?;
    let machines = machines_fit(alloc, whole, whole.component.machines.as_slice())?;
    Ok(bodies && (whole.component.machines.len() <= 16 && machines))
}

fn fits_by(alloc: Global, whole: &Whole, ranks: &[usize]) -> Result<bool, Memory>
    ensures { IfOk result (λ b. b ≡ component_fits_in whole.now.table.now whole.now.component.now ranks.now) }
{
    let does = does_fitting(alloc, whole, ranks)?;
    Ok(declares_known(whole) && does)
}

fn component_fits(
    alloc: Global,
    table: &TypeTable,
    component: &ComponentPlan,
) -> Result<bool, Memory>
    ensures told { IfOk result (λ b. b ≡ component_fits_in table.now component.now (ranks_in component.now.activities)) }
    ensures fits { IfOk result (λ b. b ≡ true → ComponentFits table.now (Conforms table.now) component.now) }
{
    table.keeps_rules();
    let ranks = ranks_of(alloc, component.activities.as_slice())?;
    fits_by(alloc, &Whole { table, component }, ranks.as_slice())
}

/// Whether there are at most 64 components, and each fits the table: what variables start with packs, what is named is there,
/// operands fit what takes them, calls of activities go in no circle, and machines begin and lead to states that are there.
pub fn components_fit(
    alloc: Global,
    table: &TypeTable,
    components: &[ComponentPlan],
) -> Result<bool, Memory>
    ensures told { IfOk result (λ b. b ≡ plan_fits table.now components.now) }
    ensures fits { IfOk result (λ b. b ≡ true → ComponentsFit table.now components.now) }
{
    if components.len() > 64 {
        return Ok(false);
    }
    for component in components {
        if !component_fits(alloc, table, component)? {
            return Ok(false);
        }
    }
    Ok(true)
}
