//! The bodies of activities.

ghost use Rattle.std.specs.Prelude.{◌≡◌, IfOk};
ghost use Rattle.eds_fits.specs.Deciding.{argument_ids as argument_ids_of, body_fits as body_fits_in, bodies_fit as bodies_fit_in};

use crate::machine::Whole;
use crate::operand::Scope;
use crate::statement::{Body, rank_of, statements_fit};
use eds_base::{Memory, Text, TypeId};
use eds_plan::Activity;
use std::alloc::Global;

fn argument_ids(alloc: Global, arguments: &[(Text, TypeId)]) -> Result<Vec<TypeId>, Memory>
    ensures { IfOk result (λ ids. ids.items ≡ argument_ids_of arguments.now) }
{
    let mut ids = Vec::new(alloc);
    for (_, id) in arguments {
        ids.push(*id)?;
    }
    Ok(ids)
}

fn body_fits(
    alloc: Global,
    whole: &Whole,
    ranks: &[usize],
    number: usize,
    activity: &Activity,
) -> Result<bool, Memory>
    ensures { IfOk result (λ b. b ≡ body_fits_in whole.now.table.now whole.now.component.now ranks.now number activity.now) }
{
    let ids = argument_ids(alloc, activity.arguments.as_slice())?;
    let body = Body {
        scope: Scope {
            table: whole.table,
            component: whole.component,
            arguments: ids.as_slice(),
        },
        ranks,
        own: rank_of(ranks, number),
    };
    Ok(statements_fit(activity.body.as_slice(), &body))
}

/// Whether the bodies of activities fit, and calls lead down by their ranks.
pub(crate) fn bodies_fit(
    alloc: Global,
    whole: &Whole,
    ranks: &[usize],
    activities: &[Activity],
) -> Result<bool, Memory>
    ensures { IfOk result (λ b. b ≡ bodies_fit_in whole.now.table.now whole.now.component.now ranks.now 0 activities.now) }
{
    for (number, activity) in activities.iter().enumerate() {
        if !body_fits(alloc, whole, ranks, number, activity)? {
            return Ok(false);
        }
    }
    Ok(true)
}
