//! Transactions under way.

ghost use Rattle.std.specs.Prelude.{◌≡◌, ◌++◌, [], ◌∷◌, IfOk, OnOk};
ghost use Rattle.eds_machine.specs.Reactions.{is_required as required_at, without as all_without, answers_at as answered_at, answers as answered, ended_at, ended_by};

use eds_act::waits;
use eds_base::{Items, Memory};
use eds_plan::{CompState, ComponentPlan, Outstanding, Transition, Trigger};
use std::alloc::Global;

/// Whether an end is a required one.
pub(crate) fn is_required(component: &ComponentPlan, face: u16) -> bool
    ensures { result ≡ required_at component.now face }
{
    component
        .ends
        .get(usize::from(face))
        .is_some_and(|end| end.required)
}

fn answers_at(
    component: &ComponentPlan,
    waiting: &[Outstanding],
    face: u16,
    member: u16,
    name: Option<u32>,
) -> bool
    ensures { result ≡ answered_at component.now waiting.now face member name }
{
    name.is_none_or(|name| !is_required(component, face) || waits(waiting, face, member, name))
}

/// Whether an event of a transition answers its transaction, if it names one.
pub(crate) fn answers(
    component: &ComponentPlan,
    waiting: &[Outstanding],
    trigger: Trigger,
    name: Option<u32>,
) -> bool
    ensures { result ≡ answered component.now waiting.now trigger name }
{
    match trigger {
        Trigger::Start => true,
        Trigger::Command(face, member) => answers_at(component, waiting, face, member, name),
        Trigger::Param(face, member, _) => answers_at(component, waiting, face, member, name),
        Trigger::Timer(_) => true,
    }
}

// Keeps a transaction, unless it is the one that is over.
fn keep(
    left: &mut Items<Outstanding>,
    one: Outstanding,
    face: u16,
    member: u16,
    name: u32,
) -> Result<(), Memory>
    ensures { OnOk result (left.new ≡ left.old ++ all_without (one ∷ []) face member name) }
{
    if one.face == face && (one.member == member && one.name == name) {
        Ok(())
    } else {
        left.push(one)?;
        Ok(())
    }
}

fn without(
    alloc: Global,
    waiting: &[Outstanding],
    face: u16,
    member: u16,
    name: u32,
) -> Result<Items<Outstanding>, Memory>
    ensures { IfOk result (λ qs. qs ≡ all_without waiting.now face member name) }
{
    let mut left = Items::new(alloc);
    for one in waiting {
        keep(&mut left, *one, face, member, name)?;
    }
    Ok(left)
}

fn settle_at(
    alloc: Global,
    component: &ComponentPlan,
    face: u16,
    member: u16,
    name: Option<u32>,
    state: &mut CompState,
) -> Result<(), Memory>
    ensures variables { state.new.variables ≡ state.old.variables }
    ensures machines { state.new.machines ≡ state.old.machines }
    ensures waiting { OnOk result (state.new.outstanding ≡ ended_at component.now state.old.outstanding face member name) }
{
    match name {
        None => Ok(()),
        Some(name) => {
            if is_required(component, face) {
                state.outstanding = without(
                    alloc,
                    state.outstanding.as_slice(),
                    face,
                    member,
                    name,
                )?;
            }
            Ok(())
        }
    }
}

/// The transaction of a transition that is taken is over.
pub(crate) fn settle(
    alloc: Global,
    component: &ComponentPlan,
    transition: &Transition,
    state: &mut CompState,
) -> Result<(), Memory>
    ensures variables { state.new.variables ≡ state.old.variables }
    ensures machines { state.new.machines ≡ state.old.machines }
    ensures waiting { OnOk result (state.new.outstanding ≡ ended_by component.now state.old.outstanding transition.now.event transition.now.transaction) }
{
    let name = transition.transaction;
    match transition.event {
        Trigger::Start => Ok(()),
        Trigger::Command(face, member) => settle_at(alloc, component, face, member, name, state),
        Trigger::Param(face, member, _) => settle_at(alloc, component, face, member, name, state),
        Trigger::Timer(_) => Ok(()),
    }
}
