//! Instances whose members are shared by ends that use one interface under one map.

ghost use Rattle.std.specs.Prelude.{◌≡◌, [], IfOk, IfSome};
ghost use Rattle.std.specs.Option.{option_copied};
ghost use Rattle.eds_generic.specs.Every.{own_cycles};
ghost use Rattle.eds_generic.specs.Uses.{use_instance};
ghost use Rattle.eds_read_comp.specs.EndPlans.{same_entry as is_same_entry, same_entries as are_same_entries, is_used as is_instance_used, IsWhole};

use eds_base::{Memory, Text, TypeId};
use eds_generic::{Face, FaceUse, instance};
use eds_plan::{EndPlan, Instance, TypeMap, instance_numbers};
use indexmap::IndexMap;
use std::alloc::Global;

/// The number of the end that used an interface last under a map of these types: where to look first, and no more than that.
pub(crate) type LastUses = IndexMap<Vec<u32>, usize>;

/// The number of the end that used last what looks like this, which is used now by the end of a number.
pub(crate) fn last_use(
    alloc: Global,
    last: &mut LastUses,
    used: &FaceUse,
    at: usize,
) -> Result<Option<usize>, Memory> {
    let numbers = instance_numbers(alloc, used.face, used.map.as_slice())?;
    let before = last.insert(numbers, at)?;
    Ok(before)
}

fn same_entry(one: &(Text, TypeId), other: &(Text, TypeId)) -> bool
    ensures { result ≡ is_same_entry one.now other.now }
{
    one.0.as_str() == other.0.as_str() && one.1.0 == other.1.0
}

fn same_entries(one: &[(Text, TypeId)], other: &[(Text, TypeId)]) -> bool
    ensures { result ≡ are_same_entries one.now other.now }
{
    let mut left = one;
    let mut right = other;
    while let [a, after @ ..] = left {
        match right {
            [] => return false,
            [b, behind @ ..] => {
                if !same_entry(a, b) {
                    return false;
                }
                left = after;
                right = behind;
            }
        }
    }
    match right {
        [] => true,
        [_, ..] => false,
    }
}

/// Whether an instance is one of the interface that is used, under the same map.
fn is_used(instance: &Instance, used: &FaceUse) -> bool
    ensures { result ≡ is_instance_used instance.now used.now }
{
    instance.face.0 == used.face.0 && same_entries(instance.map.as_slice(), used.map.as_slice())
}

/// The same instance again, with its members shared.
fn again(instance: &Instance, map: TypeMap) -> Result<Instance, Memory>
    requires { map ≡ instance.now.map }
    ensures { IfOk result (λ i. i ≡ instance.now) }
{
    let members = instance.members.share()?;
    Ok(Instance {
        face: instance.face,
        map,
        members,
    })
}

/// An interface as it is used, with all its members: shared with an earlier end where that uses the same. No interface is its own
/// base.
#[tactic(auto, using(crate::proofs::SharedUses::used_map, crate::proofs::SharedUses::used_one))]
pub(crate) fn instance_after(
    alloc: Global,
    faces: &[Face],
    earlier: Option<&EndPlan>,
    used: FaceUse,
) -> Result<Instance, Memory>
    requires acyclic { own_cycles faces.now ≡ [] }
    requires whole { IfSome (option_copied earlier) (λ e. IsWhole faces.now e.instance) }
    ensures { IfOk result (λ i. i ≡ use_instance faces.now used) }
{
    match earlier {
        None => instance(alloc, faces, &used),
        Some(end) => {
            if is_used(&end.instance, &used) {
                again(&end.instance, used.map)
            } else {
                instance(alloc, faces, &used)
            }
        }
    }
}
