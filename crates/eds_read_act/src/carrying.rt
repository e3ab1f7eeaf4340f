//! What the members of ends carry.

ghost use Rattle.std.specs.Prelude.{◌≡◌, ◌++◌, ◌∷◌, [], IfOk, IfSome, OnOk, map};
ghost use Rattle.eds_plan.specs.Carried.{goes as goes_in, carried_fields, leaving as leaving_at, arriving as arriving_at};
ghost use Rattle.eds_read_act.specs.Carrying.{member_fields as member_carries, end_fields as end_carries, same_mode as is_same_mode, same_argument as is_same_argument, same_arguments as are_same_arguments, carry_alike as do_carry_alike, all_carry_alike as do_all_carry_alike, ends_carry_alike as do_ends_carry_alike, same_side as is_same_side, alike_number as alike_number_of};
ghost use Rattle.eds_read_act.specs.Numbered.{at_number};

use crate::fields::Fields;
use eds_base::{Items, Memory, Text};
use eds_plan::{Argument, EndPlan, FieldList, Member, Mode, SharedItems, Way, instance_numbers};
use indexmap::IndexMap;
use std::alloc::Global;

fn goes(way: Way, mode: Mode) -> bool
    ensures { result ≡ goes_in way mode }
{
    match way {
        Way::Down => match mode {
            Mode::In | Mode::InOut => true,
            Mode::Out | Mode::Notify => false,
        },
        Way::Up => match mode {
            Mode::In => false,
            Mode::Out | Mode::InOut | Mode::Notify => true,
        },
    }
}

/// The way in which an end sends.
pub(crate) fn leaving(required: bool) -> Way
    ensures { result ≡ leaving_at required }
{
    if required { Way::Down } else { Way::Up }
}

// The way in which what is sent arrives at an end.
fn arriving(required: bool) -> Way
    ensures { result ≡ arriving_at required }
{
    if required { Way::Up } else { Way::Down }
}

/// The arguments that go a way.
pub(crate) fn carried(alloc: Global, way: Way, arguments: &[Argument]) -> Result<FieldList, Memory>
    ensures { IfOk result (λ fs. fs ≡ carried_fields way arguments.now) }
{
    let mut fields = Items::new(alloc);
    for argument in arguments {
        if goes(way, argument.mode) {
            let name = Text::of(alloc, argument.name.as_str())?;
            fields.push((name, argument.id))?;
        }
    }
    Ok(fields)
}

fn member_fields(alloc: Global, way: Way, member: &Member) -> Result<Fields, Memory>
    ensures { IfOk result (λ fs. fs ≡ member_carries way member.now) }
{
    match member {
        Member::Parameter(_, _, _) => Fields::of(alloc, Items::new(alloc)),
        Member::Command(_, arguments) => {
            let fields = carried(alloc, way, arguments.as_slice())?;
            Fields::of(alloc, fields)
        }
    }
}

fn end_fields(alloc: Global, way: Way, members: &[Member]) -> Result<Items<Fields>, Memory>
    ensures { IfOk result (λ fs. fs ≡ map (member_carries way) members.now) }
{
    let mut all = Items::new(alloc);
    for member in members {
        let fields = member_fields(alloc, way, member)?;
        all.push(fields)?;
    }
    Ok(all)
}

fn sent_at_end(alloc: Global, end: &EndPlan) -> Result<Items<Fields>, Memory>
    ensures { IfOk result (λ fs. fs ≡ end_carries leaving_at end.now) }
{
    let way = leaving(end.required);
    end_fields(alloc, way, end.instance.members.as_slice())
}

fn received_at_end(alloc: Global, end: &EndPlan) -> Result<Items<Fields>, Memory>
    ensures { IfOk result (λ fs. fs ≡ end_carries arriving_at end.now) }
{
    let way = arriving(end.required);
    end_fields(alloc, way, end.instance.members.as_slice())
}

// ---- ends that carry the same

fn same_mode(one: Mode, other: Mode) -> bool
    ensures { result ≡ is_same_mode one other }
{
    match one {
        Mode::In => match other {
            Mode::In => true,
            _ => false,
        },
        Mode::Out => match other {
            Mode::Out => true,
            _ => false,
        },
        Mode::InOut => match other {
            Mode::InOut => true,
            _ => false,
        },
        Mode::Notify => match other {
            Mode::Notify => true,
            _ => false,
        },
    }
}

fn same_argument(one: &Argument, other: &Argument) -> bool
    ensures { result ≡ is_same_argument one.now other.now }
{
    one.name.as_str() == other.name.as_str()
        && one.id.0 == other.id.0
        && same_mode(one.mode, other.mode)
}

fn same_arguments(one: &[Argument], other: &[Argument]) -> bool
    ensures { result ≡ are_same_arguments one.now other.now }
{
    let mut left = one;
    let mut right = other;
    while let [a, after @ ..] = left {
        match right {
            [] => return false,
            [b, behind @ ..] => {
                if !same_argument(a, b) {
                    return false;
                }
                left = after;
                right = behind;
            }
        }
    }
    match right {
        [] => true,
        [_, ..] => false,
    }
}

/// Whether two members carry the same: both are parameters, or commands with the same arguments.
fn carry_alike(one: &Member, other: &Member) -> bool
    ensures { result ≡ do_carry_alike one.now other.now }
{
    match one {
        Member::Parameter(_, _, _) => match other {
            Member::Parameter(_, _, _) => true,
            Member::Command(_, _) => false,
        },
        Member::Command(_, arguments) => match other {
            Member::Parameter(_, _, _) => false,
            Member::Command(_, others) => same_arguments(arguments.as_slice(), others.as_slice()),
        },
    }
}

fn all_carry_alike(one: &[Member], other: &[Member]) -> bool
    ensures { result ≡ do_all_carry_alike one.now other.now }
{
    let mut left = one;
    let mut right = other;
    while let [a, after @ ..] = left {
        match right {
            [] => return false,
            [b, behind @ ..] => {
                if !carry_alike(a, b) {
                    return false;
                }
                left = after;
                right = behind;
            }
        }
    }
    match right {
        [] => true,
        [_, ..] => false,
    }
}

fn same_side(one: bool, other: bool) -> bool
    ensures { result ≡ is_same_side one other }
{
    if one { other } else { !other }
}

/// Whether two ends are both required or both provided, and their members carry the same.
fn ends_carry_alike(one: &EndPlan, other: &EndPlan) -> bool
    ensures { result ≡ do_ends_carry_alike one.now other.now }
{
    same_side(one.required, other.required)
        && all_carry_alike(
            one.instance.members.as_slice(),
            other.instance.members.as_slice(),
        )
}

/// The number, where the end of that number carries the same as this one.
fn alike_number(ends: &[EndPlan], number: Option<usize>, end: &EndPlan) -> Option<usize>
    ensures { result ≡ alike_number_of ends.now end.now number }
{
    let number = number?;
    let earlier = ends.get(number)?;
    if ends_carry_alike(earlier, end) {
        Some(number)
    } else {
        None
    }
}

/// The number of the last end before this one on the same side and with such an interface and such types: where to look first, and
/// no more than that.
fn last_end(
    alloc: Global,
    last: &mut IndexMap<Vec<u32>, usize>,
    end: &EndPlan,
    at: usize,
) -> Result<Option<usize>, Memory> {
    let instance = &end.instance;
    let mut numbers = instance_numbers(alloc, instance.face, instance.map.as_slice())?;
    numbers.push(u32::from(end.required))?;
    let before = last.insert(numbers, at)?;
    Ok(before)
}

// ---- all ends

/// What each member of each end carries where the end sends, and where it receives. Ends that carry the same share it.
#[derive(Drop)]
pub(crate) struct AllFields {
    pub(crate) sent: Items<SharedItems<Fields>>,
    pub(crate) received: Items<SharedItems<Fields>>,
}

/// What stands at the number, shared, if there is one.
fn shared_at(
    made: &Items<SharedItems<Fields>>,
    number: Option<usize>,
) -> Result<Option<SharedItems<Fields>>, Memory>
    ensures { IfOk result (λ o. o ≡ at_number made.now number) }
{
    match number {
        None => Ok(None),
        Some(number) => match made.get(number) {
            None => Ok(None),
            Some(fields) => Ok(Some(fields.share()?)),
        },
    }
}

/// What an end sends, shared with the end of the number if one is given.
fn sent_after(
    alloc: Global,
    made: &Items<SharedItems<Fields>>,
    alike: Option<usize>,
    end: &EndPlan,
) -> Result<SharedItems<Fields>, Memory>
    requires { IfSome (at_number made.now alike) (λ fs. fs ≡ end_carries leaving_at end.now) }
    ensures { IfOk result (λ fs. fs ≡ end_carries leaving_at end.now) }
{
    match shared_at(made, alike)? {
        Some(fields) => Ok(fields),
        None => {
            let fields = sent_at_end(alloc, end)?;
            SharedItems::new(alloc, fields)
        }
    }
}

/// What an end receives, shared with the end of the number if one is given.
fn received_after(
    alloc: Global,
    made: &Items<SharedItems<Fields>>,
    alike: Option<usize>,
    end: &EndPlan,
) -> Result<SharedItems<Fields>, Memory>
    requires { IfSome (at_number made.now alike) (λ fs. fs ≡ end_carries arriving_at end.now) }
    ensures { IfOk result (λ fs. fs ≡ end_carries arriving_at end.now) }
{
    match shared_at(made, alike)? {
        Some(fields) => Ok(fields),
        None => {
            let fields = received_at_end(alloc, end)?;
            SharedItems::new(alloc, fields)
        }
    }
}

fn push_end(
    alloc: Global,
    carried: &mut AllFields,
    alike: Option<usize>,
    end: &EndPlan,
) -> Result<(), Memory>
    requires sent { IfSome (at_number carried.old.sent alike) (λ fs. fs ≡ end_carries leaving_at end.now) }
    requires received { IfSome (at_number carried.old.received alike) (λ fs. fs ≡ end_carries arriving_at end.now) }
    ensures sent { OnOk result (carried.new.sent ≡ carried.old.sent ++ end_carries leaving_at end.now ∷ []) }
    ensures received { OnOk result (carried.new.received ≡ carried.old.received ++ end_carries arriving_at end.now ∷ []) }
{
    let sent = sent_after(alloc, &carried.sent, alike, end)?;
    let received = received_after(alloc, &carried.received, alike, end)?;
    carried.sent.push(sent)?;
    carried.received.push(received)?;
    Ok(())
}

/// What each member of each end carries where the end sends, and where it receives.
pub(crate) fn carried_at_ends(alloc: Global, ends: &[EndPlan]) -> Result<AllFields, Memory>
    ensures sent { IfOk result (λ c. c.sent ≡ map (end_carries leaving_at) ends.now) }
    ensures received { IfOk result (λ c. c.received ≡ map (end_carries arriving_at) ends.now) }
{
    let mut carried = AllFields {
        sent: Items::new(alloc),
        received: Items::new(alloc),
    };
    let mut last = IndexMap::new(alloc);
    for end in ends {
        let earlier = last_end(alloc, &mut last, end, carried.sent.len())?;
        let alike = alike_number(ends, earlier, end);
        push_end(alloc, &mut carried, alike, end)?;
    }
    Ok(carried)
}
