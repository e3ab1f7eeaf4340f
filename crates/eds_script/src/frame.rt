//! Frames that leave a run.

ghost use Rattle.std.specs.Prelude.{◌≡◌, IfOk, IfSome, codes, option_map, string_bytes};
ghost use Rattle.eds_plan.specs.Carried.{carried_fields as carried_of};
ghost use Rattle.eds_plan.specs.Ends.{end_at as end_in};
ghost use Rattle.eds_plan.specs.Outs.{report, signal};
ghost use Rattle.eds_plan.specs.declared.component.Level.TheVariants as level_is;
ghost use Rattle.eds_script.specs.Events.{frame_type as type_of_frame, front as front_text};
ghost use Rattle.eds_script.specs.Frames.{command_framed, frame_in, framed, member_framed, sent_framed, some_carried};
ghost use Rattle.eds_script.specs.Names.{member_at, text_of_end as text_in};
ghost use Rattle.eds_script.specs.Places.{place_text};

use crate::members::goes;
use crate::names::{Place, end_at, member_in, place_of_end, push_place};
use crate::print::value_at;
use eds_base::TypeId;
use eds_plan::{Argument, EndPlan, Level, Member, Out, Plan, Primitive, Way};
use eds_types::Value;
use itoa::Buffer;
use std::alloc::{AllocError, Global};

/// When and where something happens: the time in nanoseconds, and an end and the name of its member, or a component and the
/// name of its machine.
#[derive(Clone, Copy)]
pub(crate) struct Spot<'a> {
    pub(crate) time: u64,
    pub(crate) place: Place<'a>,
    pub(crate) name: &'a str,
}

/// A command that leaves a run as a frame: the type of the one argument that it carries, and the argument's value.
#[derive(Clone, Copy)]
pub struct Frame<'a> {
    pub(crate) spot: Spot<'a>,
    pub id: TypeId,
    pub value: &'a Value,
}

/// The octets for which a line has room at first: few lines are longer.
const LINE_ROOM: usize = 96;

/// `T WORD PLACE NAME`.
#[tactic(auto, unfolding(crate::specs::Events::front))]
pub(crate) fn front(alloc: Global, spot: &Spot<'_>, word: &str) -> Result<String, AllocError>
    ensures { IfOk result (λ s. string_bytes s ≡ front_text spot.now.time word.now (place_text spot.now.place) spot.now.name.now) }
{
    let mut number = Buffer::new();
    let mut text = String::with_capacity(alloc, LINE_ROOM)?;
    text.push_str(number.format(spot.time))?;
    text.push_str(" ")?;
    text.push_str(word)?;
    text.push_str(" ")?;
    push_place(&mut text, spot.place)?;
    text.push_str(" ")?;
    text.push_str(spot.name)?;
    Ok(text)
}

impl Frame<'_> {
    ghost use Rattle.std.specs.Prelude.{◌≡◌, IfOk, string_bytes};
    ghost use Rattle.eds_script.specs.Frames.{framed};

    /// What the line of the frame begins with, up to the space in front of the hex: `T frame END COMMAND`.
    pub fn head(&self, alloc: Global) -> Result<String, AllocError>
        ensures { IfOk result (λ s. string_bytes s ≡ (framed self.now).head) }
    {
        front(alloc, &self.spot, "frame")
    }
}

// ---- the type of the one argument

// Whether any argument goes that way.
fn any_goes(way: Way, arguments: &[Argument]) -> bool
    ensures { result ≡ some_carried way arguments.now }
{
    let mut rest = arguments;
    while let [argument, after @ ..] = rest {
        if goes(way, argument.mode) {
            return true;
        }
        rest = after;
    }
    false
}

// The type of the only argument that goes that way.
fn only_type(way: Way, arguments: &[Argument]) -> Option<TypeId>
    ensures { result ≡ type_of_frame level_is.Subnetwork (carried_of way arguments.now) }
{
    let mut rest = arguments;
    while let [argument, after @ ..] = rest {
        if goes(way, argument.mode) {
            return if any_goes(way, after) {
                None
            } else {
                Some(argument.id)
            };
        }
        rest = after;
    }
    None
}

// The type of the argument that is written as a frame.
fn frame_type(level: Level, way: Way, arguments: &[Argument]) -> Option<TypeId>
    ensures { result ≡ type_of_frame level (carried_of way arguments.now) }
{
    match level {
        Level::Subnetwork => only_type(way, arguments),
        Level::Access => None,
        Level::Functional => None,
        Level::Application => None,
    }
}

// ---- what is sent

/// A command that is sent, where it is a frame.
pub(crate) fn command_frame<'a>(
    spot: Spot<'a>,
    level: Level,
    arguments: &[Argument],
    primitive: &'a Primitive,
) -> Option<Frame<'a>>
    ensures { option_map framed result ≡ command_framed spot.entry.time (place_text spot.entry.place) level (signal primitive.now) spot.entry.name.now arguments.now }
{
    let id = frame_type(level, primitive.way, arguments)?;
    let value = value_at(primitive.arguments.as_slice(), 0)?;
    Some(Frame { spot, id, value })
}

/// What the plan has of the end and member of a primitive, which are there.
pub(crate) fn sent_at<'a>(
    plan: &'a Plan,
    primitive: &Primitive,
) -> Option<(&'a EndPlan, &'a Member)>
    ensures member { option_map (λ p. p.1.now) result ≡ member_at plan.now primitive.now.end primitive.now.member }
    ensures end { IfSome result (λ p. end_in plan.now primitive.now.end ≡ Some p.0.now) }
{
    let end = end_at(plan, primitive.end)?;
    let member = member_in(end, primitive.member)?;
    Some((end, member))
}

// What is sent for a member of an end, where it is a frame.
fn member_frame<'a>(
    time: u64,
    place: Place<'a>,
    level: Level,
    member: &'a Member,
    primitive: &'a Primitive,
) -> Option<Frame<'a>>
    ensures { option_map framed result ≡ member_framed time (place_text place.entry) level (signal primitive.now) (Some member.now) }
{
    match member {
        Member::Parameter(_, _, _) => None,
        Member::Command(name, arguments) => {
            let spot = Spot {
                time,
                place,
                name: name.as_str(),
            };
            command_frame(spot, level, arguments.as_slice(), primitive)
        }
    }
}

// What is sent, where it is a frame.
fn sent_frame<'a>(plan: &'a Plan, time: u64, primitive: &'a Primitive) -> Option<Frame<'a>>
    ensures { option_map framed result ≡ sent_framed time (text_in plan.now primitive.now.end) (signal primitive.now) (end_in plan.now primitive.now.end) }
{
    let (end, member) = sent_at(plan, primitive)?;
    let place = place_of_end(plan, primitive.end);
    member_frame(time, place, end.level, member, primitive)
}

/// What leaves a run, where it is written as a frame: a command that carries exactly one argument in its way, at an end of the
/// level `subnetwork`. The line that `print_event` makes of it is its head, a space, and the hex of the argument's canonical bits.
pub fn frame_of<'a>(plan: &'a Plan, event: &'a Out) -> Option<Frame<'a>>
    ensures { option_map framed result ≡ frame_in plan.now (report event.now) }
{
    match event {
        Out::Sent(time, primitive) => sent_frame(plan, *time, primitive),
        Out::Halted(_, _, _, _) => None,
        Out::Reject(_, _, _, _) => None,
    }
}
