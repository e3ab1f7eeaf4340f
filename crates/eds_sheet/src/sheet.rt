//! A sheet compiled.

ghost use Rattle.std.specs.Prelude.{◌≡◌, ◌≤◌, ◌<◌, ◌^◌, length, count_by, option_map, is_some, IfOk, IfSome};
ghost use Rattle.std.specs.List.{All};
ghost use Rattle.eds_base.specs.Answering.{Answers};
ghost use Rattle.eds_types.specs.Overlap.{IsClear};
ghost use Rattle.eds_types.specs.Rules.{IsHollow};
ghost use Rattle.eds_overlap.specs.Used.{HasAllNamed};
ghost use Rattle.eds_plan.specs.Arguments.{ArgumentsAreUsed};
ghost use Rattle.eds_read_comp.specs.Plans.{seen_plan};
ghost use Rattle.eds_read_comp.specs.Together.{HoldsTogether};
ghost use Rattle.eds_sheet.specs.Compiled.{is_container as container, counts_of as counted, compiled, plan_of, seen_sheet, with_plan};
ghost use Rattle.eds_sheet.specs.Firsts.{WhereFirstsAreTold};
ghost use Rattle.eds_sheet.specs.Overlaps.{AreClear};

use crate::files::Files;
use crate::judged::{Judged, judge};
use eds_base::{Fail, Memory, Refusal, TypeId};
use eds_names::Space;
use eds_plan::Plan;
use eds_read_comp::read_components;
use eds_read_types::SheetTypes;
use eds_types::{Kind, TypeRow, TypeTable, Used};
use std::alloc::Global;

/// How many types, containers among them, interfaces and components a sheet declares.
#[derive(Clone, Copy, PartialEq, Eq)]
pub struct Counts {
    pub types: u32,
    pub containers: u32,
    pub interfaces: u32,
    pub components: u32,
}

/// A sheet: the table of its types, the plan of its components, the types that are used, the type that the TYPE word names, where
/// there is a TYPE word, and how many there are of what it declares.
#[derive(Drop)]
pub struct Sheet {
    pub table: TypeTable,
    pub plan: Plan,
    /// The types that a part, an array, the TYPE word, a parameter, an argument, a variable or a map names. An open binary is none
    /// of them.
    pub used: Used,
    pub asked_type: Option<TypeId>,
    pub counts: Counts,
}

fn is_container(row: &TypeRow) -> bool
    ensures { result ≡ container row.now }
{
    match &row.kind {
        Kind::Con(_) => true,
        _ => false,
    }
}

fn count_containers(table: &TypeTable) -> u32
    ensures { result ≡ count_by container table.now }
{
    let mut count = 0u32;
    for i in 0..table.len() {
        if is_container(table.row(TypeId(i))) {
            count += 1;
        }
    }
    count
}

// A number as one of 32 bits; where it has more no memory is found.
fn narrow(count: usize) -> Result<u32, Memory>
    ensures { IfOk result (λ n. n ≡ count) }
{
    if count > u32::MAX as usize {
        return Err(Memory);
    }
    Ok(count as u32)
}

fn counts_of(space: &Space, typed: &SheetTypes) -> Result<Counts, Memory>
    ensures { IfOk result (λ c. c ≡ counted space.now typed.now) }
{
    Ok(Counts {
        types: narrow(space.types())?,
        containers: count_containers(&typed.table),
        interfaces: narrow(space.faces())?,
        components: narrow(space.comps())?,
    })
}

// The plan of the components of what was judged, or the first rule that its interfaces and components break.
fn planned(alloc: Global, judged: &Judged) -> Result<Plan, Fail<Refusal>>
    ensures plan { WhereFirstsAreTold (λ firsts. Answers seen_plan result (plan_of firsts judged.now)) }
    ensures together { IfOk result (λ p. HoldsTogether judged.now.typed.table p) }
{
    judged.typed.table.keeps_rules();
    read_components(alloc, &judged.trees, &judged.space, &judged.typed.table)
}

// The sheet of what was judged, or the first rule that its interfaces and components break.
fn sheet_of(alloc: Global, judged: Judged) -> Result<Sheet, Fail<Refusal>>
    ensures sheet { WhereFirstsAreTold (λ firsts. Answers seen_sheet result (with_plan firsts judged)) }
    ensures together { IfOk result (λ s. HoldsTogether s.table s.plan) }
    ensures table { IfOk result (λ s. s.table ≡ judged.typed.table) }
    ensures used { IfOk result (λ s. s.used ≡ judged.typed.used) }
    ensures asked_type { IfOk result (λ s. s.asked_type ≡ judged.typed.asked_type) }
{
    let plan = planned(alloc, &judged)?;
    let counts = counts_of(&judged.space, &judged.typed)?;
    let Judged { typed, .. } = judged;
    let SheetTypes {
        table,
        used,
        asked_type,
    } = typed;
    Ok(Sheet {
        table,
        plan,
        used,
        asked_type,
        counts,
    })
}

/// Compiles the files of a sheet: their types, the plan of their components, the type that a further word names, looked up from
/// the root, and how many items they declare. A sheet that breaks a rule is refused for the first that it breaks: the rules are
/// judged in their phases, within a phase by place and then by number. A file that is no element tree hides all other rules.
#[tactic(auto, unfolding(crate::specs::Compiled::compiled))]
pub fn compile(alloc: Global, files: &Files, extra: Option<&str>) -> Result<Sheet, Fail<Refusal>>
    requires few { length files.now ≤ 64 }
    requires short { All (λ octets. length octets < 2 ^ 32) files.now }
    ensures sheet { WhereFirstsAreTold (λ firsts. Answers seen_sheet result (compiled firsts files.now (option_map (λ w. w.now) extra.entry))) }
    ensures together { IfOk result (λ s. HoldsTogether s.table s.plan) }
    ensures word { IfOk result (λ s. IfSome s.asked_type (λ id. id.0 < length s.table)) }
    ensures asked { IfOk result (λ s. is_some s.asked_type ≡ is_some extra.entry) }
    ensures clear { IfOk result (λ s. IfSome s.asked_type (λ id. IsClear s.table id.0)) }
    ensures solid { IfOk result (λ s. IfSome s.asked_type (λ id. ¬ (IsHollow s.table id.0))) }
    ensures named { IfOk result (λ s. HasAllNamed s.table s.used) }
    ensures used { IfOk result (λ s. AreClear s.table s.used) }
    ensures arguments { IfOk result (λ s. ArgumentsAreUsed s.table s.used s.plan) }
{
    let judged = judge(alloc, files, extra)?;
    sheet_of(alloc, judged)
}
