//! The files of a sheet, judged by the rules up to that on containers that overlap.

ghost use Rattle.std.specs.Prelude.{◌≡◌, ◌≤◌, ◌<◌, ◌^◌, length, option_map, is_some, IfOk, IfSome};
ghost use Rattle.std.specs.List.{All};
ghost use Rattle.eds_base.specs.Answering.{Answers};
ghost use Rattle.eds_types.specs.Overlap.{IsClear};
ghost use Rattle.eds_types.specs.Rules.{IsHollow};
ghost use Rattle.eds_overlap.specs.Used.{HasAllNamed};
ghost use Rattle.eds_sheet.specs.Compiled.{judged_files};
ghost use Rattle.eds_sheet.specs.Overlaps.{AreClear};

use crate::files::{Files, read_trees};
use crate::overlaps::check_overlaps;
use eds_base::{Fail, Refusal};
use eds_names::Space;
use eds_read_types::{SheetTypes, read_types};
use eds_tree::{Trees, shape_check};
use std::alloc::Global;

/// The element trees of a sheet, its names and its types.
#[derive(Drop)]
pub(crate) struct Judged {
    pub(crate) trees: Trees,
    pub(crate) space: Space,
    pub(crate) typed: SheetTypes,
}

// The trees, names and types of some files, or the first rule that these break.
#[tactic(auto, unfolding(crate::specs::Compiled::judged_files))]
fn judged_types(alloc: Global, files: &Files, extra: Option<&str>) -> Result<Judged, Fail<Refusal>>
    requires few { length files.now ≤ 64 }
    requires short { All (λ octets. length octets < 2 ^ 32) files.now }
    ensures judged { Answers (λ j. j) result (judged_files files.now (option_map (λ w. w.now) extra.entry)) }
    ensures word { IfOk result (λ j. IfSome j.typed.asked_type (λ id. id.0 < length j.typed.table)) }
    ensures asked { IfOk result (λ j. is_some j.typed.asked_type ≡ is_some extra.entry) }
{
    let trees = read_trees(alloc, files)?;
    shape_check(alloc, &trees)?;
    let space = Space::build(alloc, &trees)?;
    let typed = read_types(alloc, &trees, &space, extra)?;
    check_overlaps(alloc, &space, &typed)?;
    Ok(Judged {
        trees,
        space,
        typed,
    })
}

/// The trees, names and types of some files, or the first rule that these break: of those on files, elements, names, references
/// and types, and on containers that overlap.
pub(crate) fn judge(
    alloc: Global,
    files: &Files,
    extra: Option<&str>,
) -> Result<Judged, Fail<Refusal>>
    requires few { length files.now ≤ 64 }
    requires short { All (λ octets. length octets < 2 ^ 32) files.now }
    ensures judged { Answers (λ j. j) result (judged_files files.now (option_map (λ w. w.now) extra.entry)) }
    ensures word { IfOk result (λ j. IfSome j.typed.asked_type (λ id. id.0 < length j.typed.table)) }
    ensures asked { IfOk result (λ j. is_some j.typed.asked_type ≡ is_some extra.entry) }
    ensures clear { IfOk result (λ j. IfSome j.typed.asked_type (λ id. IsClear j.typed.table id.0)) }
    ensures solid { IfOk result (λ j. IfSome j.typed.asked_type (λ id. ¬ (IsHollow j.typed.table id.0))) }
    ensures named { IfOk result (λ j. HasAllNamed j.typed.table j.typed.used) }
    ensures used { IfOk result (λ j. AreClear j.typed.table j.typed.used) }
{
    judged_types(alloc, files, extra)
}
