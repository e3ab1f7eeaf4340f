//! Laws of sheets.

ghost use Rattle.std.specs.Prelude.{◌≡◌, ◌↔◌, [], Err, Some, IsOk, option_map};
ghost use Rattle.eds_base.specs.declared.refusal.Refusal.{Refusal};
ghost use Rattle.eds_base.specs.Refusals.{least};
ghost use Rattle.eds_sheet.specs.Compiled.{all_breaks, compiled};
ghost use Rattle.eds_sheet.specs.Firsts.{Firsts};
ghost use Rattle.eds_sheet.specs.Laws.{FirstsAreTold, SheetsAreSound, UsedTypesAreClear};

use crate::Files;

/// A sheet is refused exactly for the first of all that it breaks, by phase, place and number, and is accepted exactly
/// where it breaks nothing.
pub fn refused_for_the_first_break(files: &Files, word: Option<&str>)
    ensures refused { (firsts : Firsts) (r : Refusal) → (compiled firsts files.now (option_map (λ w. w.now) word.entry) ≡ Err r) ↔ (least (all_breaks firsts files.now (option_map (λ w. w.now) word.entry)) ≡ Some r) }
    ensures accepted { (firsts : Firsts) → IsOk (compiled firsts files.now (option_map (λ w. w.now) word.entry)) ↔ (all_breaks firsts files.now (option_map (λ w. w.now) word.entry) ≡ []) }
{}

/// The table of a sheet that is accepted keeps the rules on types. It holds the type that the TYPE word names, where there is
/// such a word, and no two containers that are read through that type overlap.
pub fn sheets_are_sound()
    ensures { SheetsAreSound }
{}

/// In a sheet that is accepted no two containers overlap that are read through a used type: one that a part, an array, the TYPE
/// word, a parameter, an argument, a variable or a map names. An open binary is none of them.
pub fn used_types_are_clear()
    ensures { UsedTypesAreClear }
{}

/// There is a function that tells what the variables of every sheet start with: so what is said of all of these is said of one.
pub fn firsts_are_told()
    ensures { FirstsAreTold }
{}
