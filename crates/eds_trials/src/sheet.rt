//! Sheets from their text.

ghost use Rattle.std.specs.Prelude.{◌≡◌, ◌<◌, ◌^◌, length, IfOk, IfSome, IsSomeAnd};
ghost use Rattle.std.specs.List.{All};
ghost use Rattle.eds_read_comp.specs.Together.{HoldsTogether};
ghost use Rattle.eds_types.specs.Overlap.{IsClear};
ghost use Rattle.eds_types.specs.Rules.{IsHollow};

use eds_base::{Fail, Items, Memory, Octets, Refusal};
use eds_sheet::{Files, Sheet, compile};
use std::alloc::Global;

/// The octets of a text; where it has 2^32 or more no memory is found.
pub(crate) fn octets_of(alloc: Global, text: &str) -> Result<Octets, Memory>
    ensures { IfOk result (λ octets. length octets < 2 ^ 32) }
{
    if text.len() > u32::MAX as usize {
        return Err(Memory);
    }
    Ok(Octets::from_vec(text.as_bytes().to_vec(alloc)?))
}

fn files_of(alloc: Global, text: &str) -> Result<Files, Memory>
    ensures one { IfOk result (λ files. length files ≡ 1) }
    ensures short { IfOk result (λ files. All (λ octets. length octets < 2 ^ 32) files) }
{
    let octets = octets_of(alloc, text)?;
    let mut files = Items::new(alloc);
    files.push(octets)?;
    Ok(files)
}

/// The sheet of one file, with the type of a name as its word.
pub(crate) fn sheet_of(alloc: Global, text: &str, name: &str) -> Result<Sheet, Fail<Refusal>>
    ensures word { IfOk result (λ sheet. IsSomeAnd sheet.asked_type (λ id. id.0 < length sheet.table)) }
    ensures clear { IfOk result (λ sheet. IfSome sheet.asked_type (λ id. IsClear sheet.table id.0)) }
    ensures solid { IfOk result (λ sheet. IfSome sheet.asked_type (λ id. ¬ (IsHollow sheet.table id.0))) }
    ensures together { IfOk result (λ sheet. HoldsTogether sheet.table sheet.plan) }
{
    let files = files_of(alloc, text)?;
    compile(alloc, &files, Some(name))
}
