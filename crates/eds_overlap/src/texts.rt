//! The texts of paths.

ghost use Rattle.std.specs.Prelude.{◌≡◌, IfOk, Some};
ghost use Rattle.eds_overlap.specs.PathTexts.{name_in, step_name as name_of_step, path_text as text_of_path};

use eds_base::{Memory, Text, TypeId};
use eds_types::{Part, TypeTable};
use std::alloc::Global;

// The name of a part; one without a name has the empty one.
fn part_name(part: &Part) -> &str
    ensures { result.now ≡ name_in (Some part.now) }
{
    match part {
        Part::Plain(name, _) => name.as_str(),
        Part::Fixed(Some(name), _, _) => name.as_str(),
        Part::Fixed(None, _, _) => "",
        Part::Pad(_) => "",
        Part::List(name, _, _, _) => name.as_str(),
        Part::Length(name, _, _, _) => name.as_str(),
        Part::Check(name, _, _) => name.as_str(),
    }
}

fn step_name(table: &TypeTable, step: (TypeId, u16)) -> &str
    ensures { result.now ≡ name_of_step table.now step }
{
    match table.part_at(step.0, step.1) {
        Some(part) => part_name(part),
        None => "",
    }
}

/// The text of a path: the names of its entries, joined by dots.
pub(crate) fn path_text(
    alloc: Global,
    table: &TypeTable,
    path: &[(TypeId, u16)],
) -> Result<Text, Memory>
    ensures { IfOk result (λ text. text ≡ text_of_path table.now path.now) }
{
    let [first, further @ ..] = path else {
        return Ok(Text::new(alloc));
    };
    let mut text = String::from_str(alloc, step_name(table, *first))?;
    for step in further {
        text.push_str(".")?;
        text.push_str(step_name(table, *step))?;
    }
    Ok(Text::from_string(text))
}
