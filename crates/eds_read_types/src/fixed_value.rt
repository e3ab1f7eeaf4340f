//! The rule that the text of a fixed value stands for a value of its type.

ghost use Rattle.std.specs.Prelude.{◌≡◌, is_some, IfOk};
ghost use Rattle.std.specs.List.{flat_map};
ghost use Rattle.eds_base.specs.Refusals.{least};
ghost use Rattle.eds_type_rows.specs.FixedValues.{fixed_value as fixed_value_of};
ghost use Rattle.eds_read_types.specs.FixedValue.{fixed_value_at};
ghost use Rattle.eds_read_types.specs.PartElements.{judged_elements};
ghost use Rattle.eds_type_rows.specs.PartRows.{entry_id as entry_id_of};

use crate::breaks::refusal_where;
use crate::rules::SheetRule;
use crate::sheet_rows::SheetRows;
use eds_base::{Memory, Place, Refusal, Rule};
use eds_type_rows::element::is_element;
use eds_type_rows::entry::parts_at;
use eds_type_rows::part::entry_id;
use eds_type_rows::value_kinds::{ValueKinds, fixed_value};
use std::alloc::Global;

/// Whether the text of the fixed value at a place stands for a value of its type.
fn has_value(alloc: Global, kinds: &ValueKinds, at: Place) -> Result<bool, Memory>
    ensures { IfOk result (λ b. b ≡ is_some (fixed_value_of kinds.now.graph.now.sheet.now.trees.now kinds.now.graph.now.sheet.now.space.now (entry_id_of kinds.now.graph.now.sheet.now.trees.now kinds.now.graph.now.sheet.now.space.now at).0 at)) }
{
    let id = entry_id(alloc, kinds.graph.sheet, at)?;
    let value = fixed_value(alloc, kinds, id.0 as usize, at)?;
    Ok(value.is_some())
}

/// The refusal of a part.
fn least_of_part(alloc: Global, kinds: &ValueKinds, at: Place) -> Result<Option<Refusal>, Memory>
    ensures { IfOk result (λ r. r ≡ least (fixed_value_at kinds.now.graph.now.sheet.now.trees.now kinds.now.graph.now.sheet.now.space.now at)) }
{
    if !is_element(kinds.graph.sheet.trees, "FixedValueEntry", at) {
        return Ok(None);
    }
    let good = has_value(alloc, kinds, at)?;
    Ok(refusal_where(!good, Rule::FixedValue, at))
}

/// The first refusal of some parts.
fn least_of_parts(
    alloc: Global,
    kinds: &ValueKinds,
    parts: &[Place],
) -> Result<Option<Refusal>, Memory>
    ensures { IfOk result (λ r. r ≡ least (flat_map (fixed_value_at kinds.now.graph.now.sheet.now.trees.now kinds.now.graph.now.sheet.now.space.now) parts.now)) }
{
    let mut found = None;
    for at in parts {
        let here = least_of_part(alloc, kinds, *at)?;
        found = Refusal::first(found, here);
    }
    Ok(found)
}

/// The first refusal of the parts of a type.
pub(crate) fn least_of_type(
    alloc: Global,
    kinds: &ValueKinds,
    at: Place,
) -> Result<Option<Refusal>, Memory>
    ensures { IfOk result (λ r. r ≡ least (judged_elements fixed_value_at kinds.now.graph.now.sheet.now.trees.now kinds.now.graph.now.sheet.now.space.now at)) }
{
    let parts = parts_at(alloc, kinds.graph.sheet.trees, at)?;
    least_of_parts(alloc, kinds, &parts)
}

/// The first refusal of the parts of some types.
fn least_of_types(
    alloc: Global,
    kinds: &ValueKinds,
    types: &[Place],
) -> Result<Option<Refusal>, Memory>
    ensures { IfOk result (λ r. r ≡ least (flat_map (judged_elements fixed_value_at kinds.now.graph.now.sheet.now.trees.now kinds.now.graph.now.sheet.now.space.now) types.now)) }
{
    let mut found = None;
    for at in types {
        let here = least_of_type(alloc, kinds, *at)?;
        found = Refusal::first(found, here);
    }
    Ok(found)
}

/// The text of a fixed value stands for a value of its type, which is neither an array nor a container.
pub(crate) struct FixedValue;

impl SheetRule for FixedValue {
    ghost use Rattle.eds_read_types.specs.FixedValue.{breaks_fixed};

    ghost breaks = { λ trees names word. breaks_fixed trees names };

    fn least(alloc: Global, sheet: &SheetRows) -> Result<Option<Refusal>, Memory> {
        let kinds = ValueKinds {
            graph: sheet.graph,
            known: sheet.kinds,
        };
        least_of_types(alloc, &kinds, sheet.graph.sheet.types)
    }
}
