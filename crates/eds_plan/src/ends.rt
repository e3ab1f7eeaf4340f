//! The ends of components, by their texts.

ghost use Rattle.std.specs.Prelude.{◌≡◌, ℕ, List, IfOk, OnOk, option_map, string_bytes};
ghost use Rattle.std.specs.HashMap.{get_by_text};
ghost use Rattle.eds_types.specs.Rows.{or_else};
ghost use Rattle.eds_plan.specs.Ends.{all_ends, end_called, end_named, end_text as text_of_end, ends_from, first_called, found_end};

use crate::{ComponentPlan, End, EndPlan, Plan};
use eds_base::{CompId, Memory};
use indexmap::IndexMap;
use std::alloc::{AllocError, Global};

/// The ends of a plan by their texts.
pub type EndIndex = IndexMap<String, End>;

/// The text of an end: its component's qualified name, a colon, and its own name.
pub fn end_text(alloc: Global, component: &str, name: &str) -> Result<String, AllocError>
    ensures { IfOk result (λ s. string_bytes s ≡ text_of_end component.now name.now) }
{
    Ok(format!(in alloc; "{component}:{name}")?)
}

// Puts an end under its text, unless one is there.
fn note_end(index: &mut EndIndex, text: String, end: End) -> Result<(), Memory>
    ensures { OnOk result ((q : List ℕ) → get_by_text index.new q ≡ or_else (get_by_text index.old q) (end_called (string_bytes text, end) q)) }
{
    if index.contains_key(text.as_str()) {
        return Ok(());
    }
    let _none = index.insert(text, end)?;
    Ok(())
}

// Puts the ends of a component under their texts.
fn note_ends(
    alloc: Global,
    index: &mut EndIndex,
    comp: u32,
    component: &ComponentPlan,
) -> Result<(), Memory>
    ensures { OnOk result ((q : List ℕ) → get_by_text index.new q ≡ or_else (get_by_text index.old q) (first_called (ends_from component.now.name comp 0 component.now.ends) q)) }
{
    let mut face: u16 = 0;
    for end in component.ends.as_slice() {
        let text = end_text(alloc, component.name.as_str(), end.name.as_str())?;
        let end = End {
            comp: CompId(comp),
            face,
        };
        note_end(index, text, end)?;
        face = face.checked_add(1).ok_or(Memory)?;
    }
    Ok(())
}

/// The ends of a plan by their texts, of one text the first.
pub fn index_ends(alloc: Global, plan: &Plan) -> Result<EndIndex, Memory>
    ensures { IfOk result (λ m. (q : List ℕ) → get_by_text m q ≡ end_named plan.now q) }
{
    let mut index = IndexMap::new(alloc);
    let mut comp: u32 = 0;
    for component in plan.as_slice() {
        note_ends(alloc, &mut index, comp, component)?;
        comp = comp.checked_add(1).ok_or(Memory)?;
    }
    Ok(index)
}

fn end_of(index: &EndIndex, text: &str) -> Option<End>
    ensures { result ≡ get_by_text index.now text.now }
{
    index.get(text).copied()
}

/// The end that a text names, with what the plan has of it.
pub fn find_end<'a>(index: &EndIndex, plan: &'a Plan, text: &str) -> Option<(End, &'a EndPlan)>
    requires { (q : List ℕ) → get_by_text index.now q ≡ end_named plan.now q }
    ensures { option_map (λ p. (p.0, p.1.now)) result ≡ found_end plan.now text.now }
{
    let end = end_of(index, text)?;
    let component = plan.get(end.comp.0 as usize)?;
    let face = component.ends.get(end.face as usize)?;
    Some((end, face))
}
