//! The constraints of containers as elements, and what they ask.

ghost use Rattle.std.specs.Prelude.{◌≡◌, ◌++◌, filter, map, slice_get, IfOk, OnOk};
ghost use Rattle.std.specs.List.{flat_map};
ghost use Rattle.eds_read_types.specs.ConstraintElements.{is_constraint as is_constraint_in, constraints_held, constraints_at as constraints_in, range_of_tree, range_at as range_by_place, text_at as text_by_place, test_at as test_of, asked_at as asked_of, asked_by as asked_by_type, asked_lists as all_lists};

use eds_base::{Memory, Place, Text};
use eds_constraints::{Asked, AskedOf, Test};
use eds_domains::{NO_RANGE, Range};
use eds_tree::Tree;
use eds_type_rows::element::{attribute, children_at, is_element, push_held, tree_at};
use eds_type_rows::named_trees::NamedTrees;
use eds_type_rows::part::id_or_first;
use eds_type_rows::range::range_in;
use eds_type_rows::type_id::id_found;
use std::alloc::Global;

// ---- the elements

fn is_constraint(trees: &[Tree], at: Place) -> bool
    ensures { result ≡ is_constraint_in trees.now at }
{
    is_element(trees, "ValueConstraint", at)
        || is_element(trees, "RangeConstraint", at)
        || is_element(trees, "TypeConstraint", at)
}

/// Puts the constraints last that a set of them holds.
fn push_constraints(constraints: &mut Vec<Place>, trees: &[Tree], set: Place) -> Result<(), Memory>
    ensures { OnOk result (constraints.new.items ≡ constraints.old.items ++ constraints_held trees.now set) }
{
    for node in children_at(trees, set) {
        let child = Place {
            file: set.file,
            node: *node,
        };
        if is_constraint(trees, child) {
            constraints.push(child)?;
        }
    }
    Ok(())
}

/// The constraints of a container, in document order.
fn constraints_at(alloc: Global, trees: &[Tree], at: Place) -> Result<Vec<Place>, Memory>
    ensures { IfOk result (λ p. p.items ≡ constraints_in trees.now at) }
{
    let mut sets = Vec::new(alloc);
    push_held(&mut sets, trees, "ConstraintSet", at)?;
    let mut constraints = Vec::new(alloc);
    for set in &sets {
        push_constraints(&mut constraints, trees, *set)?;
    }
    Ok(constraints)
}

// ---- what they ask

/// The range that the element at a place gives.
fn range_at(trees: &[Tree], at: Place) -> Range
    ensures { result ≡ range_by_place trees.now at }
{
    match tree_at(trees, at.file) {
        None => NO_RANGE,
        Some(tree) => range_in(tree, at.node),
    }
}

/// The text of an attribute, empty where there is none.
fn text_at<'a>(trees: &'a [Tree], name: &str, at: Place) -> &'a str
    ensures { result.now ≡ text_by_place trees.now name.now at }
{
    attribute(trees, name, at).unwrap_or("")
}

/// What a constraint compares its entry with.
fn test_at(alloc: Global, sheet: &NamedTrees, at: Place) -> Result<Test, Memory>
    ensures { IfOk result (λ t. t ≡ test_of sheet.now.trees.now sheet.now.space.now at) }
{
    let trees = sheet.trees;
    if is_element(trees, "RangeConstraint", at) {
        return Ok(Test::Within(range_at(trees, at)));
    }
    if is_element(trees, "TypeConstraint", at) {
        let found = id_found(alloc, sheet, at, attribute(trees, "type", at))?;
        return Ok(Test::Under(id_or_first(found)));
    }
    let text = Text::of(alloc, text_at(trees, "value", at))?;
    Ok(Test::Value(text))
}

/// What the constraint at a place asks.
fn asked_at(alloc: Global, sheet: &NamedTrees, at: Place) -> Result<Asked, Memory>
    ensures { IfOk result (λ a. a ≡ asked_of sheet.now.trees.now sheet.now.space.now at) }
{
    let path = Text::of(alloc, text_at(sheet.trees, "entry", at))?;
    let test = test_at(alloc, sheet, at)?;
    Ok(Asked {
        place: at,
        path,
        test,
    })
}

/// What the constraints of the type at a place ask, in document order.
fn asked_by(alloc: Global, sheet: &NamedTrees, at: Place) -> Result<AskedOf, Memory>
    ensures { IfOk result (λ l. l ≡ asked_by_type sheet.now.trees.now sheet.now.space.now at) }
{
    let places = constraints_at(alloc, sheet.trees, at)?;
    let mut asked = AskedOf::new(alloc);
    for place in &places {
        asked.push(asked_at(alloc, sheet, *place)?)?;
    }
    Ok(asked)
}

/// What the constraints of each type ask, each at the number of its type.
pub(crate) fn asked_lists(alloc: Global, sheet: &NamedTrees) -> Result<Vec<AskedOf>, Memory>
    ensures { IfOk result (λ l. l.items ≡ all_lists sheet.now.trees.now sheet.now.space.now) }
{
    let mut lists = Vec::new(alloc);
    for at in sheet.types {
        let asked = asked_by(alloc, sheet, *at)?;
        lists.push(asked)?;
    }
    Ok(lists)
}
