//! What the table says of an element under its parent.

ghost use Rattle.std.specs.Prelude.{◌≡◌, ◌||◌, map, option_map};
ghost use Rattle.std.specs.List.{list_any};
ghost use Rattle.eds_tree.specs.Rows.{attribute_of, row_of, shape_of};
ghost use Rattle.eds_tree.specs.Shapes.{is_among as names_in, fits_under as fits_below, shape_for as shape_among, shapes_of as row_shapes, shape_named as shape_by_name, shape_at as shape_in, is_attribute, lists as shape_lists};

use crate::link::{Link, name_at};
use crate::row::{Attribute, Row, Shape};
use crate::table::element_rows;
use crate::tree::Node;

/// Whether a name is one of some names.
pub fn is_among(names: &'static [&'static str], name: &str) -> bool
    ensures { result ≡ names_in (map (λ p. p.now) names.now) name.now }
{
    for one in names {
        if *one == name {
            return true;
        }
    }
    false
}

fn fits_under(parents: &'static [&'static str], parent: &str) -> bool
    ensures { result ≡ fits_below (map (λ p. p.now) parents.now) parent.now }
{
    match parents {
        [] => true,
        [_, ..] => is_among(parents, parent),
    }
}

fn shape_for(shapes: &'static [Shape], parent: &str) -> Option<&'static Shape>
    ensures { option_map (λ s. shape_of s.now) result ≡ shape_among (map shape_of shapes.now) parent.now }
{
    for shape in shapes {
        if fits_under(shape.parents, parent) {
            return Some(shape);
        }
    }
    None
}

fn shapes_of(row: Option<&'static Row>) -> &'static [Shape]
    ensures { map shape_of result.now ≡ row_shapes (option_map (λ r. row_of r.now) row.entry) }
{
    match row {
        None => &[],
        Some(row) => row.shapes,
    }
}

/// What an element of a name may have under a parent of a name.
pub(crate) fn shape_named(parent: &str, name: &str) -> Option<&'static Shape>
    ensures { option_map (λ s. shape_of s.now) result ≡ shape_by_name parent.now name.now }
{
    shape_for(shapes_of(element_rows().named(name)), parent)
}

/// What an element of a tree may have.
pub(crate) fn shape_at(nodes: &[Node], link: Link) -> Option<&'static Shape>
    ensures { option_map (λ s. shape_of s.now) result ≡ shape_in nodes.now link }
{
    shape_named(name_at(nodes, link.parent), name_at(nodes, link.node))
}

fn is_listed(rows: &'static [Attribute], name: &str) -> bool
    ensures { result ≡ list_any (is_attribute name.now) (map attribute_of rows.now) }
{
    for row in rows {
        if row.name == name {
            return true;
        }
    }
    false
}

/// Whether the table lists an attribute of this name.
pub(crate) fn lists(shape: Option<&'static Shape>, name: &str) -> bool
    ensures { result ≡ shape_lists (option_map (λ s. shape_of s.now) shape.entry) name.now }
{
    shape.is_some_and(|shape| {
        is_listed(shape.required, name) || is_listed(shape.optional, name)
    })
}
