//! The text of a type's layouts, made line by line, and no further once it is too long.

ghost use Rattle.std.specs.Prelude.{◌≡◌, ◌∷◌, ◌++◌, [], ℕ, Some, IfOk, OnOk, map};
ghost use Rattle.std.specs.List.{flat_map};
ghost use Rattle.eds_base.specs.declared.fault.Step.TheVariants as step;
ghost use Rattle.eds_types.specs.Fields.{part_at};
ghost use Rattle.eds_value.specs.Paths.{path_text as path_of_steps};
ghost use Rattle.eds_layout.specs.AllFixed.{fix_in};
ghost use Rattle.eds_layout.specs.Fixed.{fixed_size};
ghost use Rattle.eds_layout.specs.Layouts.{plain_layout};
ghost use Rattle.eds_layout.specs.PartRows.{bits_of, rows_of};
ghost use Rattle.eds_layout.specs.Printed.{layout_text, layouts_text, row_text as text_of_row};
ghost use Rattle.eds_layout.specs.Reports.{GoesOn, IsReport, IsReportOf, layout_with};
ghost use Rattle.eds_types.specs.Rows.{address, numbers_of, sequence};

use crate::fixes::{fixes_of, joined, part_size};
use crate::layouts::{is_container, keep_rising, plain_layouts};
use crate::print::{add, add_extent, add_head, add_kind, add_sets, name_of, print_layout};
use crate::rows::{kind_of, part_of, path_of};
use eds_base::{Memory, Octets, TypeId};
use eds_overlap::solution_sets;
use eds_types::{Part, PathSet, TypeTable};
use eds_value::path_text;
use std::alloc::Global;

// How many bits the parts of a container have, which stand at these places.
fn bits_along(
    table: &TypeTable,
    fixes: &[Option<u32>],
    id: TypeId,
    places: &[(TypeId, u16)],
) -> Option<u32>
    requires sizes { (x : ℕ) → fix_in fixes.now x ≡ fixed_size table.now x }
    requires places { places.now ≡ map address (sequence table.now id.0) }
    ensures { result ≡ bits_of table.now id.0 }
{
    let mut bits = Some(0);
    for place in places {
        let part = part_of(table, place.0, place.1);
        bits = joined(bits, part_size(table, fixes, part));
    }
    bits
}

// Puts the path of the part at a place from its container behind a text.
fn add_path(
    alloc: Global,
    text: &mut Vec<u8>,
    table: &TypeTable,
    id: TypeId,
    place: u16,
    part: &Part,
) -> Result<(), Memory>
    requires { part_at table.now (id, place) ≡ Some part.now }
    ensures { OnOk result (text.new.items ≡ text.old.items ++ path_of_steps table.now (step.Part id place ∷ [])) }
{
    match name_of(part) {
        Some(name) => {
            add(text, b"$.")?;
            add(text, name.as_bytes())
        }
        None => {
            let path = path_text(alloc, table, &path_of(id, place))?;
            add(text, path.as_str().as_bytes())
        }
    }
}

// Puts the lines of a container's parts, which stand at these places, behind a text.
fn add_parts(
    alloc: Global,
    text: &mut Vec<u8>,
    table: &TypeTable,
    fixes: &[Option<u32>],
    id: TypeId,
    places: &[(TypeId, u16)],
) -> Result<(), Memory>
    requires sizes { (x : ℕ) → fix_in fixes.now x ≡ fixed_size table.now x }
    requires places { places.now ≡ map address (sequence table.now id.0) }
    ensures { OnOk result (text.new.items ≡ text.old.items ++ flat_map (text_of_row table.now) (rows_of table.now id.0)) }
{
    let mut bits = Some(0);
    for place in places {
        let part = part_of(table, place.0, place.1);
        let size = part_size(table, fixes, part);
        add_extent(text, bits, size)?;
        add_path(alloc, text, table, place.0, place.1, part)?;
        add_kind(text, kind_of(part))?;
        bits = joined(bits, size);
    }
    Ok(())
}

// Puts the text of a container's layout with these sets behind a text.
fn add_with_sets(
    alloc: Global,
    text: &mut Vec<u8>,
    table: &TypeTable,
    fixes: &[Option<u32>],
    id: TypeId,
    sets: &[PathSet],
) -> Result<(), Memory>
    requires { (x : ℕ) → fix_in fixes.now x ≡ fixed_size table.now x }
    ensures { OnOk result (text.new.items ≡ text.old.items ++ layout_text table.now (layout_with table.now id.0 sets.now)) }
{
    let sequence = table.sequence_of(alloc, id)?;
    let bits = bits_along(table, fixes, id, sequence.as_slice());
    add_head(text, table, id, bits)?;
    add_parts(alloc, text, table, fixes, id, sequence.as_slice())?;
    add_sets(alloc, text, table, sets)?;
    Ok(())
}

// Puts the text of a container's layout behind that of others, unless that is too long already.
fn add_container(
    alloc: Global,
    text: &mut Vec<u8>,
    table: &TypeTable,
    fixes: &[Option<u32>],
    id: TypeId,
    most: usize,
) -> Result<(), Memory>
    requires { (x : ℕ) → fix_in fixes.now x ≡ fixed_size table.now x }
    ensures { OnOk result (GoesOn table.now id.0 most text.old.items text.new.items) }
{
    let sets = solution_sets(alloc, table, id)?;
    keep_rising(sets.as_slice());
    if text.len() <= most {
        add_with_sets(alloc, text, table, fixes, id, sets.as_slice())?;
    }
    Ok(())
}

// The text of the layouts of some containers.
fn containers_text(
    alloc: Global,
    table: &TypeTable,
    fixes: &[Option<u32>],
    ids: &[TypeId],
    most: usize,
) -> Result<Octets, Memory>
    requires { (x : ℕ) → fix_in fixes.now x ≡ fixed_size table.now x }
    ensures { IfOk result (IsReportOf table.now (numbers_of ids.now) most) }
{
    let mut text = Vec::new(alloc);
    for id in ids {
        add_container(alloc, &mut text, table, fixes, *id, most)?;
    }
    Ok(Octets::from_vec(text))
}

// The text of the layout of a type that is no container.
fn plain_text(
    alloc: Global,
    table: &TypeTable,
    fixes: &[Option<u32>],
    id: TypeId,
) -> Result<Octets, Memory>
    requires { (x : ℕ) → fix_in fixes.now x ≡ fixed_size table.now x }
    ensures { IfOk result (λ text. text ≡ layouts_text table.now (plain_layout table.now id.0 ∷ [])) }
{
    let layout = plain_layouts(alloc, table, fixes, id)?;
    print_layout(alloc, table, &layout)
}

/// The text of the layouts of a type, as `print_layout` writes it. Its containers come one after the other, line by line, and no row
/// is kept. Where the text has more octets than a given number, what comes behind the container whose lines pass that number is left
/// out, so that what is made has more of them too.
pub fn layout_report(
    alloc: Global,
    table: &TypeTable,
    id: TypeId,
    most: usize,
) -> Result<Octets, Memory>
    ensures { IfOk result (IsReport table.now id.0 most) }
{
    let fixes = fixes_of(alloc, table)?;
    if is_container(table, id) {
        containers_text(alloc, table, fixes.as_slice(), table.family_of(id), most)
    } else {
        plain_text(alloc, table, fixes.as_slice(), id)
    }
}
