//! The part that tells the number of a list's items, by its position.

ghost use Rattle.std.specs.Prelude.{◌≡◌, ℕ, List, option_map, IfOk, OnOk};
ghost use Rattle.std.specs.HashMap.{get_by_text};
ghost use Rattle.eds_types.specs.Rows.{or_else};
ghost use Rattle.eds_type_rows.specs.ListFields.{place_if, place_named, place_from, seat_named, field_seat as field_seat_of, type_number as type_number_of, short as short_of, field_container as field_container_of, field_place as field_place_of};

use crate::element::{attribute, own_name};
use crate::entry::has_name;
use crate::seat::Seat;
use eds_base::{Memory, Place, TypeId};
use eds_tree::Tree;
use indexmap::IndexMap;
use std::alloc::Global;

/// The parts of a container and of its bases as elements, and their positions among these by their names, of one name the first.
#[derive(Drop)]
pub(crate) struct Fields<'a> {
    pub(crate) trees: &'a [Tree],
    pub(crate) seats: &'a [Seat],
    places: IndexMap<String, usize>,
    ghost noted: { (q : List ℕ) → get_by_text places q ≡ place_from trees.now 0 seats.now q },
}

/// Puts a position under a name, unless one is there.
fn note_name(
    alloc: Global,
    places: &mut IndexMap<String, usize>,
    name: &str,
    place: usize,
) -> Result<(), Memory>
    ensures { OnOk result ((q : List ℕ) → get_by_text places.new q ≡ or_else (get_by_text places.old q) (place_if name.now place q)) }
{
    if places.contains_key(name) {
        return Ok(());
    }
    let name = String::from_str(alloc, name)?;
    let _none = places.insert(name, place)?;
    Ok(())
}

/// Puts the position of a part under its name, where it has one.
fn note_part(
    alloc: Global,
    places: &mut IndexMap<String, usize>,
    trees: &[Tree],
    place: usize,
    at: Place,
) -> Result<(), Memory>
    ensures { OnOk result ((q : List ℕ) → get_by_text places.new q ≡ or_else (get_by_text places.old q) (place_named trees.now place at q)) }
{
    if has_name(trees, at) {
        note_name(alloc, places, own_name(trees, at), place)?;
    }
    Ok(())
}

/// The positions of some parts by their names, of one name the first.
fn places_of(
    alloc: Global,
    trees: &[Tree],
    seats: &[Seat],
) -> Result<IndexMap<String, usize>, Memory>
    ensures { IfOk result (λ m. (q : List ℕ) → get_by_text m q ≡ place_from trees.now 0 seats.now q) }
{
    let mut places = IndexMap::new(alloc);
    for place in 0..seats.len() {
        note_part(alloc, &mut places, trees, place, seats[place].at)?;
    }
    Ok(places)
}

impl<'a> Fields<'a> {
    /// Some parts with their positions by their names.
    pub(crate) fn of(
        alloc: Global,
        trees: &'a [Tree],
        seats: &'a [Seat],
    ) -> Result<Fields<'a>, Memory>
        ensures trees { IfOk result (λ f. f.trees.now ≡ trees.now) }
        ensures seats { IfOk result (λ f. f.seats.now ≡ seats.now) }
    {
        let places = places_of(alloc, trees, seats)?;
        Ok(Fields {
            trees,
            seats,
            places,
        })
    }

    /// Where the first part of a name stands.
    fn named(&self, name: &str) -> Option<Seat>
        ensures { result ≡ seat_named self.now.trees.now self.now.seats.now name.now }
    {
        let place = self.places.get(name)?;
        self.seats.get(*place).copied()
    }

    /// Where the part stands that a list names as its field.
    pub(crate) fn seat_of(&self, at: Place) -> Option<Seat>
        ensures { result ≡ field_seat_of self.now.trees.now self.now.seats.now at }
    {
        self.named(attribute(self.trees, "listLengthField", at)?)
    }
}

// ---- in a row

/// The type of a number.
fn type_number(id: usize) -> TypeId
    ensures { result ≡ type_number_of id }
{
    if id <= 4_294_967_295 {
        TypeId(id as u32)
    } else {
        TypeId(4_294_967_295)
    }
}

/// A position as a row holds it.
fn short(place: usize) -> u16
    ensures { result ≡ short_of place }
{
    if place <= 65535 { place as u16 } else { 65535 }
}

/// The container of a list's field, or the list's own where there is no field.
pub(crate) fn field_container(container: usize, field: Option<Seat>) -> TypeId
    ensures { result ≡ field_container_of container field }
{
    match field {
        None => type_number(container),
        Some(seat) => type_number(seat.container),
    }
}

/// The position of a list's field, or 65,535 where there is none.
pub(crate) fn field_place(field: Option<Seat>) -> u16
    ensures { result ≡ field_place_of field }
{
    match field {
        None => 65535,
        Some(seat) => short(seat.place),
    }
}
