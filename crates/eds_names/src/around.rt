//! The name around each element of a file.

ghost use Rattle.std.specs.Prelude.{◌≡◌, ◌<◌, List, None, map, length, take, replicate, slice_set, slice_get, option_map, IfOk, OnOk};
ghost use Rattle.eds_names.specs.Standings.{name_around, around, around_entry, written};
ghost use Rattle.eds_names.specs.Around.{name_in, name_at, IsIn};

use crate::declared::name_of;
use crate::room::Room;
use crate::standing::Standing;
use eds_base::{Items, Memory, Text};
use eds_tree::Tree;
use std::alloc::Global;
use std::marker::Model;

/// For each element of a file the name around it: names, and for each element the position of its name among them.
#[derive(Drop)]
pub(crate) struct Around {
    names: Items<Text>,
    table: Items<Option<u32>>,
}

impl Model for Around {
    ghost use Rattle.std.specs.Prelude.{ℕ, List, Option, map};
    ghost use Rattle.eds_names.specs.Around.{name_in};

    ghost Value = { List (Option (List ℕ)) };

    ghost view = { λ a. map (name_in a.names) a.table };
}

impl Around {
    /// The name around an element, where there is one.
    pub(crate) fn name_at(&self, node: u32) -> Option<&str>
        ensures { option_map (λ a. a.now) result ≡ name_at self.now node }
    {
        let position = self.table.get(node as usize).copied()??;
        let name = self.names.get(position as usize)?;
        Some(name.as_str())
    }
}

// The package and the component of the last element, and the position of the name around it.
#[derive(Clone, Copy)]
struct Known {
    in_package: u32,
    in_component: u32,
    position: Option<u32>,
}

// Puts a name last, where there is one.
fn push_name(
    alloc: Global,
    room: &mut Room,
    names: &mut Vec<Text>,
    tree: &Tree,
    in_package: u32,
    in_component: u32,
) -> Result<Option<u32>, Memory>
    ensures name { IfOk result (λ p. name_in names.new.items p ≡ name_around tree.now in_package in_component) }
    ensures position { IfOk result (IsIn names.new.items) }
    ensures kept { OnOk result (take (length names.old.items) names.new.items ≡ names.old.items) }
{
    match name_of(alloc, room, tree, in_package, in_component)? {
        None => Ok(None),
        Some(name) => {
            let position = names.len();
            if position > u32::MAX as usize {
                return Err(Memory);
            }
            names.push(name)?;
            Ok(Some(position as u32))
        }
    }
}

// Where an element stands, with the position of the name around it. Where the last one stood there too, it is that one's.
fn enter(
    alloc: Global,
    room: &mut Room,
    names: &mut Vec<Text>,
    tree: &Tree,
    last: Known,
    standing: Standing,
) -> Result<Known, Memory>
    requires name { name_in names.old.items last.position ≡ name_around tree.now last.in_package last.in_component }
    requires position { IsIn names.old.items last.position }
    ensures place { IfOk result (λ k. (k.in_package ≡ standing.in_package) × (k.in_component ≡ standing.in_component)) }
    ensures name { IfOk result (λ k. name_in names.new.items k.position ≡ around tree.now standing) }
    ensures position { IfOk result (λ k. IsIn names.new.items k.position) }
    ensures kept { OnOk result (take (length names.old.items) names.new.items ≡ names.old.items) }
{
    if last.in_package == standing.in_package && last.in_component == standing.in_component {
        return Ok(last);
    }
    let position = push_name(
        alloc,
        room,
        names,
        tree,
        standing.in_package,
        standing.in_component,
    )?;
    Ok(Known {
        in_package: standing.in_package,
        in_component: standing.in_component,
        position,
    })
}

fn write(table: &mut Vec<Option<u32>>, node: u32, position: Option<u32>)
    ensures { table.new.items ≡ slice_set table.old.items node position }
{
    if (node as usize) < table.len() {
        table[node as usize] = position;
    }
}

/// The name around each element of a file.
pub(crate) fn around_of(
    alloc: Global,
    room: &mut Room,
    tree: &Tree,
    standings: &[Standing],
) -> Result<Around, Memory>
    ensures { IfOk result (λ a. a ≡ written (replicate (length tree.now) None) (map (around_entry tree.now) standings.now)) }
{
    let mut names = Vec::new(alloc);
    let mut table = vec![in alloc; None; tree.len()]?;
    let mut last = Known {
        in_package: 0,
        in_component: 0,
        position: None,
    };
    for standing in standings {
        last = enter(alloc, room, &mut names, tree, last, *standing)?;
        write(&mut table, standing.node, last.position);
    }
    Ok(Around {
        names: Items::from_vec(names),
        table: Items::from_vec(table),
    })
}
