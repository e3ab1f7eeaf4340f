//! The types, interfaces and components that a sheet declares.

ghost use Rattle.std.specs.Prelude.{◌≡◌, ◌+◌, ◌++◌, option_map, IfOk, OnOk};
ghost use Rattle.std.specs.List.{flat_map};
ghost use Rattle.eds_names.specs.Standings.{joined, name_around, qualified as qualified_in};
ghost use Rattle.eds_names.specs.Declarations.{is_sort, is_face, is_comp, kind_of as kind_in, item_of, counted, counted_all, numbered, declaration_at};

use crate::room::Room;
use crate::standing::{Standing, own_name};
use eds_base::{CompId, FaceId, Memory, Place, Text, TypeId};
use eds_tree::Tree;
use std::alloc::Global;

/// A declared item, by its position among those of its kind.
#[derive(Clone, Copy, PartialEq, Eq)]
pub enum Item {
    Sort(TypeId),
    Face(FaceId),
    Comp(CompId),
}

impl Item {
    /// Whether it is a type.
    pub fn is_sort(self) -> bool
        ensures { result ≡ is_sort self }
    {
        match self {
            Item::Sort(_) => true,
            Item::Face(_) => false,
            Item::Comp(_) => false,
        }
    }

    /// Whether it is an interface.
    pub fn is_face(self) -> bool
        ensures { result ≡ is_face self }
    {
        match self {
            Item::Sort(_) => false,
            Item::Face(_) => true,
            Item::Comp(_) => false,
        }
    }

    /// Whether it is a component.
    pub fn is_comp(self) -> bool
        ensures { result ≡ is_comp self }
    {
        match self {
            Item::Sort(_) => false,
            Item::Face(_) => false,
            Item::Comp(_) => true,
        }
    }
}

/// A type, an interface or a component that a sheet declares.
#[derive(Drop)]
pub struct Declared {
    /// Its qualified name: the package's, the component's where it stands in one, and its own, joined by `/`.
    pub name: Text,
    /// Its own name.
    pub own: Text,
    /// Its element.
    pub place: Place,
    /// What it is, with its number.
    pub item: Item,
}

/// What is declared.
#[derive(Clone, Copy, PartialEq, Eq)]
pub(crate) enum Kind {
    Sort,
    Face,
    Comp,
}

/// How many types, interfaces and components come before an item.
#[derive(Clone, Copy, PartialEq, Eq)]
pub(crate) struct Counts {
    pub(crate) types: u32,
    pub(crate) faces: u32,
    pub(crate) comps: u32,
}

// One more; so many items that their number has more than 32 bits find no memory.
fn next(count: u32) -> Result<u32, Memory>
    ensures { IfOk result (λ n. n ≡ count + 1) }
{
    match count.checked_add(1) {
        Some(n) => Ok(n),
        None => Err(Memory),
    }
}

// The number of an item of a kind.
fn count_item(counts: &mut Counts, kind: Kind) -> Result<Item, Memory>
    ensures item { IfOk result (λ i. i ≡ item_of counts.old kind) }
    ensures counts { OnOk result (counts.new ≡ counted counts.old kind) }
{
    match kind {
        Kind::Sort => {
            let id = counts.types;
            counts.types = next(id)?;
            Ok(Item::Sort(TypeId(id)))
        }
        Kind::Face => {
            let id = counts.faces;
            counts.faces = next(id)?;
            Ok(Item::Face(FaceId(id)))
        }
        Kind::Comp => {
            let id = counts.comps;
            counts.comps = next(id)?;
            Ok(Item::Comp(CompId(id)))
        }
    }
}

fn kind_of(name: &str, parent: &str) -> Option<Kind>
    ensures { result ≡ kind_in name.now parent.now }
{
    if name.as_bytes().ends_with(b"DataType") {
        Some(Kind::Sort)
    } else if name == "Interface" {
        if parent == "DeclaredInterfaceSet" {
            Some(Kind::Face)
        } else {
            None
        }
    } else if name == "Component" {
        Some(Kind::Comp)
    } else {
        None
    }
}

/// One name after another.
pub(crate) fn join(
    alloc: Global,
    room: &mut Room,
    first: &str,
    second: &str,
) -> Result<Text, Memory>
    ensures { IfOk result (λ t. t ≡ joined first.now second.now) }
{
    room.take(first.len())?;
    room.take(second.len())?;
    Ok(Text::from_string(format!(in alloc; "{first}/{second}")?))
}

/// The qualified name of a component, or of its package where there is no component, by their elements.
pub(crate) fn name_of(
    alloc: Global,
    room: &mut Room,
    tree: &Tree,
    in_package: u32,
    in_component: u32,
) -> Result<Option<Text>, Memory>
    ensures { IfOk result (λ a. a ≡ name_around tree.now in_package in_component) }
{
    if in_component != 0 {
        return Ok(Some(join(
            alloc,
            room,
            own_name(tree, in_package),
            own_name(tree, in_component),
        )?));
    }
    if in_package != 0 {
        let package = own_name(tree, in_package);
        room.take(package.len())?;
        return Ok(Some(Text::of(alloc, package)?));
    }
    Ok(None)
}

fn qualified(
    alloc: Global,
    room: &mut Room,
    around: Option<&Text>,
    own: &str,
) -> Result<Text, Memory>
    ensures { IfOk result (λ t. t ≡ qualified_in (option_map (λ a. a.now) around.entry) own.now) }
{
    match around {
        Some(around) => join(alloc, room, around.as_str(), own),
        None => Text::of(alloc, own),
    }
}

// Puts what an element declares last.
fn declare(
    alloc: Global,
    room: &mut Room,
    declared: &mut Vec<Declared>,
    counts: &mut Counts,
    file: u16,
    tree: &Tree,
    standing: Standing,
) -> Result<(), Memory>
    ensures declared { OnOk result (declared.new.items ≡ declared.old.items ++ numbered counts.old (declaration_at tree.now file standing)) }
    ensures counts { OnOk result (counts.new ≡ counted_all counts.old (declaration_at tree.now file standing)) }
{
    let kind = match kind_of(tree.name_at(standing.node), tree.name_at(standing.parent)) {
        Some(kind) => kind,
        None => return Ok(()),
    };
    let own = own_name(tree, standing.node);
    let around = name_of(
        alloc,
        room,
        tree,
        standing.in_package,
        standing.in_component,
    )?;
    let name = qualified(alloc, room, around.as_ref(), own)?;
    let own = Text::of(alloc, own)?;
    let item = count_item(counts, kind)?;
    let place = Place {
        file,
        node: standing.node,
    };
    declared.push(Declared {
        name,
        own,
        place,
        item,
    })?;
    Ok(())
}

/// Puts all that a file declares last.
pub(crate) fn declare_all(
    alloc: Global,
    room: &mut Room,
    declared: &mut Vec<Declared>,
    counts: &mut Counts,
    file: u16,
    tree: &Tree,
    standings: &[Standing],
) -> Result<(), Memory>
    ensures declared { OnOk result (declared.new.items ≡ declared.old.items ++ numbered counts.old (flat_map (declaration_at tree.now file) standings.now)) }
    ensures counts { OnOk result (counts.new ≡ counted_all counts.old (flat_map (declaration_at tree.now file) standings.now)) }
{
    for standing in standings {
        declare(alloc, room, declared, counts, file, tree, *standing)?;
    }
    Ok(())
}
