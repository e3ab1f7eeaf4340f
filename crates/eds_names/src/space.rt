//! The names of a sheet, and what a reference finds.

ghost use Rattle.std.specs.Prelude.{◌≡◌, ◌+◌, ◌≤◌, ◌++◌, ℕ, List, [], ◌∷◌, map, count_by, false, length, None, option_map, string_bytes, IfOk, IfSome, OnOk};
ghost use Rattle.std.specs.Str.{IsUtf8};
ghost use Rattle.std.specs.HashMap.{get_by_text};
ghost use Rattle.eds_base.specs.Answering.{Answers};
ghost use Rattle.eds_base.specs.Refusals.{least, first_of};
ghost use Rattle.eds_names.specs.Repeats.{repeats, repeats_in, repeats_from};
ghost use Rattle.eds_names.specs.Declarations.{declared_in, named_of, numbered, counted_all, declarations_in, is_sort, is_face, is_comp};
ghost use Rattle.eds_names.specs.Standings.{arounds_of, joined};
ghost use Rattle.eds_names.specs.LookUp.{NamesDiffer, slashes as slashes_of, item_named, entry_named, or_else, fronts, longest, candidates, first_found, around_at, look_up, names_in};

use crate::around::{Around, around_of};
use crate::declared::{Counts, Declared, Item, declare_all, join};
use crate::depths::{depths_of, slashes_joined};
use crate::owned::least_owned;
use crate::repeat::note_name;
use crate::room::{MOST_KEPT, Room, most_read};
use crate::standing::standings_in;
use eds_base::{Fail, Items, Memory, Place, Refusal, Text};
use eds_tree::{Tree, Trees};
use indexmap::{IndexMap, IndexSet};
use std::alloc::Global;
use std::marker::Model;

/// The names of a sheet: what it declares, in the order of files and elements, and for each element the name around it.
#[derive(Drop)]
pub struct Space {
    declared: Items<Declared>,
    index: IndexMap<String, Item>,
    arounds: Items<Around>,
    depths: Items<bool>,
    most_read: usize,
}

impl Model for Space {
    ghost use Rattle.std.specs.Prelude.{◌≡◌, ℕ, List, None, false};
    ghost use Rattle.std.specs.HashMap.{get_by_text};
    ghost use Rattle.eds_names.specs.LookUp.{Names, NamesDiffer, item_named, slashes, is_marked};

    ghost Value = { Names };

    ghost view = { λ s. record { declared = s.declared; arounds = s.arounds } };

    ghost invariant = { λ s. ((q : List ℕ) → get_by_text s.index q ≡ item_named s.declared q) × NamesDiffer s.declared × ((q : List ℕ) → is_marked s.depths (slashes q) ≡ false → item_named s.declared q ≡ None) };
}

// The first of the names that are declared twice.
fn least_declared(alloc: Global, declared: &[Declared]) -> Result<Option<Refusal>, Memory>
    ensures { IfOk result (λ r. r ≡ least (repeats [] (map named_of declared.now))) }
{
    let mut before = IndexSet::new(alloc);
    let mut found = None;
    for one in declared {
        found = note_name(
            alloc,
            &mut before,
            found,
            one.name.as_str(),
            one.own.as_str(),
            one.place,
        )?;
    }
    Ok(found)
}

// Puts an item under its name, unless one is there.
fn note_item(
    alloc: Global,
    index: &mut IndexMap<String, Item>,
    one: &Declared,
) -> Result<(), Memory>
    ensures { OnOk result ((q : List ℕ) → get_by_text index.new q ≡ or_else (get_by_text index.old q) (entry_named one.now q)) }
{
    if index.contains_key(one.name.as_str()) {
        return Ok(());
    }
    let name = String::from_str(alloc, one.name.as_str())?;
    let _none = index.insert(name, one.item)?;
    Ok(())
}

// The declared items by their names, of one name the first.
fn index_of(alloc: Global, declared: &[Declared]) -> Result<IndexMap<String, Item>, Memory>
    ensures { IfOk result (λ m. (q : List ℕ) → get_by_text m q ≡ item_named declared.now q) }
{
    let mut index = IndexMap::new(alloc);
    for one in declared {
        note_item(alloc, &mut index, one)?;
    }
    Ok(index)
}

// The longest front of a name that ends before a slash.
fn shorter(name: &str) -> Option<&str>
    ensures longest { option_map (λ f. f.now) result ≡ longest (fronts name.now) }
    ensures text { IfSome result (λ f. IsUtf8 f.now) }
{
    let (front, _) = name.rsplit_once('/')?;
    Some(front)
}

// What is read of the files so far.
#[derive(Drop)]
struct Register {
    declared: Vec<Declared>,
    counts: Counts,
    arounds: Items<Around>,
    found: Option<Refusal>,
    room: Room,
    elements: usize,
}

// Reads one file more.
fn read_file(alloc: Global, register: &mut Register, file: u16, tree: &Tree) -> Result<(), Memory>
    ensures declared { OnOk result (register.new.declared.items ≡ register.old.declared.items ++ numbered register.old.counts (declarations_in file tree.now)) }
    ensures counts { OnOk result (register.new.counts ≡ counted_all register.old.counts (declarations_in file tree.now)) }
    ensures arounds { OnOk result (register.new.arounds ≡ register.old.arounds ++ arounds_of tree.now ∷ []) }
    ensures found { OnOk result (register.new.found ≡ first_of register.old.found (least (repeats_in file tree.now))) }
{
    register.elements = register.elements.saturating_add(tree.len());
    let standings = standings_in(alloc, tree)?;
    declare_all(
        alloc,
        &mut register.room,
        &mut register.declared,
        &mut register.counts,
        file,
        tree,
        &standings,
    )?;
    let around = around_of(alloc, &mut register.room, tree, &standings)?;
    register.arounds.push(around)?;
    let here = least_owned(alloc, file, tree, &standings)?;
    register.found = Refusal::first(register.found.take(), here);
    Ok(())
}

// Reads all files.
fn read_files(alloc: Global, trees: &[Tree]) -> Result<Register, Memory>
    requires { length trees.now ≤ 64 }
    ensures declared { IfOk result (λ r. r.declared.items ≡ declared_in trees.now) }
    ensures arounds { IfOk result (λ r. r.arounds ≡ map arounds_of trees.now) }
    ensures found { IfOk result (λ r. r.found ≡ least (repeats_from 0 trees.now)) }
{
    let mut register = Register {
        declared: Vec::new(alloc),
        counts: Counts {
            types: 0,
            faces: 0,
            comps: 0,
        },
        arounds: Items::new(alloc),
        found: None,
        room: Room { left: MOST_KEPT },
        elements: 0,
    };
    for (file, tree) in trees.iter().enumerate() {
        read_file(alloc, &mut register, file as u16, tree)?;
    }
    Ok(register)
}

impl Space {
    /// The names of a sheet, or the first that is given twice: of a second type, interface or component of one qualified
    /// name, or of a second generic, parameter or command, argument, end, variable, activity, machine, state or generic
    /// map of one name in one owner. The refusal stands at the later element and keeps the name that this gives itself.
    #[tactic(auto, unfolding(crate::specs::LookUp::names_in))]
    pub fn build(alloc: Global, trees: &Trees) -> Result<Space, Fail<Refusal>>
        requires { length trees.now ≤ 64 }
        ensures { Answers (λ s. s) result (names_in trees.now) }
    {
        let register = read_files(alloc, trees.as_slice())?;
        let Register {
            declared,
            counts: _,
            arounds,
            found,
            room: _,
            elements,
        } = register;
        let repeated = least_declared(alloc, &declared)?;
        match Refusal::first(repeated, found) {
            Some(refusal) => Err(Fail::Named(refusal)),
            None => {
                let index = index_of(alloc, &declared)?;
                let depths = depths_of(alloc, &declared)?;
                Ok(Space {
                    declared: Items::from_vec(declared),
                    index,
                    arounds,
                    depths: Items::from_vec(depths),
                    most_read: most_read(elements),
                })
            }
        }
    }

    /// All that is declared, in the order of files and elements. No two items have one qualified name.
    pub fn declared(&self) -> &[Declared]
        ensures declared { result.now ≡ self.now.declared }
        ensures differ { NamesDiffer self.now.declared }
    {
        self.declared.as_slice()
    }

    /// How many types are declared.
    pub fn types(&self) -> usize
        ensures { result ≡ count_by (λ d. is_sort d.item) self.now.declared }
    {
        self.declared
            .as_slice()
            .iter()
            .filter(|one| one.item.is_sort())
            .count()
    }

    /// How many interfaces are declared.
    pub fn faces(&self) -> usize
        ensures { result ≡ count_by (λ d. is_face d.item) self.now.declared }
    {
        self.declared
            .as_slice()
            .iter()
            .filter(|one| one.item.is_face())
            .count()
    }

    /// How many components are declared.
    pub fn comps(&self) -> usize
        ensures { result ≡ count_by (λ d. is_comp d.item) self.now.declared }
    {
        self.declared
            .as_slice()
            .iter()
            .filter(|one| one.item.is_comp())
            .count()
    }

    fn item(&self, name: &str) -> Option<Item>
        ensures { result ≡ item_named self.now.declared name.now }
    {
        self.index.get(name).copied()
    }

    fn around(&self, from: Place) -> Option<&str>
        ensures { option_map (λ a. a.now) result ≡ around_at self.now from }
    {
        self.arounds.get(from.file as usize)?.name_at(from.node)
    }

    /// What a reference finds: the first declared item among its text below the component around the place, below the
    /// package, below each shorter front of the package's name that ends before a `/`, and by itself. From a place where
    /// no element stands it is looked up by itself.
    #[tactic(auto, unfolding(crate::specs::LookUp::look_up))]
    pub fn look_up(&self, alloc: Global, from: Place, text: &str) -> Result<Option<Item>, Memory>
        ensures { IfOk result (λ i. i ≡ look_up self.now from text.now) }
    {
        match self.around(from) {
            Some(around) => self.look_up_below(alloc, around, text),
            None => Ok(self.item(text)),
        }
    }

    // Whether a declared name has so many slashes.
    fn is_depth(&self, depth: usize) -> bool
        ensures { (q : List ℕ) → result ≡ false → slashes_of q ≡ depth → item_named self.now.declared q ≡ None }
    {
        self.depths.get(depth).copied().unwrap_or(false)
    }

    // The item of a reference below a name, where both with a slash between them have so many slashes.
    fn item_below(
        &self,
        alloc: Global,
        room: &mut Room,
        front: &str,
        text: &str,
        depth: usize,
    ) -> Result<Option<Item>, Memory>
        requires { slashes_of front.now + 1 + slashes_of text.now ≡ depth }
        ensures { IfOk result (λ i. i ≡ item_named self.now.declared (joined front.now text.now)) }
    {
        if !self.is_depth(depth) {
            return Ok(None);
        }
        let name = join(alloc, room, front, text)?;
        Ok(self.item(name.as_str()))
    }

    fn look_up_below(&self, alloc: Global, around: &str, text: &str) -> Result<Option<Item>, Memory>
        ensures { IfOk result (λ i. i ≡ first_found self.now.declared (candidates (Some around.now) text.now)) }
    {
        let mut room = Room {
            left: self.most_read,
        };
        room.take(around.len())?;
        let mut front = around;
        let mut depth = slashes_joined(around, text)?;
        'fronts: loop {
            let found = self.item_below(alloc, &mut room, front, text, depth)?;
            if found.is_some() {
                return Ok(found);
            }
            match shorter(front) {
                Some(next) => front = next,
                None => return Ok(self.item(text)),
            }
            depth -= 1;
        }
    }
}
