//! The numbers that the constraints and lists of a table ask for.

ghost use Rattle.std.specs.Prelude.{◌≡◌, ◌++◌, ◌∷◌, ◌<◌, ◌≤◌, ℕ, List, [], Some, length, replicate, slice_get, slice_set, OnOk, IfOk, IfSome, IfNone};
ghost use Rattle.std.specs.List.{flat_map, AllByRecursion};
ghost use Rattle.eds_bits.specs.Lists.{HasOne};
ghost use Rattle.eds_overlap.specs.Common.{each_once};
ghost use Rattle.eds_overlap.specs.Pairs.{Steps};
ghost use Rattle.eds_unpack.specs.Asked.{asked, asked_by, asked_in, tails, tellers_of};
ghost use Rattle.eds_unpack.specs.Index.{Among, BeginsIn, HasStep, positions, with_path, with_paths};

use eds_base::{Items, Memory, TypeId};
use eds_overlap::{copied_path, is_same};
use eds_types::{Constraint, EntryPath, Part, TypeTable};
use std::alloc::Global;
use std::marker::Model;

/// The numbers that are asked for, each by its path and at its position, and for each container the positions of those whose
/// paths begin there.
#[derive(Drop)]
pub(crate) struct Notes {
    paths: Vec<EntryPath>,
    own: Vec<Items<u32>>,
}

impl Model for Notes {
    ghost use Rattle.std.specs.Prelude.{List};
    ghost use Rattle.eds_overlap.specs.Pairs.{Steps};
    ghost use Rattle.eds_unpack.specs.Index.{IsIndex};

    ghost Value = { List Steps };

    ghost view = { λ n. n.paths.items };

    ghost invariant = { λ n. IsIndex n.paths.items n.own.items };
}

/// Puts a number last in the list at a place.
fn put_last(lists: &mut [Items<u32>], place: usize, number: u32) -> Result<(), Memory>
    requires { place < length lists.old }
    ensures { (list : List ℕ) → slice_get lists.old place ≡ Some list → OnOk result (lists.new ≡ slice_set lists.old place (list ++ number ∷ [])) }
{
    lists[place].push(number)
}

/// So many empty lists.
fn empty_lists(alloc: Global, count: usize) -> Result<Vec<Items<u32>>, Memory>
    ensures { IfOk result (λ lists. lists.items ≡ replicate count []) }
{
    let mut lists = Vec::with_capacity(alloc, count)?;
    for _ in 0..count {
        lists.push(Items::new(alloc))?;
    }
    Ok(lists)
}

impl Notes {
    /// What all constraints and lists of a table ask for, each number once, where its path comes first. Want of memory also
    /// where they are more than 4,294,967,295, or where a path has no step or begins past the table's types.
    pub(crate) fn of(alloc: Global, table: &TypeTable) -> Result<Notes, Memory>
        ensures { IfOk result (λ n. n ≡ each_once (asked table.now)) }
    {
        let mut notes = Notes::none(alloc, table.len() as usize)?;
        for number in 0..table.len() {
            notes = notes.with_type(alloc, table, TypeId(number))?;
        }
        Ok(notes)
    }

    /// How many there are.
    pub(crate) fn count(&self) -> usize
        ensures value { result ≡ length self.now }
        ensures few { result ≤ 4294967295 }
    {
        self.paths.len()
    }

    /// The path at a position.
    pub(crate) fn path(&self, at: u32) -> &[(TypeId, u16)]
        requires { at < length self.now }
        ensures { slice_get self.now at ≡ Some result.now }
    {
        self.paths[at as usize].as_slice()
    }

    /// The positions of the paths that begin in a container, in order.
    pub(crate) fn own(&self, container: TypeId) -> &[u32]
        ensures value { result.now ≡ positions container.0 self.now }
        ensures sound { AllByRecursion (BeginsIn self.now container) result.now }
        ensures complete { (at place : ℕ) (rest : Steps) → slice_get self.now at ≡ Some ((container, place) ∷ rest) → HasOne (λ n. n ≡ at) result.now }
    {
        self.list_of(container)
    }

    // The list of a container.
    fn list_of(&self, container: TypeId) -> &[u32]
        ensures { result.now ≡ positions container.0 self.now }
    {
        match self.own.get(container.0 as usize) {
            Some(list) => list.as_slice(),
            None => &[],
        }
    }

    /// The position of a path, None exactly where it isn't there.
    pub(crate) fn find(&self, path: &[(TypeId, u16)]) -> Option<u32>
        ensures some { IfSome result (λ at. slice_get self.now at ≡ Some path.now) }
        ensures none { IfNone result (Among self.now path.now → ⊥) }
    {
        let [(container, _), ..] = path else {
            self.has_steps();
            return None;
        };
        for at in self.own(*container) {
            if is_same(self.path(*at), path) {
                return Some(*at);
            }
        }
        None
    }

    // That no path is empty.
    fn has_steps(&self)
        ensures { AllByRecursion HasStep self.now }
    {
        let _ = &self.paths;
    }

    // ---- building

    // None at all, and room for the lists of so many containers.
    fn none(alloc: Global, containers: usize) -> Result<Notes, Memory>
        ensures { IfOk result (λ n. n ≡ []) }
    {
        let own = empty_lists(alloc, containers)?;
        Ok(Notes {
            paths: Vec::new(alloc),
            own,
        })
    }

    // One path more, behind the others.
    fn with_new(self, alloc: Global, path: &[(TypeId, u16)]) -> Result<Notes, Memory>
        ensures { IfOk result (λ n. n ≡ self ++ path.now ∷ []) }
    {
        let [(container, _), ..] = path else {
            return Err(Memory);
        };
        let place = container.0 as usize;
        let Notes { mut paths, mut own } = self;
        let at = paths.len();
        if at >= u32::MAX as usize || place >= own.len() {
            return Err(Memory);
        }
        put_last(own.as_mut_slice(), place, at as u32)?;
        paths.push(copied_path(alloc, path)?)?;
        Ok(Notes { paths, own })
    }

    // One path more, where it isn't there yet.
    fn with_path(self, alloc: Global, path: &[(TypeId, u16)]) -> Result<Notes, Memory>
        ensures { IfOk result (λ n. n ≡ with_path self path.now) }
    {
        match self.find(path) {
            Some(_) => Ok(self),
            None => self.with_new(alloc, path),
        }
    }

    // A path, and what is left of it behind each of its steps but the last.
    fn with_tails(self, alloc: Global, path: &[(TypeId, u16)]) -> Result<Notes, Memory>
        ensures { IfOk result (λ n. n ≡ with_paths self (tails path.now)) }
    {
        let mut notes = self;
        let mut rest = path;
        while let [_, after @ ..] = rest {
            notes = notes.with_path(alloc, rest)?;
            rest = after;
        }
        Ok(notes)
    }

    // What some constraints ask for.
    #[tactic(auto, using(crate::proofs::Indexing::with_append))]
    fn with_constraints(self, alloc: Global, constraints: &[Constraint]) -> Result<Notes, Memory>
        ensures { IfOk result (λ n. n ≡ with_paths self (flat_map asked_by constraints.now)) }
    {
        let mut notes = self;
        for constraint in constraints {
            notes = notes.with_tails(alloc, constraint.path.as_slice())?;
        }
        Ok(notes)
    }

    // What a part asks for.
    fn with_part(self, alloc: Global, part: &Part) -> Result<Notes, Memory>
        ensures { IfOk result (λ n. n ≡ with_paths self (tellers_of part.now)) }
    {
        match part {
            Part::List(_, _, container, place) => {
                let path = [(*container, *place)];
                self.with_path(alloc, &path)
            }
            _ => Ok(self),
        }
    }

    // What some parts ask for.
    #[tactic(auto, using(crate::proofs::Indexing::with_append))]
    fn with_parts(self, alloc: Global, parts: &[Part]) -> Result<Notes, Memory>
        ensures { IfOk result (λ n. n ≡ with_paths self (flat_map tellers_of parts.now)) }
    {
        let mut notes = self;
        for part in parts {
            notes = notes.with_part(alloc, part)?;
        }
        Ok(notes)
    }

    // What a container's own constraints and lists ask for.
    fn with_type(self, alloc: Global, table: &TypeTable, id: TypeId) -> Result<Notes, Memory>
        ensures { IfOk result (λ n. n ≡ with_paths self (asked_in table.now id.0)) }
    {
        self.with_constraints(alloc, table.constraints_of(id))?
            .with_parts(alloc, table.entries_of(id))?
            .with_parts(alloc, table.trailers_of(id))
    }
}
