//! The table of all types.

ghost use Rattle.std.specs.Prelude.{◌≡◌, ◌++◌, ◌<◌, ◌≤◌, Some, length, map, reverse, slice_get, OnOk, IfOk};
ghost use Rattle.std.specs.List.{flat_map};
ghost use Rattle.std.specs.Option.{option_copied};
ghost use Rattle.eds_types.specs.Rows.{id_of, chain, family, address, entry_places, trailer_places, sequence, container_of, entries_of, trailers_of, constraints_of, is_concrete};
ghost use Rattle.eds_types.specs.Fields.{part_at};
ghost use Rattle.eds_types.specs.Domains.{int_domain};
ghost use Rattle.eds_types.specs.LeastSize.{least_size};
ghost use Rattle.eds_types.specs.Rules.{KeepsRules};

use crate::family::families_of;
use crate::sequence::push_places;
use crate::sizes::{size_in, sizes_of};
use crate::{Chain, Constraint, Container, Part, Sequence, TypeRow, TypeRows, look};
use eds_base::{Items, Memory, Spans, TypeId};
use std::alloc::Global;
use std::marker::Model;

/// All types of a sheet, which keep the rules on types. A type's id is the position of its row.
#[derive(Drop)]
pub struct TypeTable {
    rows: TypeRows,
    // the least size of each type, in bits
    sizes: Items<u32>,
    // the concrete containers at or under each type
    families: Items<Items<TypeId>>,
}

impl Model for TypeTable {
    ghost use Rattle.std.specs.Prelude.{List};
    ghost use Rattle.eds_types.specs.declared.row.TypeRow.{TypeRow};
    ghost use Rattle.eds_types.specs.contracts.value.Value as value;
    ghost use Rattle.eds_types.specs.Stored.{IsStored};
    ghost use Rattle.std.specs.Coded.{codes};

    ghost Value = { List TypeRow };

    ghost coded = { Prim.hlevel (codes, value.the_row.coded) };

    ghost view = { λ t. t.rows };

    ghost invariant = { λ t. IsStored t.rows t.sizes t.families };
}

impl TypeTable {
    /// The table of rows that keep the rules on types: bases, parts and constraints name what is there, chains and
    /// nesting end within their limits, and each type, part and constraint is one that the profile admits.
    pub fn of(alloc: Global, rows: TypeRows) -> Result<TypeTable, Memory>
        requires { KeepsRules rows }
        ensures { IfOk result (λ t. t ≡ rows) }
    {
        let sizes = sizes_of(alloc, rows.as_slice())?;
        let families = families_of(alloc, rows.as_slice())?;
        Ok(TypeTable {
            rows,
            sizes,
            families,
        })
    }

    /// The rules that the types keep.
    pub fn keeps_rules(&self)
        ensures { KeepsRules self.now }
    {
        let _ = &self.rows;
    }

    /// How many types there are: their ids are the numbers below.
    pub fn len(&self) -> u32
        ensures { result ≡ length self.now }
    {
        self.rows.len() as u32
    }

    /// The row of a type.
    pub fn row(&self, id: TypeId) -> &TypeRow
        requires { id.0 < length self.now }
        ensures { slice_get self.now id.0 ≡ Some result.now }
    {
        &self.rows.as_slice()[id.0 as usize]
    }

    /// The rows, each at the number of its type.
    pub fn rows(&self) -> &[TypeRow]
        ensures { result.now ≡ self.now }
    {
        self.rows.as_slice()
    }

    /// The container of a type, None exactly where the type is no container.
    pub fn container_of(&self, id: TypeId) -> Option<&Container>
        ensures { option_copied result ≡ container_of self.now id.0 }
    {
        look::container_of(self.rows.as_slice(), id)
    }

    /// The entries of a container; any other type has none.
    pub fn entries_of(&self, id: TypeId) -> &[Part]
        ensures value { result.now ≡ entries_of self.now id.0 }
        ensures few { length result.now ≤ 32767 }
    {
        look::entries_of(self.rows.as_slice(), id)
    }

    /// The trailers of a container; any other type has none.
    pub fn trailers_of(&self, id: TypeId) -> &[Part]
        ensures value { result.now ≡ trailers_of self.now id.0 }
        ensures few { length result.now ≤ 32767 }
    {
        look::trailers_of(self.rows.as_slice(), id)
    }

    /// The part at a position among a container's entries and then its trailers, None exactly where there is none.
    pub fn part_at(&self, id: TypeId, place: u16) -> Option<&Part>
        ensures { option_copied result ≡ part_at self.now (id, place) }
    {
        look::part_at(self.rows.as_slice(), id, place)
    }

    /// A container's own constraints; any other type has none.
    pub fn constraints_of(&self, id: TypeId) -> &[Constraint]
        ensures { result.now ≡ constraints_of self.now id.0 }
    {
        look::constraints_of(self.rows.as_slice(), id)
    }

    /// Whether the type is a container that isn't abstract.
    pub fn is_concrete(&self, id: TypeId) -> bool
        ensures { result ≡ is_concrete self.now id.0 }
    {
        look::is_concrete(self.rows.as_slice(), id)
    }

    /// The types from the root of its bases down to the type itself.
    pub fn chain_of(&self, id: TypeId) -> Chain
        ensures { result ≡ map id_of (chain self.now id.0) }
    {
        look::chain_of(self.rows.as_slice(), id)
    }

    /// The family of a type: the concrete containers at or under it, in the order of their numbers.
    pub fn family_of(&self, id: TypeId) -> &[TypeId]
        ensures { result.now ≡ map id_of (family self.now id.0) }
    {
        match self.families.get(id.0 as usize) {
            Some(family) => family.as_slice(),
            None => &[],
        }
    }

    fn push_entries(&self, sequence: &mut Sequence, chain: &[TypeId]) -> Result<(), Memory>
        ensures { OnOk result (sequence.new ≡ sequence.old ++ flat_map (entry_places self.now) chain.now) }
    {
        for id in chain {
            push_places(sequence, *id, 0, self.entries_of(*id))?;
        }
        Ok(())
    }

    fn push_trailers(&self, sequence: &mut Sequence, chain: &[TypeId]) -> Result<(), Memory>
        requires { length chain.now ≤ 16 }
        ensures { OnOk result (sequence.new ≡ sequence.old ++ flat_map (trailer_places self.now) (reverse chain.now)) }
    {
        let mut rest = chain;
        while let [before @ .., id] = rest {
            let first = self.entries_of(*id).len() as u16;
            push_places(sequence, *id, first, self.trailers_of(*id))?;
            rest = before;
        }
        Ok(())
    }

    /// The places of a container's parts, in the order of their bits: the entries of its chain from the root down, then
    /// the trailers from the container up to the root. Any other type has none.
    pub fn sequence_of(&self, alloc: Global, id: TypeId) -> Result<Sequence, Memory>
        ensures { IfOk result (λ s. s ≡ map address (sequence self.now id.0)) }
    {
        let chain = self.chain_of(id);
        let mut sequence = Sequence::new(alloc);
        self.push_entries(&mut sequence, chain.as_slice())?;
        self.push_trailers(&mut sequence, chain.as_slice())?;
        Ok(sequence)
    }

    /// The numbers of an integer type or sub-range, None exactly for any other type.
    pub fn domain_of(&self, id: TypeId) -> Option<&Spans>
        ensures { option_copied result ≡ int_domain self.now id.0 }
    {
        look::domain_of(self.rows.as_slice(), id)
    }

    /// The least size of a type, in bits: no value has a smaller one. It is 524,289 where there is no value, or only
    /// larger ones.
    pub fn min_bits(&self, id: TypeId) -> u32
        ensures { result ≡ least_size self.now id.0 }
    {
        size_in(self.sizes.as_slice(), id)
    }
}
