//! A type of a table, made ready to read values of it.

ghost use Rattle.eds_base.specs.declared.fault.Fault.{Fault};
ghost use Rattle.std.specs.Prelude.{◌≡◌, ◌++◌, ◌<◌, ◌≤◌, length, take, IfErr, IfOk};
ghost use Rattle.eds_bits.specs.Bits.{Bits};
ghost use Rattle.eds_bits.specs.Reader.{view_bits};
ghost use Rattle.eds_overlap.specs.Common.{each_once};
ghost use Rattle.eds_types.specs.Failing.{FailsAt};
ghost use Rattle.eds_types.specs.Overlap.{IsClear};
ghost use Rattle.eds_types.specs.Plain.{Plain, plain};
ghost use Rattle.eds_types.specs.Rules.{KeepsRules};
ghost use Rattle.eds_types.specs.Spelling.{Spells};
ghost use Rattle.eds_unpack.specs.Answers.{IsOfReading, IsValue, IsFault, IfFault, IsRecognised, IsOnlyFault};
ghost use Rattle.eds_unpack.specs.Asked.{asked, slots_of};
ghost use Rattle.eds_unpack.specs.Walks.{type_of};

use crate::notes::Notes;
use crate::recognise::recognise_front;
use crate::scratch::Scratch;
use crate::segments::Segments;
use crate::whole::{unpack_by, unpack_in};
use eds_base::{Fail, Fault, Memory, TypeId};
use eds_bits::BitView;
use eds_overlap::law::reading_is_exact;
use eds_types::{TypeTable, Value};
use std::alloc::Global;
use std::marker::Model;

/// A type, made ready to read values of it. It refers to its table.
#[derive(Drop)]
pub struct Program<'a> {
    table: &'a TypeTable,
    id: TypeId,
    // the numbers that constraints and lists of the table ask for
    notes: Notes,
    // how containers are read whose entries are scalars at fixed places
    segments: Segments<'a>,
}

impl<'a> Model for Program<'a> {
    ghost use Rattle.eds_types.specs.contracts.value.Value as value;
    ghost use Rattle.eds_unpack.specs.Programs.{TypeIn, IsReady};
    ghost use Rattle.std.specs.Coded.{codes};

    ghost Value = { TypeIn };

    ghost coded = { Prim.hlevel (codes, value.the_row.coded) };

    ghost view = { λ p. record { table = p.table.now; id = p.id.0 } };

    ghost invariant = { λ p. IsReady p.table.now p.id.0 p.notes p.segments };
}

impl<'a> Program<'a> {
    /// The program of a type: what the constraints and lists of its whole table ask for is gathered once, and how its
    /// containers are read whose entries are scalars at fixed places.
    pub fn build(alloc: Global, table: &'a TypeTable, id: TypeId) -> Result<Program<'a>, Memory>
        requires { id.0 < length table.now }
        ensures { IfOk result (λ p. p ≡ record { table = table.now; id = id.0 }) }
    {
        let notes = Notes::of(alloc, table)?;
        let segments = Segments::of(alloc, table)?;
        Ok(Program {
            table,
            id,
            notes,
            segments,
        })
    }

    /// That its type is one of its table, which keeps the rules on types.
    pub(crate) fn is_known(&self)
        ensures rules { KeepsRules self.now.table }
        ensures there { self.now.id < length self.now.table }
    {
        self.table.keeps_rules();
    }

    /// The numbers that constraints and lists of its table ask for.
    pub(crate) fn notes(&self) -> &Notes
        ensures { result.now ≡ each_once (asked self.now.table) }
    {
        &self.notes
    }

    /// How many numbers the constraints and lists of its table ask for: so many slots a scratch has to have at least.
    pub fn slots(&self) -> u32
        ensures { result ≡ slots_of self.now.table }
    {
        self.notes.count() as u32
    }

    /// The value that the bits of a view begin with, and how many bits it takes, exactly as `unpack` gives them for the
    /// program's table and type. The scratch has at least as many slots as the program, and it may be used for any number of
    /// calls, one after the other. A fault is the one at which reading fails.
    pub fn read(
        &self,
        alloc: Global,
        scratch: &mut Scratch,
        view: BitView,
    ) -> Result<(Value, u32), Fail<Fault>>
        requires slots { slots_of self.now.table ≤ scratch.old }
        requires clear { IsClear self.now.table self.now.id }
        requires most { length (view_bits view) ≤ 524288 }
        ensures room { scratch.new ≡ scratch.old }
        ensures size { IfOk result (λ x. x.1 ≤ length (view_bits view.entry)) }
        ensures value { IfOk result (λ x. Spells self.now.table self.now.id (plain x.0) (take x.1 (view_bits view.entry))) }
        ensures only_value { (v : Plain) (c rest : Bits) → view_bits view.entry ≡ c ++ rest → Spells self.now.table self.now.id v c → IsValue v (length c) result }
        ensures fault { IfFault (FailsAt self.now.table self.now.id (view_bits view.entry)) result }
        ensures only_fault { (g : Fault) → FailsAt self.now.table self.now.id (view_bits view.entry) g → IsFault g result }
        ensures reason { IfFault (λ (g : Fault). IsOfReading g.reason) result }
    {
        unpack_in(
            alloc,
            self.table,
            &self.segments,
            self.id,
            view,
            &mut scratch.fault,
        )
    }

    /// Which container the bits of a view begin with, and how many bits it takes: the most derived one of the value that they
    /// spell, or the program's type, where that is no container. It takes no memory: it passes over the value, and the
    /// scratch, which has at least as many slots as the program, may be used for any number of calls, one after the other. A
    /// fault is the one at which reading fails.
    pub fn recognise(&self, scratch: &mut Scratch, view: BitView) -> Result<(TypeId, u32), Fault>
        requires slots { slots_of self.now.table ≤ scratch.old }
        requires clear { IsClear self.now.table self.now.id }
        requires most { length (view_bits view) ≤ 524288 }
        ensures size { IfOk result (λ x. x.1 ≤ length (view_bits view.entry)) }
        ensures value { IfOk result (λ x. (v : Plain) × Spells self.now.table self.now.id v (take x.1 (view_bits view.entry)) × (type_of self.now.id v ≡ (x.0).0)) }
        ensures only_value { (v : Plain) (c rest : Bits) → view_bits view.entry ≡ c ++ rest → Spells self.now.table self.now.id v c → IsRecognised (type_of self.now.id v) (length c) result }
        ensures fault { IfErr result (FailsAt self.now.table self.now.id (view_bits view.entry)) }
        ensures only_fault { (g : Fault) → FailsAt self.now.table self.now.id (view_bits view.entry) g → IsOnlyFault g result }
        ensures reason { IfErr result (λ (g : Fault). IsOfReading g.reason) }
        ensures room { scratch.new ≡ scratch.old }
    {
        self.table.keeps_rules();
        reading_is_exact();
        recognise_front(
            self.table,
            &self.segments,
            &self.notes,
            self.id,
            scratch.numbers.as_mut_slice(),
            view,
        )
    }

    /// The value as `read` gives it, with no scratch.
    pub(crate) fn value_of(&self, alloc: Global, view: BitView) -> Result<(Value, u32), Fail<Fault>>
        requires clear { IsClear self.now.table self.now.id }
        requires most { length (view_bits view) ≤ 524288 }
        ensures size { IfOk result (λ x. x.1 ≤ length (view_bits view.entry)) }
        ensures value { IfOk result (λ x. Spells self.now.table self.now.id (plain x.0) (take x.1 (view_bits view.entry))) }
        ensures only_value { (v : Plain) (c rest : Bits) → view_bits view.entry ≡ c ++ rest → Spells self.now.table self.now.id v c → IsValue v (length c) result }
        ensures fault { IfFault (FailsAt self.now.table self.now.id (view_bits view.entry)) result }
        ensures only_fault { (g : Fault) → FailsAt self.now.table self.now.id (view_bits view.entry) g → IsFault g result }
        ensures reason { IfFault (λ (g : Fault). IsOfReading g.reason) result }
    {
        unpack_by(alloc, self.table, &self.segments, self.id, view)
    }
}
