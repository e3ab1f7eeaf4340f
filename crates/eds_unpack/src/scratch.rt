//! Room for what a program keeps as it reads.

ghost use Rattle.std.specs.Prelude.{◌≡◌, IfOk};
ghost use Rattle.eds_unpack.specs.Asked.{slots_of};

use crate::fault::FaultRoom;
use crate::program::Program;
use eds_base::Memory;
use std::alloc::Global;
use std::marker::Model;

/// Slots for the numbers that constraints and lists ask for, one for each, and a room for the path of a fault. It is made once
/// and used for any number of calls, one after the other: what it held before matters to none.
#[derive(Drop)]
pub struct Scratch {
    pub(crate) numbers: Vec<Option<i128>>,
    pub(crate) fault: FaultRoom,
}

impl Model for Scratch {
    ghost use Rattle.std.specs.Prelude.{◌≤◌, ℕ, length};

    ghost Value = { ℕ };

    ghost view = { λ s. length s.numbers.items };

    ghost invariant = { λ s. length s.numbers.items ≤ 4294967295 };
}

impl Scratch {
    /// A scratch with as many slots as a program has. Want of memory where there is no room for them.
    pub fn for_program(alloc: Global, program: &Program<'_>) -> Result<Scratch, Memory>
        ensures { IfOk result (λ s. s ≡ slots_of program.now.table) }
    {
        let slots = program.slots() as usize;
        let numbers = vec![in alloc; None; slots]?;
        let fault = FaultRoom::new();
        Ok(Scratch { numbers, fault })
    }

    /// How many slots it has.
    pub fn slots(&self) -> u32
        ensures { result ≡ self.now }
    {
        self.numbers.len() as u32
    }
}
