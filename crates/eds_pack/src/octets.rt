//! Packing into octets of its own.

ghost use Rattle.std.specs.Prelude.{◌≡◌, ◌<◌, ℕ, Ok, Err, length, replicate, IfOk, IfErr};
ghost use Rattle.eds_base.specs.declared.fail.Fail.TheVariants.{Named, Memory};
ghost use Rattle.eds_bits.specs.Bits.{Bits, octets_of};
ghost use Rattle.eds_types.specs.Packing.{PackFault, PackFailsAt};
ghost use Rattle.eds_types.specs.Plain.{plain};
ghost use Rattle.eds_types.specs.Spelling.{Canon};
ghost use Rattle.eds_pack.specs.Packs.{Packs, IfNamed, where_of, fail_at};

use crate::room::write_whole;
use crate::{PackFail, packed_bits};
use eds_base::{Fail, Items, Memory as NoMemory, Octets, TypeId};
use eds_types::{TypeTable, Value, law};
use std::alloc::Global;

// So many octets, all zero.
fn zeros(alloc: Global, count: usize) -> Result<Vec<u8>, NoMemory>
    ensures { IfOk result (λ v. v.items ≡ replicate count 0) }
{
    Ok(vec![in alloc; 0u8; count]?)
}

/// The octets of the canonical spelling of a value of a type, the last filled with zeros, and how many bits the spelling
/// has; or the first fault.
pub fn pack(
    alloc: Global,
    table: &TypeTable,
    id: TypeId,
    value: &Value,
) -> Result<(Octets, u32), Fail<PackFail>>
    requires known { id.0 < length table.now }
    ensures size { IfOk result (λ p. Packs table.now id.0 (plain value.now) p.1) }
    ensures octets { IfOk result (λ p. (b : Bits) → Canon table.now id.0 (plain value.now) b → p.0 ≡ octets_of b) }
    ensures packs { (n : ℕ) → Packs table.now id.0 (plain value.now) n → IfErr result (λ e. e ≡ Memory) }
    ensures fault { IfErr result (λ e. IfNamed (λ f. PackFailsAt table.now id.0 (plain value.now) (where_of f)) e) }
    ensures fails { (g : PackFault) → PackFailsAt table.now id.0 (plain value.now) g → result ≡ Err (Named (fail_at g)) }
{
    table.keeps_rules();
    law::canonical_spelling();
    let size = match packed_bits(table, id, value) {
        Ok(size) => size,
        Err(fail) => return Err(Fail::Named(fail)),
    };
    let mut room = zeros(alloc, size.div_ceil(8) as usize)?;
    write_whole(table, id, value, size, room.as_mut_slice());
    Ok((Items::from_vec(room), size))
}
