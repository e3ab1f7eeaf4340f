//! How many slashes the names of a sheet have.

ghost use Rattle.std.specs.Prelude.{◌≡◌, ◌≢◌, ◌+◌, ℕ, List, None, false, IfOk, OnOk};
ghost use Rattle.eds_names.specs.LookUp.{item_named, slashes as slashes_of, is_marked};

use crate::declared::Declared;
use eds_base::Memory;
use std::alloc::Global;

/// How many slashes a name has.
pub(crate) fn slashes(name: &str) -> usize
    ensures { result ≡ slashes_of name.now }
{
    name.as_bytes()
        .iter()
        .filter(|octet| **octet == b'/')
        .count()
}

/// How many slashes two names have with one between them.
pub(crate) fn slashes_joined(first: &str, second: &str) -> Result<usize, Memory>
    ensures { IfOk result (λ n. n ≡ slashes_of first.now + 1 + slashes_of second.now) }
{
    let above = slashes(first).checked_add(1).ok_or(Memory)?;
    let depth = above.checked_add(slashes(second)).ok_or(Memory)?;
    Ok(depth)
}

// Adds a depth to those that are marked.
fn mark(depths: &mut Vec<bool>, depth: usize) -> Result<(), Memory>
    ensures { OnOk result ((k : ℕ) → is_marked depths.new.items k ≡ false → (k ≢ depth) × (is_marked depths.old.items k ≡ false)) }
{
    while depths.len() <= depth {
        depths.push(false)?;
    }
    depths[depth] = true;
    Ok(())
}

/// For each number whether a declared name has so many slashes.
pub(crate) fn depths_of(alloc: Global, declared: &[Declared]) -> Result<Vec<bool>, Memory>
    ensures { IfOk result (λ d. (q : List ℕ) → is_marked d.items (slashes_of q) ≡ false → item_named declared.now q ≡ None) }
{
    let mut depths = Vec::new(alloc);
    for one in declared {
        mark(&mut depths, slashes(one.name.as_str()))?;
    }
    Ok(depths)
}
