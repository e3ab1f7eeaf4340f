//! Faults, as reading hands them out.

ghost use Rattle.std.specs.Prelude.{◌≡◌, []};
ghost use Rattle.eds_unpack.specs.Readers.{stop_at};

use eds_base::{Fail, Fault, Path, Reason};
use std::marker::Model;
use std::mem;

/// What stopped reading, with the path of the fault.
fn stop_at(path: Path, stop: Fail<Reason>) -> Fail<Fault>
    ensures { result ≡ stop_at path stop }
{
    match stop {
        Fail::Named(reason) => Fail::Named(Fault { reason, path }),
        Fail::Memory => Fail::Memory,
    }
}

/// A room for the path of a fault. It is made once and used for any number of calls, one after the other.
#[derive(Drop)]
pub struct FaultRoom {
    // that of the root between two calls
    pub(crate) path: Path,
}

impl Model for FaultRoom {
    ghost use Rattle.std.specs.Prelude.{◌≡◌, []};

    ghost Value = { Unit {0} };

    ghost view = { λ r. tt };

    ghost invariant = { λ r. r.path ≡ [] };
}

impl FaultRoom {
    /// An empty one.
    pub fn new() -> FaultRoom {
        FaultRoom { path: Path::root() }
    }
}

/// What stopped reading, with the path of the fault, which is taken out and is that of the root then.
#[cold]
#[inline(never)]
pub(crate) fn stop_in(path: &mut Path, stop: Fail<Reason>) -> Fail<Fault>
    ensures stop { result ≡ stop_at path.old stop }
    ensures room { path.new ≡ [] }
{
    stop_at(mem::replace(path, Path::root()), stop)
}

/// Makes a path that of the root, after reading stopped.
#[cold]
#[inline(never)]
pub(crate) fn forget(path: &mut Path)
    ensures { path.new ≡ [] }
{
    *path = Path::root();
}
