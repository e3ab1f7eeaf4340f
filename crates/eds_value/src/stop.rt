//! What stops the reading of JSON, seen from further out.

ghost use Rattle.std.specs.Prelude.{◌≡◌, ◌<◌, length};
ghost use Rattle.eds_types.specs.Rows.{chain, list_has};
ghost use Rattle.eds_value.specs.Stops.{IfNamed, stop_behind, stop_behind_entry, stop_inside};

use eds_base::{Fail, Path, Step, TypeId};
use eds_types::TypeTable;

/// The same stop, with its path from one step further out.
pub(crate) fn behind(step: Step, stop: Fail<Path>) -> Fail<Path>
    requires { IfNamed (λ path. length path < 64) stop }
    ensures { result ≡ stop_behind step stop }
{
    match stop {
        Fail::Named(mut path) => {
            path.put_first(step);
            Fail::Named(path)
        }
        Fail::Memory => Fail::Memory,
    }
}

/// The same stop, seen from further out than an entry; the path in an argument begins at its own value.
pub(crate) fn behind_entry(step: Option<Step>, stop: Fail<Path>) -> Fail<Path>
    requires { IfNamed (λ path. length path < 64) stop }
    ensures { result ≡ stop_behind_entry step stop }
{
    match step {
        Some(step) => behind(step, stop),
        None => stop,
    }
}

// Whether a container is of a type: it is the type, or derives from it.
fn is_under(table: &TypeTable, id: TypeId, container: TypeId) -> bool
    ensures { result ≡ list_has (chain table.now container.0) id.0 }
{
    table.chain_of(container).as_slice().contains(&id)
}

/// A stop inside a container, where a type is declared: the path of the whole object, where the container neither is that
/// type nor derives from it.
pub(crate) fn inside(
    table: &TypeTable,
    id: TypeId,
    container: TypeId,
    stop: Fail<Path>,
) -> Fail<Path>
    ensures { result ≡ stop_inside table.now id.0 container.0 stop }
{
    match stop {
        Fail::Named(path) => {
            if is_under(table, id, container) {
                Fail::Named(path)
            } else {
                Fail::Named(Path::root())
            }
        }
        Fail::Memory => Fail::Memory,
    }
}
