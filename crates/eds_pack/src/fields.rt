//! The fields of a container that is packed.

use eds_base::TypeId;
use eds_types::{TypeTable, Value};

/// The values of a container, in the order of its parts, the table that its type is in, and how many types are nested in
/// the container's parts at most.
#[derive(Drop)]
pub(crate) struct Fields<'a> {
    pub table: &'a TypeTable,
    pub depth: u32,
    pub own: TypeId,
    pub values: &'a [Value],
}
