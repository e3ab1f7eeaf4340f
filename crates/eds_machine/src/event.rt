//! What occurs at a component.

use eds_plan::Primitive;

/// A primitive that arrives, or a moment that comes: of a machine, by its number.
#[derive(Drop)]
pub enum Event {
    Prim(Primitive),
    Timer(u16),
}
