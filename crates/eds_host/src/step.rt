//! What one step of a line did.

/// What one step of a line did: nothing was next, more was next than may happen, or it happened.
#[derive(Clone, Copy)]
pub enum Step {
    Rests,
    Storms,
    Goes,
}
