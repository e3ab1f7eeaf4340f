//! How a line went.

/// How a line went.
#[derive(Clone, Copy, PartialEq, Eq)]
pub enum Handled {
    /// Everything that it has happen happened.
    Done,
    /// More than 10,000 deliveries and firings would have followed from it, or from an earlier line.
    Storm,
}
