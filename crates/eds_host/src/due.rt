//! Moments for which machines wait.

/// A moment for which a machine of a component waits, in nanoseconds.
#[derive(Clone, Copy)]
pub struct Due {
    pub moment: u64,
    pub comp: u32,
    pub machine: u16,
}

/// A moment for which a component waits. Sooner moments come first, and of equal ones those of earlier components.
#[derive(Clone, Copy, PartialEq, Eq, PartialOrd, Ord)]
pub struct When {
    pub moment: u64,
    pub comp: u32,
}
