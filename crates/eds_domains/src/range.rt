//! The ranges of numbers.

/// An end of a range: what is admitted on its side.
#[derive(Clone, Copy, PartialEq, Eq)]
pub enum End {
    /// No number is beyond it.
    Open,
    /// The last number that is not beyond it.
    Inclusive(i128),
    /// The first number that is beyond it.
    Exclusive(i128),
}

/// The numbers from a lower end to an upper one (CCSDS 876.0-B, minimum and maximum ranges).
#[derive(Clone, Copy, PartialEq, Eq)]
pub struct Range {
    /// The lower end.
    pub low: End,
    /// The upper end.
    pub high: End,
}

/// Any number.
pub const NO_RANGE: Range = Range {
    low: End::Open,
    high: End::Open,
};
