//! The law of packed sizes: a function with no body, whose contract is what was proved.

ghost use Rattle.eds_types.specs.PackedSizes.{SizesAreExact};

/// What one pass over a value finds is the size of its canonical spelling, or the fault that is there; and each such size
/// and each such fault is what it finds.
pub fn packed_sizes()
    ensures { SizesAreExact }
{}
