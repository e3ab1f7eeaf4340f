//! Laws of types and values: functions with no body, whose contracts are what was proved.

ghost use Rattle.eds_types.specs.TextValues.{TextsAreValues, TextsPack, ValuesHaveTexts};
ghost use Rattle.eds_types.specs.Laws.{OneSize, HasCanonical, OneCanonical, LeastIsLeast, EmptyTypes, PackingIsDecided};

/// A value that is spelled has exactly one canonical spelling, and all its spellings have as many bits.
pub fn canonical_spelling()
    ensures some { HasCanonical }
    ensures one { OneCanonical }
    ensures size { OneSize }
{}

/// No spelling of a value has fewer bits than the least size of its type.
pub fn least_size()
    ensures { LeastIsLeast }
{}

/// A type has a spelling of no bits exactly where it is hollow, or an open binary.
pub fn empty_types()
    ensures { EmptyTypes }
{}

/// A value has a canonical spelling that isn't too long, or packing it fails at exactly one path for exactly one reason;
/// and not both.
pub fn packing_is_decided()
    ensures { PackingIsDecided }
{}

/// What a text of an attribute stands for is a value of the kind, and packs; and each value that packs has a text.
pub fn texts_of_values()
    ensures values { TextsAreValues }
    ensures packs { TextsPack }
    ensures texts { ValuesHaveTexts }
{}
