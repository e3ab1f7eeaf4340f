//! The laws of values and bits: functions with no body, whose contracts are what was proved.
//! Those of types and values alone are offered here again.

ghost use Rattle.std.specs.Prelude.{◌≡◌, ℕ, None};
ghost use Rattle.eds_types.specs.Overlap.{IsClear};
ghost use Rattle.eds_types.specs.Rules.{KeepsRules};
ghost use Rattle.eds_types.specs.Sizes.{open_of};
ghost use Rattle.eds_overlap.specs.Example.{example, WorkedFrames, WorkedPacking, WorkedTails};
ghost use Rattle.eds_overlap.specs.FirstOverlap.{OverlapsAreFound};
ghost use Rattle.eds_overlap.specs.Laws.{ReadingIsExact, SpellingIsCourse, OneOutcome, OneReading, FaultsStay, BoundsSuffice, SameValue, PackedIsRead, ReadIsPacked};
ghost use Rattle.eds_overlap.specs.Underived.{UnderivedAreClear};
ghost use Rattle.eds_overlap.specs.Used.{UsedAreClear};

pub use eds_types::law::{canonical_spelling, empty_types, least_size, packing_is_decided};

/// What the left-to-right reading function gives is a value with its spelling in front of the rest, or a fault that is
/// there; and each such value and each such fault is what it gives.
pub fn reading_is_exact()
    ensures { ReadingIsExact }
{}

/// Each list of bits begins with the spelling of exactly one value, or reading it fails at exactly one path for exactly one
/// reason; and not both.
pub fn one_outcome()
    ensures { OneOutcome }
{}

/// Where one spelling begins another one, both are the same spelling of the same value.
pub fn one_reading()
    ensures { OneReading }
{}

/// A fault other than too few bits stays the same, whatever bits are appended.
pub fn faults_stay()
    ensures { FaultsStay }
{}

/// Bits spell the fields of a container exactly where they pass its whole course, in which a tail has the size that the
/// length entry leaves it.
pub fn spelling_is_course()
    ensures { SpellingIsCourse }
{}

/// The definitions go up at most 16 types of a chain and down at most 32 nested types: that more would change nothing.
pub fn bounds_suffice()
    ensures { BoundsSuffice }
{}

/// Two lists of bits that are read have the same value exactly where the canonical spellings of their values are equal.
pub fn same_value()
    ensures { SameValue }
{}

/// What is packed is read again, whatever bits follow; and what is read packs again, to as many bits.
pub fn there_and_back()
    ensures packed { PackedIsRead }
    ensures read { ReadIsPacked }
{}

/// The table of the examples keeps the rules, and no two of its containers overlap: so each law speaks of some values.
pub fn example_keeps_the_rules()
    ensures rules { KeepsRules example }
    ensures clear { (id : ℕ) → open_of example id ≡ None → IsClear example id }
{}

/// What some frames say by the table of the examples.
pub fn worked_frames()
    ensures { WorkedFrames }
{}

/// What some frames with a tail say: it has the size that the length entry tells, or the length entry is refused.
pub fn worked_tails()
    ensures { WorkedTails }
{}

/// Where and why some values don't pack by the table of the examples.
pub fn worked_packing()
    ensures { WorkedPacking }
{}

/// Where no container derives from another one, each type but an open binary is clear.
pub fn underived_are_clear()
    ensures { UnderivedAreClear }
{}

/// Where no two containers overlap under the used types of a table, among which are all types that it names but open
/// binaries, each used type and each that is reached from one is clear, open binaries excepted.
pub fn used_are_clear()
    ensures { UsedAreClear }
{}

/// The function that works out the first two containers that overlap finds what the relations of overlap say, and finds
/// nothing only where there is nothing; and so does the one for the least number that constraints leave on a path.
pub fn overlaps_are_found()
    ensures { OverlapsAreFound }
{}
