//! Laws of fixed sizes and layouts: functions with no body, whose contracts are what was proved.

ghost use Rattle.eds_layout.specs.Exact.{FixedSizesAre, PartSizesAre, RoundsSuffice};
ghost use Rattle.eds_layout.specs.FixedLaws.{FixedIsSize, SizeIsFixed};
ghost use Rattle.eds_layout.specs.Laws.{HasLayouts, LayoutsTell};
ghost use Rattle.eds_layout.specs.TextLaws.{OneText};
ghost use Rattle.eds_layout.specs.Worked.{WorkedLayouts};

/// Each spelling of a value of a type has its fixed size, if it has one.
pub fn fixed_is_size()
    ensures { FixedIsSize }
{}

/// A type all of whose spellings have one size by its kind has it as its fixed size, unless it is more than a packed value may
/// have.
pub fn size_is_fixed()
    ensures { SizeIsFixed }
{}

/// A type has just the fixed size that its kind and the types nested in it say, and so has a part.
pub fn fixed_sizes_are()
    ensures types { FixedSizesAre }
    ensures parts { PartSizesAre }
{}

/// The definition goes down at most 32 nested types: that more would change nothing.
pub fn rounds_suffice()
    ensures { RoundsSuffice }
{}

/// In every spelling of a value each part stands where the layout of its container says and has the size that it says, all
/// its bits are as many as it says, and each number that a constraint speaks of lies in its set.
pub fn layouts_tell()
    ensures { LayoutsTell }
{}

/// Each type of a table has a layout.
pub fn layouts_are_there()
    ensures { HasLayouts }
{}

/// What some layouts say by the table of the examples.
pub fn worked_layouts()
    ensures { WorkedLayouts }
{}

/// The text of a type's layouts is one, though its sets may be found in any order.
pub fn one_text()
    ensures { OneText }
{}
