//! Laws of defaults: functions with no body, whose contracts are what was proved.

ghost use Rattle.eds_pack.specs.Laws.{OneDefault};

/// A type has one default at most.
pub fn one_default()
    ensures { OneDefault }
{}
