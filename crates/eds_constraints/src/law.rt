//! Laws of constraints: functions with no body, whose contracts are what was proved.

ghost use Rattle.eds_constraints.specs.Laws.{ConstraintsKeepRules};

/// Rows that keep the rules on types keep them with the constraints of their containers too, where these break no rule.
pub fn constrained_tables()
    ensures { ConstraintsKeepRules }
{}
