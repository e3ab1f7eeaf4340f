//! Laws of the plans of sheets: each is the contract of a function without a body.

ghost use Rattle.eds_read_comp.specs.Laws.{SeenPlansAreAlike};
ghost use Rattle.eds_read_comp.specs.NamedTypes.{PlansCarryNamedTypes};

/// Plans of which a sheet says the same differ at most in the room of their vectors, and so they run alike.
pub fn seen_plans_are_alike()
    ensures { SeenPlansAreAlike }
{}

/// In the plan of a sheet that breaks no rule on interfaces and components each argument of a command has a type that an interface
/// or the map of an end names.
pub fn plans_carry_named_types()
    ensures { PlansCarryNamedTypes }
{}
