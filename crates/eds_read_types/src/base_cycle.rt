//! The rule that no type is its own base.

use crate::breaks::{TypeRule, broken};
use eds_base::{Memory, Place, Refusal, Rule};
use eds_type_rows::base_graph::{BaseGraph, is_cyclic};
use std::alloc::Global;

/// No type is its own base.
pub(crate) struct BaseCycle;

impl TypeRule for BaseCycle {
    ghost use Rattle.eds_read_types.specs.BaseCycle.{cycle_at};

    ghost breaks = { λ trees places bases. cycle_at bases };

    fn least_at(
        _: Global,
        graph: &BaseGraph,
        id: usize,
        at: Place,
    ) -> Result<Option<Refusal>, Memory> {
        if is_cyclic(graph, id) {
            Ok(Some(broken(Rule::BaseCycle, at)))
        } else {
            Ok(None)
        }
    }
}
