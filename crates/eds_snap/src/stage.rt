//! How far a snapshot is read.

ghost use Rattle.std.specs.Prelude.{◌≡◌};
ghost use Rattle.eds_snap.specs.Seen.{said_of};
ghost use Rattle.eds_snap.specs.Order.{in_order as order_of, state_order};

use crate::words::Saying;

/// Which lines may come next: the first one, the time, wires and what stands behind them, or what stands behind wires alone.
#[derive(Clone, Copy, Debug, PartialEq, Eq)]
pub(crate) enum Stage {
    First,
    Time,
    Wires,
    States,
}

/// Which lines may come behind a line, where it stands in order.
pub(crate) fn in_order(stage: Stage, saying: &Saying<'_>) -> Option<Stage>
    ensures { result ≡ order_of stage (said_of saying.now) }
{
    match saying {
        Saying::Begins => match stage {
            Stage::First => Some(Stage::Time),
            Stage::Time => None,
            Stage::Wires => None,
            Stage::States => None,
        },
        Saying::Ends(_) => match stage {
            Stage::First => None,
            Stage::Time => Some(Stage::Wires),
            Stage::Wires => None,
            Stage::States => None,
        },
        Saying::Ties(_, _) => match stage {
            Stage::First => None,
            Stage::Time => None,
            Stage::Wires => Some(Stage::Wires),
            Stage::States => None,
        },
        Saying::Stands(_, _, _, _, _) => state_order(stage),
        Saying::Holds(_, _, _) => state_order(stage),
        Saying::Waits(_, _, _) => state_order(stage),
    }
}

// Which lines may come behind one of a state.
fn state_order(stage: Stage) -> Option<Stage>
    ensures { result ≡ state_order stage }
{
    match stage {
        Stage::First => None,
        Stage::Time => None,
        Stage::Wires => Some(Stage::States),
        Stage::States => Some(Stage::States),
    }
}
