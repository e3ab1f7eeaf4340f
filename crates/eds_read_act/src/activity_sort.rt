//! What the elements of activities and machines are, told by their names.

ghost use Rattle.std.specs.Prelude.{◌≡◌};
ghost use Rattle.eds_read_act.specs.ActivitySorts.{inner_sort_of, statement_sort_of, sort_of, sort_at, is_operand};

use eds_tree::Tree;

/// What an element of an activity, a guard or an action is (CCSDS 876.0-B, activities and state machines).
#[derive(Clone, Copy, PartialEq, Eq)]
pub(crate) enum ActivitySort {
    Value,
    VariableRef,
    ArgumentRef,
    /// What a call or a command gives for an argument.
    ArgumentValue,
    Assignment,
    Calculation,
    Operator,
    Choice,
    Comparison,
    /// All of some conditions.
    Every,
    /// One of some conditions.
    Some,
    Iteration,
    /// Where an iteration starts or ends.
    Bound,
    Step,
    Call,
    /// What a machine does: where a state is entered or left, or in a transition. Also the statements of an iteration.
    Action,
    SendCommand,
    SendParameter,
    Other,
}

/// What an element of a name is that stands inside a statement.
#[tactic(auto, unfolding(crate::specs::ActivitySorts::inner_sort_of))]
fn inner_sort_of(name: &str) -> ActivitySort
    ensures { result ≡ inner_sort_of name.now }
{
    if name == "Operator" {
        ActivitySort::Operator
    } else if name == "Comparison" {
        ActivitySort::Comparison
    } else if name == "ANDedConditions" {
        ActivitySort::Every
    } else if name == "ORedConditions" {
        ActivitySort::Some
    } else if name == "StartAt" || name == "EndAt" {
        ActivitySort::Bound
    } else if name == "Step" {
        ActivitySort::Step
    } else {
        ActivitySort::Other
    }
}

/// What an element of a name is: a statement, or what stands inside one.
#[tactic(auto, unfolding(crate::specs::ActivitySorts::statement_sort_of))]
fn statement_sort_of(name: &str) -> ActivitySort
    ensures { result ≡ statement_sort_of name.now }
{
    if name == "Assignment" {
        ActivitySort::Assignment
    } else if name == "MathOperation" {
        ActivitySort::Calculation
    } else if name == "Conditional" {
        ActivitySort::Choice
    } else if name == "Iteration" {
        ActivitySort::Iteration
    } else if name == "Call" {
        ActivitySort::Call
    } else if name == "SendCommandPrimitive" {
        ActivitySort::SendCommand
    } else if name == "SendParameterPrimitive" {
        ActivitySort::SendParameter
    } else {
        inner_sort_of(name)
    }
}

/// What an element of a name is: an operand, an argument, an action, or what stands in an action.
#[tactic(auto, unfolding(crate::specs::ActivitySorts::sort_of))]
pub(crate) fn sort_of(name: &str) -> ActivitySort
    ensures { result ≡ sort_of name.now }
{
    if name == "Value" {
        ActivitySort::Value
    } else if name == "VariableRef" {
        ActivitySort::VariableRef
    } else if name == "ArgumentRef" {
        ActivitySort::ArgumentRef
    } else if name == "ArgumentValue" {
        ActivitySort::ArgumentValue
    } else if name == "OnEntry" || name == "OnExit" || name == "Do" {
        ActivitySort::Action
    } else {
        statement_sort_of(name)
    }
}

/// What the element of a number is.
pub(crate) fn sort_at(tree: &Tree, node: u32) -> ActivitySort
    ensures { result ≡ sort_at tree.now node }
{
    sort_of(tree.name_at(node))
}

impl ActivitySort {
    ghost use Rattle.std.specs.Prelude.{◌≡◌};
    ghost use Rattle.eds_read_act.specs.ActivitySorts.{is_operand};

    /// Whether it is an operand: a value, or a reference to a variable or to an argument.
    pub(crate) fn is_operand(self) -> bool
        ensures { result ≡ is_operand self }
    {
        match self {
            ActivitySort::Value | ActivitySort::VariableRef | ActivitySort::ArgumentRef => true,
            _ => false,
        }
    }
}
