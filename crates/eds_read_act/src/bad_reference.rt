//! The rule that what an element of an activity, a guard or an action names is there, and may be written where it is written.

ghost use Rattle.std.specs.Prelude.{◌≡◌, IfOk, slice_get, is_none};
ghost use Rattle.std.specs.List.{list_any};
ghost use Rattle.std.specs.Option.{option_copied};
ghost use Rattle.eds_base.specs.Refusals.{least};
ghost use Rattle.eds_read_act.specs.Inside.{given_for as given_in};
ghost use Rattle.eds_read_act.specs.Given.{TellsGiven};
ghost use Rattle.eds_read_act.specs.Operands.{found_at as found_in};
ghost use Rattle.eds_read_act.specs.Scopes.{scope_of};
ghost use Rattle.eds_read_act.specs.BadReference.{output_of as output_in, iterator_of as iterator_in, is_read_only as read_only_in, is_unwritable as unwritable_in, lacks_some as lacks_in, is_ungiven, is_the, is_stray as stray_in, is_unsendable as unsendable_in, calls as calls_in, is_bad as bad_in, broken_if as breaks_if, bad_reference_at, bad_references};

use crate::activity_sort::{ActivitySort, sort_at};
use crate::fields::Fields;
use crate::given::Given;
use crate::inside::{given_for, text_at};
use crate::naming::{Found, variable_in, variable_named};
use crate::operand::found_at;
use crate::scope::Scope;
use crate::sending::{Held, parameter_of, taken_at};
use crate::variable::VariableHead;
use eds_base::{Kept, Memory, Place, Refusal, Rule, Text, TypeId};
use eds_tree::{Link, Tree};
use std::alloc::Global;

/// The variable of an output, or of an entry of it.
pub(crate) fn output_of(alloc: Global, scope: &Scope, node: u32) -> Result<Option<Found>, Memory>
    ensures { IfOk result (λ f. f ≡ output_in (scope_of scope.now) node) }
{
    let text = text_at(scope.tree, node, "outputVariableRef");
    variable_in(alloc, scope.table, scope.component, text)
}

/// The variable that an iteration sets.
pub(crate) fn iterator_of(alloc: Global, scope: &Scope, node: u32) -> Option<Found>
    ensures { result ≡ iterator_in (scope_of scope.now) node }
{
    variable_named(
        alloc,
        scope.component,
        text_at(scope.tree, node, "iteratorVariableRef"),
    )
}

fn is_read_only(variables: &[VariableHead], at: u16) -> bool
    ensures { result ≡ read_only_in (slice_get variables.now at) }
{
    variables
        .get(at as usize)
        .is_some_and(|variable| variable.read_only)
}

fn is_unwritable(variables: &[VariableHead], found: Option<Found>) -> bool
    ensures { result ≡ unwritable_in variables.now found }
{
    found.is_none_or(|found| is_read_only(variables, found.at))
}

fn lacks_one(tree: &Tree, given: &Given, fields: &[(Text, TypeId)]) -> bool
    requires { TellsGiven tree.now given.now }
    ensures { result ≡ list_any (is_ungiven tree.now given.now.holder) fields.now }
{
    for field in fields {
        if given.first(tree, field.0.as_str()).is_none() {
            return true;
        }
    }
    false
}

fn lacks_some(alloc: Global, tree: &Tree, node: u32, taken: Option<&Fields>) -> Result<bool, Memory>
    ensures { IfOk result (λ b. b ≡ lacks_in tree.now node (option_copied taken.entry)) }
{
    match taken {
        None => Ok(true),
        Some(fields) => {
            let given = Given::of(alloc, tree, node)?;
            Ok(lacks_one(tree, &given, fields.as_slice()))
        }
    }
}

// The first element beside this one that gives the same argument its value; `given` has those of one parent at hand.
fn first_beside(tree: &Tree, given: &Given, link: Link, name: &str) -> Option<u32>
    requires { TellsGiven tree.now given.now }
    ensures { result ≡ given_in tree.now link.parent name.now }
{
    if given.holder == link.parent {
        given.first(tree, name)
    } else {
        given_for(tree, link.parent, name)
    }
}

fn is_first_given(tree: &Tree, given: &Given, link: Link, name: &str) -> bool
    requires { TellsGiven tree.now given.now }
    ensures { result ≡ is_the (given_in tree.now link.parent name.now) link.node }
{
    first_beside(tree, given, link, name).is_some_and(|first| first == link.node)
}

fn is_stray(tree: &Tree, given: &Given, link: Link, taken: Option<&Fields>) -> bool
    requires { TellsGiven tree.now given.now }
    ensures { result ≡ stray_in tree.now link (option_copied taken.entry) }
{
    match taken {
        None => false,
        Some(fields) => {
            let name = text_at(tree, link.node, "name");
            if fields.type_of(name).is_some() {
                !is_first_given(tree, given, link, name)
            } else {
                true
            }
        }
    }
}

fn is_unsendable(operation: &str, held: Option<Held>) -> bool
    ensures { result ≡ unsendable_in operation.now held }
{
    held.is_none_or(|held| held.required && held.read_only && operation == "set")
}

fn calls(tree: &Tree, link: Link) -> bool
    ensures { result ≡ calls_in tree.now link }
{
    tree.name_at(link.parent) != "Iteration"
}

fn is_missing(alloc: Global, scope: &Scope, node: u32) -> Result<bool, Memory>
    ensures { IfOk result (λ b. b ≡ is_none (found_in (scope_of scope.now) node)) }
{
    let found = found_at(alloc, scope, node)?;
    Ok(found.is_none())
}

/// Whether an element names what is not there or may not be written, or an argument is not given just once; `given` has at hand what
/// the children of one element give.
pub(crate) fn is_bad(
    alloc: Global,
    scope: &Scope,
    given: &Given,
    link: Link,
) -> Result<bool, Memory>
    requires { TellsGiven scope.now.tree.now given.now }
    ensures { IfOk result (λ b. b ≡ bad_in (scope_of scope.now) link) }
{
    let node = link.node;
    match sort_at(scope.tree, node) {
        ActivitySort::VariableRef => is_missing(alloc, scope, node),
        ActivitySort::ArgumentRef => {
            if scope.arguments.is_some() {
                is_missing(alloc, scope, node)
            } else {
                Ok(false)
            }
        }
        ActivitySort::Assignment | ActivitySort::Calculation => {
            let output = output_of(alloc, scope, node)?;
            Ok(is_unwritable(scope.component.variables, output))
        }
        ActivitySort::Iteration => {
            let iterator = iterator_of(alloc, scope, node);
            Ok(is_unwritable(scope.component.variables, iterator))
        }
        ActivitySort::Call | ActivitySort::SendCommand => {
            lacks_some(alloc, scope.tree, node, taken_at(scope, node))
        }
        ActivitySort::Action => {
            if calls(scope.tree, link) {
                lacks_some(alloc, scope.tree, node, taken_at(scope, node))
            } else {
                Ok(false)
            }
        }
        ActivitySort::ArgumentValue => {
            Ok(is_stray(scope.tree, given, link, taken_at(scope, link.parent)))
        }
        ActivitySort::SendParameter => {
            let operation = text_at(scope.tree, node, "operation");
            Ok(is_unsendable(operation, parameter_of(scope, node)))
        }
        _ => Ok(false),
    }
}

/// The break of a rule at an element, where a test says so.
pub(crate) fn broken_if(rule: Rule, file: u16, node: u32, broken: bool) -> Option<Refusal>
    ensures { result ≡ least (breaks_if rule file node broken) }
{
    if broken {
        Some(Refusal {
            rule,
            place: Place { file, node },
            kept: Kept::Nothing,
        })
    } else {
        None
    }
}

fn reference_break(
    alloc: Global,
    file: u16,
    scope: &Scope,
    given: &Given,
    link: Link,
) -> Result<Option<Refusal>, Memory>
    requires { TellsGiven scope.now.tree.now given.now }
    ensures { IfOk result (λ r. r ≡ least (bad_reference_at file (scope_of scope.now) link)) }
{
    let broken = is_bad(alloc, scope, given, link)?;
    Ok(broken_if(Rule::BadReference, file, link.node, broken))
}

// What the children of the parent give, read once for all the children of one.
fn given_beside(alloc: Global, tree: &Tree, given: Given, link: Link) -> Result<Given, Memory>
    requires { TellsGiven tree.now given }
    ensures { IfOk result (λ g. TellsGiven tree.now g) }
{
    if given.holder == link.parent || tree.name_at(link.node) != "ArgumentValue" {
        Ok(given)
    } else {
        Given::of(alloc, tree, link.parent)
    }
}

/// The least break of BadReference at some elements; `given` has at hand what the children of one element give.
pub(crate) fn least_bad_reference(
    alloc: Global,
    file: u16,
    scope: &Scope,
    given: Given,
    links: &[Link],
) -> Result<Option<Refusal>, Memory>
    requires { TellsGiven scope.now.tree.now given }
    ensures { IfOk result (λ r. r ≡ least (bad_references file (scope_of scope.now) links.now)) }
{
    let mut given = given;
    let mut found = None;
    for link in links {
        given = given_beside(alloc, scope.tree, given, *link)?;
        let here = reference_break(alloc, file, scope, &given, *link)?;
        found = Refusal::first(found, here);
    }
    Ok(found)
}
