//! The rule that operands fit what takes them, and that calculations and iterations are of numbers.

ghost use Rattle.std.specs.Prelude.{◌≡◌, ◌++◌, ◌+◌, ◌<◌, ◌≤◌, ◌^◌, ◌&&◌, codes, IfOk, IfSome, OnOk};
ghost use Rattle.std.specs.List.{flat_map};
ghost use Rattle.std.specs.Option.{option_copied};
ghost use Rattle.eds_base.specs.Refusals.{least};
ghost use Rattle.eds_tree.specs.Trees.{children_at, children_of};
ghost use Rattle.eds_read_act.specs.Given.{TellsGiven};
ghost use Rattle.eds_read_act.specs.Scopes.{scope_of};
ghost use Rattle.eds_read_act.specs.ActivitySorts.{sort_at as sort_at_in};
ghost use Rattle.eds_read_act.specs.Inside.{text_at as text_of, operands_of as operands_in};
ghost use Rattle.eds_read_act.specs.Operands.{type_of as type_in};
ghost use Rattle.eds_read_act.specs.BadReference.{output_of as output_in};
ghost use Rattle.eds_read_act.specs.TypeMismatch.{fits_if as fits_in_if, misfits_found as found_misfits, misfits_type as type_misfits, misfits_argument as argument_misfits, misfits_held as held_misfits, misfits_parameter as parameter_misfits, relation_of as relation_in, is_order as order_is, is_ordered as ordered_in, compares as compares_in, compares_as as compares_by, compares_both as both_compare, is_number_place as number_place, item_leaves as item_leaves_in, leaves as leaves_in, is_one, is_step as step_is, number_in as number_of, mismatches_as as mismatches_by, is_unsound_operand as unsound_operand_in, has_bad_operand as bad_operand_in, is_mismatch as mismatch_in, sound_from, mismatch_at, mismatches};

use crate::activity_sort::{ActivitySort, sort_at};
use crate::bad_reference::{broken_if, is_bad, iterator_of, output_of};
use crate::fields::Fields;
use crate::given::Given;
use crate::inside::{operand_of, operands_of, text_at};
use crate::naming::Found;
use crate::operand::{Wanted, found_at, is_number, operand_fits, type_of};
use crate::scope::Scope;
use crate::sending::{Held, parameter_of, taken_at};
use eds_base::{Memory, Refusal, Rule, TypeId, whole_number};
use eds_plan::Relation;
use eds_tree::{Link, Tree, is_passed_over};
use std::alloc::Global;

// Whether an element has an operand that fits what is wanted.
fn fits_if(
    alloc: Global,
    scope: &Scope,
    wanted: Wanted,
    operand: Option<u32>,
) -> Result<bool, Memory>
    ensures { IfOk result (λ b. b ≡ fits_in_if (scope_of scope.now) wanted operand) }
{
    match operand {
        None => Ok(false),
        Some(operand) => operand_fits(alloc, scope, wanted, operand),
    }
}

fn misfits_type(alloc: Global, scope: &Scope, node: u32, id: Option<TypeId>) -> Result<bool, Memory>
    ensures { IfOk result (λ b. b ≡ type_misfits (scope_of scope.now) node id) }
{
    match id {
        None => Ok(false),
        Some(id) => {
            let operand = operand_of(scope.tree, node);
            let fits = fits_if(alloc, scope, Wanted::Type(id), operand)?;
            Ok(!fits)
        }
    }
}

fn misfits_found(
    alloc: Global,
    scope: &Scope,
    node: u32,
    found: Option<Found>,
) -> Result<bool, Memory>
    ensures { IfOk result (λ b. b ≡ found_misfits (scope_of scope.now) node found) }
{
    match found {
        None => Ok(false),
        Some(found) => {
            let operand = operand_of(scope.tree, node);
            let fits = fits_if(alloc, scope, Wanted::Type(found.id), operand)?;
            Ok(!fits)
        }
    }
}

fn misfits_argument(
    alloc: Global,
    scope: &Scope,
    link: Link,
    taken: Option<&Fields>,
) -> Result<bool, Memory>
    ensures { IfOk result (λ b. b ≡ argument_misfits (scope_of scope.now) link (option_copied taken.entry)) }
{
    match taken {
        None => Ok(false),
        Some(fields) => {
            let name = text_at(scope.tree, link.node, "name");
            misfits_type(alloc, scope, link.node, fields.type_of(name))
        }
    }
}

fn misfits_held(
    alloc: Global,
    scope: &Scope,
    node: u32,
    operation: &str,
    held: Held,
) -> Result<bool, Memory>
    ensures { IfOk result (λ b. b ≡ held_misfits (scope_of scope.now) node operation.now held) }
{
    let operand = operand_of(scope.tree, node);
    if !held.required || operation == "set" {
        let fits = fits_if(alloc, scope, Wanted::Type(held.id), operand)?;
        Ok(!fits)
    } else if operation == "get" {
        Ok(operand.is_some())
    } else {
        Ok(true)
    }
}

fn misfits_parameter(
    alloc: Global,
    scope: &Scope,
    node: u32,
    held: Option<Held>,
) -> Result<bool, Memory>
    ensures { IfOk result (λ b. b ≡ parameter_misfits (scope_of scope.now) node held) }
{
    match held {
        None => Ok(false),
        Some(held) => {
            let operation = text_at(scope.tree, node, "operation");
            misfits_held(alloc, scope, node, operation, held)
        }
    }
}

/// The relation of a word.
pub(crate) fn relation_of(word: &str) -> Relation
    ensures { result ≡ relation_in word.now }
{
    if word == "!=" {
        Relation::NotEqual
    } else if word == "<" {
        Relation::Less
    } else if word == "<=" {
        Relation::LessOrEqual
    } else if word == ">" {
        Relation::Greater
    } else if word == ">=" {
        Relation::GreaterOrEqual
    } else {
        Relation::Equal
    }
}

fn is_order(relation: Relation) -> bool
    ensures { result ≡ order_is relation }
{
    match relation {
        Relation::Equal | Relation::NotEqual => false,
        _ => true,
    }
}

fn is_ordered(scope: &Scope, relation: Relation, id: TypeId) -> bool
    ensures { result ≡ ordered_in (scope_of scope.now) relation id }
{
    !is_order(relation) || is_number(scope.table.types(), id)
}

fn compares(
    alloc: Global,
    scope: &Scope,
    relation: Relation,
    id: TypeId,
    other: u32,
) -> Result<bool, Memory>
    ensures { IfOk result (λ b. b ≡ compares_in (scope_of scope.now) relation id other) }
{
    let fits = operand_fits(alloc, scope, Wanted::Type(id), other)?;
    Ok(is_ordered(scope, relation, id) && fits)
}

fn compares_two(
    alloc: Global,
    scope: &Scope,
    relation: Relation,
    one: u32,
    other: u32,
) -> Result<bool, Memory>
    ensures { IfOk result (λ b. b ≡ compares_by (scope_of scope.now) relation one other (type_in (scope_of scope.now) one) (type_in (scope_of scope.now) other)) }
{
    match type_of(alloc, scope, one)? {
        Some(id) => compares(alloc, scope, relation, id, other),
        None => match type_of(alloc, scope, other)? {
            Some(id) => compares(alloc, scope, relation, id, one),
            None => Ok(false),
        },
    }
}

fn compares_both(
    alloc: Global,
    scope: &Scope,
    relation: Relation,
    operands: &[u32],
) -> Result<bool, Memory>
    ensures { IfOk result (λ b. b ≡ both_compare (scope_of scope.now) relation operands.now) }
{
    match operands {
        [] => Ok(false),
        [_] => Ok(false),
        [one, other] => compares_two(alloc, scope, relation, *one, *other),
        [_, _, _, ..] => Ok(false),
    }
}

fn is_number_place(scope: &Scope, found: Option<Found>) -> bool
    ensures { result ≡ number_place (scope_of scope.now) found }
{
    match found {
        None => true,
        Some(found) => is_number(scope.table.types(), found.id),
    }
}

// How many numbers a postfix list leaves after one more item, where so many stand before it.
fn item_leaves(
    alloc: Global,
    scope: &Scope,
    left: usize,
    node: u32,
) -> Result<Option<usize>, Memory>
    requires { left + 1 < 2 ^ 64 }
    ensures more { IfOk result (λ n. IfSome n (λ m. m ≤ left + 1)) }
    ensures value { IfOk result (λ n. n ≡ item_leaves_in (sort_at_in scope.now.tree.now node) (scope_of scope.now) left node) }
{
    match sort_at(scope.tree, node) {
        ActivitySort::Operator => {
            if left >= 2 {
                Ok(Some(left - 1))
            } else {
                Ok(None)
            }
        }
        ActivitySort::Value | ActivitySort::VariableRef | ActivitySort::ArgumentRef => {
            if operand_fits(alloc, scope, Wanted::Number, node)? {
                Ok(Some(left + 1))
            } else {
                Ok(None)
            }
        }
        _ => Ok(Some(left)),
    }
}

// How many numbers a postfix list leaves.
fn leaves(alloc: Global, scope: &Scope, items: &[u32]) -> Result<Option<usize>, Memory>
    ensures { IfOk result (λ n. n ≡ leaves_in (scope_of scope.now) 0 items.now) }
{
    let mut left = 0;
    for (at, item) in items.iter().enumerate() {
        prove!(left <= at);
        match item_leaves(alloc, scope, left, *item)? {
            None => return Ok(None),
            Some(more) => left = more,
        }
    }
    Ok(Some(left))
}

fn is_one(left: Option<usize>) -> bool
    ensures { result ≡ is_one left }
{
    left.is_some_and(|left| left == 1)
}

fn is_calculation(alloc: Global, scope: &Scope, node: u32) -> Result<bool, Memory>
    ensures { IfOk result (λ b. b ≡ (number_place (scope_of scope.now) (output_in (scope_of scope.now) node) && is_one (leaves_in (scope_of scope.now) 0 (children_at scope.now.tree.now node)))) }
{
    let output = output_of(alloc, scope, node)?;
    let left = leaves(alloc, scope, scope.tree.children_at(node))?;
    Ok(is_number_place(scope, output) && is_one(left))
}

fn is_comparison(alloc: Global, scope: &Scope, node: u32) -> Result<bool, Memory>
    ensures { IfOk result (λ b. b ≡ both_compare (scope_of scope.now) (relation_in (text_of scope.now.tree.now node (codes "operator"))) (operands_in scope.now.tree.now node)) }
{
    let relation = relation_of(text_at(scope.tree, node, "operator"));
    let operands = operands_of(alloc, scope.tree, node)?;
    compares_both(alloc, scope, relation, operands.as_slice())
}

/// The number that an element has as its value.
pub(crate) fn number_in(tree: &Tree, node: Option<u32>) -> Option<i128>
    ensures { result ≡ number_of tree.now node }
{
    whole_number(text_at(tree, node?, "value"))
}

fn is_step(number: Option<i128>) -> bool
    ensures { result ≡ step_is number }
{
    number.is_some_and(|number| number != 0)
}

// Whether what stands in an element fits, where all that it names is there.
fn mismatches_here(alloc: Global, scope: &Scope, link: Link) -> Result<bool, Memory>
    ensures { IfOk result (λ b. b ≡ mismatches_by (sort_at_in scope.now.tree.now link.node) (scope_of scope.now) link) }
{
    let node = link.node;
    match sort_at(scope.tree, node) {
        ActivitySort::Assignment => {
            let output = output_of(alloc, scope, node)?;
            misfits_found(alloc, scope, node, output)
        }
        ActivitySort::ArgumentValue => {
            misfits_argument(alloc, scope, link, taken_at(scope, link.parent))
        }
        ActivitySort::SendParameter => {
            misfits_parameter(alloc, scope, node, parameter_of(scope, node))
        }
        ActivitySort::Comparison => Ok(!is_comparison(alloc, scope, node)?),
        ActivitySort::Calculation => Ok(!is_calculation(alloc, scope, node)?),
        ActivitySort::Iteration => { Ok(!is_number_place(scope, iterator_of(alloc, scope, node))) }
        ActivitySort::Bound => {
            let operand = operand_of(scope.tree, node);
            Ok(!fits_if(alloc, scope, Wanted::Number, operand)?)
        }
        ActivitySort::Step => {
            let number = number_in(scope.tree, operand_of(scope.tree, node));
            Ok(!is_step(number))
        }
        _ => Ok(false),
    }
}

// Whether a child is an operand that breaks BadReference, or names an argument where it is not known which there are.
fn is_unsound_operand(alloc: Global, scope: &Scope, node: u32, child: u32) -> Result<bool, Memory>
    ensures { IfOk result (λ b. b ≡ unsound_operand_in (scope_of scope.now) node child) }
{
    match sort_at(scope.tree, child) {
        ActivitySort::VariableRef => {
            let found = found_at(alloc, scope, child)?;
            Ok(found.is_none())
        }
        ActivitySort::ArgumentRef => {
            let found = found_at(alloc, scope, child)?;
            Ok(scope.arguments.is_none() || found.is_none())
        }
        _ => Ok(false),
    }
}

fn has_bad_operand(alloc: Global, scope: &Scope, node: u32) -> Result<bool, Memory>
    ensures { IfOk result (λ b. b ≡ bad_operand_in (scope_of scope.now) node (children_at scope.now.tree.now node)) }
{
    for child in scope.tree.children_at(node) {
        if is_unsound_operand(alloc, scope, node, *child)? {
            return Ok(true);
        }
    }
    Ok(false)
}

fn is_mismatch(alloc: Global, scope: &Scope, link: Link) -> Result<bool, Memory>
    ensures { IfOk result (λ b. b ≡ mismatch_in (scope_of scope.now) link) }
{
    let bad = has_bad_operand(alloc, scope, link.node)?;
    let mismatch = mismatches_here(alloc, scope, link)?;
    Ok(!bad && mismatch)
}

/// Puts an element and all below it last, but those that break BadReference with all below them; `given` has at hand what the
/// children of one element give.
#[cycle(push_sound)]
pub(crate) fn push_sound(
    links: &mut Vec<Link>,
    alloc: Global,
    scope: &Scope,
    given: &Given,
    depth: usize,
    link: Link,
) -> Result<(), Memory>
    requires { TellsGiven scope.now.tree.now given.now }
    ensures { OnOk result (links.new.items ≡ links.old.items ++ sound_from (scope_of scope.now) depth link) }
{
    if depth == 0 {
        return Ok(());
    }
    if is_bad(alloc, scope, given, link)? {
        return Ok(());
    }
    links.push(link)?;
    push_sound_children(links, alloc, scope, depth - 1, link.node)?;
    Ok(())
}

#[cycle(push_sound)]
fn push_sound_children(
    links: &mut Vec<Link>,
    alloc: Global,
    scope: &Scope,
    depth: usize,
    parent: u32,
) -> Result<(), Memory>
    ensures { OnOk result (links.new.items ≡ links.old.items ++ flat_map (λ child. sound_from (scope_of scope.now) depth (record { parent = parent; node = child })) (children_of scope.now.tree.now parent)) }
{
    let given = Given::of(alloc, scope.tree, parent)?;
    push_sound_each(links, alloc, scope, &given, depth, parent)
}

// The same, where it is at hand what the children give.
#[cycle(push_sound)]
fn push_sound_each(
    links: &mut Vec<Link>,
    alloc: Global,
    scope: &Scope,
    given: &Given,
    depth: usize,
    parent: u32,
) -> Result<(), Memory>
    requires { TellsGiven scope.now.tree.now given.now }
    ensures { OnOk result (links.new.items ≡ links.old.items ++ flat_map (λ child. sound_from (scope_of scope.now) depth (record { parent = parent; node = child })) (children_of scope.now.tree.now parent)) }
{
    for child in scope.tree.children_at(parent) {
        if !is_passed_over(scope.tree.name_at(*child)) {
            push_sound(
                links,
                alloc,
                scope,
                given,
                depth,
                Link {
                    parent,
                    node: *child,
                },
            )?;
        }
    }
    Ok(())
}

fn mismatch_break(
    alloc: Global,
    file: u16,
    scope: &Scope,
    link: Link,
) -> Result<Option<Refusal>, Memory>
    ensures { IfOk result (λ r. r ≡ least (mismatch_at file (scope_of scope.now) link)) }
{
    let broken = is_mismatch(alloc, scope, link)?;
    Ok(broken_if(Rule::TypeMismatch, file, link.node, broken))
}

/// The least break of TypeMismatch at some elements.
pub(crate) fn least_mismatch(
    alloc: Global,
    file: u16,
    scope: &Scope,
    links: &[Link],
) -> Result<Option<Refusal>, Memory>
    ensures { IfOk result (λ r. r ≡ least (mismatches file (scope_of scope.now) links.now)) }
{
    let mut found = None;
    for link in links {
        let here = mismatch_break(alloc, file, scope, *link)?;
        found = Refusal::first(found, here);
    }
    Ok(found)
}
