//! The parameter maps of a component (CCSDS 876.0-B, parameter maps): parameters for which a variable answers.

ghost use Rattle.std.specs.Prelude.{◌≡◌, ◌∷◌, [], ℕ, List, map, codes, string_bytes, slice_get, IfOk, OnOk};
ghost use Rattle.std.specs.Option.{option_copied};
ghost use Rattle.eds_base.specs.Refusals.{least};
ghost use Rattle.eds_names.specs.Repeats.{is_among};
ghost use Rattle.eds_plan.specs.declared.component.EndPlan.{EndPlan as end_type};
ghost use Rattle.eds_read_act.specs.declared.variable.VariableHead.{VariableHead as head_type};
ghost use Rattle.eds_read_comp.specs.ParameterMaps.{broken as broken_at, map_nodes as map_nodes_of, is_parameter as is_parameter_of, parameter_from, parameter_of as parameter_of_end, mapping_at as mapping_in, mapped_name as mapped_name_of, is_whole as is_whole_mapping, differs as differs_in, lacks_write as lacks_write_in, end_of as end_of_mapping, member_of as member_of_mapping, variable_of as variable_of_mapping, is_bad as is_bad_mapping, map_breaks_by, map_breaks_from, map_breaks as map_breaks_of, position as position_of, map_plan as map_plan_of, map_plans as map_plans_of};

use crate::variable::implemented;
use eds_base::{Kept, Memory, Place, Refusal, Rule, Text};
use eds_generic::{place, text_of};
use eds_names::NameList;
use eds_plan::{EndPlan, MapPlan, Member};
use eds_read_act::VariableHead;
use eds_tree::Tree;
use indexmap::IndexSet;
use std::alloc::Global;

/// What a parameter map names, where it is there: the positions of its end, of its parameter among the members of the end, and of
/// its variable.
#[derive(Clone, Copy, PartialEq, Eq)]
pub(crate) struct Mapping {
    pub(crate) face: Option<usize>,
    pub(crate) member: Option<usize>,
    pub(crate) variable: Option<usize>,
}

/// The ends and the variables of a component, and the positions of their names.
#[derive(Drop)]
pub(crate) struct Held<'a> {
    pub(crate) ends: &'a [EndPlan],
    pub(crate) variables: &'a [VariableHead],
    end_names: NameList,
    variable_names: NameList,
    ghost named: { end_names ≡ map (λ (e : end_type). e.name) ends.now },
    ghost headed: { variable_names ≡ map (λ (v : head_type). v.name) variables.now },
}

fn end_names(alloc: Global, ends: &[EndPlan]) -> Result<Vec<Text>, Memory>
    ensures { IfOk result (λ n. n.items ≡ map (λ (e : end_type). e.name) ends.now) }
{
    let mut names = Vec::new(alloc);
    for end in ends {
        names.push(Text::of(alloc, end.name.as_str())?)?;
    }
    Ok(names)
}

fn variable_names(alloc: Global, variables: &[VariableHead]) -> Result<Vec<Text>, Memory>
    ensures { IfOk result (λ n. n.items ≡ map (λ (v : head_type). v.name) variables.now) }
{
    let mut names = Vec::new(alloc);
    for variable in variables {
        names.push(Text::of(alloc, variable.name.as_str())?)?;
    }
    Ok(names)
}

impl<'a> Held<'a> {
    /// These ends and variables.
    pub(crate) fn of(
        alloc: Global,
        ends: &'a [EndPlan],
        variables: &'a [VariableHead],
    ) -> Result<Held<'a>, Memory>
        ensures ends { IfOk result (λ h. h.ends.now ≡ ends.now) }
        ensures variables { IfOk result (λ h. h.variables.now ≡ variables.now) }
    {
        let end_names = NameList::of(alloc, end_names(alloc, ends)?)?;
        let variable_names = NameList::of(alloc, variable_names(alloc, variables)?)?;
        Ok(Held {
            ends,
            variables,
            end_names,
            variable_names,
        })
    }
}

/// The parameter maps of a component, in document order.
pub(crate) fn map_nodes(alloc: Global, tree: &Tree, node: u32) -> Result<Vec<u32>, Memory>
    ensures { IfOk result (λ n. n.items ≡ map_nodes_of tree.now node) }
{
    implemented(alloc, tree, "ParameterMapSet", "ParameterMap", node)
}

// ---- what a map names

fn is_parameter(name: &str, member: &Member) -> bool
    ensures { result ≡ is_parameter_of name.now member.now }
{
    match member {
        Member::Parameter(own, _, _) => own.as_str() == name,
        Member::Command(_, _) => false,
    }
}

fn parameter_among(members: &[Member], name: &str) -> Option<usize>
    ensures { result ≡ parameter_from 0 members.now name.now }
{
    for at in 0..members.len() {
        if is_parameter(name, &members[at]) {
            return Some(at);
        }
    }
    None
}

fn parameter_of(end: Option<&EndPlan>, name: &str) -> Option<usize>
    ensures { result ≡ parameter_of_end (option_copied end.entry) name.now }
{
    parameter_among(end?.instance.members.as_slice(), name)
}

fn mapping_at(held: &Held, tree: &Tree, node: u32) -> Mapping
    ensures { result ≡ mapping_in held.now.ends.now held.now.variables.now tree.now node }
{
    let face = held.end_names.position(text_of(tree, node, "interface"));
    let parameter = text_of(tree, node, "parameter");
    let end = face.and_then(|at| held.ends.get(at));
    Mapping {
        face,
        member: parameter_of(end, parameter),
        variable: held
            .variable_names
            .position(text_of(tree, node, "variableRef")),
    }
}

fn mapped_name(alloc: Global, tree: &Tree, node: u32) -> Result<Text, Memory>
    ensures { IfOk result (λ s. s ≡ mapped_name_of tree.now node) }
{
    let end = text_of(tree, node, "interface");
    let parameter = text_of(tree, node, "parameter");
    Ok(Text::from_string(format!(in alloc; "{end}/{parameter}")?))
}

// ---- the rules

fn is_whole(mapping: Mapping) -> bool
    ensures { result ≡ is_whole_mapping mapping }
{
    mapping.member.is_some() && mapping.variable.is_some()
}

fn differs(member: Option<&Member>, variable: Option<&VariableHead>) -> bool
    ensures { result ≡ differs_in (option_copied member.entry) (option_copied variable.entry) }
{
    match (member, variable) {
        (Some(Member::Parameter(_, id, _)), Some(variable)) => id.0 != variable.id.0,
        _ => false,
    }
}

fn lacks_write(
    end: Option<&EndPlan>,
    member: Option<&Member>,
    variable: Option<&VariableHead>,
) -> bool
    ensures { result ≡ lacks_write_in (option_copied end.entry) (option_copied member.entry) (option_copied variable.entry) }
{
    match (end, member, variable) {
        (Some(end), Some(Member::Parameter(_, _, read_only)), Some(variable)) => {
            !end.required && !*read_only && variable.read_only
        }
        _ => false,
    }
}

fn end_of<'a>(held: &Held<'a>, mapping: Mapping) -> Option<&'a EndPlan>
    ensures { option_copied result ≡ end_of_mapping held.now.ends.now held.now.variables.now mapping }
{
    held.ends.get(mapping.face?)
}

fn member_of<'a>(held: &Held<'a>, mapping: Mapping) -> Option<&'a Member>
    ensures { option_copied result ≡ member_of_mapping held.now.ends.now held.now.variables.now mapping }
{
    let end = end_of(held, mapping)?;
    end.instance.members.get(mapping.member?)
}

fn variable_of<'a>(held: &Held<'a>, mapping: Mapping) -> Option<&'a VariableHead>
    ensures { option_copied result ≡ variable_of_mapping held.now.ends.now held.now.variables.now mapping }
{
    held.variables.get(mapping.variable?)
}

fn is_bad(held: &Held, second: bool, mapping: Mapping) -> bool
    ensures { result ≡ is_bad_mapping held.now.ends.now held.now.variables.now second mapping }
{
    let member = member_of(held, mapping);
    let variable = variable_of(held, mapping);
    second || differs(member, variable) || lacks_write(end_of(held, mapping), member, variable)
}

fn broken(rule: Rule, at: Place) -> Refusal
    ensures { result ≡ broken_at rule at }
{
    Refusal {
        rule,
        place: at,
        kept: Kept::Nothing,
    }
}

fn least_at(held: &Held, at: Place, second: bool, mapping: Mapping) -> Option<Refusal>
    ensures { result ≡ least (map_breaks_by held.now.ends.now held.now.variables.now at second mapping) }
{
    if !is_whole(mapping) {
        Some(broken(Rule::BadReference, at))
    } else if is_bad(held, second, mapping) {
        Some(broken(Rule::BadMap, at))
    } else {
        None
    }
}

/// Puts a name among those before it, and answers whether it was there.
fn note(alloc: Global, before: &mut IndexSet<String>, name: &str) -> Result<bool, Memory>
    ensures second { IfOk result (λ b. b ≡ is_among (map string_bytes before.old.keys) name.now) }
    ensures before { OnOk result ((q : List ℕ) → is_among (map string_bytes before.new.keys) q ≡ is_among (name.now ∷ map string_bytes before.old.keys) q) }
{
    if before.contains(name) {
        return Ok(true);
    }
    let name = String::from_str(alloc, name)?;
    let _added = before.insert(name)?;
    Ok(false)
}

/// The first break at some parameter maps of a component: a map names what is not there, or is bad.
pub(crate) fn least_over_maps(
    alloc: Global,
    held: &Held,
    tree: &Tree,
    file: u16,
    nodes: &[u32],
) -> Result<Option<Refusal>, Memory>
    ensures { IfOk result (λ r. r ≡ least (map_breaks_from held.now.ends.now held.now.variables.now tree.now file [] nodes.now)) }
{
    let mut before = IndexSet::new(alloc);
    let mut found = None;
    for node in nodes {
        let name = mapped_name(alloc, tree, *node)?;
        let second = note(alloc, &mut before, name.as_str())?;
        let mapping = mapping_at(held, tree, *node);
        let here = least_at(held, place(file, *node), second, mapping);
        found = Refusal::first(found, here);
    }
    Ok(found)
}

// ---- in a plan

/// A position as one of 16 bits, 0 where there is none; where it has more no memory is found.
fn position(at: Option<usize>) -> Result<u16, Memory>
    ensures { IfOk result (λ n. n ≡ position_of at) }
{
    match at {
        None => Ok(0),
        Some(at) => {
            if at > u16::MAX as usize {
                return Err(Memory);
            }
            Ok(at as u16)
        }
    }
}

fn map_plan(mapping: Mapping) -> Result<MapPlan, Memory>
    ensures { IfOk result (λ m. m ≡ map_plan_of mapping) }
{
    Ok(MapPlan {
        face: position(mapping.face)?,
        member: position(mapping.member)?,
        variable: position(mapping.variable)?,
    })
}

/// The parameter maps of a component, in document order.
pub(crate) fn map_plans(
    alloc: Global,
    held: &Held,
    tree: &Tree,
    node: u32,
) -> Result<Vec<MapPlan>, Memory>
    ensures { IfOk result (λ m. m.items ≡ map_plans_of held.now.ends.now held.now.variables.now tree.now node) }
{
    let nodes = map_nodes(alloc, tree, node)?;
    let mut maps = Vec::new(alloc);
    for node in nodes.as_slice() {
        let one = map_plan(mapping_at(held, tree, *node))?;
        maps.push(one)?;
    }
    Ok(maps)
}
