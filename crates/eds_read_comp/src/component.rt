//! A component: what its elements name, the rules that they keep, and its plan.

ghost use Rattle.std.specs.Prelude.{◌≡◌, None, map, IfOk};
ghost use Rattle.eds_base.specs.Refusals.{least};
ghost use Rattle.eds_read_act.specs.Activities.{planned, activities_at, activity_breaks};
ghost use Rattle.eds_read_act.specs.MachineBreaks.{machine_breaks};
ghost use Rattle.eds_read_act.specs.MachinePlans.{planned_machine, machines_at};
ghost use Rattle.eds_read_act.specs.Scopes.{scope_of};
ghost use Rattle.eds_read_act.specs.Transactions.{transactions_of};
ghost use Rattle.eds_read_comp.specs.EndPlans.{end_plans as end_plans_of};
ghost use Rattle.eds_read_comp.specs.FirstValues.{WhereTold, first_value, value_breaks};
ghost use Rattle.eds_read_comp.specs.Implementations.{activity_nodes as activity_nodes_of, machine_nodes as machine_nodes_of, heads_of as heads_in};
ghost use Rattle.eds_read_comp.specs.ParameterMaps.{map_breaks, map_plans as map_plans_of};
ghost use Rattle.eds_read_comp.specs.Plans.{head_of, first_of_variable, said_component, firsts_of, component_in, breaks_in, scope_with, scope_at};
ghost use Rattle.eds_read_comp.specs.Variables.{variable_nodes as variable_nodes_of, variables_of as variables_of_component};

use crate::end_plan::{FaceSheet, end_plans};
use crate::file::File;
use crate::first_value::{least_over_variables, variable_plans};
use crate::implementation::{activity_nodes, heads_of, machine_nodes};
use crate::parameter_map::{Held, least_over_maps, map_nodes, map_plans};
use crate::variable::{variable_nodes, variables_of};
use eds_base::{Items, Memory, Refusal, Text};
use eds_plan::{Activity, ComponentPlan, EndPlan, Machine, MapPlan, VarPlan};
use eds_read_act::{
    Component, Head, NamedTable, Scope, VariableHead, least_activity_break, least_machine_break,
    read_activities, read_machines, transaction_texts,
};
use eds_tree::Tree;
use eds_types::TypeTable;
use std::alloc::Global;

/// A sheet whose interfaces are read, with its types.
#[derive(Clone, Copy)]
pub(crate) struct Sheet<'a> {
    pub(crate) faces: FaceSheet<'a>,
    pub(crate) table: &'a NamedTable<'a>,
}

/// What the elements of a component may name: its ends, variables and activities, and the names of its transactions.
#[derive(Drop)]
struct Named {
    ends: Vec<EndPlan>,
    variables: Vec<VariableHead>,
    activities: Vec<Head>,
    transactions: Items<Text>,
}

fn named_by(alloc: Global, sheet: &Sheet, file: &File, node: u32) -> Result<Named, Memory>
    ensures ends { IfOk result (λ n. n.ends.items ≡ end_plans_of sheet.now.faces.trees.now file.now.space.now sheet.now.faces.faces.now file.now.tree.now file.now.file node) }
    ensures variables { IfOk result (λ n. n.variables.items ≡ variables_of_component file.now.tree.now file.now.space.now file.now.file node) }
    ensures activities { IfOk result (λ n. n.activities.items ≡ heads_in file.now.tree.now file.now.space.now file.now.file node) }
    ensures transactions { IfOk result (λ n. n.transactions ≡ transactions_of file.now.tree.now node) }
{
    let ends = end_plans(alloc, &sheet.faces, file, node)?;
    let variables = variables_of(alloc, file, node)?;
    let activities = heads_of(alloc, file, node)?;
    let transactions = transaction_texts(alloc, file.tree, node)?;
    Ok(Named {
        ends,
        variables,
        activities,
        transactions,
    })
}

// The scope of what the elements of a component name.
fn scope_over<'s>(
    tree: &'s Tree,
    table: &'s NamedTable<'s>,
    component: &'s Component<'s>,
) -> Scope<'s>
    ensures { scope_of result ≡ record { tree = tree.now; table = table.now; ends = component.now.ends.now; variables = component.now.variables.now; activities = component.now.activities.now; transactions = component.now.transactions; arguments = None } }
{
    Scope {
        tree,
        table,
        component,
        arguments: None,
    }
}

// ---- the rules

fn least_map_break(
    alloc: Global,
    file: u16,
    scope: &Scope,
    node: u32,
) -> Result<Option<Refusal>, Memory>
    ensures { IfOk result (λ r. r ≡ least (map_breaks scope.now.component.now.ends.now scope.now.component.now.variables.now scope.now.tree.now file node)) }
{
    let held = Held::of(alloc, scope.component.ends, scope.component.variables)?;
    let nodes = map_nodes(alloc, scope.tree, node)?;
    least_over_maps(alloc, &held, scope.tree, file, nodes.as_slice())
}

fn least_in_activities(
    alloc: Global,
    file: u16,
    scope: &Scope,
    node: u32,
) -> Result<Option<Refusal>, Memory>
    ensures { IfOk result (λ r. r ≡ least (activity_breaks file (scope_of scope.now) (activity_nodes_of scope.now.tree.now node))) }
{
    let nodes = activity_nodes(alloc, scope.tree, node)?;
    least_activity_break(alloc, file, scope, nodes.as_slice())
}

fn least_in_machines(
    alloc: Global,
    file: u16,
    scope: &Scope,
    node: u32,
) -> Result<Option<Refusal>, Memory>
    ensures { IfOk result (λ r. r ≡ least (machine_breaks file (scope_of scope.now) (machine_nodes_of scope.now.tree.now node))) }
{
    let nodes = machine_nodes(alloc, scope.tree, node)?;
    least_machine_break(alloc, file, scope, nodes.as_slice())
}

fn least_in(alloc: Global, file: u16, scope: &Scope, node: u32) -> Result<Option<Refusal>, Memory>
    ensures { IfOk result (λ r. r ≡ least (breaks_in file (scope_of scope.now) node)) }
{
    let map = least_map_break(alloc, file, scope, node)?;
    let activity = least_in_activities(alloc, file, scope, node)?;
    let machine = least_in_machines(alloc, file, scope, node)?;
    let found = Refusal::first(map, activity);
    Ok(Refusal::first(found, machine))
}

/// The first break at the parameter maps, activities and state machines of a component.
pub(crate) fn least_component_break(
    alloc: Global,
    sheet: &Sheet,
    file: &File,
    node: u32,
) -> Result<Option<Refusal>, Memory>
    ensures { IfOk result (λ r. r ≡ least (breaks_in file.now.file (scope_at sheet.now.faces.trees.now file.now.space.now sheet.now.table.now sheet.now.faces.faces.now file.now.tree.now file.now.file node) node)) }
{
    let named = named_by(alloc, sheet, file, node)?;
    let component = Component::of(
        alloc,
        named.ends.as_slice(),
        named.variables.as_slice(),
        named.activities.as_slice(),
        named.transactions.as_slice(),
    )?;
    let scope = scope_over(&*file.tree, &*sheet.table, &component);
    least_in(alloc, file.file, &scope, node)
}

/// The first variable of a component that has nothing to start with.
pub(crate) fn least_unvalued(
    alloc: Global,
    table: &TypeTable,
    file: &File,
    node: u32,
) -> Result<Option<Refusal>, Memory>
    ensures { IfOk result (λ r. WhereTold table.now (λ firsts. r ≡ least (value_breaks firsts file.now.tree.now file.now.space.now file.now.file node))) }
{
    let nodes = variable_nodes(alloc, file.tree, node)?;
    least_over_variables(alloc, table, file, nodes.as_slice())
}

// ---- the plan

/// What a component does: its parameter maps, activities and state machines.
#[derive(Drop)]
struct Inner {
    maps: Vec<MapPlan>,
    activities: Items<Activity>,
    machines: Items<Machine>,
}

fn variables_in(
    alloc: Global,
    table: &TypeTable,
    file: &File,
    node: u32,
) -> Result<Items<VarPlan>, Memory>
    ensures heads { IfOk result (λ xs. map head_of xs ≡ variables_of_component file.now.tree.now file.now.space.now file.now.file node) }
    ensures firsts { IfOk result (λ xs. WhereTold table.now (λ firsts. map first_of_variable xs ≡ map (first_value firsts file.now.tree.now file.now.space.now file.now.file) (variable_nodes_of file.now.tree.now node))) }
{
    let nodes = variable_nodes(alloc, file.tree, node)?;
    variable_plans(alloc, table, file, nodes.as_slice())
}

fn maps_in(alloc: Global, scope: &Scope, node: u32) -> Result<Vec<MapPlan>, Memory>
    ensures { IfOk result (λ m. m.items ≡ map_plans_of scope.now.component.now.ends.now scope.now.component.now.variables.now scope.now.tree.now node) }
{
    let held = Held::of(alloc, scope.component.ends, scope.component.variables)?;
    map_plans(alloc, &held, scope.tree, node)
}

fn activities_in(alloc: Global, scope: &Scope, node: u32) -> Result<Items<Activity>, Memory>
    ensures { IfOk result (λ a. map planned a ≡ activities_at (scope_of scope.now) (activity_nodes_of scope.now.tree.now node)) }
{
    let nodes = activity_nodes(alloc, scope.tree, node)?;
    read_activities(alloc, scope, nodes.as_slice())
}

fn machines_in(alloc: Global, scope: &Scope, node: u32) -> Result<Items<Machine>, Memory>
    ensures { IfOk result (λ m. map planned_machine m ≡ machines_at (scope_of scope.now) (machine_nodes_of scope.now.tree.now node)) }
{
    let nodes = machine_nodes(alloc, scope.tree, node)?;
    read_machines(alloc, scope, nodes.as_slice())
}

fn inner_in(alloc: Global, scope: &Scope, node: u32) -> Result<Inner, Memory>
    ensures maps { IfOk result (λ i. i.maps.items ≡ map_plans_of scope.now.component.now.ends.now scope.now.component.now.variables.now scope.now.tree.now node) }
    ensures activities { IfOk result (λ i. map planned i.activities ≡ activities_at (scope_of scope.now) (activity_nodes_of scope.now.tree.now node)) }
    ensures machines { IfOk result (λ i. map planned_machine i.machines ≡ machines_at (scope_of scope.now) (machine_nodes_of scope.now.tree.now node)) }
{
    let maps = maps_in(alloc, scope, node)?;
    let activities = activities_in(alloc, scope, node)?;
    let machines = machines_in(alloc, scope, node)?;
    Ok(Inner {
        maps,
        activities,
        machines,
    })
}

fn inner_of(
    alloc: Global,
    sheet: &Sheet,
    file: &File,
    named: &Named,
    node: u32,
) -> Result<Inner, Memory>
    requires { named.now.transactions ≡ transactions_of file.now.tree.now node }
    ensures maps { IfOk result (λ i. i.maps.items ≡ map_plans_of named.now.ends.items named.now.variables.items file.now.tree.now node) }
    ensures activities { IfOk result (λ i. map planned i.activities ≡ activities_at (scope_with sheet.now.table.now file.now.tree.now named.now.ends.items named.now.variables.items named.now.activities.items node) (activity_nodes_of file.now.tree.now node)) }
    ensures machines { IfOk result (λ i. map planned_machine i.machines ≡ machines_at (scope_with sheet.now.table.now file.now.tree.now named.now.ends.items named.now.variables.items named.now.activities.items node) (machine_nodes_of file.now.tree.now node)) }
{
    let component = Component::of(
        alloc,
        named.ends.as_slice(),
        named.variables.as_slice(),
        named.activities.as_slice(),
        named.transactions.as_slice(),
    )?;
    let scope = scope_over(&*file.tree, &*sheet.table, &component);
    inner_in(alloc, &scope, node)
}

/// The plan of a component of a qualified name.
pub(crate) fn component_plan(
    alloc: Global,
    sheet: &Sheet,
    file: &File,
    name: &str,
    node: u32,
) -> Result<ComponentPlan, Memory>
    ensures said { IfOk result (λ c. said_component c ≡ component_in name.now (scope_at sheet.now.faces.trees.now file.now.space.now sheet.now.table.now sheet.now.faces.faces.now file.now.tree.now file.now.file node) node) }
    ensures firsts { IfOk result (λ c. WhereTold sheet.now.table.now (λ firsts. firsts_of c ≡ map (first_value firsts file.now.tree.now file.now.space.now file.now.file) (variable_nodes_of file.now.tree.now node))) }
{
    let named = named_by(alloc, sheet, file, node)?;
    let inner = inner_of(alloc, sheet, file, &named, node)?;
    let variables = variables_in(alloc, sheet.table.types(), file, node)?;
    let name = Text::of(alloc, name)?;
    let Inner {
        maps,
        activities,
        machines,
    } = inner;
    Ok(ComponentPlan {
        name,
        ends: Items::from_vec(named.ends),
        variables,
        maps: Items::from_vec(maps),
        activities,
        machines,
        transactions: named.transactions,
    })
}
