//! The table of the types of a sheet.

ghost use Rattle.std.specs.Prelude.{◌≡◌, ◌≤◌, ◌<◌, Ok, length, map, option_map, is_some, None, IfOk, IfSome};
ghost use Rattle.eds_base.specs.Answering.{Answers};
ghost use Rattle.eds_base.specs.Refusals.{least};
ghost use Rattle.eds_tree.specs.ShapeCheck.{shape_verdict};
ghost use Rattle.eds_names.specs.LookUp.{names_in};
ghost use Rattle.eds_type_rows.specs.TableRows.{table_rows as table_rows_of};
ghost use Rattle.eds_read_types.specs.TableBreaks.{table_breaks};
ghost use Rattle.eds_nesting.specs.Families.{families as families_of, nesting as nesting_of, family_sizes as family_sizes_of, endless_met as endless_met_of};
ghost use Rattle.eds_types.specs.Rows.{numbers};
ghost use Rattle.eds_constraints.specs.ConstrainedRows.{AreRead, constraints_for};
ghost use Rattle.eds_read_types.specs.SheetTable.{sheet_table};
ghost use Rattle.eds_read_types.specs.TableRead.{typed_of, table_read};

use crate::constraint_element::asked_lists;
use crate::part_names::names_of_bases;
use crate::rules::least_break;
use crate::sheet_rows::SheetRows;
use crate::used::used_types;
use eds_base::{Fail, Items, Memory, Refusal, TypeId};
use eds_constraints::{AskedOf, AskedRows, constrained_rows, constraints_of_all};
use eds_graph::Course;
use eds_names::Space;
use eds_nesting::{endless_met, families, family_sizes, nesting};
use eds_tree::Trees;
use eds_type_rows::base_graph::{BaseGraph, bases_of, cycles_of};
use eds_type_rows::inner_reference::push_inner_types;
use eds_type_rows::named_trees::{NamedTrees, elements, type_places};
use eds_type_rows::table_row::table_rows;
use eds_type_rows::type_id::word_type;
use eds_type_rows::value_kinds::{ValueKinds, value_kinds};
use eds_types::{Constraints, TypeRows, TypeTable, Used};
use std::alloc::Global;

/// What is read of the types of a sheet (CCSDS 876.0-B, data types).
#[derive(Drop)]
pub struct SheetTypes {
    /// A row for each declared type, at its `TypeId`: in the order of files and elements.
    pub table: TypeTable,
    /// The types that parts and arrays name, in the order of types and parts, then that of the TYPE word, and then those that
    /// parameters, arguments and maps of interfaces and components, and variables name. An open binary is none of them.
    pub used: Used,
    /// The type that the TYPE word names, where there is a TYPE word.
    pub asked_type: Option<TypeId>,
}

/// For each type the constraints of its container, over the rows without them.
fn constraints_in(
    alloc: Global,
    rows: &TypeRows,
    lists: &[AskedOf],
) -> Result<Items<Constraints>, Memory>
    requires read { AreRead rows.now }
    requires few { length lists.now ≤ length rows.now }
    ensures { IfOk result (λ cs. cs ≡ map (constraints_for rows.now lists.now) (numbers rows.now)) }
{
    let asked = AskedRows::of(alloc, rows.as_slice(), lists)?;
    constraints_of_all(alloc, &asked)
}

/// The rows of a sheet, with the constraints of their containers.
fn with_constraints(alloc: Global, sheet: &NamedTrees, rows: TypeRows) -> Result<TypeRows, Memory>
    requires { rows ≡ table_rows_of sheet.now.trees.now sheet.now.space.now }
    ensures { IfOk result (λ t. t ≡ sheet_table sheet.now.trees.now sheet.now.space.now) }
{
    let lists = asked_lists(alloc, sheet)?;
    let constraints = constraints_in(alloc, &rows, &lists)?;
    constrained_rows(alloc, rows, constraints)
}

/// What is read of a sheet that breaks no rule, of which the rows are given.
fn typed_of(alloc: Global, sheet: &NamedTrees, rows: TypeRows) -> Result<SheetTypes, Memory>
    requires read { rows ≡ table_rows_of sheet.now.trees.now sheet.now.space.now }
    requires unbroken { least (table_breaks sheet.now.trees.now sheet.now.space.now (option_map (λ w. w.now) sheet.now.asked)) ≡ None }
    ensures { IfOk result (λ t. t ≡ typed_of sheet.now.trees.now sheet.now.space.now (option_map (λ w. w.now) sheet.now.asked)) }
{
    let rows = with_constraints(alloc, sheet, rows)?;
    let asked_type = word_type(alloc, sheet)?;
    let mut used = used_types(alloc, &rows, asked_type)?;
    push_inner_types(alloc, &mut used, sheet)?;
    let table = TypeTable::of(alloc, rows)?;
    Ok(SheetTypes {
        table,
        used,
        asked_type,
    })
}

/// For each type where the ways go on which its family holds others.
fn courses_of(alloc: Global, rows: &TypeRows) -> Result<Vec<Course>, Memory>
    ensures { IfOk result (λ n. n.items ≡ nesting_of rows.now (families_of rows.now)) }
{
    let families = families(alloc, rows.as_slice())?;
    nesting(alloc, rows.as_slice(), &families)
}

/// For each type whether its family has bases that go in a circle, or reaches one that has.
fn endless_of(alloc: Global, rows: &TypeRows) -> Result<Vec<bool>, Memory>
    ensures { IfOk result (λ m. m.items ≡ endless_met_of rows.now (families_of rows.now)) }
{
    let families = families(alloc, rows.as_slice())?;
    endless_met(alloc, rows.as_slice(), &families)
}

/// For each type how many containers its family has.
fn sizes_of(alloc: Global, rows: &TypeRows) -> Result<Vec<usize>, Memory>
    ensures { IfOk result (λ s. s.items ≡ family_sizes_of rows.now (families_of rows.now)) }
{
    let families = families(alloc, rows.as_slice())?;
    family_sizes(alloc, rows.as_slice(), &families)
}

/// The first break of all rules on the types of a sheet, of which the rows are given.
fn least_of(alloc: Global, kinds: &ValueKinds, rows: &TypeRows) -> Result<Option<Refusal>, Memory>
    requires read { rows.now ≡ table_rows_of kinds.now.graph.now.sheet.now.trees.now kinds.now.graph.now.sheet.now.space.now }
    ensures { IfOk result (λ r. r ≡ least (table_breaks kinds.now.graph.now.sheet.now.trees.now kinds.now.graph.now.sheet.now.space.now (option_map (λ w. w.now) kinds.now.graph.now.sheet.now.asked))) }
{
    let nesting = courses_of(alloc, rows)?;
    let endless = endless_of(alloc, rows)?;
    let sizes = sizes_of(alloc, rows)?;
    let names = names_of_bases(alloc, rows)?;
    let sheet = SheetRows {
        graph: kinds.graph,
        rows,
        nesting: &nesting,
        sizes: &sizes,
        kinds: kinds.known,
        endless: &endless,
        names: &names,
    };
    least_break(alloc, &sheet)
}

#[tactic(auto, unfolding(crate::specs::TableRead::table_read))]
fn read_graph(alloc: Global, graph: &BaseGraph) -> Result<SheetTypes, Fail<Refusal>>
    ensures { Answers (λ t. t) result (table_read graph.now.sheet.now.trees.now graph.now.sheet.now.space.now (option_map (λ w. w.now) graph.now.sheet.now.asked)) }
{
    let known = value_kinds(alloc, graph)?;
    let kinds = ValueKinds {
        graph,
        known: &known,
    };
    let rows = table_rows(alloc, &kinds)?;
    let found = least_of(alloc, &kinds, &rows)?;
    match found {
        Some(refusal) => Err(Fail::Named(refusal)),
        None => Ok(typed_of(alloc, graph.sheet, rows)?),
    }
}

/// Reads the types of a sheet (CCSDS 876.0-B, data types), of which `space` has the names: their table, those that are used, and
/// the one that the TYPE word `asked` names, where one is given; or the first rule that is broken, by phase, then by place, then by
/// number: a reference to a type finds nothing or no type, or the base of a sub-range is no integer type or sub-range, that of a
/// container no container, or an index type none of these and no enumerated or boolean type; a type is its own base, more than 16
/// types are in a chain of bases, a type reaches itself, more than 512 containers are of one family, more than 32 types are nested,
/// or an array has more than 65,536 items; a type has no form, an integer type or sub-range no numbers, or an enumerated type no
/// good list of labels; two parts of a container and its bases have one name, no entry before a list tells the number of its items,
/// a length entry, an open binary or an error control is not as it should be, the text of a fixed value stands for no value of its
/// type, or a part or the TYPE word names a type without bits. The elements of the sheet are as they should be, so that there are
/// at most 4,096 types, with at most 32,767 entries and as many trailers each.
pub fn read_types(
    alloc: Global,
    trees: &Trees,
    space: &Space,
    asked: Option<&str>,
) -> Result<SheetTypes, Fail<Refusal>>
    requires few { length trees.now ≤ 64 }
    requires shaped { shape_verdict trees.now ≡ Ok tt }
    requires named { names_in trees.now ≡ Ok space.now }
    ensures types { Answers (λ t. t) result (table_read trees.now space.now (option_map (λ w. w.now) asked.entry)) }
    ensures known { IfOk result (λ t. IfSome t.asked_type (λ id. id.0 < length t.table)) }
    ensures given { IfOk result (λ t. is_some t.asked_type ≡ is_some asked.entry) }
{
    let trees = trees.as_slice();
    let elements = elements(alloc, trees)?;
    let types = type_places(alloc, space)?;
    let sheet = NamedTrees {
        trees,
        space,
        asked,
        elements: &elements,
        types: &types,
    };
    let bases = bases_of(alloc, &sheet)?;
    let cycles = cycles_of(alloc, &bases)?;
    let graph = BaseGraph {
        sheet: &sheet,
        bases: &bases,
        cycles: &cycles,
    };
    read_graph(alloc, &graph)
}
