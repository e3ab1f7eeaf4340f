//! The rules on the references inside interfaces and components.

ghost use Rattle.std.specs.Prelude.{◌≡◌, List, IfOk, is_some, option_map};
ghost use Rattle.std.specs.List.{flat_map};
ghost use Rattle.eds_base.specs.declared.refusal.Refusal.{Refusal as refusal};
ghost use Rattle.eds_base.specs.Refusals.{least};
ghost use Rattle.eds_tree.specs.declared.tree.Node.{Node as node};
ghost use Rattle.eds_names.specs.LookUp.{Names};
ghost use Rattle.eds_types.specs.Rows.{Table};
ghost use Rattle.eds_type_rows.specs.declared.face_reference.FaceReference.{FaceReference as reference_of};
ghost use Rattle.eds_read_types.specs.FaceRules.{at_faces, is_abstract_at as is_abstract_in, is_for_end as is_for_end_in, suits as suits_sought, unsuited_by, generic_as, open_by};
ghost use Rattle.eds_type_rows.specs.FaceReferences.{face_places as face_places_of};

use crate::breaks::{broken, broken_with};
use crate::rules::SheetRule;
use crate::sheet_rows::{SheetRows, is_open};
use eds_base::{Memory, Place, Refusal, Rule, TypeId};
use eds_names::Item;
use eds_tree::{Tree, flag_value};
use eds_type_rows::element::attribute;
use eds_type_rows::face_reference::{FaceReference, Sought, face_places};
use eds_type_rows::inner_reference::inner_references;
use eds_type_rows::type_id::id_found;
use eds_types::TypeRows;
use std::alloc::Global;
use std::marker::PhantomData;

/// A sheet with the rows of its types and the elements of its declared interfaces, each at its `FaceId`.
#[derive(Drop)]
pub(crate) struct FaceSheet<'a> {
    types: &'a SheetRows<'a>,
    faces: &'a [Place],
    ghost declared: { faces.now ≡ face_places_of types.now.graph.now.sheet.now.space.now },
}

/// A rule that is judged at one reference inside an interface or a component at a time.
pub(crate) trait FaceRule {
    /// All that breaks it there, of which the trees, the names and the rows of all types are given.
    ghost breaks: { List (List node) → Names → Table → reference_of → List refusal };

    /// The least of them.
    fn least_at(
        alloc: Global,
        sheet: &FaceSheet,
        reference: &FaceReference,
    ) -> Result<Option<Refusal>, Memory>
        ensures { IfOk result (λ r. r ≡ least (breaks sheet.now.types.now.graph.now.sheet.now.trees.now sheet.now.types.now.graph.now.sheet.now.space.now sheet.now.types.now.rows.now reference.now)) };
}

fn least_over_faces<R: FaceRule>(
    alloc: Global,
    sheet: &FaceSheet,
    references: &[FaceReference],
) -> Result<Option<Refusal>, Memory>
    ensures { IfOk result (λ r. r ≡ least (flat_map (R.breaks sheet.now.types.now.graph.now.sheet.now.trees.now sheet.now.types.now.graph.now.sheet.now.space.now sheet.now.types.now.rows.now) references.now)) }
{
    let mut found = None;
    for reference in references {
        let here = R::least_at(alloc, sheet, reference)?;
        found = Refusal::first(found, here);
    }
    Ok(found)
}

/// A rule that is judged at the references inside all interfaces and components.
pub(crate) struct AtFaces<R>(PhantomData<R>);

impl<R: FaceRule> SheetRule for AtFaces<R> {
    ghost use Rattle.eds_read_types.specs.FaceRules.{at_faces};

    ghost breaks = { λ trees names word. at_faces R.breaks trees names };

    fn least(alloc: Global, sheet: &SheetRows) -> Result<Option<Refusal>, Memory> {
        let references = inner_references(alloc, sheet.graph.sheet)?;
        let faces = face_places(alloc, sheet.graph.sheet.space)?;
        let judged = FaceSheet {
            types: sheet,
            faces: &faces,
        };
        least_over_faces::<R>(alloc, &judged, &references)
    }
}

// ---- a reference finds something

/// A reference inside an interface or a component finds something, unless it is a generic name of the interface itself.
pub(crate) struct UnresolvedInFace;

impl FaceRule for UnresolvedInFace {
    ghost use Rattle.eds_read_types.specs.FaceRules.{unresolved_in_face};

    ghost breaks = { unresolved_in_face };

    fn least_at(
        alloc: Global,
        sheet: &FaceSheet,
        reference: &FaceReference,
    ) -> Result<Option<Refusal>, Memory> {
        if reference.own {
            return Ok(None);
        }
        let text = reference.text.as_str();
        let space = sheet.types.graph.sheet.space;
        match space.look_up(alloc, reference.place, text)? {
            Some(_) => Ok(None),
            None => Ok(Some(broken_with(alloc, Rule::Unresolved, reference.place, text)?)),
        }
    }
}

// ---- what it finds is of the wanted kind

fn is_abstract_at(trees: &[Tree], at: Option<Place>) -> bool
    ensures { result ≡ is_abstract_in trees.now at }
{
    let Some(at) = at else {
        return false;
    };
    attribute(trees, "abstract", at).is_some_and(|text| flag_value(text) == Some(true))
}

fn is_for_end(sheet: &FaceSheet, found: Item) -> bool
    ensures { result ≡ is_for_end_in sheet.now.types.now.graph.now.sheet.now.trees.now sheet.now.types.now.graph.now.sheet.now.space.now found }
{
    match found {
        Item::Sort(_) => false,
        Item::Face(id) => {
            let at = sheet.faces.get(id.0 as usize).copied();
            !is_abstract_at(sheet.types.graph.sheet.trees, at)
        }
        Item::Comp(_) => false,
    }
}

fn suits(sheet: &FaceSheet, sought: Sought, found: Item) -> bool
    ensures { result ≡ suits_sought sheet.now.types.now.graph.now.sheet.now.trees.now sheet.now.types.now.graph.now.sheet.now.space.now sought found }
{
    match sought {
        Sought::BaseInterface => found.is_face(),
        Sought::EndInterface => is_for_end(sheet, found),
        Sought::GenericBase => found.is_sort(),
        Sought::MemberType => found.is_sort(),
    }
}

fn judge_item(
    alloc: Global,
    sheet: &FaceSheet,
    reference: &FaceReference,
    found: Option<Item>,
) -> Result<Option<Refusal>, Memory>
    ensures { IfOk result (λ r. r ≡ least (unsuited_by sheet.now.types.now.graph.now.sheet.now.trees.now sheet.now.types.now.graph.now.sheet.now.space.now reference.now found)) }
{
    match found {
        None => Ok(None),
        Some(item) => {
            if suits(sheet, reference.sought, item) {
                return Ok(None);
            }
            let text = reference.text.as_str();
            Ok(Some(broken_with(alloc, Rule::WrongKind, reference.place, text)?))
        }
    }
}

fn judge_generic(alloc: Global, reference: &FaceReference) -> Result<Option<Refusal>, Memory>
    ensures { IfOk result (λ r. r ≡ least (generic_as reference.now reference.now.sought)) }
{
    match reference.sought {
        Sought::BaseInterface => {
            let text = reference.text.as_str();
            Ok(Some(broken_with(alloc, Rule::WrongKind, reference.place, text)?))
        }
        Sought::EndInterface => Ok(None),
        Sought::GenericBase => Ok(None),
        Sought::MemberType => Ok(None),
    }
}

/// What it finds is an interface for a base, one that is not abstract for an end, and a type elsewhere; a generic name is a type.
pub(crate) struct WrongKindInFace;

impl FaceRule for WrongKindInFace {
    ghost use Rattle.eds_read_types.specs.FaceRules.{wrong_kind_in_face};

    ghost breaks = { wrong_kind_in_face };

    fn least_at(
        alloc: Global,
        sheet: &FaceSheet,
        reference: &FaceReference,
    ) -> Result<Option<Refusal>, Memory> {
        if reference.own {
            return judge_generic(alloc, reference);
        }
        let space = sheet.types.graph.sheet.space;
        let found = space.look_up(alloc, reference.place, reference.text.as_str())?;
        judge_item(alloc, sheet, reference, found)
    }
}

// ---- none names an open binary

fn judge_open(rows: &TypeRows, reference: &FaceReference, id: Option<TypeId>) -> Option<Refusal>
    ensures { result ≡ least (open_by reference.now rows.now id) }
{
    let id = id?;
    if is_open(rows, id) {
        Some(broken(Rule::LengthField, reference.place))
    } else {
        None
    }
}

/// It names no open binary: the size of one is told by a container alone.
pub(crate) struct OpenInFace;

impl FaceRule for OpenInFace {
    ghost use Rattle.eds_read_types.specs.FaceRules.{open_in_face};

    ghost breaks = { open_in_face };

    fn least_at(
        alloc: Global,
        sheet: &FaceSheet,
        reference: &FaceReference,
    ) -> Result<Option<Refusal>, Memory> {
        if reference.own {
            return Ok(None);
        }
        let text = Some(reference.text.as_str());
        let id = id_found(alloc, sheet.types.graph.sheet, reference.place, text)?;
        Ok(judge_open(sheet.types.rows, reference, id))
    }
}
