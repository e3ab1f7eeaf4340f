//! All rules on the types of a sheet, in the phases in which they are judged.

ghost use Rattle.std.specs.Prelude.{◌≡◌, List, Option, ℕ, IfOk, option_map};
ghost use Rattle.eds_base.specs.declared.refusal.Refusal.{Refusal as refusal};
ghost use Rattle.eds_base.specs.Refusals.{least};
ghost use Rattle.eds_tree.specs.declared.tree.Node.{Node as node};
ghost use Rattle.eds_names.specs.LookUp.{Names};
ghost use Rattle.eds_read_types.specs.TableBreaks.{table_breaks};

use crate::bad_encoding::BadEncoding;
use crate::bad_enumeration::BadEnumeration;
use crate::base_cycle::BaseCycle;
use crate::breaks::{PlaceRule, TypeRule, least_over, least_over_types};
use crate::constraint_rules::ConstraintRules;
use crate::duplicate_entry::DuplicateEntry;
use crate::empty_range::{EmptyRange, EmptySubRange};
use crate::empty_type::EmptyType;
use crate::error_control::ErrorControl;
use crate::face_rules::{AtFaces, OpenInFace, UnresolvedInFace, WrongKindInFace};
use crate::fixed_value::FixedValue;
use crate::length_field::{LengthField, LengthScale, SecondLength};
use crate::limit_chain::LimitChain;
use crate::limit_family::LimitFamily;
use crate::limit_items::LimitItems;
use crate::limit_nesting::LimitNesting;
use crate::open_constraint::OpenConstraint;
use crate::part_element::AtPartElements;
use crate::reference::{ReferenceRule, least_over_references};
use crate::rule_list_field::ListField;
use crate::sheet_rows::{AtParts, RowRule, SheetRows, least_over_rows};
use crate::type_cycle::TypeCycle;
use crate::unresolved::Unresolved;
use crate::wrong_kind::WrongKind;
use eds_base::{Memory, Refusal};
use std::alloc::Global;
use std::marker::PhantomData;

/// A rule that is judged over a whole sheet, or some such rules.
pub(crate) trait SheetRule {
    /// All that breaks it in a sheet, of which the trees, the names and the TYPE word are given.
    ghost breaks: { List (List node) → Names → Option (List ℕ) → List refusal };

    /// The least of them.
    fn least(alloc: Global, sheet: &SheetRows) -> Result<Option<Refusal>, Memory>
        ensures { IfOk result (λ r. r ≡ least (breaks sheet.now.graph.now.sheet.now.trees.now sheet.now.graph.now.sheet.now.space.now (option_map (λ w. w.now) sheet.now.graph.now.sheet.now.asked))) };
}

// ---- some rules

/// No rule.
pub(crate) struct NoRule;

impl SheetRule for NoRule {
    ghost use Rattle.std.specs.Prelude.{[]};

    ghost breaks = { λ trees names word. [] };

    fn least(_: Global, _: &SheetRows) -> Result<Option<Refusal>, Memory> {
        Ok(None)
    }
}

/// A rule, and the rules after it in its phase.
pub(crate) struct And<R, S>(PhantomData<(R, S)>);

impl<R: SheetRule, S: SheetRule> SheetRule for And<R, S> {
    ghost use Rattle.std.specs.Prelude.{◌++◌};

    ghost breaks = { λ trees names word. R.breaks trees names word ++ S.breaks trees names word };

    fn least(alloc: Global, sheet: &SheetRows) -> Result<Option<Refusal>, Memory> {
        let here = R::least(alloc, sheet)?;
        let others = S::least(alloc, sheet)?;
        Ok(Refusal::first(here, others))
    }
}

/// The rules of a phase, and those of the phases after it, which are judged only where none of the phase is broken.
pub(crate) struct Then<R, S>(PhantomData<(R, S)>);

impl<R: SheetRule, S: SheetRule> SheetRule for Then<R, S> {
    ghost use Rattle.eds_read_types.specs.Judging.{judged_first};

    ghost breaks = { λ trees names word. judged_first (R.breaks trees names word) (S.breaks trees names word) };

    fn least(alloc: Global, sheet: &SheetRows) -> Result<Option<Refusal>, Memory> {
        match R::least(alloc, sheet)? {
            Some(refusal) => Ok(Some(refusal)),
            None => S::least(alloc, sheet),
        }
    }
}

// ---- a rule at each type

/// A rule that is judged at each type by its place.
pub(crate) struct AtTypes<R>(PhantomData<R>);

impl<R: PlaceRule> SheetRule for AtTypes<R> {
    ghost use Rattle.std.specs.List.{flat_map};
    ghost use Rattle.eds_type_rows.specs.Places.{type_places};

    ghost breaks = { λ trees names word. flat_map (R.breaks trees names) (type_places names) };

    fn least(alloc: Global, sheet: &SheetRows) -> Result<Option<Refusal>, Memory> {
        least_over::<R>(alloc, sheet.graph.sheet, sheet.graph.sheet.types)
    }
}

/// A rule that is judged at each type by its number and its place.
pub(crate) struct AtNumbers<R>(PhantomData<R>);

impl<R: TypeRule> SheetRule for AtNumbers<R> {
    ghost use Rattle.eds_type_rows.specs.Places.{type_places};
    ghost use Rattle.eds_type_rows.specs.Bases.{bases_of};
    ghost use Rattle.eds_read_types.specs.Breaks.{breaks_over};

    ghost breaks = { λ trees names word. breaks_over (R.breaks trees (type_places names) (bases_of trees names)) 0 (type_places names) };

    fn least(alloc: Global, sheet: &SheetRows) -> Result<Option<Refusal>, Memory> {
        least_over_types::<R>(alloc, sheet.graph)
    }
}

/// A rule that is judged at each type over the rows of all types.
pub(crate) struct AtRows<R>(PhantomData<R>);

impl<R: RowRule> SheetRule for AtRows<R> {
    ghost use Rattle.eds_read_types.specs.Parts.{at_rows};

    ghost breaks = { λ trees names word. at_rows R.breaks trees names };

    fn least(alloc: Global, sheet: &SheetRows) -> Result<Option<Refusal>, Memory> {
        least_over_rows::<R>(alloc, sheet)
    }
}

/// A rule that is judged at each reference.
pub(crate) struct AtReferences<R>(PhantomData<R>);

impl<R: ReferenceRule> SheetRule for AtReferences<R> {
    ghost use Rattle.eds_read_types.specs.References.{at_references};

    ghost breaks = { λ trees names word. at_references (R.breaks trees names) trees word };

    fn least(alloc: Global, sheet: &SheetRows) -> Result<Option<Refusal>, Memory> {
        least_over_references::<R>(alloc, sheet.graph.sheet)
    }
}

// ---- all rules

type References = And<
    AtReferences<Unresolved>,
    And<
        AtReferences<WrongKind>,
        And<AtFaces<UnresolvedInFace>, And<AtFaces<WrongKindInFace>, NoRule>>,
    >,
>;

type Bases = And<
    AtNumbers<BaseCycle>,
    And<
        AtRows<LimitChain>,
        And<
            AtRows<TypeCycle>,
            And<AtRows<LimitFamily>, And<AtRows<LimitNesting>, And<AtRows<LimitItems>, NoRule>>>,
        >,
    >,
>;

type Scalars = And<
    AtTypes<BadEncoding>,
    And<AtTypes<EmptyRange>, And<AtNumbers<EmptySubRange>, And<AtTypes<BadEnumeration>, NoRule>>>,
>;

type Lengths = And<
    AtRows<AtParts<LengthField>>,
    And<AtTypes<AtPartElements<LengthScale>>, AtRows<SecondLength>>,
>;

type Checks = AtTypes<AtPartElements<ErrorControl>>;

type Containers = And<
    EmptyType,
    And<
        AtRows<DuplicateEntry>,
        And<
            AtRows<AtParts<ListField>>,
            And<
                Lengths,
                And<
                    FixedValue,
                    And<
                        Checks,
                        And<ConstraintRules, And<AtFaces<OpenInFace>, And<OpenConstraint, NoRule>>>,
                    >,
                >,
            >,
        >,
    >,
>;

type TypeRules = Then<References, Then<Bases, Then<Scalars, Then<Containers, NoRule>>>>;

/// The first break of all rules on the types of a sheet.
pub(crate) fn least_break(alloc: Global, sheet: &SheetRows) -> Result<Option<Refusal>, Memory>
    ensures { IfOk result (λ r. r ≡ least (table_breaks sheet.now.graph.now.sheet.now.trees.now sheet.now.graph.now.sheet.now.space.now (option_map (λ w. w.now) sheet.now.graph.now.sheet.now.asked))) }
{
    TypeRules::least(alloc, sheet)
}
