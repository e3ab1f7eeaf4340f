//! The segments of the containers of a table.

ghost use Rattle.std.specs.Prelude.{◌≡◌, Some, slice_get, IfOk, IfSome};
ghost use Rattle.eds_types.specs.Sizes.{trailers_size};
ghost use Rattle.eds_unpack.specs.Segments.{IsHeadOf, IsOperation, IsScalar, IsSegmentOf};
ghost use Rattle.eds_unpack.specs.Selectors.{IsSelectorOf};
ghost use Rattle.eds_unpack.specs.Tails.{limited};
ghost use Rattle.eds_unpack.specs.Templates.{IsTemplateOf};

use crate::operations::{scalars_of_all, segment_of};
use crate::segment::{Operation, Segment};
use crate::selector::{Selector, selectors_of};
use crate::tail::{trailers_along, trailers_of_all};
use crate::template::{Template, keys_of_all, templates_of_all};
use eds_base::{Memory, TypeId};
use eds_types::TypeTable;
use std::alloc::Global;
use std::marker::Model;

/// What stands at the number of a type, if something does.
#[inline(always)]
fn found_at<T>(each: &[Option<T>], id: TypeId) -> Option<&T>
    ensures { IfSome result (λ x. slice_get each.now id.0 ≡ Some (Some x.now)) }
{
    match each.get(id.0 as usize) {
        Some(Some(found)) => Some(found),
        _ => None,
    }
}

/// The size at the number of a container, if there is one.
#[inline(always)]
fn size_at(sizes: &[Option<u128>], id: TypeId) -> Option<u128>
    ensures { IfSome result (λ size. slice_get sizes.now id.0 ≡ Some (Some size)) }
{
    *sizes.get(id.0 as usize)?
}

/// The scalars that the containers of a table begin with as lists of operations, made ready to read many values of any of its
/// types (`unpack_by`). With them are the operations of scalar types, the templates of containers that have scalars and texts of
/// fixed size alone, and the selectors of containers with large families. It refers to its table.
#[derive(Drop)]
pub struct Segments<'a> {
    table: &'a TypeTable,
    // each at the number of its container; not every one has one
    each: Vec<Option<Segment>>,
    // each at the number of its type; only scalars have one
    operations: Vec<Option<Operation>>,
    // each at the number of its container; not every one has one
    selectors: Vec<Option<Selector>>,
    // each at the number of its container; not every one has one
    templates: Vec<Option<Template>>,
    // by which selectors choose, each at the number of its container; not every one has one
    keys: Vec<Option<Operation>>,
    // in bits, each at the number of its container; only those that end with an open binary have one
    trailers: Vec<Option<u128>>,
}

impl<'a> Model for Segments<'a> {
    ghost use Rattle.std.specs.Prelude.{List};
    ghost use Rattle.eds_types.specs.declared.row.TypeRow.{TypeRow};
    ghost use Rattle.eds_types.specs.contracts.value.Value as value;
    ghost use Rattle.eds_unpack.specs.Segments.{AreScalars, AreSegments};
    ghost use Rattle.eds_unpack.specs.Selectors.{AreSelectors};
    ghost use Rattle.eds_unpack.specs.Tails.{AreBehind};
    ghost use Rattle.eds_unpack.specs.Templates.{AreKeys, AreTemplates};
    ghost use Rattle.std.specs.Coded.{codes};

    ghost Value = { List TypeRow };

    ghost coded = { Prim.hlevel (codes, value.the_row.coded) };

    ghost view = { λ s. s.table.now };

    ghost invariant = { λ s. AreSegments s.table.now s.each.items × AreSelectors s.table.now s.selectors.items × AreBehind s.table.now s.trailers.items × AreScalars s.table.now s.operations.items × AreTemplates s.table.now s.templates.items × AreKeys s.table.now s.keys.items };
}

impl<'a> Segments<'a> {
    /// Those of all containers of a table that have one, in time and memory by the size of the table.
    pub fn of(alloc: Global, table: &'a TypeTable) -> Result<Segments<'a>, Memory>
        ensures { IfOk result (λ s. s ≡ table.now) }
    {
        let mut each = Vec::with_capacity(alloc, table.len() as usize)?;
        for number in 0..table.len() {
            let segment = segment_of(alloc, table, TypeId(number))?;
            each.push(segment)?;
        }
        let operations = scalars_of_all(alloc, table)?;
        let selectors = selectors_of(alloc, table)?;
        let templates = templates_of_all(alloc, table)?;
        let keys = keys_of_all(alloc, table, selectors.as_slice())?;
        let trailers = trailers_of_all(alloc, table)?;
        Ok(Segments {
            table,
            each,
            operations,
            selectors,
            templates,
            keys,
            trailers,
        })
    }

    /// The table that they are of.
    pub fn table(&self) -> &'a TypeTable
        ensures { result.now ≡ self.now }
    {
        self.table
    }

    /// The segment of the first entries of a container, if it has one.
    #[inline(always)]
    pub(crate) fn head_of(&self, id: TypeId) -> Option<&Segment>
        ensures { IfSome result (λ s. IsHeadOf self.now id.0 s.now) }
    {
        found_at(self.each.as_slice(), id)
    }

    /// The segment of a container whose value is that of its entries alone, if it has one.
    #[inline(always)]
    pub(crate) fn find(&self, id: TypeId) -> Option<&Segment>
        ensures { IfSome result (λ s. IsSegmentOf self.now id.0 s.now) }
    {
        match self.head_of(id) {
            Some(segment) if segment.whole => Some(segment),
            _ => None,
        }
    }

    /// The operation of a type at the first bit, if it has one: that of a scalar.
    #[inline(always)]
    pub(crate) fn operation(&self, id: TypeId) -> Option<&Operation>
        ensures { IfSome result (λ o. IsScalar self.now id.0 o.now) }
    {
        found_at(self.operations.as_slice(), id)
    }

    /// The selector of a container, if it has one.
    #[inline(always)]
    pub(crate) fn selector(&self, id: TypeId) -> Option<&Selector>
        ensures { IfSome result (λ s. IsSelectorOf self.now id.0 s.now) }
    {
        found_at(self.selectors.as_slice(), id)
    }

    /// The template of a container, if it has one.
    #[inline(always)]
    pub(crate) fn template(&self, id: TypeId) -> Option<&Template>
        ensures { IfSome result (λ m. IsTemplateOf self.now id.0 m.now) }
    {
        found_at(self.templates.as_slice(), id)
    }

    /// The operation of the entry by whose number the selector of a container chooses, if it stands at a fixed place.
    #[inline(always)]
    pub(crate) fn key(&self, id: TypeId) -> Option<&Operation>
        ensures { IfSome result (λ o. IsOperation self.now o.now) }
    {
        found_at(self.keys.as_slice(), id)
    }

    /// The size of the trailers of a container's chain in bits, which is known beforehand where a tail stands before them.
    pub(crate) fn trailers_along(&self, id: TypeId) -> u128
        ensures { result ≡ limited (trailers_size self.now id.0) }
    {
        match size_at(self.trailers.as_slice(), id) {
            Some(size) => size,
            None => trailers_along(self.table, id),
        }
    }
}
