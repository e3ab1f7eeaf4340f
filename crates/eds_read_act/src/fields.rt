//! Names with types, found by hash of their names.

ghost use Rattle.std.specs.Prelude.{◌≡◌, IfOk, map};

use eds_base::{Memory, Text, TypeId};
use eds_names::NameList;
use eds_plan::FieldList;
use std::alloc::Global;
use std::marker::Model;

/// Names with types in order, as the arguments of an activity. Contracts see them as a list.
#[derive(Drop)]
pub struct Fields {
    list: FieldList,
    names: NameList,
}

impl Model for Fields {
    ghost use Rattle.std.specs.Prelude.{◌≡◌, ℕ, List, map};
    ghost use Rattle.eds_base.specs.declared.ids.TypeId.{TypeId as type_id};

    ghost Value = { List (List ℕ × type_id) };

    ghost view = { λ f. f.list };

    ghost invariant = { λ f. f.names ≡ map (λ (x : List ℕ × type_id). x.0) f.list };
}

fn names_of(alloc: Global, list: &[(Text, TypeId)]) -> Result<NameList, Memory>
    ensures { IfOk result (λ n. n ≡ map (λ x. x.0) list.now) }
{
    let mut names = Vec::new(alloc);
    for (name, _) in list {
        names.push(Text::of(alloc, name.as_str())?)?;
    }
    NameList::of(alloc, names)
}

impl Fields {
    ghost use Rattle.std.specs.Prelude.{◌≡◌, IfOk, map, option_map};
    ghost use Rattle.eds_read_act.specs.Numbered.{item_named};
    ghost use Rattle.eds_read_act.specs.Carrying.{field_type};

    /// These names and types.
    pub fn of(alloc: Global, list: FieldList) -> Result<Fields, Memory>
        ensures { IfOk result (λ f. f ≡ list) }
    {
        let names = names_of(alloc, list.as_slice())?;
        Ok(Fields { list, names })
    }

    /// All of them, in their order.
    pub fn as_slice(&self) -> &[(Text, TypeId)]
        ensures { result.now ≡ self.now }
    {
        self.list.as_slice()
    }

    /// The first of a name, with its position.
    pub(crate) fn field(&self, name: &str) -> Option<(usize, &(Text, TypeId))>
        ensures { option_map (λ p. (p.0, p.1.now)) result ≡ item_named (λ f. f.0) self.now name.now }
    {
        let at = self.names.position(name)?;
        let field = self.list.get(at)?;
        Some((at, field))
    }

    /// The type of the first of a name.
    pub(crate) fn type_of(&self, name: &str) -> Option<TypeId>
        ensures { result ≡ field_type self.now name.now }
    {
        let (_, field) = self.field(name)?;
        Some(field.1)
    }
}
