//! The kind of a scalar type whose values texts stand for.

ghost use Rattle.std.specs.Prelude.{◌≡◌, ℕ, List, map, is_some, option_map, string_bytes, IfOk};
ghost use Rattle.eds_base.specs.Reading.{only};
ghost use Rattle.eds_names.specs.Repeats.{is_among};
ghost use Rattle.eds_types.specs.Fields.{listed, labelled_by};
ghost use Rattle.eds_types.specs.Plain.{plain, label as label_of};
ghost use Rattle.eds_types.specs.TextValues.{text_value_of};

use crate::name_set::note_name;
use eds_base::{Memory, Text};
use eds_types::{Kind, Value, text_value};
use indexmap::IndexSet;
use std::alloc::Global;

/// The kind of a scalar type, with its labels by hash where it has some.
#[derive(Drop)]
pub struct ValueKind {
    pub kind: Kind,
    labels: IndexSet<String>,
    ghost labelled: { (q : List ℕ) → is_among (map string_bytes labels.keys) q ≡ is_some (labelled_by kind q) },
}

/// The labels of a listing.
fn labels_listed(alloc: Global, entries: &[(Text, i128)]) -> Result<IndexSet<String>, Memory>
    ensures { IfOk result (λ s. (q : List ℕ) → is_among (map string_bytes s.keys) q ≡ is_some (listed entries.now q)) }
{
    let mut labels = IndexSet::new(alloc);
    for entry in entries {
        note_name(alloc, &mut labels, entry.0.as_str())?;
    }
    Ok(labels)
}

/// The labels of a kind, none where it is no enumerated one.
fn labels_of(alloc: Global, kind: &Kind) -> Result<IndexSet<String>, Memory>
    ensures { IfOk result (λ s. (q : List ℕ) → is_among (map string_bytes s.keys) q ≡ is_some (labelled_by kind.now q)) }
{
    match kind {
        Kind::Enum(_, listing) => labels_listed(alloc, listing.as_slice()),
        _ => Ok(IndexSet::new(alloc)),
    }
}

impl ValueKind {
    /// A kind with its labels.
    pub(crate) fn of(alloc: Global, kind: Kind) -> Result<ValueKind, Memory>
        ensures { IfOk result (λ k. k.kind ≡ kind) }
    {
        let labels = labels_of(alloc, &kind)?;
        Ok(ValueKind { kind, labels })
    }

    /// Whether a text is one of the labels.
    fn has_label(&self, text: &str) -> bool
        ensures { result ≡ is_some (labelled_by self.now.kind text.now) }
    {
        self.labels.contains(text)
    }

    /// A text, if it is one of the labels.
    fn label(&self, alloc: Global, text: &str) -> Result<Option<Value>, Memory>
        ensures { IfOk result (λ v. option_map plain v ≡ only (is_some (labelled_by self.now.kind text.now)) (label_of text.now)) }
    {
        if self.has_label(text) {
            Ok(Some(Value::Label(Text::of(alloc, text)?)))
        } else {
            Ok(None)
        }
    }

    /// The value of the kind that a text stands for.
    pub(crate) fn value(&self, alloc: Global, text: &str) -> Result<Option<Value>, Memory>
        ensures { IfOk result (λ v. option_map plain v ≡ text_value_of self.now.kind text.now) }
    {
        match &self.kind {
            Kind::Enum(_, _) => self.label(alloc, text),
            _ => text_value(alloc, &self.kind, text),
        }
    }
}
