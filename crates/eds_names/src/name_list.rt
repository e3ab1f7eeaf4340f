//! Names by their positions.

ghost use Rattle.std.specs.Prelude.{◌≡◌, ℕ, List, OnOk, IfOk};
ghost use Rattle.std.specs.HashMap.{get_by_text};
ghost use Rattle.eds_names.specs.Positions.{place_among, or_else, entry_at};

use eds_base::{Items, Memory, Text};
use indexmap::IndexMap;
use std::alloc::Global;
use std::marker::Model;

/// Names in order, as the generic names of an interface or the variables of a component. The position of a name is found by hash.
#[derive(Drop)]
pub struct NameList {
    names: Items<Text>,
    index: IndexMap<String, usize>,
}

impl Model for NameList {
    ghost use Rattle.std.specs.Prelude.{◌≡◌, ℕ, List};
    ghost use Rattle.std.specs.HashMap.{get_by_text};
    ghost use Rattle.eds_names.specs.Positions.{place_among};

    ghost Value = { List (List ℕ) };

    ghost view = { λ g. g.names };

    ghost invariant = { λ g. (q : List ℕ) → get_by_text g.index q ≡ place_among g.names q };
}

fn note_name(
    alloc: Global,
    index: &mut IndexMap<String, usize>,
    name: &str,
    at: usize,
) -> Result<(), Memory>
    ensures { OnOk result ((q : List ℕ) → get_by_text index.new q ≡ or_else (get_by_text index.old q) (entry_at at name.now q)) }
{
    if index.contains_key(name) {
        return Ok(());
    }
    let key = String::from_str(alloc, name)?;
    let _none = index.insert(key, at)?;
    Ok(())
}

fn index_of(alloc: Global, names: &[Text]) -> Result<IndexMap<String, usize>, Memory>
    ensures { IfOk result (λ m. (q : List ℕ) → get_by_text m q ≡ place_among names.now q) }
{
    let mut index = IndexMap::new(alloc);
    for at in 0..names.len() {
        note_name(alloc, &mut index, names[at].as_str(), at)?;
    }
    Ok(index)
}

impl NameList {
    /// These names.
    pub fn of(alloc: Global, names: Vec<Text>) -> Result<NameList, Memory>
        ensures { IfOk result (λ g. g ≡ names.items) }
    {
        let index = index_of(alloc, names.as_slice())?;
        Ok(NameList {
            names: Items::from_vec(names),
            index,
        })
    }

    /// The position of a name among them, of several of one name the first.
    pub fn position(&self, name: &str) -> Option<usize>
        ensures { result ≡ place_among self.now name.now }
    {
        self.index.get(name).copied()
    }
}
