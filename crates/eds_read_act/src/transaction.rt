//! The transactions of a component.

ghost use Rattle.std.specs.Prelude.{◌≡◌, [], map, string_bytes, IfOk, OnOk};
ghost use Rattle.std.specs.List.{flat_map};
ghost use Rattle.eds_read_act.specs.Transactions.{transaction_named, with_name, with_names, transactions_of};

use crate::walk::links_below;
use eds_base::{Items, Memory, Text};
use eds_tree::{Link, Tree};
use indexmap::IndexSet;
use std::alloc::Global;

// Puts a name behind the others, where it is not among them.
fn note(alloc: Global, names: &mut IndexSet<String>, name: &str) -> Result<(), Memory>
    ensures { OnOk result (map string_bytes names.new.keys ≡ with_name (map string_bytes names.old.keys) name.now) }
{
    if names.contains(name) {
        return Ok(());
    }
    let name = String::from_str(alloc, name)?;
    let _added = names.insert(name)?;
    Ok(())
}

fn note_all(
    alloc: Global,
    names: &mut IndexSet<String>,
    tree: &Tree,
    links: &[Link],
) -> Result<(), Memory>
    ensures { OnOk result (map string_bytes names.new.keys ≡ with_names (map string_bytes names.old.keys) (flat_map (transaction_named tree.now) links.now)) }
{
    let mut rest = links;
    while let [link, after @ ..] = rest {
        if let Some(name) = tree.attribute_at(link.node, "transaction") {
            note(alloc, names, name)?;
        }
        rest = after;
    }
    Ok(())
}

fn texts_of(alloc: Global, names: &[String]) -> Result<Items<Text>, Memory>
    ensures { IfOk result (λ ts. ts ≡ map string_bytes names.now) }
{
    let mut texts = Items::new(alloc);
    for name in names {
        texts.push(Text::of(alloc, name.as_str())?)?;
    }
    Ok(texts)
}

/// The names of the transactions of the component that an element is: those that its sends and events give, each once, in document
/// order. The number of a transaction is its position.
pub fn transaction_texts(alloc: Global, tree: &Tree, node: u32) -> Result<Items<Text>, Memory>
    ensures { IfOk result (λ ts. ts ≡ transactions_of tree.now node) }
{
    let links = links_below(alloc, tree, node)?;
    let mut names = IndexSet::new(alloc);
    note_all(alloc, &mut names, tree, links.as_slice())?;
    let texts = texts_of(alloc, names.as_slice())?;
    Ok(texts)
}
