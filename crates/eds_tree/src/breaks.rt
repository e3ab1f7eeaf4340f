//! One rule over all elements of a sheet that count.

ghost use Rattle.std.specs.Prelude.{◌≡◌, ◌≤◌, ℕ, List, Some, IfOk, length, map, option_map};
ghost use Rattle.std.specs.List.{flat_map};
ghost use Rattle.std.specs.Option.{option_copied};
ghost use Rattle.eds_base.specs.declared.refusal.Refusal.{Refusal as refusal};
ghost use Rattle.eds_base.specs.Refusals.{least};
ghost use Rattle.eds_tree.specs.declared.tree.Node.{Node as node};
ghost use Rattle.eds_tree.specs.declared.link.Link.{Link as link};
ghost use Rattle.eds_tree.specs.Trees.{links_of};
ghost use Rattle.eds_tree.specs.Breaks.{refusal_if, breaks_in, breaks_of};

use crate::link::Link;
use crate::tree::Tree;
use eds_base::{Items, Kept, Memory, Place, Refusal, Rule, Text};
use std::alloc::Global;

/// A rule that is judged at one element at a time.
pub trait ElementRule {
    /// All that breaks it where one element of a file is judged.
    ghost breaks: { ℕ → List node → link → List refusal };

    /// The least of them.
    fn least_at(
        alloc: Global,
        file: u16,
        tree: &Tree,
        link: Link,
    ) -> Result<Option<Refusal>, Memory>
        ensures { IfOk result (λ r. r ≡ least (breaks file tree.now link)) };
}

/// The refusal of an element that breaks a rule, where there is a word to keep.
pub fn refusal(
    alloc: Global,
    rule: Rule,
    file: u16,
    node: u32,
    word: Option<&str>,
) -> Result<Option<Refusal>, Memory>
    ensures { IfOk result (λ r. r ≡ least (refusal_if rule file node (option_map (λ w. w.now) word.entry))) }
{
    match word {
        None => Ok(None),
        Some(word) => Ok(Some(Refusal {
            rule,
            place: Place { file, node },
            kept: Kept::Word(Text::of(alloc, word)?),
        })),
    }
}

// The least break at some elements of a file.
fn least_over<R: ElementRule>(
    alloc: Global,
    file: u16,
    tree: &Tree,
    links: &[Link],
) -> Result<Option<Refusal>, Memory>
    ensures { IfOk result (λ r. r ≡ least (flat_map (R.breaks file tree.now) links.now)) }
{
    let mut found = None;
    for link in links {
        let here = R::least_at(alloc, file, tree, *link)?;
        found = Refusal::first(found, here);
    }
    Ok(found)
}

// The least break in one file, of which `links` are the elements that count.
fn least_in<R: ElementRule>(
    alloc: Global,
    file: u16,
    tree: &Tree,
    links: Option<&Items<Link>>,
) -> Result<Option<Refusal>, Memory>
    requires { option_copied links ≡ Some (links_of tree.now) }
    ensures { IfOk result (λ r. r ≡ least (breaks_in R.breaks file tree.now)) }
{
    match links {
        Some(links) => least_over::<R>(alloc, file, tree, links.as_slice()),
        None => Ok(None),
    }
}

/// The least break of a rule in the files of a sheet, of which `walks` has the elements that count.
pub(crate) fn least_of<R: ElementRule>(
    alloc: Global,
    trees: &[Tree],
    walks: &Items<Items<Link>>,
) -> Result<Option<Refusal>, Memory>
    requires few { length trees.now ≤ 64 }
    requires walked { walks.now ≡ map links_of trees.now }
    ensures { IfOk result (λ r. r ≡ least (breaks_of R.breaks trees.now)) }
{
    let mut found = None;
    for (file, tree) in trees.iter().enumerate() {
        let here = least_in::<R>(alloc, file as u16, tree, walks.get(file))?;
        found = Refusal::first(found, here);
    }
    Ok(found)
}

/// The elements of each file that count.
pub(crate) fn walks(alloc: Global, trees: &[Tree]) -> Result<Items<Items<Link>>, Memory>
    ensures { IfOk result (λ walks. walks ≡ map links_of trees.now) }
{
    let mut walks = Items::new(alloc);
    for tree in trees {
        walks.push(tree.links(alloc)?)?;
    }
    Ok(walks)
}
