//! Reading a file as a tree.

ghost use Rattle.std.specs.Prelude.{◌≡◌, ◌<◌, ◌^◌, length};
ghost use Rattle.serde_json.specs.View.{view};
ghost use Rattle.eds_base.specs.Answering.{Answers};
ghost use Rattle.eds_tree.specs.Elements.{size};
ghost use Rattle.eds_tree.specs.Reading.{plain_refusal, tree_from, tree_in};

use crate::Tree;
use crate::build::grow;
use crate::element::judge;
use eds_base::{Fail, Items, Kept, Place, Refusal, Rule};
use serde_json::Value;
use std::alloc::Global;

fn refusal(rule: Rule, file: u16, node: u32) -> Refusal
    ensures { result ≡ plain_refusal rule file node }
{
    Refusal {
        rule,
        place: Place { file, node },
        kept: Kept::Nothing,
    }
}

fn tree_of(alloc: Global, file: u16, value: &Value) -> Result<Tree, Fail<Refusal>>
    requires { size (view value.now) < 2 ^ 32 }
    ensures { Answers (λ tree. tree) result (tree_from file (view value.now)) }
{
    if !value.is_array() {
        return Err(Fail::Named(refusal(Rule::NotElement, file, 0)));
    }
    if let Err(place) = judge(value, 0) {
        return Err(Fail::Named(refusal(Rule::NotElement, file, place)));
    }
    let mut nodes = Vec::new(alloc);
    grow(alloc, &mut nodes, "", value)?;
    Ok(Tree::of(Items::from_vec(nodes)))
}

/// The elements of a file, or the rule that its text breaks.
#[tactic(auto, unfolding(crate::specs::Reading::tree_in))]
pub fn read_tree(alloc: Global, file: u16, octets: &[u8]) -> Result<Tree, Fail<Refusal>>
    requires { length octets.now < 2 ^ 32 }
    ensures { Answers (λ tree. tree) result (tree_in file octets.now) }
{
    match Value::from_slice(alloc, octets) {
        Ok(value) => tree_of(alloc, file, &value),
        Err(e) => {
            if e.is_memory() {
                Err(Fail::Memory)
            } else {
                Err(Fail::Named(refusal(Rule::NotJson, file, 0)))
            }
        }
    }
}
