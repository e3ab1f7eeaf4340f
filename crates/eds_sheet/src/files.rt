//! The element trees of all files of a sheet.

ghost use Rattle.std.specs.Prelude.{◌≡◌, ◌≤◌, ◌<◌, ◌^◌, length, IfOk};
ghost use Rattle.std.specs.List.{All};
ghost use Rattle.eds_base.specs.Answering.{Answers};
ghost use Rattle.eds_sheet.specs.Files.{trees_in};

use eds_base::{Fail, Items, Octets, Refusal};
use eds_tree::{Trees, read_tree};
use std::alloc::Global;

/// The files of a sheet, each with its octets.
pub type Files = Items<Octets>;

/// The element trees of the files of a sheet, or the rule that the first file breaks which is no element tree.
pub(crate) fn read_trees(alloc: Global, files: &Files) -> Result<Trees, Fail<Refusal>>
    requires few { length files.now ≤ 64 }
    requires short { All (λ octets. length octets < 2 ^ 32) files.now }
    ensures trees { Answers (λ trees. trees) result (trees_in files.now) }
    ensures number { IfOk result (λ trees. length trees ≡ length files.now) }
{
    let mut trees = Items::new(alloc);
    for (file, octets) in files.as_slice().iter().enumerate() {
        let tree = read_tree(alloc, file as u16, octets.as_slice())?;
        trees.push(tree)?;
    }
    Ok(trees)
}
