//! A file of a sheet with the names of the sheet.

use eds_names::Space;
use eds_tree::Tree;

/// A file, by its number among the files of the sheet, and the names of the sheet.
#[derive(Clone, Copy)]
pub(crate) struct File<'a> {
    pub(crate) tree: &'a Tree,
    pub(crate) space: &'a Space,
    pub(crate) file: u16,
}
