//! What the elements of an activity, a guard or an action may name.

ghost use Rattle.std.specs.Prelude.{◌≡◌};
ghost use Rattle.std.specs.Option.{option_copied};
ghost use Rattle.eds_read_act.specs.Scopes.{scope_of, with_known};

use crate::component::Component;
use crate::entry_names::NamedTable;
use crate::fields::Fields;
use eds_tree::Tree;

/// The tree that holds the elements, the types, and what the component has; and the arguments that an `ArgumentRef` may name, where
/// these are known.
#[derive(Clone, Copy)]
pub struct Scope<'a> {
    pub tree: &'a Tree,
    pub table: &'a NamedTable<'a>,
    pub component: &'a Component<'a>,
    pub arguments: Option<&'a Fields>,
}

impl<'a> Scope<'a> {
    /// The same scope with these arguments, where they are known.
    pub(crate) fn with(&self, arguments: Option<&'a Fields>) -> Scope<'a>
        ensures { scope_of result ≡ with_known (scope_of self.now) (option_copied arguments.entry) }
    {
        Scope {
            tree: self.tree,
            table: self.table,
            component: self.component,
            arguments,
        }
    }
}
