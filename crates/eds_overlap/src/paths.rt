//! Paths of entries.

ghost use Rattle.std.specs.Prelude.{◌≡◌, map};
ghost use Rattle.eds_overlap.specs.Pairs.{path_cmp, same_path};

use eds_base::TypeId;
use std::cmp::Ordering;

/// Whether two paths are one: as many steps, each with the same container and the same position.
pub fn is_same(one: &[(TypeId, u16)], other: &[(TypeId, u16)]) -> bool
    ensures { result ≡ same_path one.now other.now }
{
    let mut ours = one;
    let mut theirs = other;
    while let [step, ours_after @ ..] = ours {
        let [with, theirs_after @ ..] = theirs else {
            return false;
        };
        if step.0.0 != with.0.0 || step.1 != with.1 {
            return false;
        }
        ours = ours_after;
        theirs = theirs_after;
    }
    theirs.is_empty()
}

/// The order of two paths: step by step, by containers and then by positions.
pub(crate) fn path_order(one: &[(TypeId, u16)], other: &[(TypeId, u16)]) -> Ordering
    ensures { result ≡ path_cmp one.now other.now }
{
    one.cmp(&other)
}
