//! Methods that no method of the folder overrides (JVM Specification SE 8, 5.4.5).
ghost use Rattle.std.specs.Prelude.{◌≡◌, ◌↔◌, Some, IsTrue, slice_get};
ghost use Rattle.class_tree.specs.Headers.{headers_of};
ghost use Rattle.expanded_code.specs.Callees.{IsOverriddenByNone};
ghost use Rattle.member_link.specs.DeclaredMembers.{Declared};
ghost use Rattle.member_link.specs.Found.{IsMethodFound};
ghost use Rattle.member_link.specs.Overriding.{Overrides};
ghost use Rattle.member_link.specs.declared.found.Found.{Found};

use crate::folder_methods::{FolderMethods, FoundList};
use crate::found::method_of;
use class_tree::Tree;
use member_link::{Found, overrides};

/// Whether no method of the folder overrides a method that is found. Those of its name and descriptor are
/// asked.
pub(crate) fn is_overridden_by_none(methods: &FolderMethods<'_>, high: Found) -> bool
    requires { (method : Declared) × IsMethodFound (headers_of methods.now) high method }
    ensures { (method : Declared)
        → IsMethodFound (headers_of methods.now) high method
        → IsTrue result ↔ IsOverriddenByNone (headers_of methods.now) method }
{
    let tree = methods.tree();
    let Some(member) = method_of(tree, high) else {
        unreachable!()
    };
    let lows = methods.alike(member);
    for index in 0..lows.len() {
        if overrides_at(tree, lows, index, high) {
            return false;
        }
    }
    true
}

// Whether the method of a number among those that are found overrides another.
fn overrides_at(tree: &Tree, lows: &FoundList, index: usize, high: Found) -> bool
    requires low { (found : Found)
        → slice_get lows.now index ≡ Some found
        → (method : Declared) × IsMethodFound (headers_of tree.now) found method }
    requires high { (method : Declared) × IsMethodFound (headers_of tree.now) high method }
    ensures { (found : Found) (low method : Declared)
        → slice_get lows.now index ≡ Some found
        → IsMethodFound (headers_of tree.now) found low
        → IsMethodFound (headers_of tree.now) high method
        → IsTrue result ↔ Overrides (headers_of tree.now) low method }
{
    match lows.get(index) {
        Some(low) => overrides(tree, *low, high),
        None => false,
    }
}
