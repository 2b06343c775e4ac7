//! Where the selection of a special call starts (JVM Specification SE 8, 6.5 on invokespecial).
ghost use Rattle.std.specs.Prelude.{◌≡◌, ◌↔◌, IsTrue, option_and_then};
ghost use Rattle.std.specs.Option.{option_copied};
ghost use Rattle.class_tree.specs.Headers.{headers_of, class_named};
ghost use Rattle.member_link.specs.SpecialStart.{IsSuperclassNamed, StartsSpecial};

use crate::access::class_named;
use class_model::{ACC_INTERFACE, Text, has};
use class_tree::{Tree, a_tree_is_a_hierarchy, is_below};

/// The class at which the selection of a special call starts, by the class that makes the call and the class that it names:
/// where the named class is no interface and strictly above the current class, the current class's superclass; else the
/// named class (JVM Specification SE 8, 6.5 on invokespecial). It does not allocate.
pub fn special_start<'a>(tree: &'a Tree, current: &Text, named: &'a Text) -> &'a Text
    ensures { StartsSpecial (headers_of tree.now) current.now named.now result.now }
{
    a_tree_is_a_hierarchy(tree);
    if !is_superclass_named(tree, current, named) {
        return named;
    }
    match superclass_of(tree, current) {
        Some(start) => start,
        None => named,
    }
}

// Whether a named class is no interface and strictly above a class.
fn is_superclass_named(tree: &Tree, current: &Text, named: &Text) -> bool
    ensures { IsTrue result ↔ IsSuperclassNamed (headers_of tree.now) current.now named.now }
{
    match class_named(tree, named.bytes()) {
        Some(header) => {
            !has(header.flags, ACC_INTERFACE) && is_below(tree, current.bytes(), named.bytes())
        }
        None => false,
    }
}

// The superclass of the class of a name.
fn superclass_of<'a>(tree: &'a Tree, name: &Text) -> Option<&'a Text>
    ensures { option_copied result
        ≡ option_and_then (λ header. header.super_name)
        (class_named (headers_of tree.now) name.now) }
{
    match class_named(tree, name.bytes()) {
        Some(header) => header.super_name.as_ref(),
        None => None,
    }
}
