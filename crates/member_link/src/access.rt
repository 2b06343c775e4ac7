//! Access to classes and members (JVM Specification SE 8, 5.4.4).
ghost use Rattle.std.specs.Prelude.{◌≡◌, ◌≢◌, ◌↔◌, ◌⊎◌, Some, codes, IsTrue, IsFalse, slice_get};
ghost use Rattle.std.specs.Option.{option_copied};
ghost use Rattle.class_model.specs.declared.header.Member.{Member};
ghost use Rattle.class_tree.specs.Headers.{headers_of, class_named};
ghost use Rattle.class_tree.specs.Subtype.{IsArray};
ghost use Rattle.member_link.specs.Access.{IsClassAccessible, IsAccessible, IsAtOrBelow};
ghost use Rattle.member_link.specs.DeclaredMembers.{Declared};
ghost use Rattle.member_link.specs.Found.{IsMemberFound};

use crate::flags::is_package_access;
use crate::found::Found;
use crate::names::is_array;
use crate::packages::is_same_package;
use class_model::{ACC_PRIVATE, ACC_PROTECTED, ACC_PUBLIC, ACC_STATIC, Header, Text, has};
use class_tree::{Tree, a_tree_is_a_hierarchy, is_sub};

// the method of an array that counts as public
const CLONE: &[u8] = b"clone";

/// Whether a member that a reference through a class or array finds is accessible from a class (JVM Specification SE 8, 5.4.4).
/// Through an array it is a method. It takes no memory.
pub fn accessible(tree: &Tree, from: &Text, named: &Text, found: Found) -> bool
    requires { (declared : Declared)
        × IsMemberFound (headers_of tree.now) named.now found declared }
    ensures { (declared : Declared)
        → IsMemberFound (headers_of tree.now) named.now found declared
        → IsTrue result ↔ IsAccessible (headers_of tree.now) from.now named.now declared }
{
    let Some(header) = tree.header(found.place) else {
        return false;
    };
    if is_array(named.bytes()) && is_clone(header, found.member) {
        return true;
    }
    is_visible(tree, from, named, &header.name, found.flags)
}

// Whether a method of a class is named as the clone of an array.
fn is_clone(header: &Header, method: usize) -> bool
    ensures { (member : Member)
        → slice_get header.now.methods method ≡ Some member
        → IsTrue result ↔ (member.name ≡ codes "clone") }
{
    match header.methods.get(method) {
        Some(member) => member.name.bytes() == CLONE,
        None => false,
    }
}

// Whether a member that is no clone of an array is accessible, by its class and its flags.
fn is_visible(tree: &Tree, from: &Text, named: &Text, class: &Text, flags: u16) -> bool
    ensures { (declared : Declared)
        → declared.class ≡ class.now
        → declared.member.flags ≡ flags
        → (IsArray named.now → declared.member.name ≢ codes "clone")
        → IsTrue result ↔ IsAccessible (headers_of tree.now) from.now named.now declared }
{
    if has(flags, ACC_PUBLIC) {
        return true;
    }
    if has(flags, ACC_PRIVATE) && class.bytes() == from.bytes() {
        return true;
    }
    let is_protected = has(flags, ACC_PROTECTED);
    if (is_protected || is_package_access(flags)) && is_same_package(from.bytes(), class.bytes()) {
        return true;
    }
    is_protected && is_visible_below(tree, from, named, class, has(flags, ACC_STATIC))
}

// Whether a protected member is accessible from a class that inherits it: one of an instance, only through a class that
// is at or below that class, or at or above it.
fn is_visible_below(tree: &Tree, from: &Text, named: &Text, class: &Text, is_static: bool) -> bool
    ensures { IsTrue result
        ↔ (IsAtOrBelow (headers_of tree.now) from.now class.now
        × (IsFalse is_static
        → IsAtOrBelow (headers_of tree.now) named.now from.now
        ⊎ IsAtOrBelow (headers_of tree.now) from.now named.now)) }
{
    if !is_at_or_below(tree, from, class) {
        return false;
    }
    is_static || is_at_or_below(tree, named, from) || is_at_or_below(tree, from, named)
}

// Whether a class is another or below it. Above an array there is no class.
fn is_at_or_below(tree: &Tree, low: &Text, high: &Text) -> bool
    ensures { IsTrue result ↔ IsAtOrBelow (headers_of tree.now) low.now high.now }
{
    a_tree_is_a_hierarchy(tree);
    if is_array(low.bytes()) {
        low.bytes() == high.bytes()
    } else {
        is_sub(tree, low, high)
    }
}

/// Whether the class of a name is there and accessible from a class.
pub(crate) fn is_class_accessible(tree: &Tree, from: &[u8], name: &[u8]) -> bool
    ensures { IsTrue result ↔ IsClassAccessible (headers_of tree.now) from.now name.now }
{
    match class_named(tree, name) {
        Some(header) => has(header.flags, ACC_PUBLIC) || is_same_package(from, name),
        None => false,
    }
}

/// The class of a name.
pub(crate) fn class_named<'a>(tree: &'a Tree, name: &[u8]) -> Option<&'a Header>
    ensures { option_copied result ≡ class_named (headers_of tree.now) name.now }
{
    a_tree_is_a_hierarchy(tree);
    tree.header(tree.find(name)?)
}
