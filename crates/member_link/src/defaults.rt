//! Methods of superinterfaces (JVM Specification SE 8, 5.4.3.3).
ghost use Rattle.std.specs.Prelude.{◌≡◌, ◌↔◌, IsSome, IsTrue, List, Some};
ghost use Rattle.class_model.specs.declared.header.Header.{Header};
ghost use Rattle.class_tree.specs.Headers.{Name, headers_of};
ghost use Rattle.class_tree.specs.Interfaces.{AreSuperinterfaces};
ghost use Rattle.class_tree.specs.Names.{is_interface};
ghost use Rattle.class_tree.specs.Order.{header_at};
ghost use Rattle.class_tree.specs.Subtype.{IsBelow};
ghost use Rattle.member_link.specs.Defaults.{first_inherited};
ghost use Rattle.member_link.specs.Inner.DefaultsAt.{IsDefaultOf, IsHidden, IsInterfaceAt, IsSuperinterfaceAt, inherited_of};
ghost use Rattle.member_link.specs.Inner.DefaultsOf.{AreDefaults};
ghost use Rattle.member_link.specs.Found.{AreSame, IsMethodFound};

use crate::flags::is_inherited;
use crate::found::Found;
use crate::own::own_method;
use class_model::{ACC_ABSTRACT, Text, has};
use class_tree::{Place, Tree, a_tree_is_a_hierarchy};

/// How many maximally specific methods that are not abstract there are.
#[derive(Clone, Copy)]
pub(crate) enum DefaultMethods {
    Nothing,
    One(Found),
    Several,
}

/// The maximally specific methods of a name and descriptor among the superinterfaces of the class at a place that are not
/// abstract.
pub(crate) fn defaults(tree: &Tree, class: Place, name: &Text, desc: &Text) -> DefaultMethods
    requires { IsSome (header_at (headers_of tree.now) class) }
    ensures { (header : Header)
        → header_at (headers_of tree.now) class ≡ Some header
        → AreDefaults (headers_of tree.now) header.name name.now desc.now result }
{
    a_tree_is_a_hierarchy(tree);
    let mut only = None;
    for interface in tree.superinterfaces(class) {
        if let Some(found) = default_of(tree, class, *interface, name, desc) {
            if only.is_some() {
                return DefaultMethods::Several;
            }
            only = Some(found);
        }
    }
    match only {
        Some(found) => DefaultMethods::One(found),
        None => DefaultMethods::Nothing,
    }
}

// The method that a superinterface of a class declares, if it is maximally specific and not abstract.
fn default_of(
    tree: &Tree,
    class: Place,
    interface: Place,
    name: &Text,
    desc: &Text,
) -> Option<Found>
    requires class { IsSome (header_at (headers_of tree.now) class) }
    requires interface { (header : Header)
        → header_at (headers_of tree.now) class ≡ Some header
        → IsSuperinterfaceAt (headers_of tree.now) header.name interface }
    ensures { (low high : Header)
        → header_at (headers_of tree.now) class ≡ Some low
        → header_at (headers_of tree.now) interface ≡ Some high
        → IsDefaultOf (headers_of tree.now) low.name name.now desc.now high.name result }
{
    a_tree_is_a_hierarchy(tree);
    let found = inherited_method(tree, interface, name, desc)?;
    if has(found.flags, ACC_ABSTRACT) || is_hidden(tree, class, interface, name, desc) {
        return None;
    }
    Some(found)
}

// Whether a superinterface of a class that is below an interface declares a method that is neither private nor static.
fn is_hidden(tree: &Tree, class: Place, interface: Place, name: &Text, desc: &Text) -> bool
    requires class { IsSome (header_at (headers_of tree.now) class) }
    requires interface { IsInterfaceAt (headers_of tree.now) interface }
    ensures { (low high : Header)
        → header_at (headers_of tree.now) class ≡ Some low
        → header_at (headers_of tree.now) interface ≡ Some high
        → IsTrue result ↔ IsHidden (headers_of tree.now) low.name name.now desc.now high.name }
{
    a_tree_is_a_hierarchy(tree);
    for below in tree.superinterfaces(class) {
        if hides(tree, *below, interface, name, desc) {
            return true;
        }
    }
    false
}

// Whether the class at a place is below an interface and declares a method that is neither private nor static.
fn hides(tree: &Tree, below: Place, interface: Place, name: &Text, desc: &Text) -> bool
    requires below { IsSome (header_at (headers_of tree.now) below) }
    requires interface { IsInterfaceAt (headers_of tree.now) interface }
    ensures { (low high : Header)
        → header_at (headers_of tree.now) below ≡ Some low
        → header_at (headers_of tree.now) interface ≡ Some high
        → IsTrue result
        ↔ (IsSome (inherited_of name.now desc.now low)
        × IsBelow (headers_of tree.now) low.name high.name) }
{
    a_tree_is_a_hierarchy(tree);
    inherited_method(tree, below, name, desc).is_some()
        && tree.superinterfaces(below).contains(&interface)
}

/// The method of a name and descriptor that is neither private nor static in the first superinterface that has one, of the
/// class at a place.
pub(crate) fn first_inherited(tree: &Tree, class: Place, name: &Text, desc: &Text) -> Option<Found>
    requires { IsSome (header_at (headers_of tree.now) class) }
    ensures { (header : Header)
        → header_at (headers_of tree.now) class ≡ Some header
        → (names : List Name)
        × AreSuperinterfaces (headers_of tree.now) header.name names
        × AreSame (IsMethodFound (headers_of tree.now)) result
        (first_inherited (headers_of tree.now) name.now desc.now names) }
{
    a_tree_is_a_hierarchy(tree);
    for interface in tree.superinterfaces(class) {
        let found = inherited_method(tree, *interface, name, desc);
        if found.is_some() {
            return found;
        }
    }
    None
}

// The method of a name and descriptor that the class at a place declares, if it is neither private nor static.
fn inherited_method(tree: &Tree, class: Place, name: &Text, desc: &Text) -> Option<Found>
    ensures { (header : Header)
        → header_at (headers_of tree.now) class ≡ Some header
        → AreSame (IsMethodFound (headers_of tree.now)) result
        (inherited_of name.now desc.now header) }
{
    let found = own_method(tree, class, name, desc)?;
    is_inherited(found.flags).then_some(found)
}
