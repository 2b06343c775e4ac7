//! Field look-up (JVM Specification SE 8, 5.4.3.2).
//!
//! Each class has java/lang/Object above it. Where java/lang/Object declares the field, the look-up in the first interface
//! that names no interfaces ends there. Where it does not, it is passed over.
ghost use Rattle.std.specs.Prelude.{◌≡◌, IsSome, IsTrue, Option, Some};
ghost use Rattle.std.specs.List.{AllByRecursion};
ghost use Rattle.std.specs.Option.{option_and_then};
ghost use Rattle.class_model.specs.declared.header.Header.{Header};
ghost use Rattle.class_tree.specs.Headers.{headers_of};
ghost use Rattle.class_tree.specs.Names.{object, is_interface};
ghost use Rattle.class_tree.specs.Order.{header_at};
ghost use Rattle.member_link.specs.DeclaredMembers.{Declared};
ghost use Rattle.member_link.specs.Fields.{FindsFirst};
ghost use Rattle.member_link.specs.Inner.FieldSearch.{FindsOrLeaves, IsInterfaceIfThere, first_met, met};
ghost use Rattle.member_link.specs.Found.{AreSame, IsField, IsFieldFound};

use crate::found::Found;
use crate::own::own_field;
use class_model::Text;
use class_tree::{OBJECT, Place, Tree, a_tree_is_a_hierarchy};

/// The field of a name and descriptor that a reference through a class finds: in the class itself, else in its direct
/// superinterfaces in order, each with those above it, else in its superclass (JVM Specification SE 8, 5.4.3.2). None where there
/// is none, and for an array. It takes no memory.
pub fn find_field(tree: &Tree, class: &Text, name: &Text, desc: &Text) -> Option<Found>
    ensures { IsField (headers_of tree.now) class.now name.now desc.now result }
{
    a_tree_is_a_hierarchy(tree);
    let top = field_of_object(tree, name, desc);
    let mut next = tree.place(class);
    while let Some(place) = next {
        if let Some(found) = find_below_super(tree, place, name, desc, top) {
            return Some(found);
        }
        next = tree.superclass(place);
    }
    None
}

// The field of java/lang/Object.
fn field_of_object(tree: &Tree, name: &Text, desc: &Text) -> Option<Found>
    ensures { IsField (headers_of tree.now) object name.now desc.now result }
{
    a_tree_is_a_hierarchy(tree);
    match tree.find(OBJECT) {
        Some(place) => own_field(tree, place, name, desc),
        None => None,
    }
}

// The field that is found in the class at a place before its superclass: its own, else that of its interfaces.
fn find_below_super(
    tree: &Tree,
    class: Place,
    name: &Text,
    desc: &Text,
    top: Option<Found>,
) -> Option<Found>
    requires top { IsField (headers_of tree.now) object name.now desc.now top }
    ensures { (header : Header)
        → header_at (headers_of tree.now) class ≡ Some header
        → (field : Option Declared)
        × FindsOrLeaves (headers_of tree.now) name.now desc.now header field
        × AreSame (IsFieldFound (headers_of tree.now)) result field }
{
    a_tree_is_a_hierarchy(tree);
    if let Some(found) = own_field(tree, class, name, desc) {
        return Some(found);
    }
    match tree.header(class) {
        Some(header) => find_in_interfaces(tree, header.interfaces.as_slice(), name, desc, top),
        None => None,
    }
}

// The field that is found in the first of these interfaces in which one is found.
fn find_in_interfaces(
    tree: &Tree,
    interfaces: &[Text],
    name: &Text,
    desc: &Text,
    top: Option<Found>,
) -> Option<Found>
    requires kinds { AllByRecursion (IsInterfaceIfThere (headers_of tree.now)) interfaces.now }
    requires top { IsField (headers_of tree.now) object name.now desc.now top }
    ensures { (field : Option Declared)
        × FindsFirst (headers_of tree.now) name.now desc.now interfaces.now field
        × AreSame (IsFieldFound (headers_of tree.now)) result field }
{
    for interface in interfaces {
        if let Some(found) = find_in_interface(tree, interface, name, desc, top) {
            return Some(found);
        }
    }
    None
}

// The field that is found in an interface.
fn find_in_interface(
    tree: &Tree,
    interface: &Text,
    name: &Text,
    desc: &Text,
    top: Option<Found>,
) -> Option<Found>
    requires kind { IsInterfaceIfThere (headers_of tree.now) interface.now }
    requires top { IsField (headers_of tree.now) object name.now desc.now top }
    ensures { IsField (headers_of tree.now) interface.now name.now desc.now result }
{
    a_tree_is_a_hierarchy(tree);
    match tree.place(interface) {
        Some(place) => find_above(tree, place, name, desc, top),
        None => None,
    }
}

// The field that is met first in the interface at a place and those above it.
fn find_above(
    tree: &Tree,
    interface: Place,
    name: &Text,
    desc: &Text,
    top: Option<Found>,
) -> Option<Found>
    requires interface { IsSome (header_at (headers_of tree.now) interface) }
    requires top { IsField (headers_of tree.now) object name.now desc.now top }
    ensures { (header : Header)
        → header_at (headers_of tree.now) interface ≡ Some header
        → IsTrue (is_interface header)
        → IsField (headers_of tree.now) header.name name.now desc.now result }
{
    a_tree_is_a_hierarchy(tree);
    if let Some(found) = met(tree, interface, name, desc, top) {
        return Some(found);
    }
    first_met(tree, tree.superinterfaces(interface), name, desc, top)
}

// The field that is met first in the interfaces at these places.
fn first_met(
    tree: &Tree,
    interfaces: &[Place],
    name: &Text,
    desc: &Text,
    top: Option<Found>,
) -> Option<Found>
    ensures { (field : Option Declared)
        → AreSame (IsFieldFound (headers_of tree.now)) top field
        → AreSame (IsFieldFound (headers_of tree.now)) result
        (first_met (headers_of tree.now) field name.now desc.now interfaces.now) }
{
    for interface in interfaces {
        if let Some(found) = met(tree, *interface, name, desc, top) {
            return Some(found);
        }
    }
    None
}

// The field that is met in the interface at a place.
fn met(tree: &Tree, interface: Place, name: &Text, desc: &Text, top: Option<Found>) -> Option<Found>
    ensures { (field : Option Declared)
        → AreSame (IsFieldFound (headers_of tree.now)) top field
        → AreSame (IsFieldFound (headers_of tree.now)) result
        (option_and_then (met field name.now desc.now)
        (header_at (headers_of tree.now) interface)) }
{
    let Some(header) = tree.header(interface) else {
        return None;
    };
    if let Some(found) = own_field(tree, interface, name, desc) {
        return Some(found);
    }
    if header.interfaces.is_empty() {
        top
    } else {
        None
    }
}
