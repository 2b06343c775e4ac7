//! Method look-up (JVM Specification SE 8, 5.4.3.3 and 5.4.3.4).
ghost use Rattle.std.specs.Prelude.{◌≡◌, ◌↔◌, ◌<◌, length, bytes_eq, Option, Some, IsSome, IfSome, IsTrue, option_map};
ghost use Rattle.class_model.specs.declared.header.Header.{Header};
ghost use Rattle.class_tree.specs.Headers.{headers_of};
ghost use Rattle.class_tree.specs.Order.{header_at, first_place};
ghost use Rattle.member_link.specs.Inner.Counting.{IsValid, Counts};
ghost use Rattle.member_link.specs.DeclaredMembers.{Declared, declared_by};
ghost use Rattle.member_link.specs.Found.{AreSame, IsMethodFound, IsMethodOf};
ghost use Rattle.member_link.specs.Methods as methods;
ghost use Rattle.member_link.specs.Methods.{CountsFor, FindsInClass, FindsInInterfaces, IsInLibrary, IsPolymorphic};

use crate::defaults::{DefaultMethods, defaults, first_inherited};
use crate::found::Found;
use crate::names::is_array;
use crate::own::own_method;
use crate::upwards::{Counted, first_upwards};
use class_model::{ACC_INTERFACE, INIT, Member, Text, has};
use class_tree::{METHOD_HANDLE, OBJECT, Place, Tree};

const INVOKE: &[u8] = b"invoke";

const INVOKE_EXACT: &[u8] = b"invokeExact";

/// The method of a name and descriptor that a reference through a class finds: in the class and its superclasses, of an
/// interface in itself and among the public methods of java/lang/Object that are not static; else the one default among the
/// superinterfaces; else the first of their methods that is neither private nor static. An instance initialiser is found in
/// the named class alone, a method of an array in java/lang/Object, and `invoke` and `invokeExact` of the library's
/// java/lang/invoke/MethodHandle under every descriptor (JVM Specification SE 8, 5.4.3.3, 5.4.3.4 and 2.9): of a class of this
/// name in the folder they are found as other methods are. None where there is none. It takes no memory.
pub fn find_method(tree: &Tree, class: &Text, name: &Text, desc: &Text) -> Option<Found>
    ensures { IsMethodOf (headers_of tree.now) class.now name.now desc.now result }
{
    class_tree::a_tree_is_a_hierarchy(tree);
    if name.bytes() == INIT {
        own_method(tree, tree.place(class)?, name, desc)
    } else if is_polymorphic(tree, class, name) {
        first_named(tree, tree.place(class)?, name)
    } else if is_array(class.bytes()) {
        find_in_class(tree, OBJECT, name, desc)
    } else {
        find_in_class(tree, class.bytes(), name, desc)
    }
}

// Whether a method is found under every descriptor.
fn is_polymorphic(tree: &Tree, class: &Text, name: &Text) -> bool
    ensures { IsTrue result ↔ IsPolymorphic (headers_of tree.now) class.now name.now }
{
    class.bytes() == METHOD_HANDLE
        && (name.bytes() == INVOKE || name.bytes() == INVOKE_EXACT)
        && is_in_library(tree, class)
}

// Whether the class of a name is one of the library.
fn is_in_library(tree: &Tree, class: &Text) -> bool
    ensures { IsTrue result ↔ IsInLibrary (headers_of tree.now) class.now }
{
    matches!(tree.place(class), Some(Place::Library(_)))
}

// The first method of a name that the class at a place declares.
fn first_named(tree: &Tree, class: Place, name: &Text) -> Option<Found>
    ensures { (header : Header)
        → header_at (headers_of tree.now) class ≡ Some header
        → AreSame (IsMethodFound (headers_of tree.now)) result
        (option_map (declared_by header.name) (methods.first_named name.now header.methods)) }
{
    let methods = tree.header(class)?.methods.as_slice();
    let member = place_of_name(methods, name)?;
    Some(Found {
        place: class,
        member,
        flags: methods[member].flags,
    })
}

// The place of the first method of a name.
fn place_of_name(methods: &[Member], name: &Text) -> Option<usize>
    ensures first { result ≡ first_place (λ method. bytes_eq name.now method.name) methods.now }
    ensures within { IfSome result (λ place. place < length methods.now) }
{
    methods
        .iter()
        .position(|method| name.bytes() == method.name.bytes())
}

// The method that is found in the class of a name, its superclasses and then its superinterfaces.
fn find_in_class(tree: &Tree, class: &[u8], name: &Text, desc: &Text) -> Option<Found>
    ensures { (method : Option Declared)
        × FindsInClass (headers_of tree.now) class.now name.now desc.now method
        × AreSame (IsMethodFound (headers_of tree.now)) result method }
{
    class_tree::a_tree_is_a_hierarchy(tree);
    let class = tree.find(class)?;
    if let Some(found) = first_upwards(tree, class, name, desc, counted_for(tree, class)) {
        return Some(found);
    }
    find_in_interfaces(tree, class, name, desc)
}

// Which methods count upwards of the class at a place.
fn counted_for(tree: &Tree, class: Place) -> Counted
    requires { IsSome (header_at (headers_of tree.now) class) }
    ensures valid { IsValid (headers_of tree.now) result }
    ensures same { (header : Header)
        → header_at (headers_of tree.now) class ≡ Some header
        → (method : Declared)
        → Counts (headers_of tree.now) result method ↔ CountsFor header method }
{
    match tree.header(class) {
        Some(header) if has(header.flags, ACC_INTERFACE) => Counted::OfInterface(class),
        _ => Counted::Every,
    }
}

// The method that is found among the superinterfaces of the class at a place.
fn find_in_interfaces(tree: &Tree, class: Place, name: &Text, desc: &Text) -> Option<Found>
    requires { IsSome (header_at (headers_of tree.now) class) }
    ensures { (header : Header)
        → header_at (headers_of tree.now) class ≡ Some header
        → (method : Option Declared)
        × FindsInInterfaces (headers_of tree.now) header.name name.now desc.now method
        × AreSame (IsMethodFound (headers_of tree.now)) result method }
{
    match defaults(tree, class, name, desc) {
        DefaultMethods::One(found) => Some(found),
        DefaultMethods::Nothing | DefaultMethods::Several => {
            first_inherited(tree, class, name, desc)
        }
    }
}
