//! Which classes, fields and methods are accessible from a host's class (JVM Specification SE 8, 5.4.4).
ghost use Rattle.std.specs.Prelude.{◌≡◌, ◌↔◌, ◌⊎◌, ◌||◌, Some, IsTrue, IsFalse, codes};
ghost use Rattle.class_model.specs.Members as members;
ghost use Rattle.class_model.specs.Pool.{constant_at};
ghost use Rattle.class_model.specs.declared.header.Header.{Header};
ghost use Rattle.class_model.specs.declared.header.Member.{Member};
ghost use Rattle.class_tree.specs.Headers.{headers_of};
ghost use Rattle.class_tree.specs.Order.{header_at};
ghost use Rattle.expanded_code.specs.Callees.{IsOpenClassAt, IsOpenConstant, IsOpenField, IsOpenFieldAt, IsOpenFieldReference, IsOpenMethod, IsOpenMethodAt, IsOpenMethodReference, NamesOpen};
ghost use Rattle.inline_expand.specs.Inner.Open.{IsOpenToAll, WillBeOpened};
ghost use Rattle.member_link.specs.DeclaredMembers as declared;
ghost use Rattle.member_link.specs.DeclaredMembers.{Declared};
ghost use Rattle.member_link.specs.Found.{IsFieldFound, IsMethodFound};
ghost use Rattle.member_link.specs.MemberRefs.{reference_meant};
ghost use Rattle.member_link.specs.Overriding.{package_of};

use crate::found::method_of;
use crate::host::Host;
use class_model::{ACC_PRIVATE, ACC_PROTECTED, ACC_PUBLIC, ACC_STATIC, Const, Instr, Text, has};
use class_tree::{Place, Tree, a_tree_is_a_hierarchy, is_array};
use member_link::{
    Found, MemberRef, a_look_up_finds_one_field, a_look_up_finds_one_method, class_accessible,
    find_field, find_method, is_same_package, member_at,
};

// The method of an array that counts as public.
const CLONE: &[u8] = b"clone";

/// Whether each class, field and method that an instruction of a method names is accessible from a host's
/// class.
pub(crate) fn names_open(scope: &Host<'_>, host: &Text, instr: &Instr) -> bool
    ensures { IsTrue result ↔ NamesOpen scope.now host.now instr.now }
{
    match instr {
        Instr::Ldc(index) => is_open_constant(scope, host, *index),
        Instr::GetStatic(index)
        | Instr::PutStatic(index)
        | Instr::GetField(index)
        | Instr::PutField(index) => is_open_field_at(scope, host, *index),
        Instr::Invoke(_, index, _) => is_open_method_at(scope, host, *index),
        Instr::New(index)
        | Instr::NewRefArray(index)
        | Instr::NewMulti(index, _)
        | Instr::Cast(index)
        | Instr::InstanceOf(index) => is_open_class_at(scope, host, *index),
        _ => true,
    }
}

// Whether a constant that is loaded is no class, or one that is accessible.
fn is_open_constant(scope: &Host<'_>, host: &Text, index: u16) -> bool
    ensures { IsTrue result ↔ IsOpenConstant scope.now host.now index
        (constant_at scope.now.class.pool index) }
{
    match scope.pool().get(index) {
        Some(Const::Class(_)) => is_open_class_at(scope, host, index),
        _ => true,
    }
}

// Whether the class that a constant names is accessible.
fn is_open_class_at(scope: &Host<'_>, host: &Text, index: u16) -> bool
    ensures { IsTrue result ↔ IsOpenClassAt scope.now host.now index }
{
    match scope.pool().class_name(index) {
        Some(name) => class_accessible(scope.tree(), host, name),
        None => true,
    }
}

// Whether the field that a constant refers to is accessible, or will be opened.
fn is_open_field_at(scope: &Host<'_>, host: &Text, index: u16) -> bool
    ensures { IsTrue result ↔ IsOpenFieldAt scope.now host.now index }
{
    match member_at(scope.pool(), index) {
        Some(reference) => is_open_field_reference(scope.tree(), host, &reference),
        None => true,
    }
}

// Whether the method that a constant refers to is accessible.
fn is_open_method_at(scope: &Host<'_>, host: &Text, index: u16) -> bool
    ensures { IsTrue result ↔ IsOpenMethodAt scope.now host.now index }
{
    match member_at(scope.pool(), index) {
        Some(reference) => is_open_method_reference(scope.tree(), host, &reference),
        None => true,
    }
}

// Whether the class and the field of a reference are accessible, or the field will be opened.
fn is_open_field_reference(tree: &Tree, host: &Text, reference: &MemberRef<'_>) -> bool
    ensures { IsTrue result
        ↔ IsOpenFieldReference (headers_of tree.now) host.now (reference_meant reference.now) }
{
    a_look_up_finds_one_field();
    if !class_accessible(tree, host, reference.class) {
        return false;
    }
    match find_field(tree, reference.class, reference.name, reference.desc) {
        Some(found) => is_open_field(tree, host, found),
        None => true,
    }
}

// Whether the class and the method of a reference are accessible.
fn is_open_method_reference(tree: &Tree, host: &Text, reference: &MemberRef<'_>) -> bool
    ensures { IsTrue result
        ↔ IsOpenMethodReference (headers_of tree.now) host.now (reference_meant reference.now) }
{
    a_look_up_finds_one_method();
    if !class_accessible(tree, host, reference.class) {
        return false;
    }
    match find_method(tree, reference.class, reference.name, reference.desc) {
        Some(found) => is_open_method(tree, host, reference.class, found),
        None => true,
    }
}

// Whether a field that is found is accessible, or will be opened.
fn is_open_field(tree: &Tree, host: &Text, found: Found) -> bool
    ensures { (field : Declared)
        → IsFieldFound (headers_of tree.now) found field
        → IsTrue result ↔ IsOpenField (headers_of tree.now) host.now field }
{
    a_tree_is_a_hierarchy(tree);
    if is_open_to_all(found.flags) {
        return true;
    }
    if !is_of_package(tree, host, found.place) {
        return false;
    }
    is_open_in_package(found.flags) || is_opened(found)
}

// Whether a method that is found in a class or array is accessible.
fn is_open_method(tree: &Tree, host: &Text, named: &Text, found: Found) -> bool
    ensures { (method : Declared)
        → IsMethodFound (headers_of tree.now) found method
        → IsTrue result ↔ IsOpenMethod host.now named.now method }
{
    if is_open_to_all(found.flags) {
        return true;
    }
    if is_open_in_package(found.flags) && is_of_package(tree, host, found.place) {
        return true;
    }
    is_array(named.bytes()) && is_clone(tree, found)
}

// Whether the class at a place is of the package of a host's class.
fn is_of_package(tree: &Tree, host: &Text, place: Place) -> bool
    ensures { (header : Header)
        → header_at (headers_of tree.now) place ≡ Some header
        → IsTrue result ↔ (package_of host.now ≡ package_of header.name) }
{
    match tree.header(place) {
        Some(header) => is_same_package(host.bytes(), header.name.bytes()),
        None => false,
    }
}

// Whether a member is public and not protected. The flags of a library's member may say both.
fn is_open_to_all(flags: u16) -> bool
    ensures { IsTrue result ↔ IsOpenToAll flags }
{
    has(flags, ACC_PUBLIC) && !has(flags, ACC_PROTECTED)
}

// Whether a member is of package access or protected.
fn is_open_in_package(flags: u16) -> bool
    ensures { (member : Member)
        → member.flags ≡ flags
        → result
        ≡ (declared.is_package_access member || members.has member.flags members.PROTECTED) }
{
    (!has(flags, ACC_PUBLIC) && !has(flags, ACC_PROTECTED) && !has(flags, ACC_PRIVATE))
        || has(flags, ACC_PROTECTED)
}

// Whether a field that is found is a private instance field of a class of the folder.
fn is_opened(found: Found) -> bool
    ensures { IsTrue result ↔ WillBeOpened found }
{
    has(found.flags, ACC_PRIVATE)
        && !has(found.flags, ACC_STATIC)
        && matches!(found.place, Place::Folder(_))
}

// Whether a method that is found is named as the clone of an array.
fn is_clone(tree: &Tree, found: Found) -> bool
    ensures { (method : Declared)
        → IsMethodFound (headers_of tree.now) found method
        → IsTrue result ↔ (method.member.name ≡ codes "clone") }
{
    match method_of(tree, found) {
        Some(method) => method.name.bytes() == CLONE,
        None => false,
    }
}
