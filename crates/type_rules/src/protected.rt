//! Protected members (JVM Specification SE 8, 4.10.1.8): an object of another class does not lend the current class its
//! protected members of another package, but for the clone of an array.
ghost use Rattle.std.specs.Prelude.{◌↔◌, IsFalse, IsTrue, List, Option};
ghost use Rattle.class_model.specs.declared.header.Header.{Header as head};
ghost use Rattle.class_model.specs.declared.header.Member.{Member};
ghost use Rattle.class_tree.specs.Headers.{headers_of};
ghost use Rattle.member_link.specs.Access.{IsAtOrBelow};
ghost use Rattle.member_link.specs.DeclaredMembers.{Declared};
ghost use Rattle.member_link.specs.Found.{AreSame, IsFoundIn};
ghost use Rattle.member_link.specs.Rows.MemberRows.{PassesField, PassesMethod};
ghost use Rattle.type_rules.specs.Inner.Protected.{IsBound, IsCloneOfArray, IsForeign, IsFree};
ghost use Rattle.member_link.specs.MemberRefs.{reference_meant};
ghost use Rattle.member_link.specs.Scope.{row_scope};

use crate::assignability::is_object_of;
use crate::method_rules::MethodRules;
use class_model::{ACC_PROTECTED, VType, has};
use class_tree::{Tree, is_array, is_below};
use member_link::{
    Found, MemberRef, a_look_up_finds_one_field, a_look_up_finds_one_method, find_field,
    find_method, is_same_package,
};

const CLONE: &[u8] = b"clone";

/// Whether a field may be that of a receiver, if the field is protected.
pub(crate) fn passes_field(
    rules: &MethodRules<'_>,
    reference: &MemberRef<'_>,
    receiver: &VType,
) -> bool
    ensures { IsTrue result
        ↔ PassesField (row_scope rules.now) (reference_meant reference.now) receiver.now }
{
    a_look_up_finds_one_field();
    if is_free(rules, reference, receiver) {
        return true;
    }
    let found = find_field(rules.tree, reference.class, reference.name, reference.desc);
    !is_foreign(rules, found)
}

/// Whether a method may be that of a receiver, if the method is protected.
pub(crate) fn passes_method(
    rules: &MethodRules<'_>,
    reference: &MemberRef<'_>,
    receiver: &VType,
) -> bool
    ensures { IsTrue result
        ↔ PassesMethod (row_scope rules.now) (reference_meant reference.now) receiver.now }
{
    a_look_up_finds_one_method();
    if is_free(rules, reference, receiver) {
        return true;
    }
    let found = find_method(rules.tree, reference.class, reference.name, reference.desc);
    !is_foreign(rules, found)
}

/// Whether a member that was found is protected and of a class in another package than the current class.
pub(crate) fn is_foreign(rules: &MethodRules<'_>, found: Option<Found>) -> bool
    ensures { (members_of : head → List Member) (member : Option Declared)
        → AreSame (IsFoundIn members_of rules.now.headers) found member
        → IsTrue result ↔ IsForeign (row_scope rules.now) member }
{
    let Some(found) = found else {
        return false;
    };
    if !has(found.flags, ACC_PROTECTED) {
        return false;
    }
    match rules.tree.header(found.place) {
        Some(header) => !is_same_package(header.name.bytes(), rules.header.name.bytes()),
        None => false,
    }
}

// Whether a receiver lends all its protected members, or the class that a reference names is not above the current class.
fn is_free(rules: &MethodRules<'_>, reference: &MemberRef<'_>, receiver: &VType) -> bool
    ensures yes { IsTrue result
        → IsFree (row_scope rules.now) (reference_meant reference.now) receiver.now }
    ensures no { IsFalse result
        → IsBound (row_scope rules.now) (reference_meant reference.now) receiver.now }
{
    let current = rules.header.name.bytes();
    is_object_of(rules.tree, receiver, current)
        || is_clone_of_array(reference, receiver)
        || !is_at_or_below(rules.tree, current, reference.class.bytes())
}

// Whether a method is the clone of a receiver that is an array.
fn is_clone_of_array(reference: &MemberRef<'_>, receiver: &VType) -> bool
    ensures { IsTrue result ↔ IsCloneOfArray (reference_meant reference.now) receiver.now }
{
    match receiver {
        VType::Object(name) => is_array(name.bytes()) && reference.name.bytes() == CLONE,
        _ => false,
    }
}

// Whether a class is another or below it.
fn is_at_or_below(tree: &Tree, low: &[u8], high: &[u8]) -> bool
    ensures { IsTrue result ↔ IsAtOrBelow (headers_of tree.now) low.now high.now }
{
    low == high || is_below(tree, low, high)
}
