//! Selection of the method that a call runs (JVM Specification SE 8, 6.5 on the instructions of calls).
ghost use Rattle.std.specs.Prelude.{◌≡◌, ◌↔◌, IsFalse, IsSome, IsTrue, Some};
ghost use Rattle.std.specs.Option.{option_copied};
ghost use Rattle.class_model.specs.Members.{has, STATIC};
ghost use Rattle.class_model.specs.declared.header.Header.{Header};
ghost use Rattle.class_tree.specs.Headers.{Headers, headers_of};
ghost use Rattle.class_tree.specs.Names as names;
ghost use Rattle.class_tree.specs.Order.{header_at, place_of};
ghost use Rattle.member_link.specs.Inner.Counting.{Counts, IsValid};
ghost use Rattle.member_link.specs.DeclaredMembers.{Declared};
ghost use Rattle.member_link.specs.Found.{IsMethodFound, IsChoice};
ghost use Rattle.member_link.specs.Selection.{Choice, Chooses, ChoosesDefault, Selects, choice_of, public_choice_of, start_of};
ghost use Rattle.member_link.specs.Inner.SelectionSteps.{CountsFrom, IsFixed, choice_by};

use crate::defaults::{DefaultMethods, defaults};
use crate::found::Found;
use crate::names::is_array;
use crate::upwards::{Counted, first_upwards};
use class_model::{ACC_ABSTRACT, ACC_INTERFACE, ACC_PRIVATE, ACC_PUBLIC, INIT, Member, Text, has};
use class_tree::{OBJECT, Place, Tree, a_tree_is_a_hierarchy};

/// How a method is called: by `invokevirtual`, `invokeinterface` or `invokespecial` (JVM Specification SE 8, 6.5).
#[derive(Clone, Copy, PartialEq, Eq)]
pub enum CallForm {
    Virtual,
    Interface,
    Special,
}

/// The method that a call runs, or why there is none: it is abstract or there is none, there are several defaults, or it is
/// not public.
#[derive(Clone, Copy, PartialEq, Eq, Debug)]
pub enum Selected {
    Found(Found),
    Abstract,
    Twice,
    NotPublic,
}

/// The method that a call of a resolved method runs on an object of a receiver's class. For `Special` the receiver is the
/// class at which the selection starts. Selection for an array starts at java/lang/Object (JVM Specification SE 8, 6.5). It takes no
/// memory.
pub fn select(tree: &Tree, receiver: &Text, resolved: Found, form: CallForm) -> Selected
    requires { (method : Declared)
        × IsMethodFound (headers_of tree.now) resolved method
        × IsFalse (has method.member.flags STATIC) }
    ensures { (method : Declared)
        → IsMethodFound (headers_of tree.now) resolved method
        → (choice : Choice)
        × Selects (headers_of tree.now) receiver.now method form choice
        × IsChoice (headers_of tree.now) result choice }
{
    a_tree_is_a_hierarchy(tree);
    let Some(method) = method_of(tree, resolved) else {
        return Selected::Abstract;
    };
    if is_fixed(resolved, &method.name, form) {
        return chosen(resolved);
    }
    match start(tree, receiver) {
        Some(start) => choose(tree, start, resolved, method, form),
        None => Selected::Abstract,
    }
}

// The method that is found.
fn method_of(tree: &Tree, found: Found) -> Option<&Member>
    ensures { (method : Declared)
        → IsMethodFound (headers_of tree.now) found method
        → option_copied result ≡ Some method.member }
{
    tree.header(found.place)?.methods.get(found.member)
}

// Whether the resolved method itself is chosen.
fn is_fixed(resolved: Found, name: &Text, form: CallForm) -> bool
    ensures { (method : Declared)
        → resolved.flags ≡ method.member.flags
        → method.member.name ≡ name.now
        → IsTrue result ↔ IsFixed form method }
{
    match form {
        CallForm::Virtual => has(resolved.flags, ACC_PRIVATE),
        CallForm::Interface => false,
        CallForm::Special => name.bytes() == INIT,
    }
}

// The class at which selection for a receiver starts.
fn start(tree: &Tree, receiver: &Text) -> Option<Place>
    ensures { result ≡ place_of (headers_of tree.now) (start_of receiver.now) }
{
    if is_array(receiver.bytes()) {
        tree.find(OBJECT)
    } else {
        tree.place(receiver)
    }
}

// The method that is chosen from the class at a place upwards.
fn choose(tree: &Tree, start: Place, resolved: Found, method: &Member, form: CallForm) -> Selected
    requires start { IsSome (header_at (headers_of tree.now) start) }
    requires resolved { (method : Declared) × IsMethodFound (headers_of tree.now) resolved method }
    ensures { (header : Header) (found : Declared)
        → header_at (headers_of tree.now) start ≡ Some header
        → IsMethodFound (headers_of tree.now) resolved found
        → (choice : Choice)
        × Chooses (headers_of tree.now) (CountsFrom (headers_of tree.now) header.name found form)
        (choice_by form) header.name method.now.name method.now.desc choice
        × IsChoice (headers_of tree.now) result choice }
{
    let counted = counted_for(tree, start, resolved, form);
    match first_upwards(tree, start, &method.name, &method.desc, counted) {
        Some(found) => chosen_by(found, form),
        None => by_default(tree, start, &method.name, &method.desc),
    }
}

// Which methods count from the class at a place upwards.
fn counted_for(tree: &Tree, start: Place, resolved: Found, form: CallForm) -> Counted
    requires start { IsSome (header_at (headers_of tree.now) start) }
    requires resolved { (method : Declared) × IsMethodFound (headers_of tree.now) resolved method }
    ensures valid { IsValid (headers_of tree.now) result }
    ensures same { (header : Header) (found method : Declared)
        → header_at (headers_of tree.now) start ≡ Some header
        → IsMethodFound (headers_of tree.now) resolved found
        → Counts (headers_of tree.now) result method
        ↔ CountsFrom (headers_of tree.now) header.name found form method }
{
    a_tree_is_a_hierarchy(tree);
    match form {
        CallForm::Virtual => Counted::Overriding(resolved),
        CallForm::Interface => Counted::Instance,
        CallForm::Special if is_interface(tree, start) => Counted::InstanceOfInterface,
        CallForm::Special => Counted::Instance,
    }
}

// Whether the class at a place is an interface.
fn is_interface(tree: &Tree, class: Place) -> bool
    ensures { (header : Header)
        → header_at (headers_of tree.now) class ≡ Some header
        → result ≡ names.is_interface header }
{
    match tree.header(class) {
        Some(header) => has(header.flags, ACC_INTERFACE),
        None => false,
    }
}

// What becomes of the first method that counts.
fn chosen_by(found: Found, form: CallForm) -> Selected
    ensures { (headers : Headers) (method : Declared)
        → IsMethodFound headers found method
        → IsChoice headers result (choice_by form method) }
{
    match form {
        CallForm::Interface => chosen_public(found),
        CallForm::Virtual | CallForm::Special => chosen(found),
    }
}

// The method, if it is not abstract.
fn chosen(found: Found) -> Selected
    ensures { (headers : Headers) (method : Declared)
        → IsMethodFound headers found method
        → IsChoice headers result (choice_of method) }
{
    if has(found.flags, ACC_ABSTRACT) {
        Selected::Abstract
    } else {
        Selected::Found(found)
    }
}

// The method, if it is public and not abstract.
fn chosen_public(found: Found) -> Selected
    ensures { (headers : Headers) (method : Declared)
        → IsMethodFound headers found method
        → IsChoice headers result (public_choice_of method) }
{
    if has(found.flags, ACC_PUBLIC) {
        chosen(found)
    } else {
        Selected::NotPublic
    }
}

// The one default among the superinterfaces of the class at a place.
fn by_default(tree: &Tree, class: Place, name: &Text, desc: &Text) -> Selected
    requires { IsSome (header_at (headers_of tree.now) class) }
    ensures { (header : Header)
        → header_at (headers_of tree.now) class ≡ Some header
        → (choice : Choice)
        × ChoosesDefault (headers_of tree.now) header.name name.now desc.now choice
        × IsChoice (headers_of tree.now) result choice }
{
    match defaults(tree, class, name, desc) {
        DefaultMethods::Nothing => Selected::Abstract,
        DefaultMethods::One(found) => Selected::Found(found),
        DefaultMethods::Several => Selected::Twice,
    }
}
