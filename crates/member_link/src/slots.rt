//! The fields of objects by number (JVM Specification SE 8, 2.4 and 2.7).
ghost use Rattle.std.specs.Prelude.{◌≡◌, ◌≤◌, ◌+◌, ◌++◌, List, Some, IfSome, IsSome, count_by, filter, option_map};
ghost use Rattle.std.specs.List.{position_from};
ghost use Rattle.class_model.specs.declared.header.Header.{Header};
ghost use Rattle.class_tree.specs.Headers.{Name, headers_of};
ghost use Rattle.class_tree.specs.Names.{is_member};
ghost use Rattle.class_tree.specs.Order.{header_at, place_of};
ghost use Rattle.class_tree.specs.declared.place.Place.TheVariants.{Folder};
ghost use Rattle.member_link.specs.Inner.SlotWords.{is_of_object, own_number};
ghost use Rattle.member_link.specs.Machine.Layouts.{capped, own_slots_in, slot_number_in};
ghost use Rattle.member_link.specs.Machine.Programs.{number_of_first, same_reference};
ghost use Rattle.member_link.specs.References.{Reference as Named};

use crate::reference::Reference;
use class_model::{ACC_STATIC, Header, Member, Text, has};
use class_tree::{Place, Tree, a_tree_is_a_hierarchy};

/// The number of a field among the instance fields of an object of the class at a place, those of the highest class first, or
/// `usize::MAX` where it is as great or greater. It does not allocate, and goes up the superclasses of the class.
pub fn slot_number(tree: &Tree, class: Option<Place>, field: &Reference) -> Option<usize>
    requires { IfSome class (λ place. IsSome (header_at (headers_of tree.now) place)) }
    ensures { (name : Name) → class ≡ place_of (headers_of tree.now) name
        → result ≡ capped usize.MAX (slot_number_in (headers_of tree.now) name field.now) }
{
    a_tree_is_a_hierarchy(tree);
    let mut number = None;
    let mut next = class;
    while let Some(place) = next {
        number = number_with(tree, place, field, number);
        next = tree.superclass(place);
    }
    number
}

// The number where those of the class at a place come before the ones so far.
fn number_with(tree: &Tree, class: Place, field: &Reference, number: Option<usize>) -> Option<usize>
    ensures { (header : Header) (slots : List Named)
        → header_at (headers_of tree.now) class ≡ Some header
        → number ≡ capped usize.MAX (number_of_first (same_reference field.now) slots)
        → result
        ≡ capped usize.MAX (number_of_first (same_reference field.now)
        (own_slots_in (headers_of tree.now) header.name ++ slots)) }
{
    a_tree_is_a_hierarchy(tree);
    match class {
        Place::Folder(place) => number_in_folder(tree, place, field, number),
        Place::Library(_) => number,
    }
}

// Of a class of the folder.
fn number_in_folder(
    tree: &Tree,
    class: usize,
    field: &Reference,
    number: Option<usize>,
) -> Option<usize>
    ensures { (header : Header) (slots : List Named)
        → header_at (headers_of tree.now) (Folder class) ≡ Some header
        → number ≡ capped usize.MAX (number_of_first (same_reference field.now) slots)
        → result
        ≡ capped usize.MAX (number_of_first (same_reference field.now)
        (own_slots_in (headers_of tree.now) header.name ++ slots)) }
{
    a_tree_is_a_hierarchy(tree);
    let Some(header) = tree.header(Place::Folder(class)) else {
        return number;
    };
    match own_number(header, field) {
        Some(own) => Some(own),
        None => added(number, count(header.fields.as_slice())),
    }
}

// So many more.
fn added(number: Option<usize>, count: usize) -> Option<usize>
    ensures { result ≡ capped usize.MAX (option_map (λ number. count + number) number) }
{
    match number {
        Some(number) => Some(number.saturating_add(count)),
        None => None,
    }
}

// The number of a field among those that a class declares for objects.
fn own_number(header: &Header, field: &Reference) -> Option<usize>
    ensures number { result ≡ own_number header.now field.now }
    ensures small { IfSome result (λ number. number ≤ usize.MAX) }
{
    if field.class.bytes() == header.name.bytes() {
        first_number(header.fields.as_slice(), &field.name, &field.desc)
    } else {
        None
    }
}

// The number of the first field of a name and descriptor among those that are not static.
fn first_number(fields: &[Member], name: &Text, desc: &Text) -> Option<usize>
    ensures { result
        ≡ position_from (is_member name.now desc.now) 0 (filter is_of_object fields.now) }
{
    fields
        .iter()
        .filter(|field| is_of_object(field))
        .position(|field| is_member(field, name, desc))
}

// How many fields are not static.
fn count(fields: &[Member]) -> usize
    ensures { result ≡ count_by is_of_object fields.now }
{
    fields.iter().filter(|field| is_of_object(field)).count()
}

// Whether a field is not static.
fn is_of_object(field: &Member) -> bool
    ensures { result ≡ is_of_object field.now }
{
    !has(field.flags, ACC_STATIC)
}

// Whether a field has this name and descriptor.
fn is_member(field: &Member, name: &Text, desc: &Text) -> bool
    ensures { result ≡ is_member name.now desc.now field.now }
{
    name.bytes() == field.name.bytes() && desc.bytes() == field.desc.bytes()
}
