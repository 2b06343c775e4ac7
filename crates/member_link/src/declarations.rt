//! What the declarations of a folder's classes are asked to be linked.
ghost use Rattle.std.specs.Prelude.{◌≡◌, ◌↔◌, Some, IfOk, IfSome, IsTrue};
ghost use Rattle.std.specs.List.{AllByRecursion};
ghost use Rattle.std.specs.Option.{option_copied};
ghost use Rattle.class_model.specs.Checks.{asked_each};
ghost use Rattle.class_model.specs.declared.header.Header.{Header};
ghost use Rattle.class_tree.specs.Answers.{Answers};
ghost use Rattle.class_tree.specs.Headers.{headers_of, IsThere};
ghost use Rattle.class_tree.specs.Hierarchy.{StandsAt};
ghost use Rattle.class_tree.specs.Order.{header_at};
ghost use Rattle.class_tree.specs.Steps.{supers};
ghost use Rattle.class_tree.specs.declared.place.Place.TheVariants.{Folder};
ghost use Rattle.member_link.specs.Access.{IsClassAccessible};
ghost use Rattle.member_link.specs.Declarations.{declaration_checks, declared_field_checks, declared_method_checks, OverridesNoFinal};
ghost use Rattle.member_link.specs.DeclaredMembers.{Declared, declared_by};
ghost use Rattle.member_link.specs.Inner.FinalEnds.{AreKnown, AreKnownOf};
ghost use Rattle.member_link.specs.Inner.FinalMethods.{IsFolderPlace, IsOverriddenFinal};
ghost use Rattle.member_link.specs.Found.{IsMethodFound};
ghost use Rattle.member_link.specs.References.{FieldTypeNames};

use crate::access::is_class_accessible;
use crate::ask::ask_at;
use crate::final_methods::known_methods;
use crate::flags::is_inherited;
use crate::found::Found;
use crate::named_descriptors::NamedDescriptors;
use crate::names::is_field_type_there;
use crate::overriding::{Method, any_above, method_at, overrides_method};
use class_model::{ACC_FINAL, Header, NoMemory, Text, has};
use class_tree::{LinkFault, LinkRule, Place, Tree, a_tree_is_a_hierarchy, ask};
use std::alloc::Global;

/// Asks of each class of the folder that those above it are accessible, that the classes in descriptors are there, and that
/// no final method of the folder is overridden.
pub(crate) fn check_declarations(alloc: Global, tree: &Tree) -> Result<(), LinkFault>
    ensures { Answers (asked_each (declaration_checks (headers_of tree.now))
        (headers_of tree.now).folder) result }
{
    let known = known_methods(alloc, tree)?;
    for index in 0..tree.folder().len() {
        check_class(alloc, tree, known.as_slice(), index)?;
    }
    Ok(())
}

// Asks the class at a place.
fn check_class(alloc: Global, tree: &Tree, known: &[usize], index: usize) -> Result<(), LinkFault>
    requires { AreKnown (headers_of tree.now) known.now }
    ensures { (header : Header)
        → header_at (headers_of tree.now) (Folder index) ≡ Some header
        → Answers (declaration_checks (headers_of tree.now) header) result }
{
    a_tree_is_a_hierarchy(tree);
    let place = Place::Folder(index);
    let Some(header) = tree.header(place) else {
        return Ok(());
    };
    ask(
        alloc,
        are_supers_accessible(tree, header),
        &header.name,
        LinkRule::NoAccess,
    )?;
    check_fields(alloc, tree, header)?;
    check_methods(alloc, tree, known[index], place, header)
}

// Whether the superclass and the interfaces of a class are accessible from it.
fn are_supers_accessible(tree: &Tree, header: &Header) -> bool
    ensures { IsTrue result
        ↔ AllByRecursion (IsClassAccessible (headers_of tree.now) header.now.name)
        (supers header.now) }
{
    is_super_accessible(tree, header) && are_interfaces_accessible(tree, header)
}

// Whether the superclass of a class, if there is one, is accessible from it.
fn is_super_accessible(tree: &Tree, header: &Header) -> bool
    ensures { IsTrue result
        ↔ IfSome header.now.super_name (IsClassAccessible (headers_of tree.now) header.now.name) }
{
    match &header.super_name {
        Some(name) => is_class_accessible(tree, header.name.bytes(), name.bytes()),
        None => true,
    }
}

// Whether the interfaces that a class names are accessible from it.
fn are_interfaces_accessible(tree: &Tree, header: &Header) -> bool
    ensures { IsTrue result
        ↔ AllByRecursion (IsClassAccessible
        (headers_of tree.now) header.now.name) header.now.interfaces }
{
    for name in header.interfaces.as_slice() {
        if !is_class_accessible(tree, header.name.bytes(), name.bytes()) {
            return false;
        }
    }
    true
}

// Asks that the classes that the fields of a class are of are there.
fn check_fields(alloc: Global, tree: &Tree, header: &Header) -> Result<(), LinkFault>
    ensures { Answers (asked_each
        (declared_field_checks (headers_of tree.now) header.now) header.now.fields) result }
{
    let mut before = None;
    for field in header.fields.as_slice() {
        let is_there = is_type_there(alloc, tree, before, &field.desc)?;
        ask_at(alloc, is_there, &header.name, field, LinkRule::Missing)?;
        before = Some(&field.desc);
    }
    Ok(())
}

// Whether the class that a field's descriptor names is there, behind a field with this descriptor, whose class is there: one
// that equals the one before it is not parsed again.
fn is_type_there(
    alloc: Global,
    tree: &Tree,
    before: Option<&Text>,
    desc: &Text,
) -> Result<bool, NoMemory>
    requires { IfSome (option_copied before) (FieldTypeNames (IsThere (headers_of tree.now))) }
    ensures { IfOk result
        (λ there. IsTrue there ↔ FieldTypeNames (IsThere (headers_of tree.now)) desc.now) }
{
    if is_text(before, desc) {
        return Ok(true);
    }
    is_field_type_there(alloc, tree, desc)
}

// Whether a text is there and equals another.
fn is_text(one: Option<&Text>, other: &Text) -> bool
    ensures { IsTrue result → option_copied one.entry ≡ Some other.now }
{
    match one {
        Some(one) => one.bytes() == other.bytes(),
        None => false,
    }
}

// Asks that the classes in the descriptors of the methods of the class at a place are there, and that its methods override
// no final method of the folder.
fn check_methods<'a>(
    alloc: Global,
    tree: &'a Tree,
    known: usize,
    place: Place,
    header: &'a Header,
) -> Result<(), LinkFault>
    requires known { AreKnownOf (headers_of tree.now) header.now known }
    requires place { StandsAt (headers_of tree.now) header.now.name place header.now }
    ensures { Answers
        (asked_each (declared_method_checks (headers_of tree.now) header.now) header.now.methods)
        result }
{
    let mut descriptors = NamedDescriptors::new(tree);
    let mut index = 0;
    for member in header.methods.as_slice() {
        let is_there = descriptors.are_there(alloc, &member.desc)?;
        ask_at(alloc, is_there, &header.name, member, LinkRule::Missing)?;
        let method = Method {
            place,
            header,
            member,
        };
        ask_at(
            alloc,
            overrides_no_final(tree, index < known, method),
            &header.name,
            member,
            LinkRule::FinalOverridden,
        )?;
        index += 1;
    }
    Ok(())
}

// Whether a method overrides no final method of the folder, where that may be known.
fn overrides_no_final(tree: &Tree, is_known: bool, low: Method<'_>) -> bool
    requires known { IsTrue is_known
        → OverridesNoFinal (headers_of tree.now)
        (declared_by low.header.now.name low.member.now) }
    requires place { StandsAt (headers_of tree.now) low.header.now.name low.place low.header.now }
    ensures { IsTrue result
        ↔ OverridesNoFinal (headers_of tree.now)
        (declared_by low.entry.header.now.name low.entry.member.now) }
{
    is_known
        || !is_inherited(low.member.flags)
        || !any_above(tree, low, |high| overrides_final(tree, low, high))
}

// Whether a method overrides one that is found and is a final method of the folder.
fn overrides_final(tree: &Tree, low: Method<'_>, high: Found) -> bool
    requires low { StandsAt (headers_of tree.now) low.header.now.name low.place low.header.now }
    requires high { (method : Declared) × IsMethodFound (headers_of tree.now) high method }
    ensures { (method : Declared)
        → IsMethodFound (headers_of tree.now) high method
        → IsTrue result
        ↔ IsOverriddenFinal (headers_of tree.now)
        (declared_by low.entry.header.now.name low.entry.member.now) method }
{
    a_tree_is_a_hierarchy(tree);
    has(high.flags, ACC_FINAL)
        && is_in_folder(high.place)
        && overrides_method(tree, low, method_at(tree, high))
}

// Whether a place is one of the folder.
fn is_in_folder(place: Place) -> bool
    ensures { IsTrue result ↔ IsFolderPlace place }
{
    matches!(place, Place::Folder(_))
}
