//! Classes that names and descriptors name (JVM Specification SE 8, 4.3).
ghost use Rattle.std.specs.Prelude.{◌≡◌, ◌↔◌, drop, IsTrue, IfSome, IfOk};
ghost use Rattle.std.specs.List.{AllByRecursion};
ghost use Rattle.std.specs.Option.{option_copied};
ghost use Rattle.class_model.specs.Descriptors.{brackets};
ghost use Rattle.class_tree.specs.Headers.{headers_of, IsThere};
ghost use Rattle.class_tree.specs.Subtype.{IsArray};
ghost use Rattle.member_link.specs.Access.{IsClassAccessible};
ghost use Rattle.member_link.specs.References.{element_class, IsNamedThere, IsNamedAccessible, TypeNames, FieldTypeNames, DescriptorNames};

use crate::access::is_class_accessible;
use class_model::{
    Descriptor, FieldType, NameFault, NoMemory, Text, a_text_spells_one_descriptor,
    a_text_spells_one_field_type, parse_descriptor, parse_field_type,
};
use class_tree::{Tree, a_tree_is_a_hierarchy};
use std::alloc::Global;

/// Whether a name is that of an array.
pub(crate) fn is_array(name: &[u8]) -> bool
    ensures { IsTrue result ↔ IsArray name.now }
{
    name.starts_with(b"[")
}

/// Whether the class that a class name or an array type names is there.
pub(crate) fn is_named_there(tree: &Tree, name: &[u8]) -> bool
    ensures { IsTrue result ↔ IsNamedThere (headers_of tree.now) name.now }
{
    match element_class(name) {
        Some(class) => is_there(tree, class),
        None => true,
    }
}

/// Whether the class that a class name or an array type names is there and accessible from a class.
pub(crate) fn is_named_accessible(tree: &Tree, from: &[u8], name: &[u8]) -> bool
    ensures { IsTrue result ↔ IsNamedAccessible (headers_of tree.now) from.now name.now }
{
    match element_class(name) {
        Some(class) => is_class_accessible(tree, from, class),
        None => true,
    }
}

/// Whether the class that a field's descriptor names is there.
pub(crate) fn is_field_type_there(alloc: Global, tree: &Tree, desc: &Text) -> Result<bool, NoMemory>
    ensures { IfOk result
        (λ there. IsTrue there ↔ FieldTypeNames (IsThere (headers_of tree.now)) desc.now) }
{
    a_text_spells_one_field_type();
    match parse_field_type(alloc, desc) {
        Ok(field_type) => Ok(is_type_there(tree, &field_type)),
        Err(NameFault::BadName) => Ok(true),
        Err(NameFault::NoMemory) => Err(NoMemory),
    }
}

/// Whether the classes that a method's descriptor names are there.
pub(crate) fn is_descriptor_there(alloc: Global, tree: &Tree, desc: &Text) -> Result<bool, NoMemory>
    ensures { IfOk result
        (λ there. IsTrue there ↔ DescriptorNames (IsThere (headers_of tree.now)) desc.now) }
{
    a_text_spells_one_descriptor();
    match parse_descriptor(alloc, desc) {
        Ok(descriptor) => Ok(are_types_there(tree, &descriptor)),
        Err(NameFault::BadName) => Ok(true),
        Err(NameFault::NoMemory) => Err(NoMemory),
    }
}

/// Whether the classes that a method's descriptor names are there and accessible from a class.
pub(crate) fn is_descriptor_accessible(
    alloc: Global,
    tree: &Tree,
    from: &[u8],
    desc: &Text,
) -> Result<bool, NoMemory>
    ensures { IfOk result (λ accessible. IsTrue accessible
        ↔ DescriptorNames (IsClassAccessible (headers_of tree.now) from.now) desc.now) }
{
    a_text_spells_one_descriptor();
    match parse_descriptor(alloc, desc) {
        Ok(descriptor) => Ok(are_types_accessible(tree, from, &descriptor)),
        Err(NameFault::BadName) => Ok(true),
        Err(NameFault::NoMemory) => Err(NoMemory),
    }
}

// Whether the classes that the types of a method name are there.
fn are_types_there(tree: &Tree, descriptor: &Descriptor) -> bool
    ensures { IsTrue result
        ↔ (AllByRecursion (TypeNames (IsThere (headers_of tree.now))) descriptor.now.params
        × IfSome descriptor.now.result (TypeNames (IsThere (headers_of tree.now)))) }
{
    for param in descriptor.params.as_slice() {
        if !is_type_there(tree, param) {
            return false;
        }
    }
    match &descriptor.result {
        Some(result) => is_type_there(tree, result),
        None => true,
    }
}

// Whether the classes that the types of a method name are there and accessible from a class.
fn are_types_accessible(tree: &Tree, from: &[u8], descriptor: &Descriptor) -> bool
    ensures { IsTrue result
        ↔ (AllByRecursion (TypeNames
        (IsClassAccessible (headers_of tree.now) from.now)) descriptor.now.params
        × IfSome descriptor.now.result
        (TypeNames (IsClassAccessible (headers_of tree.now) from.now))) }
{
    for param in descriptor.params.as_slice() {
        if !is_type_accessible(tree, from, param) {
            return false;
        }
    }
    match &descriptor.result {
        Some(result) => is_type_accessible(tree, from, result),
        None => true,
    }
}

// Whether the class that a field type names is there.
fn is_type_there(tree: &Tree, field_type: &FieldType) -> bool
    ensures { IsTrue result ↔ TypeNames (IsThere (headers_of tree.now)) field_type.now }
{
    match field_type {
        FieldType::Named(name) => is_named_there(tree, name.bytes()),
        _ => true,
    }
}

// Whether the class that a field type names is there and accessible from a class.
fn is_type_accessible(tree: &Tree, from: &[u8], field_type: &FieldType) -> bool
    ensures { IsTrue result
        ↔ TypeNames (IsClassAccessible (headers_of tree.now) from.now) field_type.now }
{
    match field_type {
        FieldType::Named(name) => is_named_accessible(tree, from, name.bytes()),
        _ => true,
    }
}

// Whether the class of a name is there.
fn is_there(tree: &Tree, name: &[u8]) -> bool
    ensures { IsTrue result ↔ IsThere (headers_of tree.now) name.now }
{
    a_tree_is_a_hierarchy(tree);
    tree.find(name).is_some()
}

// The class that a class name or an array type names, if its element is of no base type.
fn element_class(name: &[u8]) -> Option<&[u8]>
    ensures { option_copied result ≡ element_class name.now }
{
    if !is_array(name) {
        return Some(name);
    }
    match after_brackets(name) {
        [b'L', class @ .., _] => Some(class),
        [b'L'] => Some(b""),
        _ => None,
    }
}

// What stands behind the brackets at the front.
fn after_brackets(name: &[u8]) -> &[u8]
    ensures { result.now ≡ drop (brackets name.now) name.now }
{
    let brackets = name.iter().take_while(|byte| **byte == b'[').count();
    &name[brackets..]
}
