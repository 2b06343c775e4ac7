//! What new objects hold: zeros and nulls by the types of their fields or elements (JVM Specification SE 8, 2.3 and 2.4).
ghost use Rattle.std.specs.Prelude.{◌≡◌, ◌<◌, ◌++◌, length, replicate, None, Some, IfOk, OnOk, IsSome};
ghost use Rattle.class_tree.specs.Headers.{headers_of};
ghost use Rattle.class_tree.specs.Order.{header_at};
ghost use Rattle.machine_heap.specs.Blanks.{IsAllocatable, blank_for, blank_object};
ghost use Rattle.machine_heap.specs.Inner.Climbs.{Climbs, blanks_at, instance};
ghost use Rattle.machine_values.specs.Values.{blank_value, blank_values, component_text};

use class_model::{ACC_STATIC, Member, NoMemory, Text, has};
use class_tree::{Place, Tree, a_tree_is_a_hierarchy};
use machine_values::{Shape, Value, ValueList};
use std::alloc::Global;

/// What a field or element holds before it is written, by its descriptor. It does not allocate.
pub fn blank(desc: &[u8]) -> Value
    ensures { result ≡ blank_value desc.now }
{
    match desc.first() {
        Some(b'B' | b'C' | b'I' | b'S' | b'Z') => Value::Int(0),
        Some(b'J') => Value::Long(0),
        Some(b'F') => Value::Float(0),
        Some(b'D') => Value::Double(0),
        _ => Value::Null,
    }
}

/// What a new object of a class of the folder holds, by the class's number: a value for each instance field of the class and of
/// its superclasses, the highest first.
///
/// # Errors
///
/// `NoMemory` where memory runs out.
pub fn blank_fields(alloc: Global, tree: &Tree, class: usize) -> Result<ValueList, NoMemory>
    requires { class < length tree.now.folder }
    ensures { IfOk result (λ values. values ≡ blank_object (headers_of tree.now) class) }
{
    a_tree_is_a_hierarchy(tree);
    let places = places_up(alloc, tree, Place::Folder(class))?;
    let mut values = ValueList::new(alloc);
    let mut left = places.len();
    while left > 0 {
        left -= 1;
        push_blanks(&mut values, tree, places[left])?;
    }
    Ok(values)
}

/// What a new object of a shape holds.
///
/// # Errors
///
/// `NoMemory` where memory runs out.
pub(crate) fn blanks_for(alloc: Global, tree: &Tree, shape: &Shape) -> Result<ValueList, NoMemory>
    requires { IsAllocatable tree.now shape.now }
    ensures { IfOk result (λ values. values ≡ blank_for (headers_of tree.now) shape.now) }
{
    match shape {
        Shape::Folder(class) => blank_fields(alloc, tree, *class),
        Shape::Array { desc, len } => blank_elements(alloc, desc, *len),
        Shape::External { .. } => Ok(ValueList::new(alloc)),
    }
}

/// What the elements of a new array hold, by the array's descriptor and length.
///
/// # Errors
///
/// `NoMemory` where memory runs out.
pub fn blank_elements(alloc: Global, desc: &Text, len: u32) -> Result<ValueList, NoMemory>
    ensures { IfOk result
        (λ values. values ≡ replicate len (blank_value (component_text desc.now))) }
{
    let mut values = Vec::new(alloc);
    values.resize(len as usize, blank(component_text(desc.bytes())))?;
    Ok(ValueList::from_vec(values))
}

/// The type of the elements, by an array's descriptor: what is behind its first bracket. It does not allocate.
pub fn component_text(desc: &[u8]) -> &[u8]
    ensures { result.now ≡ component_text desc.now }
{
    match desc {
        [b'[', rest @ ..] => rest,
        _ => &[],
    }
}

// The places of a class and its superclasses, upwards.
fn places_up(alloc: Global, tree: &Tree, class: Place) -> Result<Vec<Place>, NoMemory>
    requires { IsSome (header_at (headers_of tree.now) class) }
    ensures { IfOk result
        (λ places. Climbs (headers_of tree.now) (Some class) places.items None) }
{
    a_tree_is_a_hierarchy(tree);
    let mut places = Vec::new(alloc);
    let mut next = Some(class);
    while let Some(place) = next {
        places.push(place)?;
        next = tree.superclass(place);
    }
    Ok(places)
}

// Appends what the instance fields hold that the class at a place declares, if it is one of the folder.
fn push_blanks(values: &mut ValueList, tree: &Tree, class: Place) -> Result<(), NoMemory>
    ensures { OnOk result (values.new ≡ values.old ++ blanks_at (headers_of tree.now) class) }
{
    match (class, tree.header(class)) {
        (Place::Folder(_), Some(header)) => push_members(values, header.fields.as_slice()),
        _ => Ok(()),
    }
}

// Appends what those of these fields hold that are not static.
fn push_members(values: &mut ValueList, fields: &[Member]) -> Result<(), NoMemory>
    ensures { OnOk result (values.new ≡ values.old ++ blank_values (instance fields.now)) }
{
    for field in fields {
        if !has(field.flags, ACC_STATIC) {
            values.push(blank(field.desc.bytes()))?;
        }
    }
    Ok(())
}
