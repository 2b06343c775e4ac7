//! What the library does with arrays (this project's profile).
ghost use Rattle.std.specs.Prelude.{◌≡◌, ◌<◌, ◌^◌, IfOk, IfSome, slice_get};
ghost use Rattle.std.specs.Option.{option_copied};
ghost use Rattle.class_model.specs.Descriptors.{type_of};
ghost use Rattle.machine_values.specs.Heaps.{with_value};
ghost use Rattle.member_link.specs.Machine.Acting.{act_array_get, act_array_length, act_array_set, act_new_array, given_value as value_given, got_of_value, known_object, set_of_shape};
ghost use Rattle.member_link.specs.Machine.Programs.{Program};
ghost use Rattle.member_link.specs.Machine.Worlds.{World as State, with_heap};
ghost use Rattle.member_link.specs.TreePrograms.{IsProgram};
ghost use Rattle.machine_run.specs.Inner.ArrayWords.{element_in, narrowed_value, length_in, with_array, with_length, with_written};
ghost use Rattle.machine_run.specs.Outcomes.{ended, halt_behind};

use crate::acting::array_texts::is_array_descriptor;
use crate::acting::given::given_value;
use crate::laws::a_state_goes_on;
use class_model::{NoMemory, Text};
use class_tree::Tree;
use machine_heap::{Heap, component_text, narrow};
use machine_step::{
    Acted, MOST_ELEMENTS, Memory, WorldState, blank_array, index_in, narrowing_of_text, show_got,
    show_length, show_made, text_conforms,
};
use machine_values::{Given, Object, Ref, Shape, Value};
use std::alloc::Global;

// ---- reads

/// Shows the library an element of an array.
///
/// # Errors
///
/// `NoMemory` where memory runs out.
pub(crate) fn array_get(
    alloc: Global,
    tree: &Tree,
    w: &mut WorldState,
    at: u64,
    index: i32,
) -> Result<Acted, NoMemory>
    ensures acted { IfOk result (λ acted. (P : Program) → IsProgram tree.now P
        → ended (halt_behind acted) w.new
        ≡ act_array_get P w.old (known_object w.old (slice_get w.old.known at)) index) }
    ensures fault { IfOk result (λ acted. acted ≡ Acted.Fault → w.new ≡ w.old) }
{
    match element(w, at, index) {
        Some(value) => {
            show_got(alloc, tree, w, value)?;
            a_state_goes_on(w);
            Ok(Acted::Done)
        }
        None => Ok(Acted::Fault),
    }
}

// An element of an array that the library knows.
fn element(w: &WorldState, at: u64, index: i32) -> Option<Value>
    ensures { (P : Program)
        → act_array_get P w.now (known_object w.now (slice_get w.now.known at)) index
        ≡ got_of_value P w.now result }
{
    match known_object(w, at) {
        Some(object) => element_in(object, index),
        None => None,
    }
}

// An element of an object, if it is an array.
fn element_in(object: &Object, index: i32) -> Option<Value>
    ensures { result ≡ element_in object.now.values index object.now.shape }
{
    match &object.shape {
        Shape::Array { len, .. } => match index_in(index, *len) {
            Some(number) => match object.values.get(number as usize) {
                Some(value) => Some(*value),
                None => None,
            },
            None => None,
        },
        Shape::Folder(_) | Shape::External { .. } => None,
    }
}

// The object of a reference that the library knows.
fn known_object(w: &WorldState, at: u64) -> Option<&Object>
    ensures { option_copied result ≡ known_object w.now (slice_get w.now.known at) }
{
    match w.known.get(at) {
        Some(reference) => w.memory.heap().object(reference),
        None => None,
    }
}

/// Shows the library the length of an array.
///
/// # Errors
///
/// `NoMemory` where memory runs out.
pub(crate) fn array_length(alloc: Global, w: &mut WorldState, at: u64) -> Result<Acted, NoMemory>
    ensures acted { IfOk result (λ acted. ended (halt_behind acted) w.new
        ≡ act_array_length w.old (known_object w.old (slice_get w.old.known at))) }
    ensures fault { IfOk result (λ acted. acted ≡ Acted.Fault → w.new ≡ w.old) }
{
    match length(w, at) {
        Some(len) => {
            show_length(alloc, w, len)?;
            a_state_goes_on(w);
            Ok(Acted::Done)
        }
        None => Ok(Acted::Fault),
    }
}

// The length of an array that the library knows.
fn length(w: &WorldState, at: u64) -> Option<u32>
    ensures { act_array_length w.now (known_object w.now (slice_get w.now.known at))
        ≡ with_length w.now result }
{
    match known_object(w, at) {
        Some(object) => length_in(object),
        None => None,
    }
}

// The length of an object, if it is an array.
fn length_in(object: &Object) -> Option<u32>
    ensures { result ≡ length_in object.now.shape }
{
    match &object.shape {
        Shape::Array { len, .. } => Some(*len),
        Shape::Folder(_) | Shape::External { .. } => None,
    }
}

// ---- writes

// A value that is written to an array, by the number of its element.
#[derive(Drop)]
struct Written {
    reference: Ref,
    number: u32,
    value: Value,
}

/// Writes an element of an array as the library wants it, narrowed. It does not allocate.
pub(crate) fn array_set(tree: &Tree, w: &mut WorldState, at: u64, index: i32, value: Given) -> Acted
    ensures acted { (P : Program) → IsProgram tree.now P
        → ended (halt_behind result) w.new
        ≡ act_array_set P w.old (slice_get w.old.known at)
        (known_object w.old (slice_get w.old.known at)) index
        (value_given w.old.known value) }
    ensures fault { result ≡ Acted.Fault → w.new ≡ w.old }
{
    a_state_goes_on(w);
    match find_written(tree, w, at, index, value) {
        Some(written) => {
            write(&mut w.memory, written);
            Acted::Done
        }
        None => Acted::Fault,
    }
}

// Writes it. An object that has fewer values, which no run makes, stays as it is.
fn write(memory: &mut Memory, written: Written)
    ensures { memory.new ≡ with_heap memory.old
        (with_value memory.old.heap written.reference written.number written.value) }
{
    memory.put(written.reference, written.number as usize, written.value);
}

// What the library may write to an array that it knows.
fn find_written(tree: &Tree, w: &WorldState, at: u64, index: i32, value: Given) -> Option<Written>
    ensures { (P : Program) → IsProgram tree.now P
        → act_array_set P w.now (slice_get w.now.known at)
        (known_object w.now (slice_get w.now.known at)) index
        (value_given w.now.known value)
        ≡ with_written w.now result }
{
    let reference = w.known.get(at)?;
    let heap = w.memory.heap();
    let object = heap.object(reference)?;
    let value = given_value(&w.known, value)?;
    written_in(tree, heap, &object.shape, reference, index, &value)
}

// What may be written to an object, if it is an array.
fn written_in(
    tree: &Tree,
    heap: &Heap,
    shape: &Shape,
    reference: Ref,
    index: i32,
    value: &Value,
) -> Option<Written>
    ensures { (P : Program) (w : State) → IsProgram tree.now P → w.memory.heap ≡ heap.now
        → set_of_shape P w reference index value.now shape.now ≡ with_written w result }
{
    match shape {
        Shape::Array { desc, len } => {
            let number = index_in(index, *len)?;
            let value = narrowed_value(tree, heap, component_text(desc.bytes()), value)?;
            Some(Written {
                reference,
                number,
                value,
            })
        }
        Shape::Folder(_) | Shape::External { .. } => None,
    }
}

/// A value as the library may put it where one of a type is kept: narrowed, if it conforms to the type. It does not allocate.
pub(crate) fn narrowed_value(tree: &Tree, heap: &Heap, desc: &[u8], value: &Value) -> Option<Value>
    ensures { (P : Program) → IsProgram tree.now P
        → result ≡ narrowed_value P heap.now (type_of desc.now) value.now }
{
    if text_conforms(tree, heap, desc, *value) {
        Some(narrow(narrowing_of_text(desc), *value))
    } else {
        None
    }
}

// ---- arrays that are made

/// Makes an array of a descriptor, of so many elements that are zero or null, and shows it to the library. It is not counted.
///
/// # Errors
///
/// `NoMemory` where memory runs out.
pub(crate) fn new_array(
    alloc: Global,
    tree: &Tree,
    w: &mut WorldState,
    desc: &Text,
    length: i32,
) -> Result<Acted, NoMemory>
    ensures acted { IfOk result (λ acted. (P : Program) → IsProgram tree.now P
        → ended (halt_behind acted) w.new ≡ act_new_array P w.old desc.now length) }
    ensures fault { IfOk result (λ acted. acted ≡ Acted.Fault → w.new ≡ w.old) }
{
    match count_of(desc, length) {
        Some(count) => {
            let at = blank_array(alloc, &mut w.memory, desc, count)?;
            show_made(alloc, tree, w, at)?;
            a_state_goes_on(w);
            Ok(Acted::Done)
        }
        None => Ok(Acted::Fault),
    }
}

// How many elements an array has that the library may make.
fn count_of(desc: &Text, length: i32) -> Option<u32>
    ensures count { (P : Program) (w : State)
        → act_new_array P w desc.now length ≡ with_array P w desc.now result }
    ensures short { IfSome result (λ count. count < 2 ^ 31) }
{
    match u32::try_from(length) {
        Ok(count) => {
            if is_array_descriptor(desc.bytes()) && count <= MOST_ELEMENTS {
                Some(count)
            } else {
                None
            }
        }
        Err(_) => None,
    }
}
