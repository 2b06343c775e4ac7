//! Lengths of arrays, and stores of elements (JVM Specification SE 8, 6.5: arraylength, the stores).
ghost use Rattle.std.specs.Prelude.{◌≡◌, ◌-◌, ℕ, List, [], ◌∷◌, IfErr, IfOk, Some};
ghost use Rattle.class_model.specs.Descriptors.{type_of};
ghost use Rattle.class_model.specs.declared.opcodes.TheConstants.{IASTORE as iastore};
ghost use Rattle.machine_values.specs.Heaps.{object_at, with_value};
ghost use Rattle.machine_values.specs.declared.value.Value.{Value as Operand};
ghost use Rattle.member_link.specs.Machine.ArraySteps.{array_length_work, fits_component, length_of, put_element, store_element_work, stores_value};
ghost use Rattle.member_link.specs.Machine.Programs.{Program};
ghost use Rattle.member_link.specs.Machine.Worlds.{Memory as State, with_heap};
ghost use Rattle.machine_step.specs.Completing.{Completes};
ghost use Rattle.machine_heap.specs.Narrowings.{narrowing_of};
ghost use Rattle.machine_step.specs.Inner.Stores.{IsPlaced, IsRefused};
ghost use Rattle.member_link.specs.TreePrograms.{IsProgram};
ghost use Rattle.machine_heap.specs.ShortArrays.{IsShort};

use crate::arrays::{index_in, takes_array};
use crate::completed::Completed;
use crate::memory::Memory;
use crate::questions::shapes::{component_named, is_instance};
use class_model::opcodes::IASTORE;
use class_tree::Tree;
use machine_heap::{Narrowing, component_text, narrow};
use machine_values::{Object, Ref, Shape, Value};
use member_link::Throwable;

// ---- lengths

/// An `arraylength`. It does not allocate.
pub(crate) fn array_length(memory: &Memory, operands: &[Value]) -> Completed
    ensures { Completes memory.now memory.now operands.now result
        (array_length_work memory.now operands.now) }
{
    match operands {
        [Value::Null] => Completed::Raises(Throwable::NullPointer),
        [Value::Ref(at)] => match memory.heap.array_heap().object(*at) {
            Some(object) => length(object),
            None => Completed::Stuck,
        },
        _ => Completed::Stuck,
    }
}

// Of an object.
fn length(object: &Object) -> Completed
    requires { IsShort object.now.shape }
    ensures { (memory : State) (operands : List Operand)
        → Completes memory memory operands result (length_of memory (Some object.now)) }
{
    match &object.shape {
        Shape::Array { len, .. } => Completed::Gives(Some(Value::Int(*len as i32))),
        Shape::Folder(_) | Shape::External { .. } => Completed::Stuck,
    }
}

// ---- stores

/// A store of an element, by its opcode. It does not allocate.
pub(crate) fn store_element(
    tree: &Tree,
    memory: &mut Memory,
    opcode: u8,
    operands: &[Value],
) -> Completed
    ensures { (P : Program) → IsProgram tree.now P
        → Completes memory.old memory.new operands.now result
        (store_element_work P memory.old (opcode - iastore) operands.now) }
{
    match operands {
        [array, index, value] => {
            let number = opcode.saturating_sub(IASTORE);
            store_into(tree, memory, number, array, index, value)
        }
        _ => Completed::Stuck,
    }
}

// Into an array or null, by the number of the opcode counted from `iastore`.
fn store_into(
    tree: &Tree,
    memory: &mut Memory,
    number: u8,
    array: &Value,
    index: &Value,
    value: &Value,
) -> Completed
    ensures { (P : Program) (operands : List Operand) → IsProgram tree.now P
        → Completes memory.old memory.new operands result
        (store_element_work P memory.old number
        (array.now ∷ index.now ∷ value.now ∷ [])) }
{
    let Value::Int(index) = index else {
        return Completed::Stuck;
    };
    if !stores_value(number, value) {
        return Completed::Stuck;
    }
    match array {
        Value::Null => Completed::Raises(Throwable::NullPointer),
        Value::Ref(at) => store_at(tree, memory, number, *at, *index, value),
        _ => Completed::Stuck,
    }
}

// Whether a store takes values of a kind, by the number of its opcode.
fn stores_value(number: u8, value: &Value) -> bool
    ensures { result ≡ stores_value number value.now }
{
    match value {
        Value::Int(_) => matches!(number, 0 | 5 | 6 | 7),
        Value::Long(_) => number == 1,
        Value::Float(_) => number == 2,
        Value::Double(_) => number == 3,
        Value::Null | Value::Ref(_) => number == 4,
    }
}

// Into the array of a reference.
fn store_at(
    tree: &Tree,
    memory: &mut Memory,
    number: u8,
    at: Ref,
    index: i32,
    value: &Value,
) -> Completed
    ensures { (P : Program) (operands : List Operand) → IsProgram tree.now P
        → Completes memory.old memory.new operands result
        (put_element P memory.old number at index value.now (object_at memory.old.heap at)) }
{
    match place(tree, memory, number, at, index, value) {
        Ok(placed) => {
            write(memory, at, placed);
            Completed::Gives(None)
        }
        Err(completed) => completed,
    }
}

// A value that is put at an index of an object's values.
#[derive(Clone, Copy)]
struct Placed {
    index: u32,
    value: Value,
}

// What a store puts where, or to what it comes without one.
fn place(
    tree: &Tree,
    memory: &Memory,
    number: u8,
    at: Ref,
    index: i32,
    value: &Value,
) -> Result<Placed, Completed>
    ensures placed { IfOk result (λ placed. (P : Program) → IsProgram tree.now P
        → IsPlaced memory.now at placed
        (put_element P memory.now number at index value.now (object_at memory.now.heap at))) }
    ensures refused { IfErr result (λ completed. (P : Program) → IsProgram tree.now P
        → IsRefused memory.now completed
        (put_element P memory.now number at index value.now (object_at memory.now.heap at))) }
{
    match memory.heap().object(at) {
        Some(object) => place_in(tree, memory, number, object, index, value),
        None => Err(Completed::Stuck),
    }
}

// Of an object.
fn place_in(
    tree: &Tree,
    memory: &Memory,
    number: u8,
    object: &Object,
    index: i32,
    value: &Value,
) -> Result<Placed, Completed>
    ensures placed { IfOk result (λ placed. (P : Program) (at : ℕ) → IsProgram tree.now P
        → IsPlaced memory.now at placed
        (put_element P memory.now number at index value.now (Some object.now))) }
    ensures refused { IfErr result (λ completed. (P : Program) (at : ℕ) → IsProgram tree.now P
        → IsRefused memory.now completed
        (put_element P memory.now number at index value.now (Some object.now))) }
{
    let Shape::Array { desc, len } = &object.shape else {
        return Err(Completed::Stuck);
    };
    if !takes_array(number, desc.bytes()) {
        return Err(Completed::Stuck);
    }
    let Some(index) = index_in(index, *len) else {
        return Err(Completed::Raises(Throwable::IndexOutside));
    };
    if !fits_component(tree, memory, desc.bytes(), value) {
        return Err(Completed::Raises(Throwable::ArrayStore));
    }
    let value = narrow(narrowing_of(component_text(desc.bytes())), *value);
    Ok(Placed { index, value })
}

// Whether a value is null or an instance of the component of an array, by the array's descriptor.
fn fits_component(tree: &Tree, memory: &Memory, desc: &[u8], value: &Value) -> bool
    ensures { (P : Program) → IsProgram tree.now P
        → result ≡ fits_component P memory.now desc.now value.now }
{
    let Value::Ref(at) = value else {
        return true;
    };
    let Some(name) = component_named(component_text(desc)) else {
        return false;
    };
    match memory.heap().object(*at) {
        Some(object) => is_instance(tree, &object.shape, name),
        None => false,
    }
}

// What an array keeps of an int, by the descriptor of its elements.
fn narrowing_of(desc: &[u8]) -> Narrowing
    ensures { result ≡ narrowing_of (type_of desc.now) }
{
    match desc.first() {
        Some(b'B') => Narrowing::Byte,
        Some(b'C') => Narrowing::Char,
        Some(b'S') => Narrowing::Short,
        Some(b'Z') => Narrowing::Boolean,
        _ => Narrowing::Whole,
    }
}

// Puts a value into an object. An index that the object does not have changes nothing.
fn write(memory: &mut Memory, at: Ref, placed: Placed)
    ensures { memory.new
        ≡ with_heap memory.old (with_value memory.old.heap at placed.index placed.value) }
{
    memory.put(at, placed.index as usize, placed.value);
}
