//! Arrays (JVM Specification SE 8, 6.5: newarray, anewarray, the loads of elements).
ghost use Rattle.std.specs.Prelude.{◌≡◌, ◌-◌, ◌<◌, ◌^◌, List, [], ◌∷◌, pos, Some, is_some, IfOk, OnOk};
ghost use Rattle.class_model.specs.declared.opcodes.TheConstants.{IALOAD as iaload};
ghost use Rattle.machine_values.specs.Heaps.{object_at};
ghost use Rattle.machine_values.specs.Values.{component_text};
ghost use Rattle.machine_values.specs.declared.value.Value.{Value as Operand};
ghost use Rattle.member_link.specs.Machine.ArraySteps.{blank_array, element_of, index_in, load_element_work, new_array_work, takes_array};
ghost use Rattle.member_link.specs.Machine.Shapes.{component_named};
ghost use Rattle.member_link.specs.Machine.Worlds.{Memory as State, with_heap};
ghost use Rattle.machine_step.specs.Completing.{Completes};
ghost use Rattle.machine_step.specs.Room.{HasRoom};

use crate::completed::Completed;
use crate::memory::Memory;
use class_model::opcodes::IALOAD;
use class_model::{NoMemory, Text};
use machine_heap::{blank_elements, component_text};
use machine_values::{Object, Ref, Shape, Value, ValueList};
use member_link::Throwable;
use std::alloc::Global;

/// The most elements of an array, and of any product of the leading counts of a `multianewarray`: this project's profile.
pub const MOST_ELEMENTS: u32 = 1_000_000;

// ---- arrays that are made

/// A `newarray` or `anewarray`, by the array's descriptor.
///
/// # Errors
///
/// `NoMemory` where memory runs out.
pub(crate) fn new_array(
    alloc: Global,
    memory: &mut Memory,
    desc: &Text,
    operands: &[Value],
) -> Result<Completed, NoMemory>
    requires { HasRoom memory.old }
    ensures { IfOk result (λ completed.
        Completes memory.old memory.new operands.now completed
        (new_array_work memory.old desc.now operands.now)) }
{
    match operands {
        [Value::Int(count)] => match u32::try_from(*count) {
            Ok(count) => array_of(alloc, memory, desc, count),
            Err(_) => Ok(Completed::Raises(Throwable::NegativeSize)),
        },
        _ => Ok(Completed::Stuck),
    }
}

// Of so many elements.
fn array_of(
    alloc: Global,
    memory: &mut Memory,
    desc: &Text,
    count: u32,
) -> Result<Completed, NoMemory>
    requires { HasRoom memory.old }
    ensures { IfOk result (λ completed. (operands : List Operand)
        → Completes memory.old memory.new operands completed
        (new_array_work memory.old desc.now (Operand.Int (pos count) ∷ []))) }
{
    if count > MOST_ELEMENTS {
        return Ok(Completed::ArrayTooLong);
    }
    let values = blank_elements(alloc, desc, count)?;
    let shape = Shape::Array {
        desc: desc.copy()?,
        len: count,
    };
    let at = memory.allocate_counted(shape, values)?;
    Ok(Completed::Gives(Some(Value::Ref(at))))
}

/// Makes an array of a descriptor, of so many elements that are zero or null, and gives its reference. It is not counted, and its length
/// is that of an int.
///
/// # Errors
///
/// `NoMemory` where memory runs out.
pub fn blank_array(
    alloc: Global,
    memory: &mut Memory,
    desc: &Text,
    count: u32,
) -> Result<Ref, NoMemory>
    requires { count < 2 ^ 31 }
    ensures memory { OnOk result
        (memory.new ≡ with_heap memory.old (blank_array memory.old.heap desc.now count).heap) }
    ensures reference { IfOk result
        (λ at. at ≡ (blank_array memory.old.heap desc.now count).reference) }
{
    let values = blank_elements(alloc, desc, count)?;
    let shape = Shape::Array {
        desc: desc.copy()?,
        len: count,
    };
    memory.allocate(shape, values)
}

// ---- elements

/// A load of an element, by its opcode. It does not allocate.
pub(crate) fn load_element(memory: &Memory, opcode: u8, operands: &[Value]) -> Completed
    ensures { Completes memory.now memory.now operands.now result
        (load_element_work memory.now (opcode - iaload) operands.now) }
{
    match operands {
        [Value::Null, Value::Int(_)] => Completed::Raises(Throwable::NullPointer),
        [Value::Ref(at), Value::Int(index)] => {
            load_at(memory, opcode.saturating_sub(IALOAD), *at, *index)
        }
        _ => Completed::Stuck,
    }
}

// Of a reference, by the number of the opcode counted from `iaload`.
fn load_at(memory: &Memory, number: u8, at: Ref, index: i32) -> Completed
    ensures { (operands : List Operand)
        → Completes memory.now memory.now operands result
        (element_of memory.now number index (object_at memory.now.heap at)) }
{
    match memory.heap().object(at) {
        Some(object) => element(object, number, index),
        None => Completed::Stuck,
    }
}

// Of an object.
fn element(object: &Object, number: u8, index: i32) -> Completed
    ensures { (memory : State) (operands : List Operand)
        → Completes memory memory operands result
        (element_of memory number index (Some object.now)) }
{
    match &object.shape {
        Shape::Array { desc, len } if takes_array(number, desc.bytes()) => {
            match index_in(index, *len) {
                Some(at) => match object.values.get(at as usize) {
                    Some(value) => Completed::Gives(Some(*value)),
                    None => Completed::Stuck,
                },
                None => Completed::Raises(Throwable::IndexOutside),
            }
        }
        _ => Completed::Stuck,
    }
}

/// An index that an array of a length has. It does not allocate.
pub fn index_in(index: i32, len: u32) -> Option<u32>
    ensures { result ≡ index_in index len }
{
    match u32::try_from(index) {
        Ok(at) if at < len => Some(at),
        _ => None,
    }
}

/// Whether a load or store of elements takes an array of a descriptor, by the number of the opcode counted from `iaload` or
/// `iastore`. It does not allocate.
pub(crate) fn takes_array(number: u8, desc: &[u8]) -> bool
    ensures { result ≡ takes_array number desc.now }
{
    match number {
        0 => desc == b"[I".as_slice(),
        1 => desc == b"[J".as_slice(),
        2 => desc == b"[F".as_slice(),
        3 => desc == b"[D".as_slice(),
        4 => is_of_references(component_text(desc)),
        5 => desc == b"[B".as_slice() || desc == b"[Z".as_slice(),
        6 => desc == b"[C".as_slice(),
        7 => desc == b"[S".as_slice(),
        _ => false,
    }
}

// Whether the elements of an array are references, by what is behind its first bracket.
fn is_of_references(component: &[u8]) -> bool
    ensures { result ≡ is_some (component_named component.now) }
{
    matches!(component.first(), Some(b'[' | b'L'))
}
