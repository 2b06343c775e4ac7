//! Arrays of arrays (JVM Specification SE 8, 6.5: multianewarray).
ghost use Rattle.std.specs.Prelude.{◌≡◌, ◌≤◌, ◌<◌, ◌^◌, List, length, IfNone, IfOk, IfSome, OnOk, true};
ghost use Rattle.machine_values.specs.declared.value.Value.{Value as Operand};
ghost use Rattle.machine_values.specs.Values.{component_text};
ghost use Rattle.member_link.specs.Machine.ArraySteps.{all_counts, array_with, arrays_of_counts, counts_of, is_too_long, new_arrays_work};
ghost use Rattle.member_link.specs.Machine.Bounds.{MOST_DIMENSIONS};
ghost use Rattle.machine_step.specs.Completing.{Completes};
ghost use Rattle.machine_step.specs.Inner.NestedArrays.{AllShort, AreShort, IsMade, counts_read, elements_of, made_elements};
ghost use Rattle.machine_step.specs.Room.{HasRoom};

use crate::arrays::MOST_ELEMENTS;
use crate::completed::Completed;
use crate::memory::Memory;
use crate::monitors::MonitorHeap;
use class_model::{NoMemory, Text};
use machine_heap::{blank_elements, component_text};
use machine_values::{Ref, Shape, Value, ValueList};
use member_link::Throwable;
use std::alloc::Global;

/// A `multianewarray`, by the descriptor of the outermost array. It has at most 255 counts.
///
/// # Errors
///
/// `NoMemory` where memory runs out.
pub(crate) fn new_arrays(
    alloc: Global,
    memory: &mut Memory,
    desc: &Text,
    operands: &[Value],
) -> Result<Completed, NoMemory>
    requires room { HasRoom memory.old }
    requires few { length operands.now ≤ MOST_DIMENSIONS }
    ensures { IfOk result (λ completed.
        Completes memory.old memory.new operands.now completed
        (new_arrays_work memory.old desc.now operands.now)) }
{
    match read_counts(alloc, operands)? {
        Counts::All(counts) => arrays_of(alloc, memory, desc, &counts),
        Counts::Negative => Ok(Completed::Raises(Throwable::NegativeSize)),
        Counts::NotInts => Ok(Completed::Stuck),
    }
}

// ---- counts

// What the operands are as counts, the outermost first.
#[derive(Drop)]
enum Counts {
    All(Vec<u32>),
    // one of them is negative
    Negative,
    NotInts,
}

// The counts of operands.
fn read_counts(alloc: Global, operands: &[Value]) -> Result<Counts, NoMemory>
    ensures counts { IfOk result (λ counts. counts_of operands.now ≡ counts_read counts) }
    ensures short { IfOk result AreShort }
{
    let mut counts = Vec::new(alloc);
    let mut is_negative = false;
    for operand in operands {
        let Value::Int(count) = operand else {
            return Ok(Counts::NotInts);
        };
        match u32::try_from(*count) {
            Ok(count) => counts.push(count)?,
            Err(_) => is_negative = true,
        }
    }
    if is_negative {
        Ok(Counts::Negative)
    } else {
        Ok(Counts::All(counts))
    }
}

// How many arrays are made. None where a product of the leading counts is above the most elements.
fn arrays_made(counts: &[u32]) -> Option<u64>
    requires { length counts.now ≤ MOST_DIMENSIONS }
    ensures made { IfSome result (IsMade counts.now) }
    ensures too_long { IfNone result (is_too_long 1 counts.now ≡ true) }
{
    let mut made = 0;
    let mut product = 1;
    for count in counts {
        made += product;
        product *= u64::from(*count);
        if product > u64::from(MOST_ELEMENTS) {
            return None;
        }
    }
    Some(made)
}

// ---- arrays

// The arrays of counts.
fn arrays_of(
    alloc: Global,
    memory: &mut Memory,
    desc: &Text,
    counts: &[u32],
) -> Result<Completed, NoMemory>
    requires room { HasRoom memory.old }
    requires few { length counts.now ≤ MOST_DIMENSIONS }
    requires short { AllShort counts.now }
    ensures { IfOk result (λ completed. (operands : List Operand)
        → Completes memory.old memory.new operands completed
        (arrays_of_counts memory.old desc.now (all_counts counts.now))) }
{
    let Some((count, rest)) = counts.split_first() else {
        return Ok(Completed::Stuck);
    };
    let Some(made) = arrays_made(counts) else {
        return Ok(Completed::ArrayTooLong);
    };
    let values = elements(alloc, &mut memory.heap, desc, *count, rest)?;
    let at = array_with(&mut memory.heap, desc, *count, values)?;
    memory.allocations += u128::from(made);
    Ok(Completed::Gives(Some(Value::Ref(at))))
}

// The elements of an array of so many, with the counts of the dimensions below it: each is made before the next.
fn elements(
    alloc: Global,
    heap: &mut MonitorHeap,
    desc: &Text,
    count: u32,
    counts: &[u32],
) -> Result<ValueList, NoMemory>
    requires { AllShort counts.now }
    ensures { IfOk result (λ values.
        made_elements heap.new values ≡ elements_of desc.now count counts.now heap.old) }
{
    let Some((next, rest)) = counts.split_first() else {
        return blank_elements(alloc, desc, count);
    };
    let component = component_of(alloc, desc)?;
    let mut values = ValueList::new(alloc);
    let mut left = count;
    while left > 0 {
        left -= 1;
        let inner = elements(alloc, heap, &component, *next, rest)?;
        let at = array_with(heap, &component, *next, inner)?;
        values.push(Value::Ref(at))?;
    }
    Ok(values)
}

// An array of these elements.
fn array_with(
    heap: &mut MonitorHeap,
    desc: &Text,
    len: u32,
    values: ValueList,
) -> Result<Ref, NoMemory>
    requires { len < 2 ^ 31 }
    ensures heap { OnOk result
        (heap.new ≡ (array_with desc.now len (made_elements heap.old values)).heap) }
    ensures reference { IfOk result (λ at.
        at ≡ (array_with desc.now len (made_elements heap.old values)).reference) }
{
    let shape = Shape::Array {
        desc: desc.copy()?,
        len,
    };
    heap.alloc_with(shape, values)
}

// The descriptor of the elements of an array.
fn component_of(alloc: Global, desc: &Text) -> Result<Text, NoMemory>
    ensures { IfOk result (λ text. text ≡ component_text desc.now) }
{
    Text::of_text(alloc, component_text(desc.bytes()))
}
