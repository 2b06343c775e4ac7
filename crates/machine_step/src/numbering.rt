//! Values as the library sees them: a reference by the number of its first appearance, where it shows what it is.
ghost use Rattle.std.specs.Prelude.{◌≡◌, IfOk, take};
ghost use Rattle.machine_values.specs.Heaps.{Heap as HeapState};
ghost use Rattle.member_link.specs.Machine.Programs.{Program};
ghost use Rattle.member_link.specs.Machine.Shapes.{class_of_shape};
ghost use Rattle.member_link.specs.Machine.Showing.{also_of, first_of, numbered, numbered_all, numbered_option, numbered_reference};
ghost use Rattle.member_link.specs.TreePrograms.{IsProgram};

use crate::known::KnownRefs;
use class_model::{NoMemory, Text, TextList};
use class_tree::Tree;
use machine_heap::Heap;
use machine_values::{First, Ref, Seen, SeenList, SeenRef, Shape, Value};
use member_link::class_name;
use std::alloc::Global;

// The class of an object, or the descriptor of an array.
fn class_of_shape(alloc: Global, tree: &Tree, shape: &Shape) -> Result<Text, NoMemory>
    ensures { IfOk result (λ class.
        (P : Program) → IsProgram tree.now P → class ≡ class_of_shape P shape.now) }
{
    match shape {
        Shape::Folder(number) => match class_name(tree, *number) {
            Some(name) => name.copy(),
            None => Text::of_plain(alloc, b""),
        },
        Shape::Array { desc, .. } => desc.copy(),
        Shape::External { class, .. } => class.copy(),
    }
}

/// Equal texts, which share their bytes.
///
/// # Errors
///
/// `NoMemory` where memory runs out.
pub fn copy_texts(alloc: Global, texts: &[Text]) -> Result<TextList, NoMemory>
    ensures { IfOk result (λ copies. copies ≡ texts.now) }
{
    let mut copies = TextList::new(alloc);
    for text in texts {
        copies.push(text.copy()?)?;
    }
    Ok(copies)
}

// What an object of the library also implements.
fn also_of(alloc: Global, shape: &Shape) -> Result<TextList, NoMemory>
    ensures { IfOk result (λ also. also ≡ also_of shape.now) }
{
    match shape {
        Shape::External { also, .. } => copy_texts(alloc, also.as_slice()),
        _ => Ok(TextList::new(alloc)),
    }
}

/// What a reference shows where it appears first.
///
/// # Errors
///
/// `NoMemory` where memory runs out.
pub(crate) fn first_of(alloc: Global, tree: &Tree, heap: &Heap, at: Ref) -> Result<First, NoMemory>
    ensures { IfOk result (λ first.
        (P : Program) → IsProgram tree.now P → first ≡ first_of P heap.now at) }
{
    let Some(object) = heap.object(at) else {
        return Ok(First {
            class: Text::of_plain(alloc, b"")?,
            also: TextList::new(alloc),
            constant: None,
        });
    };
    let constant = match heap.constant_of(at) {
        Some(constant) => Some(constant.copy()?),
        None => None,
    };
    Ok(First {
        class: class_of_shape(alloc, tree, &object.shape)?,
        also: also_of(alloc, &object.shape)?,
        constant,
    })
}

/// A reference by its number, which it gets if it is not known. After an error the known references are as before.
///
/// # Errors
///
/// `NoMemory` where memory runs out.
pub(crate) fn number_reference(
    alloc: Global,
    tree: &Tree,
    heap: &Heap,
    known: &mut KnownRefs,
    at: Ref,
) -> Result<SeenRef, NoMemory>
    ensures { IfOk result (λ seen. (P : Program)
        → IsProgram tree.now P
        → numbered_reference P heap.now known.old at ≡ record { seen = seen; known = known.new }) }
{
    if let Some(number) = known.number_of(at) {
        return Ok(SeenRef {
            number,
            first: None,
        });
    }
    let first = first_of(alloc, tree, heap, at)?;
    let number = known.len() as u64;
    known.push(at)?;
    Ok(SeenRef {
        number,
        first: Some(first),
    })
}

/// A value as the library sees it. A reference that is not known gets a number.
///
/// # Errors
///
/// `NoMemory` where memory runs out.
pub(crate) fn number_value(
    alloc: Global,
    tree: &Tree,
    heap: &Heap,
    known: &mut KnownRefs,
    value: Value,
) -> Result<Seen, NoMemory>
    ensures { IfOk result (λ seen. (P : Program)
        → IsProgram tree.now P
        → numbered P heap.now known.old value ≡ record { seen = seen; known = known.new }) }
{
    Ok(match value {
        Value::Int(number) => Seen::Int(number),
        Value::Long(number) => Seen::Long(number),
        Value::Float(bits) => Seen::Float(bits),
        Value::Double(bits) => Seen::Double(bits),
        Value::Null => Seen::Null,
        Value::Ref(at) => Seen::Ref(number_reference(alloc, tree, heap, known, at)?),
    })
}

/// A value that may be there.
///
/// # Errors
///
/// `NoMemory` where memory runs out.
pub(crate) fn number_option(
    alloc: Global,
    tree: &Tree,
    heap: &Heap,
    known: &mut KnownRefs,
    value: Option<Value>,
) -> Result<Option<Seen>, NoMemory>
    ensures { IfOk result (λ seen. (P : Program)
        → IsProgram tree.now P
        → numbered_option P heap.now known.old value ≡ record { seen = seen; known = known.new }) }
{
    match value {
        Some(value) => Ok(Some(number_value(alloc, tree, heap, known, value)?)),
        None => Ok(None),
    }
}

/// Values one after the other, each behind those before it.
///
/// # Errors
///
/// `NoMemory` where memory runs out.
pub(crate) fn number_values(
    alloc: Global,
    tree: &Tree,
    heap: &Heap,
    known: &mut KnownRefs,
    values: &[Value],
) -> Result<SeenList, NoMemory>
    ensures { IfOk result (λ seen. (P : Program)
        → IsProgram tree.now P
        → numbered_all P heap.now known.old values.now
        ≡ record { seen = seen; known = known.new }) }
{
    let mut seen = SeenList::new(alloc);
    for value in values {
        seen.push(number_value(alloc, tree, heap, known, *value)?)?;
    }
    Ok(seen)
}
