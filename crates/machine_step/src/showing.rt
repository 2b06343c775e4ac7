//! Events that the library sees (this project's profile).
ghost use Rattle.std.specs.Prelude.{◌≡◌, [], ◌∷◌, ◌++◌, IfOk, OnOk};
ghost use Rattle.member_link.specs.Machine.Programs.{Program};
ghost use Rattle.member_link.specs.Machine.Showing.{asked_kind, event_of, shows_asked, shows_got, shows_length, shows_made, shows_result, shows_threw};
ghost use Rattle.machine_step.specs.Completing.{asked_of};
ghost use Rattle.member_link.specs.TreePrograms.{IsProgram};

use crate::completed::Asked;
use crate::known::KnownRefs;
use crate::memory::Memory;
use crate::numbering::{number_option, number_reference, number_value, number_values};
use crate::world::WorldState;
use class_model::NoMemory;
use class_tree::Tree;
use machine_heap::Heap;
use machine_values::{Event, EventKind, EventList, Ref, Value};
use std::alloc::Global;

// Appends an event with the counts of the memory, and the monitor counts of all known references.
fn push_event(
    alloc: Global,
    memory: &Memory,
    known: &KnownRefs,
    events: &mut EventList,
    kind: EventKind,
) -> Result<(), NoMemory>
    ensures { OnOk result
        (events.new
        ≡ events.old ++ event_of memory.now (record { seen = kind; known = known.now }) ∷ []) }
{
    let monitors = match memory.heap.monitor_counts(alloc, known) {
        Ok(monitors) => monitors,
        Err(fault) => {
            drop(kind);
            return Err(fault);
        }
    };
    events.push(Event {
        kind,
        allocations: memory.allocations,
        entries: memory.entries,
        monitors,
    })?;
    Ok(())
}

// What is asked, as the library sees it.
fn asked_kind(
    alloc: Global,
    tree: &Tree,
    heap: &Heap,
    known: &mut KnownRefs,
    asked: Asked,
    operands: &[Value],
) -> Result<EventKind, NoMemory>
    ensures { IfOk result (λ kind. (P : Program)
        → IsProgram tree.now P
        → asked_kind P heap.now known.old (asked_of operands.now asked)
        ≡ record { seen = kind; known = known.new }) }
{
    match asked {
        Asked::Call(method) => Ok(EventKind::Call {
            class: method.class,
            name: method.name,
            desc: method.desc,
            values: number_values(alloc, tree, heap, known, operands)?,
        }),
        Asked::Dynamic {
            class,
            bootstrap,
            name,
            desc,
        } => Ok(EventKind::Dynamic {
            class,
            bootstrap,
            name,
            desc,
            values: number_values(alloc, tree, heap, known, operands)?,
        }),
        Asked::Get(field, receiver) => Ok(EventKind::Get {
            class: field.class,
            name: field.name,
            desc: field.desc,
            receiver: number_option(alloc, tree, heap, known, receiver)?,
        }),
        Asked::Put(field, receiver, value) => Ok(EventKind::Put {
            class: field.class,
            name: field.name,
            desc: field.desc,
            receiver: number_option(alloc, tree, heap, known, receiver)?,
            value: number_value(alloc, tree, heap, known, value)?,
        }),
        Asked::Float(opcode) => Ok(EventKind::Float {
            opcode,
            values: number_values(alloc, tree, heap, known, operands)?,
        }),
    }
}

/// Shows what the library is asked, with the operands of the operation.
///
/// # Errors
///
/// `NoMemory` where memory runs out.
pub fn show_asked(
    alloc: Global,
    tree: &Tree,
    world: &mut WorldState,
    asked: Asked,
    operands: &[Value],
) -> Result<(), NoMemory>
    ensures { OnOk result
        ((P : Program)
        → IsProgram tree.now P
        → world.new ≡ shows_asked P world.old (asked_of operands.now asked)) }
{
    let kind = asked_kind(
        alloc,
        tree,
        world.memory.heap(),
        &mut world.known,
        asked,
        operands,
    )?;
    push_event(alloc, &world.memory, &world.known, &mut world.events, kind)
}

/// Shows what a call of the library ended with: a value or none.
///
/// # Errors
///
/// `NoMemory` where memory runs out.
pub fn show_result(
    alloc: Global,
    tree: &Tree,
    world: &mut WorldState,
    value: Option<Value>,
) -> Result<(), NoMemory>
    ensures { OnOk result
        ((P : Program)
        → IsProgram tree.now P
        → world.new ≡ shows_result P world.old value) }
{
    let seen = number_option(alloc, tree, world.memory.heap(), &mut world.known, value)?;
    let kind = EventKind::Result(seen);
    push_event(alloc, &world.memory, &world.known, &mut world.events, kind)
}

/// Shows what was thrown out of a call of the library.
///
/// # Errors
///
/// `NoMemory` where memory runs out.
pub fn show_threw(
    alloc: Global,
    tree: &Tree,
    world: &mut WorldState,
    at: Ref,
) -> Result<(), NoMemory>
    ensures { OnOk result
        ((P : Program)
        → IsProgram tree.now P
        → world.new ≡ shows_threw P world.old at) }
{
    let seen = number_reference(alloc, tree, world.memory.heap(), &mut world.known, at)?;
    let kind = EventKind::Threw(seen);
    push_event(alloc, &world.memory, &world.known, &mut world.events, kind)
}

/// Shows a value that the library got of an array.
///
/// # Errors
///
/// `NoMemory` where memory runs out.
pub fn show_got(
    alloc: Global,
    tree: &Tree,
    world: &mut WorldState,
    value: Value,
) -> Result<(), NoMemory>
    ensures { OnOk result
        ((P : Program)
        → IsProgram tree.now P
        → world.new ≡ shows_got P world.old value) }
{
    let seen = number_value(alloc, tree, world.memory.heap(), &mut world.known, value)?;
    let kind = EventKind::Got(seen);
    push_event(alloc, &world.memory, &world.known, &mut world.events, kind)
}

/// Shows an object that the library made.
///
/// # Errors
///
/// `NoMemory` where memory runs out.
pub fn show_made(
    alloc: Global,
    tree: &Tree,
    world: &mut WorldState,
    at: Ref,
) -> Result<(), NoMemory>
    ensures { OnOk result
        ((P : Program)
        → IsProgram tree.now P
        → world.new ≡ shows_made P world.old at) }
{
    let seen = number_reference(alloc, tree, world.memory.heap(), &mut world.known, at)?;
    let kind = EventKind::Made(seen);
    push_event(alloc, &world.memory, &world.known, &mut world.events, kind)
}

/// Shows the length of an array.
///
/// # Errors
///
/// `NoMemory` where memory runs out.
pub fn show_length(alloc: Global, world: &mut WorldState, len: u32) -> Result<(), NoMemory>
    ensures { OnOk result
        (world.new ≡ shows_length world.old len) }
{
    let kind = EventKind::Length(len);
    push_event(alloc, &world.memory, &world.known, &mut world.events, kind)
}
