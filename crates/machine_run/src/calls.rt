//! Calls of methods of the folder (JVM Specification SE 8, 2.6.1 and 2.11.10).
ghost use Rattle.std.specs.Prelude.{◌≡◌, List, IfOk, OnOk};
ghost use Rattle.class_tree.specs.Headers.{Name};
ghost use Rattle.machine_values.specs.declared.value.Value.{Value as Argument};
ghost use Rattle.member_link.specs.Machine.ObjectSteps.{with_entered};
ghost use Rattle.member_link.specs.Machine.Performing.{called, class_lock, locked, locked_by, receiver_lock, value_in};
ghost use Rattle.member_link.specs.Machine.Programs.{Program, code_at, name_of_class};
ghost use Rattle.member_link.specs.TreePrograms.{IsProgram};
ghost use Rattle.machine_step.specs.Room.{HasRoom};
ghost use Rattle.machine_run.specs.Inner.CallWords.{AreArguments, locked_as, units_of_code};

use crate::frames::push_frame;
use crate::names::name_of_class;
use class_model::{MethodAt, NoMemory};
use class_tree::Tree;
use machine_code::{Locks, Prepared, method_traits};
use machine_heap::locals_of;
use machine_step::{Memory, WorldState};
use machine_values::{Constant, LocalList, MethodFrame, Ref, RunFrame, Value, ValueList};
use std::alloc::Global;

/// What a method is called with: the locals with which its frame begins, and its first argument, which of an instance method is
/// the receiver.
#[derive(Drop)]
pub(crate) struct Arguments {
    pub(crate) locals: LocalList,
    pub(crate) first: Option<Value>,
}

/// These values, the receiver first, as the arguments of a method of the folder.
///
/// # Errors
///
/// `NoMemory` where memory runs out.
pub(crate) fn arguments_of(
    alloc: Global,
    prepared: &mut Prepared<'_>,
    at: MethodAt,
    values: &[Value],
) -> Result<Arguments, NoMemory>
    ensures same { prepared.new ≡ prepared.old }
    ensures arguments { IfOk result (λ arguments. (P : Program) → IsProgram prepared.old P
        → AreArguments P at values.now arguments) }
{
    let units = local_units(alloc, prepared, at)?;
    Ok(Arguments {
        locals: locals_of(alloc, values, units as usize)?,
        first: values.first().copied(),
    })
}

// How many local units the code of a method has: 0 where it has no code that runs.
fn local_units(alloc: Global, prepared: &mut Prepared<'_>, at: MethodAt) -> Result<u16, NoMemory>
    ensures same { prepared.new ≡ prepared.old }
    ensures units { IfOk result (λ units. (P : Program) → IsProgram prepared.old P
        → units ≡ units_of_code (code_at P at)) }
{
    match prepared.take(alloc, at)? {
        Some(method) => {
            let units = method.locals;
            prepared.put(at, method);
            Ok(units)
        }
        None => Ok(0),
    }
}

/// Calls a method of the folder on top of the frames as they stand. A synchronized one enters its monitor.
///
/// # Errors
///
/// `NoMemory` where memory runs out.
pub(crate) fn call_method(
    alloc: Global,
    tree: &Tree,
    w: &mut WorldState,
    at: MethodAt,
    arguments: Arguments,
) -> Result<(), NoMemory>
    requires { HasRoom w.old.memory }
    ensures { OnOk result ((P : Program) (values : List Argument) → IsProgram tree.now P
        → AreArguments P at values arguments
        → w.new ≡ called P w.old at values w.old.frames) }
{
    let Arguments { locals, first } = arguments;
    let held = lock(alloc, tree, &mut w.memory, at, &first)?;
    let frame = MethodFrame {
        at,
        place: 0,
        locals,
        stack: ValueList::new(alloc),
        held,
    };
    push_frame(&mut w.frames, RunFrame::Method(frame))
}

// ---- monitors of synchronized methods

// Enters the monitor of a method that is called with this first argument, if it is synchronized, and answers whose monitor it is.
fn lock(
    alloc: Global,
    tree: &Tree,
    memory: &mut Memory,
    at: MethodAt,
    first: &Option<Value>,
) -> Result<Option<Ref>, NoMemory>
    requires { HasRoom memory.old }
    ensures { IfOk result (λ held. (P : Program) (values : List Argument) → IsProgram tree.now P
        → first.now ≡ value_in values
        → locked P memory.old at values ≡ locked_as memory.new held) }
{
    match method_traits(tree, at) {
        Some(traits) => match traits.locks {
            Locks::None => Ok(None),
            Locks::Receiver => lock_receiver(memory, first),
            Locks::Class => lock_class(alloc, tree, memory, at.class),
        },
        None => Ok(None),
    }
}

// That of the receiver, where it is an object.
fn lock_receiver(memory: &mut Memory, first: &Option<Value>) -> Result<Option<Ref>, NoMemory>
    requires { HasRoom memory.old }
    ensures { IfOk result (λ held. (class : Name) (values : List Argument)
        → first.now ≡ value_in values
        → locked_by memory.old class receiver_lock values ≡ locked_as memory.new held) }
{
    match first {
        Some(Value::Ref(at)) => {
            enter(memory, *at)?;
            Ok(Some(*at))
        }
        _ => Ok(None),
    }
}

// That of the constant of a class of the folder.
fn lock_class(
    alloc: Global,
    tree: &Tree,
    memory: &mut Memory,
    class: usize,
) -> Result<Option<Ref>, NoMemory>
    requires { HasRoom memory.old }
    ensures { IfOk result (λ held. (P : Program) (values : List Argument) → IsProgram tree.now P
        → locked_by memory.old (name_of_class P class) class_lock values
        ≡ locked_as memory.new held) }
{
    let name = name_of_class(alloc, tree, class)?;
    let at = memory.constant(&Constant::Class(name))?;
    enter(memory, at)?;
    Ok(Some(at))
}

// Enters the monitor of a reference, which is counted. Where it names no object the count rises alone.
fn enter(memory: &mut Memory, at: Ref) -> Result<(), NoMemory>
    requires { HasRoom memory.old }
    ensures { OnOk result (memory.new ≡ with_entered memory.old at) }
{
    match memory.heap().object(at) {
        Some(_) => memory.enter(at),
        None => {
            memory.entries += 1;
            Ok(())
        }
    }
}
