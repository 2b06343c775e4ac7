//! Objects (JVM Specification SE 8, 6.5: new, checkcast, instanceof, monitorenter, monitorexit, athrow).
ghost use Rattle.std.specs.Prelude.{◌≡◌, ℕ, List, [], ◌∷◌, IfOk};
ghost use Rattle.std.specs.Option.{option_copied};
ghost use Rattle.class_tree.specs.Headers.{Name};
ghost use Rattle.class_tree.specs.Names.{throwable};
ghost use Rattle.machine_values.specs.Heaps.{left, object_at};
ghost use Rattle.machine_values.specs.declared.value.Value.{Value as Operand};
ghost use Rattle.member_link.specs.Machine.Completions.{Completion, gives, raises};
ghost use Rattle.member_link.specs.Machine.FieldSteps.{begun_first};
ghost use Rattle.member_link.specs.Machine.ObjectSteps.{check_cast_work, enter_monitor_work, if_there, instance_of_work, leave_monitor_work, new_object_work, throw_work, with_entered};
ghost use Rattle.member_link.specs.Machine.Programs.{Program, folder_number};
ghost use Rattle.member_link.specs.Machine.Shapes.{is_instance, shape_conforms};
ghost use Rattle.machine_step.specs.Completing.{Completes};
ghost use Rattle.machine_step.specs.Inner.Works.{or_begins};
ghost use Rattle.member_link.specs.RunOps.{IsCastOp, IsNewOp};
ghost use Rattle.member_link.specs.TreePrograms.{IsProgram};
ghost use Rattle.machine_step.specs.Room.{HasRoom};

use crate::completed::Completed;
use crate::memory::Memory;
use crate::questions::shapes::{is_instance, shape_conforms};
use class_model::{NoMemory, Text, TextList};
use class_tree::Tree;
use machine_values::{Ref, Shape, Value, ValueList};
use member_link::{CastOp, NewOp, SeenAnswer, Throwable};
use std::alloc::Global;

// ---- monitors

/// A `monitorenter`.
///
/// # Errors
///
/// `NoMemory` where memory runs out.
pub(crate) fn enter_monitor(memory: &mut Memory, operands: &[Value]) -> Result<Completed, NoMemory>
    requires { HasRoom memory.old }
    ensures { IfOk result (λ completed.
        Completes memory.old memory.new operands.now completed
        (enter_monitor_work memory.old operands.now)) }
{
    match operands {
        [Value::Null] => Ok(Completed::Raises(Throwable::NullPointer)),
        [Value::Ref(at)] => enter_object(memory, *at),
        _ => Ok(Completed::Stuck),
    }
}

// Of a reference.
fn enter_object(memory: &mut Memory, at: Ref) -> Result<Completed, NoMemory>
    requires { HasRoom memory.old }
    ensures { IfOk result (λ completed. (operands : List Operand)
        → Completes memory.old memory.new operands completed
        (if_there memory.old at (λ object. gives (with_entered memory.old at) []))) }
{
    match memory.heap().object(at) {
        Some(_) => {
            memory.enter(at)?;
            Ok(Completed::Gives(None))
        }
        None => Ok(Completed::Stuck),
    }
}

/// A `monitorexit`. It does not allocate.
pub(crate) fn leave_monitor(memory: &mut Memory, operands: &[Value]) -> Completed
    ensures { Completes memory.old memory.new operands.now result
        (leave_monitor_work memory.old operands.now) }
{
    match operands {
        [Value::Null] => Completed::Raises(Throwable::NullPointer),
        [Value::Ref(at)] => leave_object(memory, *at),
        _ => Completed::Stuck,
    }
}

// Of a reference.
fn leave_object(memory: &mut Memory, at: Ref) -> Completed
    ensures { Completes memory.old memory.new (Operand.Ref at ∷ []) result
        (leave_monitor_work memory.old (Operand.Ref at ∷ [])) }
{
    match memory.heap().object(at) {
        Some(_) => {
            if memory.leave(at) {
                Completed::Gives(None)
            } else {
                Completed::Raises(Throwable::IllegalMonitor)
            }
        }
        None => Completed::Stuck,
    }
}

// ---- tests of classes

/// A `checkcast`. It does not allocate.
pub(crate) fn check_cast(
    tree: &Tree,
    memory: &Memory,
    op: &mut CastOp,
    operands: &[Value],
) -> Completed
    ensures completed { (P : Program) → IsProgram tree.now P → IsCastOp P op.old
        → Completes memory.now memory.now operands.now result
        (check_cast_work P memory.now op.old.name operands.now) }
    ensures kept { (P : Program) → IsProgram tree.now P → IsCastOp P op.old → IsCastOp P op.new }
    ensures name { op.new.name ≡ op.old.name }
{
    match operands {
        [Value::Null] => Completed::Gives(Some(Value::Null)),
        [Value::Ref(at)] => match memory.heap().object(*at) {
            Some(object) => {
                if is_seen_instance(tree, op, &object.shape) {
                    Completed::Gives(Some(Value::Ref(*at)))
                } else {
                    Completed::Raises(Throwable::ClassCast)
                }
            }
            None => Completed::Stuck,
        },
        _ => Completed::Stuck,
    }
}

/// An `instanceof`. It does not allocate.
pub(crate) fn instance_of(
    tree: &Tree,
    memory: &Memory,
    op: &mut CastOp,
    operands: &[Value],
) -> Completed
    ensures completed { (P : Program) → IsProgram tree.now P → IsCastOp P op.old
        → Completes memory.now memory.now operands.now result
        (instance_of_work P memory.now op.old.name operands.now) }
    ensures kept { (P : Program) → IsProgram tree.now P → IsCastOp P op.old → IsCastOp P op.new }
    ensures name { op.new.name ≡ op.old.name }
{
    match operands {
        [Value::Null] => Completed::Gives(Some(Value::Int(0))),
        [Value::Ref(at)] => match memory.heap().object(*at) {
            Some(object) => {
                let answer = if is_seen_instance(tree, op, &object.shape) {
                    1
                } else {
                    0
                };
                Completed::Gives(Some(Value::Int(answer)))
            }
            None => Completed::Stuck,
        },
        _ => Completed::Stuck,
    }
}

// Whether an object of a shape is an instance of the named class or array. For a class of the folder the answer is remembered.
fn is_seen_instance(tree: &Tree, op: &mut CastOp, shape: &Shape) -> bool
    ensures answer { (P : Program) → IsProgram tree.now P → IsCastOp P op.old
        → result ≡ is_instance P shape.now op.old.name }
    ensures kept { (P : Program) → IsProgram tree.now P → IsCastOp P op.old → IsCastOp P op.new }
    ensures name { op.new.name ≡ op.old.name }
{
    let Shape::Folder(class) = shape else {
        return is_instance(tree, shape, op.name.bytes());
    };
    if let Some(seen) = op.seen
        && seen.class == *class
    {
        return seen.answer;
    }
    let answer = is_instance(tree, shape, op.name.bytes());
    op.seen = Some(SeenAnswer {
        class: *class,
        answer,
    });
    answer
}

// ---- throwing

/// An `athrow`.
///
/// # Errors
///
/// `NoMemory` where memory runs out.
pub(crate) fn throw(
    alloc: Global,
    tree: &Tree,
    memory: &Memory,
    operands: &[Value],
) -> Result<Completed, NoMemory>
    ensures { IfOk result (λ completed. (P : Program) → IsProgram tree.now P
        → Completes memory.now memory.now operands.now completed
        (throw_work P memory.now operands.now)) }
{
    match operands {
        [Value::Null] => Ok(Completed::Raises(Throwable::NullPointer)),
        [Value::Ref(at)] => match memory.heap().object(*at) {
            Some(object) => {
                if conforms_to_throwable(alloc, tree, &object.shape)? {
                    Ok(Completed::Throws(*at))
                } else {
                    Ok(Completed::Stuck)
                }
            }
            None => Ok(Completed::Stuck),
        },
        _ => Ok(Completed::Stuck),
    }
}

// Whether an object of a shape conforms to java/lang/Throwable.
fn conforms_to_throwable(alloc: Global, tree: &Tree, shape: &Shape) -> Result<bool, NoMemory>
    ensures { IfOk result (λ answer. (P : Program) → IsProgram tree.now P
        → answer ≡ shape_conforms P shape.now throwable) }
{
    let throwable = Text::of_plain(alloc, b"java/lang/Throwable")?;
    Ok(shape_conforms(tree, shape, throwable.bytes()))
}

// ---- objects that are made

/// A `new`, behind the beginning of its class if that is one of the folder.
///
/// # Errors
///
/// `NoMemory` where memory runs out.
pub(crate) fn new_object(
    alloc: Global,
    memory: &mut Memory,
    op: &NewOp,
) -> Result<Completed, NoMemory>
    requires { HasRoom memory.old }
    ensures { IfOk result (λ completed. (P : Program) (operands : List Operand) → IsNewOp P op.now
        → Completes memory.old memory.new operands completed
        (new_object_work P memory.old op.now.class)) }
{
    if let Some(class) = unbegun(memory, op.home) {
        return Ok(Completed::Begins(class));
    }
    let at = match op.home {
        Some(class) => {
            let mut blanks = Vec::new(alloc);
            blanks.extend_from_slice(&op.blanks)?;
            memory.allocate_counted(Shape::Folder(class), ValueList::from_vec(blanks))?
        }
        None => {
            let shape = Shape::External {
                class: op.class.copy()?,
                also: TextList::new(alloc),
            };
            memory.allocate_counted(shape, ValueList::new(alloc))?
        }
    };
    Ok(Completed::Gives(Some(Value::Ref(at))))
}

/// The class that is begun first: one of the folder, by its number, that is not begun. It does not allocate.
pub(crate) fn unbegun(memory: &Memory, home: Option<usize>) -> Option<usize>
    ensures { (P : Program) (class : Name) (otherwise : Completion) → folder_number P class ≡ home
        → begun_first P memory.now class otherwise ≡ or_begins result otherwise }
{
    match home {
        Some(class) => {
            if memory.begun.contains(class) {
                None
            } else {
                Some(class)
            }
        }
        None => None,
    }
}
