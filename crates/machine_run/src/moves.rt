//! Operations that move locals, the operand stack or control alone (JVM Specification SE 8, 6.5).
ghost use Rattle.std.specs.Prelude.{◌≡◌, ◌<◌, ◌-◌, ◌^◌, List, Some, None, reverse, IfOk, if◌then◌else◌};
ghost use Rattle.machine_values.specs.declared.frame.RunFrame.{RunFrame};
ghost use Rattle.member_link.specs.Machine.Ops.{increment_local, load_local, return_value, shuffle_stack, store_local};
ghost use Rattle.member_link.specs.Machine.Programs.{Program};
ghost use Rattle.member_link.specs.Machine.Stepping.{op_step};
ghost use Rattle.member_link.specs.Machine.Worlds.{World};
ghost use Rattle.member_link.specs.RunOps.{op_of};
ghost use Rattle.machine_run.specs.Inner.Moves.{IsMoved, StaysUnlessWent, top_of_kind, world_moved};

use crate::jumping::{
    jump_by_int, jump_by_ints, jump_by_null, jump_by_references, switch_lookup, switch_table,
};
use class_model::{FieldType, Kind, NoMemory};
use machine_code::{drop_top, entry, if_kind, increment, local_value, push_top, shuffle, store};
use machine_heap::{Narrowing, narrow};
use machine_values::{MethodFrame, Value, ValueList};
use member_link::RunOp;

/// What an operation does that needs its frame alone, or what else there is to do.
#[derive(Clone, Copy, PartialEq, Eq)]
pub(crate) enum Moved {
    /// It is done.
    Went,
    /// An operand or a local is not as the operation needs it.
    Stuck,
    /// The method ends with this value, narrowed to its declared result, or with none.
    Returns(Option<Value>),
    /// It works on its operands.
    Works,
}

/// Does an operation that needs its frame alone.
///
/// # Errors
///
/// `NoMemory` where memory runs out.
pub(crate) fn move_frame(frame: &mut MethodFrame, op: &RunOp) -> Result<Moved, NoMemory>
    requires { frame.old.place < 2 ^ 32 - 1 }
    ensures moved { IfOk result (λ moved. (P : Program) (w : World) (rest : List RunFrame)
        → op_step P w frame.old rest (op_of op.now)
        ≡ world_moved P w rest frame.old frame.new (op_of op.now) moved) }
    ensures stays { IfOk result (StaysUnlessWent frame.old frame.new) }
{
    match op {
        RunOp::Nop => {
            frame.place += 1;
            Ok(Moved::Went)
        }
        RunOp::Meaningless => Ok(Moved::Stuck),
        RunOp::Load(kind, at) => load(frame, *kind, *at),
        RunOp::Store(kind, at) => Ok(store_top(frame, *kind, *at)),
        RunOp::Increment(at, by) => Ok(increment_int(frame, *at, by)),
        RunOp::Shuffle(opcode) => shuffle_top(frame, *opcode),
        RunOp::JumpInt(opcode, to) => Ok(jump_by_int(frame, *opcode, *to)),
        RunOp::JumpInts(opcode, to) => Ok(jump_by_ints(frame, *opcode, *to)),
        RunOp::JumpReferences(opcode, to) => Ok(jump_by_references(frame, *opcode, *to)),
        RunOp::JumpNull(opcode, to) => Ok(jump_by_null(frame, *opcode, *to)),
        RunOp::Jump(to) => {
            frame.place = *to;
            Ok(Moved::Went)
        }
        RunOp::Table(op) => Ok(switch_table(frame, op)),
        RunOp::Lookup(op) => Ok(switch_lookup(frame, op)),
        RunOp::ReturnNothing => Ok(Moved::Returns(None)),
        RunOp::ReturnValue(type_) => Ok(return_top(frame, type_)),
        _ => Ok(Moved::Works),
    }
}

/// Pushes the value of a local.
///
/// # Errors
///
/// `NoMemory` where memory runs out.
fn load(frame: &mut MethodFrame, kind: Kind, at: u16) -> Result<Moved, NoMemory>
    requires { frame.old.place < 2 ^ 32 - 1 }
    ensures moved { IfOk result (IsMoved frame.old frame.new (load_local kind at)) }
    ensures stays { IfOk result (StaysUnlessWent frame.old frame.new) }
{
    match local_value(kind, &frame.locals, at as usize) {
        Some(value) => {
            push_top(&mut frame.stack, &value)?;
            frame.place += 1;
            Ok(Moved::Went)
        }
        None => Ok(Moved::Stuck),
    }
}

/// Stores the top of the stack in a local. It does not allocate.
fn store_top(frame: &mut MethodFrame, kind: Kind, at: u16) -> Moved
    requires { frame.old.place < 2 ^ 32 - 1 }
    ensures moved { IsMoved frame.old frame.new (store_local kind at) result }
    ensures stays { StaysUnlessWent frame.old frame.new result }
{
    match top_of_kind(kind, &frame.stack) {
        Some(value) => {
            if store(&mut frame.locals, at as usize, value) {
                drop_top(&mut frame.stack, 1);
                frame.place += 1;
                Moved::Went
            } else {
                Moved::Stuck
            }
        }
        None => Moved::Stuck,
    }
}

/// Adds to the int in a local. It does not allocate.
fn increment_int(frame: &mut MethodFrame, at: u16, by: &i32) -> Moved
    requires { frame.old.place < 2 ^ 32 - 1 }
    ensures moved { IsMoved frame.old frame.new (increment_local at by.now) result }
    ensures stays { StaysUnlessWent frame.old frame.new result }
{
    if increment(&mut frame.locals, at as usize, *by) {
        frame.place += 1;
        Moved::Went
    } else {
        Moved::Stuck
    }
}

/// Moves entries of the stack: pop, dup, swap and the like.
///
/// # Errors
///
/// `NoMemory` where memory runs out.
fn shuffle_top(frame: &mut MethodFrame, opcode: u8) -> Result<Moved, NoMemory>
    requires { frame.old.place < 2 ^ 32 - 1 }
    ensures moved { IfOk result (IsMoved frame.old frame.new (shuffle_stack opcode)) }
    ensures stays { IfOk result (StaysUnlessWent frame.old frame.new) }
{
    if shuffle(opcode, &mut frame.stack)? {
        frame.place += 1;
        Ok(Moved::Went)
    } else {
        Ok(Moved::Stuck)
    }
}

/// Ends the method with the top of the stack. It does not allocate.
fn return_top(frame: &MethodFrame, type_: &FieldType) -> Moved
    ensures moved { IsMoved frame.now frame.now (return_value type_.now) result }
    ensures stays { StaysUnlessWent frame.now frame.now result }
{
    match top_of_kind(type_.kind(), &frame.stack) {
        Some(value) => Moved::Returns(Some(narrow(Narrowing::of(type_), value))),
        None => Moved::Stuck,
    }
}

/// The top of the stack, if it is of a kind. It does not allocate.
fn top_of_kind(kind: Kind, stack: &ValueList) -> Option<Value>
    ensures { result ≡ top_of_kind kind (reverse stack.now) }
{
    match entry(stack, 0) {
        Some(value) => if_kind(kind, &value),
        None => None,
    }
}
