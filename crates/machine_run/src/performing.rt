//! What completions do to the frames (JVM Specification SE 8, 2.6.4, 2.10 and 2.11.8).
ghost use Rattle.std.specs.Prelude.{◌≡◌, ◌∷◌, ◌≤◌, ◌<◌, ◌-◌, ◌^◌, List, length, None, IfOk, IfSome, OnOk};
ghost use Rattle.machine_values.specs.Frames.{MethodState};
ghost use Rattle.machine_values.specs.declared.frame.RunFrame.{RunFrame as Frame};
ghost use Rattle.machine_values.specs.declared.frame.RunFrame.TheVariants.{Library, Method};
ghost use Rattle.member_link.specs.Machine.Performing.{called, resumed};
ghost use Rattle.member_link.specs.Machine.Programs.{Program};
ghost use Rattle.member_link.specs.Machine.Showing.{shows_asked};
ghost use Rattle.machine_step.specs.Completing.{asked_of, values_of};
ghost use Rattle.member_link.specs.TreePrograms.{IsProgram};
ghost use Rattle.machine_step.specs.Room.{HasRoom};
ghost use Rattle.machine_run.specs.Inner.Performed.{CanPerform, HasOperands, operands_in, performed, without_operands};
ghost use Rattle.machine_run.specs.Outcomes.{Steps, ended, halt_of};

use crate::beginnings::begin_class;
use crate::calls::{arguments_of, call_method};
use crate::frames::push_frame;
use crate::laws::a_state_goes_on;
use crate::raising::raise;
use crate::unwinding::throw;
use class_model::{MethodAt, NoMemory};
use class_tree::Tree;
use machine_code::{Prepared, drop_top, operands, push_top};
use machine_step::{Asked, Completed, Outcome, WorldState, show_asked};
use machine_values::{MethodFrame, RunFrame, RunFrameList, Value};
use std::alloc::Global;

/// Performs what an operation of the top frame comes to, whose operands, so many, still stand on its stack.
///
/// # Errors
///
/// `NoMemory` where memory runs out.
pub(crate) fn perform(
    alloc: Global,
    prepared: &mut Prepared<'_>,
    w: &mut WorldState,
    completed: Completed,
    count: usize,
) -> Result<Outcome, NoMemory>
    requires can { CanPerform w.old.memory completed }
    requires operands { HasOperands count w.old.frames }
    ensures same { prepared.new ≡ prepared.old }
    ensures runs { IfOk result Steps }
    ensures performed { IfOk result (λ outcome. (P : Program) (f : MethodState) (rest : List Frame)
        → IsProgram prepared.old P
        → w.old.frames ≡ Method f ∷ rest
        → ended (halt_of outcome) w.new ≡ performed P w.old f rest count completed) }
{
    a_state_goes_on(w);
    match completed {
        Completed::Gives(value) => {
            resume(&mut w.frames, count, value)?;
            Ok(Outcome::Running)
        }
        Completed::Raises(throwable) => raise(alloc, prepared, w, throwable),
        Completed::Throws(at) => throw(alloc, prepared, w, at),
        Completed::Begins(class) => {
            begin_class(alloc, prepared, w, class)?;
            Ok(Outcome::Running)
        }
        Completed::Calls(at) => {
            call(alloc, prepared, w, at, count)?;
            Ok(Outcome::Running)
        }
        Completed::Asks(asked) => {
            ask(alloc, prepared.tree(), w, asked, count)?;
            Ok(Outcome::Running)
        }
        Completed::Stuck => Ok(Outcome::Stuck),
        Completed::ArrayTooLong => Ok(Outcome::ArrayTooLong),
    }
}

/// The frame of a method on top takes so many operands off, pushes a value or none, and goes on behind its place.
///
/// # Errors
///
/// `NoMemory` where memory runs out.
pub(crate) fn resume(
    frames: &mut RunFrameList,
    count: usize,
    value: Option<Value>,
) -> Result<(), NoMemory>
    requires { HasOperands count frames.old }
    ensures { OnOk result ((f : MethodState) (rest : List Frame)
        → frames.old ≡ Method f ∷ rest
        → frames.new ≡ Method (resumed (without_operands count f) (values_of value)) ∷ rest) }
{
    let top = frames.frames.len() - 1;
    match &mut frames.frames[top] {
        RunFrame::Method(frame) => resume_frame(frame, count, value),
        RunFrame::Library { .. } => Ok(()),
        RunFrame::Beginning(_) => Ok(()),
    }
}

/// A frame takes so many operands off, pushes a value or none, and goes on behind its place.
///
/// # Errors
///
/// `NoMemory` where memory runs out.
pub(crate) fn resume_frame(
    frame: &mut MethodFrame,
    count: usize,
    value: Option<Value>,
) -> Result<(), NoMemory>
    requires { frame.old.place < 2 ^ 32 - 1 }
    ensures { OnOk result
        (frame.new ≡ resumed (without_operands count frame.old) (values_of value)) }
{
    drop_top(&mut frame.stack, count);
    frame.place += 1;
    match value {
        Some(value) => push_top(&mut frame.stack, &value),
        None => Ok(()),
    }
}

// Calls a method with the operands of the top frame, which are taken off.
fn call(
    alloc: Global,
    prepared: &mut Prepared<'_>,
    w: &mut WorldState,
    at: MethodAt,
    count: usize,
) -> Result<(), NoMemory>
    requires room { HasRoom w.old.memory }
    requires operands { HasOperands count w.old.frames }
    ensures same { prepared.new ≡ prepared.old }
    ensures called { OnOk result ((P : Program) (f : MethodState) (rest : List Frame)
        → IsProgram prepared.old P
        → w.old.frames ≡ Method f ∷ rest
        → w.new
        ≡ called P w.old at (operands_in count f) (Method (without_operands count f) ∷ rest)) }
{
    let arguments = arguments_of(alloc, prepared, at, top_operands(&w.frames, count))?;
    take_operands(&mut w.frames, count);
    call_method(alloc, prepared.tree(), w, at, arguments)
}

// The library is asked; the operands of the top frame are taken off.
fn ask(
    alloc: Global,
    tree: &Tree,
    w: &mut WorldState,
    asked: Asked,
    count: usize,
) -> Result<(), NoMemory>
    requires operands { HasOperands count w.old.frames }
    ensures { OnOk result ((P : Program) (f : MethodState) (rest : List Frame)
        → IsProgram tree.now P
        → w.old.frames ≡ Method f ∷ rest
        → w.new
        ≡ shows_asked P (record w.old { frames = Library None ∷ Method (without_operands count f) ∷ rest })
        (asked_of (operands_in count f) asked)) }
{
    let values = match hand_over(alloc, &mut w.frames, count) {
        Ok(values) => values,
        // let go by a call, so that its drop is proved once
        Err(fault) => {
            drop(asked);
            return Err(fault);
        }
    };
    show_asked(alloc, tree, w, asked, &values)
}

// The operands of the top frame, which are taken off as a frame of the library is pushed.
fn hand_over(alloc: Global, frames: &mut RunFrameList, count: usize) -> Result<Vec<Value>, NoMemory>
    requires { HasOperands count frames.old }
    ensures values { IfOk result (λ values. (f : MethodState) (rest : List Frame)
        → frames.old ≡ Method f ∷ rest
        → values.items ≡ operands_in count f) }
    ensures frames { OnOk result ((f : MethodState) (rest : List Frame)
        → frames.old ≡ Method f ∷ rest
        → frames.new ≡ Library None ∷ Method (without_operands count f) ∷ rest) }
{
    let mut values = Vec::new(alloc);
    values.extend_from_slice(top_operands(frames, count))?;
    take_operands(frames, count);
    push_frame(frames, RunFrame::Library { made: None })?;
    Ok(values)
}

// The operands of the top frame, the topmost last.
fn top_operands(frames: &RunFrameList, count: usize) -> &[Value]
    requires { HasOperands count frames.now }
    ensures { (f : MethodState) (rest : List Frame) → frames.now ≡ Method f ∷ rest
        → result.now ≡ operands_in count f }
{
    if let Some(RunFrame::Method(frame)) = frames.frames.last()
        && let Some(values) = operands(&frame.stack, count)
    {
        return values;
    }
    &[]
}

// Takes operands of the top frame off.
fn take_operands(frames: &mut RunFrameList, count: usize)
    requires { HasOperands count frames.old }
    ensures { (f : MethodState) (rest : List Frame) → frames.old ≡ Method f ∷ rest
        → frames.new ≡ Method (without_operands count f) ∷ rest }
{
    let top = frames.frames.len() - 1;
    match &mut frames.frames[top] {
        RunFrame::Method(frame) => drop_top(&mut frame.stack, count),
        RunFrame::Library { .. } => {}
        RunFrame::Beginning(_) => {}
    }
}
