//! Methods that end and frames that go on: what returns and throws have in common.
ghost use Rattle.std.specs.Prelude.{◌≡◌, ◌∷◌, ◌<◌, ◌-◌, ◌^◌, ℕ, List, [], None, Option, drop, OnOk};
ghost use Rattle.machine_values.specs.Frames.{MethodState};
ghost use Rattle.machine_values.specs.declared.frame.RunFrame.{RunFrame as Frame};
ghost use Rattle.machine_values.specs.declared.frame.RunFrame.TheVariants.{Library, Method};
ghost use Rattle.machine_values.specs.declared.value.Value.TheVariants as values;
ghost use Rattle.member_link.specs.Machine.Performing.{resumed, unlocked};
ghost use Rattle.machine_step.specs.Completing.{values_of};

use crate::frames::pop_frame;
use class_model::NoMemory;
use machine_code::push_top;
use machine_step::{Memory, WorldState};
use machine_values::{MethodFrame, Ref, RunFrame, RunFrameList, Value};

/// Ends the method of the top frame: the monitor that the frame holds is left, and it is popped. It does not allocate.
pub(crate) fn end_method(w: &mut WorldState)
    ensures method { (f : MethodState) (rest : List Frame) → w.old.frames ≡ Method f ∷ rest
        → w.new ≡ record w.old { memory = unlocked w.old.memory f.held; frames = rest } }
    ensures rest { w.new ≡ record w.old { memory = w.new.memory; frames = w.new.frames } }
    ensures shorter { w.new.frames ≡ drop 1 w.old.frames }
{
    if let Some(RunFrame::Method(frame)) = pop_frame(&mut w.frames) {
        leave_held(&mut w.memory, frame.held);
    }
}

// Leaves the monitor that a frame holds.
fn leave_held(memory: &mut Memory, held: Option<Ref>)
    ensures { memory.new ≡ unlocked memory.old held }
{
    if let Some(at) = held {
        memory.leave(at);
    }
}

/// Lets a frame that waited for a call go on behind it, with the value of the call, or none, on its stack.
///
/// # Errors
///
/// `NoMemory` where memory runs out.
pub(crate) fn resume_frame(frame: &mut MethodFrame, value: Option<Value>) -> Result<(), NoMemory>
    requires { frame.old.place < 2 ^ 32 - 1 }
    ensures { OnOk result (frame.new ≡ resumed frame.old (values_of value)) }
{
    frame.place += 1;
    match value {
        Some(value) => push_top(&mut frame.stack, &value),
        None => Ok(()),
    }
}

/// Lets a frame go on at a handler, with the thrown object on its stack.
///
/// # Errors
///
/// `NoMemory` where memory runs out.
pub(crate) fn handle_in_frame(frame: &mut MethodFrame, to: u32, at: Ref) -> Result<(), NoMemory>
    ensures { OnOk result
        (frame.new ≡ record frame.old { place = to; stack = values.Ref at ∷ [] }) }
{
    frame.place = to;
    frame.stack.items.truncate(0);
    push_top(&mut frame.stack, &Value::Ref(at))
}

/// Lets the library's frame on top go on: it constructs no object any more. It does not allocate.
pub(crate) fn clear_made(frames: &mut RunFrameList)
    ensures { (made : Option ℕ) (rest : List Frame)
        → frames.old ≡ Library made ∷ rest
        → frames.new ≡ Library None ∷ rest }
{
    let len = frames.frames.len();
    if len == 0 {
        return;
    }
    match &mut frames.frames[len - 1] {
        RunFrame::Library { made } => *made = None,
        RunFrame::Beginning(_) => {}
        RunFrame::Method(_) => {}
    }
}
