//! The ends of methods (JVM Specification SE 8, 2.6.4).
ghost use Rattle.std.specs.Prelude.{◌≡◌, ◌∷◌, ◌<◌, ◌-◌, ◌^◌, List, IfOk, OnOk, slice_get};
ghost use Rattle.std.specs.Option.{option_copied};
ghost use Rattle.machine_values.specs.Frames.{MethodState};
ghost use Rattle.machine_values.specs.declared.frame.RunFrame.{RunFrame as Frame};
ghost use Rattle.machine_values.specs.declared.frame.RunFrame.TheVariants.{Method};
ghost use Rattle.member_link.specs.Machine.Performing.{result_seen, resumed, returned, returned_to};
ghost use Rattle.member_link.specs.Machine.Programs.{Program};
ghost use Rattle.machine_step.specs.Bounded.{CanGoOn};
ghost use Rattle.machine_step.specs.Completing.{values_of};
ghost use Rattle.machine_code.specs.Prepared.{IsTraitsOf};
ghost use Rattle.member_link.specs.TreePrograms.{IsProgram};
ghost use Rattle.machine_run.specs.Outcomes.{Lands, ended, halt_of};

use crate::ending::{clear_made, end_method, resume_frame};
use class_model::NoMemory;
use class_tree::Tree;
use machine_code::{MethodTraits, method_traits};
use machine_step::{Outcome, WorldState, show_result};
use machine_values::{Ref, RunFrame, RunFrameList, Value};
use std::alloc::Global;

/// Ends the method of the top frame with a value or none, which goes to the frame below or to the library.
///
/// # Errors
///
/// `NoMemory` where memory runs out.
pub(crate) fn return_value(
    alloc: Global,
    tree: &Tree,
    w: &mut WorldState,
    value: Option<Value>,
) -> Result<Outcome, NoMemory>
    requires { CanGoOn w.old.frames }
    ensures lands { IfOk result Lands }
    ensures returned { IfOk result (λ outcome. (P : Program) (f : MethodState) (rest : List Frame)
        → IsProgram tree.now P
        → w.old.frames ≡ Method f ∷ rest
        → ended (halt_of outcome) w.new ≡ returned P w.old f rest (values_of value)) }
{
    match top_traits(tree, &w.frames) {
        Some(traits) => {
            if traits.is_initialiser {
                end_method(w);
                Ok(Outcome::Running)
            } else {
                return_below(alloc, tree, w, value)
            }
        }
        None => Ok(Outcome::Stuck),
    }
}

// What the flags and the name of the method of the top frame say; none where no method is there.
fn top_traits(tree: &Tree, frames: &RunFrameList) -> Option<MethodTraits>
    ensures { (P : Program) (f : MethodState) (rest : List Frame)
        → IsProgram tree.now P
        → frames.now ≡ Method f ∷ rest
        → IsTraitsOf P f.at result }
{
    match frames.frames.last() {
        Some(RunFrame::Method(frame)) => method_traits(tree, frame.at),
        Some(RunFrame::Library { .. }) => None,
        Some(RunFrame::Beginning(_)) => None,
        None => None,
    }
}

/// The frame below the top one. It does not allocate.
pub(crate) fn frame_below(frames: &RunFrameList) -> Option<&RunFrame>
    ensures { option_copied result ≡ slice_get frames.now 1 }
{
    let len = frames.frames.len();
    if len > 1 {
        frames.frames.get(len - 2)
    } else {
        None
    }
}

// Ends the method of the top frame, which is no class initialiser.
fn return_below(
    alloc: Global,
    tree: &Tree,
    w: &mut WorldState,
    value: Option<Value>,
) -> Result<Outcome, NoMemory>
    requires { CanGoOn w.old.frames }
    ensures lands { IfOk result Lands }
    ensures returned { IfOk result (λ outcome. (P : Program) (f : MethodState) (rest : List Frame)
        → IsProgram tree.now P
        → w.old.frames ≡ Method f ∷ rest
        → ended (halt_of outcome) w.new ≡ returned_to P w.old f.held (values_of value) rest) }
{
    match frame_below(&w.frames) {
        Some(RunFrame::Method(_)) => {
            end_method(w);
            resume_top(&mut w.frames, value)?;
            Ok(Outcome::Running)
        }
        Some(RunFrame::Library { made }) => {
            let seen = result_seen(*made, value);
            end_method(w);
            clear_made(&mut w.frames);
            show_result(alloc, tree, w, seen)?;
            Ok(Outcome::Running)
        }
        Some(RunFrame::Beginning(_)) => Ok(Outcome::Stuck),
        None => Ok(Outcome::Stuck),
    }
}

// What the library sees of a method that it called: the object that it constructed, else the value.
fn result_seen(made: Option<Ref>, value: Option<Value>) -> Option<Value>
    ensures { result ≡ result_seen made (values_of value) }
{
    match made {
        Some(at) => Some(Value::Ref(at)),
        None => value,
    }
}

// The method of the top frame goes on behind the call for which it waited.
fn resume_top(frames: &mut RunFrameList, value: Option<Value>) -> Result<(), NoMemory>
    requires { (f : MethodState) (rest : List Frame) → frames.old ≡ Method f ∷ rest
        → f.place < 2 ^ 32 - 1 }
    ensures { OnOk result ((f : MethodState) (rest : List Frame)
        → frames.old ≡ Method f ∷ rest
        → frames.new ≡ Method (resumed f (values_of value)) ∷ rest) }
{
    let len = frames.frames.len();
    if len == 0 {
        return Ok(());
    }
    match &mut frames.frames[len - 1] {
        RunFrame::Method(frame) => resume_frame(frame, value),
        RunFrame::Library { .. } => Ok(()),
        RunFrame::Beginning(_) => Ok(()),
    }
}
