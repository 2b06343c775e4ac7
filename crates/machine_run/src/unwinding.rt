//! Throwing to the nearest handler (JVM Specification SE 8, 2.10).
ghost use Rattle.std.specs.Prelude.{◌≡◌, ◌∷◌, List, [], Some, IfOk, OnOk};
ghost use Rattle.machine_values.specs.Frames.{MethodState};
ghost use Rattle.machine_values.specs.declared.frame.RunFrame.{RunFrame as Frame};
ghost use Rattle.machine_values.specs.declared.frame.RunFrame.TheVariants.{Method};
ghost use Rattle.machine_values.specs.declared.value.Value.TheVariants as values;
ghost use Rattle.member_link.specs.Machine.Performing.{thrown, thrown_in};
ghost use Rattle.member_link.specs.Machine.Programs.{Program};
ghost use Rattle.member_link.specs.Machine.Worlds.{World};
ghost use Rattle.member_link.specs.TreePrograms.{IsProgram};
ghost use Rattle.machine_run.specs.Inner.ThrowTargets.{shape_at, target_in};
ghost use Rattle.machine_run.specs.Inner.Unwinding.{AreEnded};
ghost use Rattle.machine_run.specs.Outcomes.{Lands, ended, halt_of};

use crate::ending::{clear_made, end_method, handle_in_frame};
use crate::frames::{frame_count, pop_frame};
use crate::throw_targets::{TargetKind, ThrowTarget, find_target, shape_of};
use class_model::NoMemory;
use class_tree::Tree;
use machine_code::Prepared;
use machine_step::{Outcome, WorldState, show_threw};
use machine_values::{Ref, RunFrame, RunFrameList};
use std::alloc::Global;

/// Throws an object with the frames as they stand.
///
/// # Errors
///
/// `NoMemory` where memory runs out.
pub(crate) fn throw(
    alloc: Global,
    prepared: &mut Prepared<'_>,
    w: &mut WorldState,
    at: Ref,
) -> Result<Outcome, NoMemory>
    ensures same { prepared.new ≡ prepared.old }
    ensures lands { IfOk result Lands }
    ensures thrown { IfOk result (λ outcome. (P : Program) → IsProgram prepared.old P
        → ended (halt_of outcome) w.new ≡ thrown P w.old at w.old.frames) }
{
    let shape = shape_of(w.memory.heap(), at);
    match find_target(alloc, prepared, &w.frames, shape)? {
        Some(target) => land(alloc, prepared.tree(), w, at, target),
        None => Ok(Outcome::Stuck),
    }
}

/// Lets a thrown object land where it was found to land. It may be made since then.
///
/// # Errors
///
/// `NoMemory` where memory runs out.
pub(crate) fn land(
    alloc: Global,
    tree: &Tree,
    w: &mut WorldState,
    at: Ref,
    target: ThrowTarget,
) -> Result<Outcome, NoMemory>
    ensures lands { IfOk result Lands }
    ensures thrown { IfOk result (λ outcome. (P : Program) (before : World)
        → IsProgram tree.now P
        → w.old ≡ record before { memory = w.old.memory }
        → target_in P (shape_at w.old.memory.heap at) w.old.frames ≡ Some target
        → ended (halt_of outcome) w.new ≡ thrown_in P before at w.old.frames w.old.memory) }
{
    end_methods(w, target.left);
    match target.kind {
        TargetKind::Handler(to) => {
            handle_in_top(&mut w.frames, to, at)?;
            Ok(Outcome::Running)
        }
        TargetKind::Library => {
            clear_made(&mut w.frames);
            show_threw(alloc, tree, w, at)?;
            Ok(Outcome::Running)
        }
        TargetKind::Initialiser => {
            pop_frame(&mut w.frames);
            Ok(Outcome::InitThrew)
        }
    }
}

// Ends methods until so many frames are left.
fn end_methods(w: &mut WorldState, left: usize)
    ensures { AreEnded left w.old w.new }
{
    while frame_count(&w.frames) > left {
        end_method(w);
    }
}

// The method of the top frame goes on at a handler.
fn handle_in_top(frames: &mut RunFrameList, to: u32, at: Ref) -> Result<(), NoMemory>
    ensures { OnOk result ((f : MethodState) (rest : List Frame)
        → frames.old ≡ Method f ∷ rest
        → frames.new ≡ Method (record f { place = to; stack = values.Ref at ∷ [] }) ∷ rest) }
{
    let len = frames.frames.len();
    if len == 0 {
        return Ok(());
    }
    match &mut frames.frames[len - 1] {
        RunFrame::Method(frame) => handle_in_frame(frame, to, at),
        RunFrame::Library { .. } => Ok(()),
        RunFrame::Beginning(_) => Ok(()),
    }
}
