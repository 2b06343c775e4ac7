//! Initialisation of classes (JVM Specification SE 8, 5.5).
ghost use Rattle.std.specs.Prelude.{◌≡◌, ◌∷◌, [], ℕ, List, None, false, option_and_then, IfOk, OnOk};
ghost use Rattle.machine_values.specs.declared.frame.RunFrame.{RunFrame as Frame};
ghost use Rattle.machine_values.specs.declared.frame.RunFrame.TheVariants.{Beginning};
ghost use Rattle.member_link.specs.Machine.Beginnings.{beginning_step, begun_on, frame_with, initialiser_of, past_beginning};
ghost use Rattle.member_link.specs.Machine.Programs.{Program};
ghost use Rattle.member_link.specs.Machine.Worlds.{is_begun};
ghost use Rattle.member_link.specs.TreePrograms.{IsProgram};
ghost use Rattle.machine_run.specs.Inner.CallWords.{beginning_on_top, if_code};
ghost use Rattle.machine_run.specs.Outcomes.{Lands, ended, halt_of};

use crate::calls::arguments_of;
use crate::coming_first::first_unbegun;
use crate::frames::{pop_frame, push_frame};
use crate::names::name_of_class;
use crate::starts::start_fields;
use class_model::{CLINIT, MethodAt, NoMemory, Text};
use class_tree::{Place, Tree};
use machine_code::Prepared;
use machine_step::{Outcome, WorldState};
use machine_values::{MethodFrame, RunFrame, RunFrameList, ValueList};
use member_link::{Reference, has_code, place_of_method};
use std::alloc::Global;

/// Begins a class of the folder that is not begun, on top of the frames as they stand: it is marked as begun, and its static fields have
/// their constant values.
///
/// # Errors
///
/// `NoMemory` where memory runs out.
pub(crate) fn begin_class(
    _alloc: Global,
    prepared: &Prepared<'_>,
    w: &mut WorldState,
    class: usize,
) -> Result<(), NoMemory>
    requires { is_begun w.old.memory class ≡ false }
    ensures { OnOk result ((P : Program) → IsProgram prepared.now P
        → w.new ≡ begun_on P class w.old w.old.frames) }
{
    w.memory.begun.push(class)?;
    start_fields(prepared.tree(), &mut w.memory, class)?;
    push_frame(&mut w.frames, RunFrame::Beginning(class))
}

/// One step of the beginning of a class, whose frame is on top.
///
/// # Errors
///
/// `NoMemory` where memory runs out.
pub(crate) fn step_beginning(
    alloc: Global,
    prepared: &mut Prepared<'_>,
    w: &mut WorldState,
) -> Result<Outcome, NoMemory>
    ensures same { prepared.new ≡ prepared.old }
    ensures lands { IfOk result Lands }
    ensures begun { IfOk result (λ outcome. (P : Program) (class : ℕ) (rest : List Frame)
        → IsProgram prepared.old P
        → w.old.frames ≡ Beginning class ∷ rest
        → ended (halt_of outcome) w.new ≡ beginning_step P class w.old rest) }
{
    let Some(class) = beginning_on_top(&w.frames) else {
        return Ok(Outcome::Stuck);
    };
    let tree = prepared.tree();
    let Some(header) = tree.header(Place::Folder(class)) else {
        return Ok(Outcome::Stuck);
    };
    match first_unbegun(tree, &w.memory, header) {
        Some(first) => begin_class(alloc, prepared, w, first)?,
        None => end_beginning(alloc, prepared, w, class)?,
    }
    Ok(Outcome::Running)
}

// The class whose beginning is on top.
fn beginning_on_top(frames: &RunFrameList) -> Option<usize>
    ensures { result ≡ beginning_on_top frames.now }
{
    match frames.frames.last() {
        Some(RunFrame::Beginning(class)) => Some(*class),
        _ => None,
    }
}

// Where no class comes first any more: the class initialiser takes the place of the beginning, or it is over.
fn end_beginning(
    alloc: Global,
    prepared: &mut Prepared<'_>,
    w: &mut WorldState,
    class: usize,
) -> Result<(), NoMemory>
    ensures same { prepared.new ≡ prepared.old }
    ensures ended { OnOk result ((P : Program) (rest : List Frame) → IsProgram prepared.old P
        → w.old.frames ≡ Beginning class ∷ rest
        → w.new ≡ past_beginning P w.old rest (initialiser_of P class)) }
{
    let initialiser = initialiser_of(alloc, prepared.tree(), class)?;
    // let go by a call, so that its drop is proved once
    drop(pop_frame(&mut w.frames));
    match initialiser {
        Some(at) => {
            let frame = initialiser_frame(alloc, prepared, at)?;
            push_frame(&mut w.frames, RunFrame::Method(frame))
        }
        None => Ok(()),
    }
}

// The frame of a class initialiser, which has no argument and enters no monitor.
fn initialiser_frame(
    alloc: Global,
    prepared: &mut Prepared<'_>,
    at: MethodAt,
) -> Result<MethodFrame, NoMemory>
    ensures same { prepared.new ≡ prepared.old }
    ensures frame { IfOk result (λ frame. (P : Program) → IsProgram prepared.old P
        → frame ≡ frame_with P at [] None) }
{
    let arguments = arguments_of(alloc, prepared, at, &[])?;
    Ok(MethodFrame {
        at,
        place: 0,
        locals: arguments.locals,
        stack: ValueList::new(alloc),
        held: None,
    })
}

// The class initialiser of a class of the folder, if it has one with code.
fn initialiser_of(alloc: Global, tree: &Tree, class: usize) -> Result<Option<MethodAt>, NoMemory>
    ensures { IfOk result (λ at. (P : Program) → IsProgram tree.now P
        → at ≡ initialiser_of P class) }
{
    let reference = Reference {
        class: name_of_class(alloc, tree, class)?,
        name: Text::of_plain(alloc, CLINIT)?,
        desc: Text::of_plain(alloc, b"()V")?,
    };
    let found = place_of_method(tree, &reference);
    drop(reference);
    Ok(with_code(tree, found))
}

// A method if it has code.
fn with_code(tree: &Tree, method: Option<MethodAt>) -> Option<MethodAt>
    ensures { (P : Program) → IsProgram tree.now P
        → result ≡ option_and_then (if_code P) method }
{
    match method {
        Some(at) => { if has_code(tree, at) { Some(at) } else { None } }
        None => None,
    }
}
