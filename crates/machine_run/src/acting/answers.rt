//! Answers of the library to what waits for it (this project's profile).
ghost use Rattle.std.specs.Prelude.{◌≡◌, drop, IfOk, IfSome, OnOk, Some, slice_get};
ghost use Rattle.std.specs.Option.{option_copied};
ghost use Rattle.class_model.specs.Descriptors.{type_of};
ghost use Rattle.class_model.specs.declared.class_file.MethodAt.{MethodAt as Numbers};
ghost use Rattle.member_link.specs.Machine.Acting.{act_return, act_throw, given_value as value_given, is_throwable, pending_of, waiting_in};
ghost use Rattle.member_link.specs.Machine.Performing.{thrown};
ghost use Rattle.member_link.specs.Machine.Programs.{Program};
ghost use Rattle.member_link.specs.Machine.Worlds.{World as State};
ghost use Rattle.machine_step.specs.Bounded.{CanGoOn};
ghost use Rattle.machine_step.specs.Completing.{values_of};
ghost use Rattle.machine_code.specs.Prepared.{IsPrepared};
ghost use Rattle.member_link.specs.TreePrograms.{IsProgram};
ghost use Rattle.member_link.specs.RunOps.{op_of};
ghost use Rattle.machine_run.specs.Inner.ActingWords.{HasWaiting, answer_for, awaited_at, awaited_below, goes_on, may_throw, method_of, put_back, thrown_below, value_for, waiting_frame, with_answer};
ghost use Rattle.machine_run.specs.Outcomes.{ended, halt_behind};

use crate::acting::arrays::narrowed_value;
use crate::acting::awaited::{awaited_text, is_awaited, may_throw};
use crate::acting::given::given_value;
use crate::frames::{pop_frame, push_frame};
use crate::laws::a_state_goes_on;
use crate::performing::resume;
use crate::returning::frame_below;
use crate::unwinding::throw;
use class_model::NoMemory;
use class_tree::{THROWABLE, Tree};
use machine_code::{Prepared, PreparedMethod};
use machine_heap::Heap;
use machine_step::{Acted, Outcome, WorldState, is_instance};
use machine_values::{Given, MethodFrame, Ref, RunFrame, RunFrameList, Value};
use member_link::RunOp;
use std::alloc::Global;

// What goes to the operation that waits: a value or none.
#[derive(Drop)]
pub(crate) struct Answer {
    value: Option<Value>,
}

// ---- values

/// Lets the method below the library's frame go on with a value or none, if its operation waits for this.
///
/// # Errors
///
/// `NoMemory` where memory runs out.
pub(crate) fn return_to(
    alloc: Global,
    prepared: &mut Prepared<'_>,
    w: &mut WorldState,
    value: Option<Given>,
) -> Result<Acted, NoMemory>
    requires places { CanGoOn w.old.frames }
    ensures same { prepared.new ≡ prepared.old }
    ensures acted { IfOk result (λ acted. (P : Program) → IsProgram prepared.old P
        → ended (halt_behind acted) w.new ≡ act_return P w.old (waiting_in P w.old.frames) value) }
    ensures fault { IfOk result (λ acted. acted ≡ Acted.Fault → w.new ≡ w.old) }
{
    a_state_goes_on(w);
    match find_answer(alloc, prepared, w, value)? {
        Some(answer) => {
            go_on(&mut w.frames, answer.value)?;
            Ok(Acted::Done)
        }
        None => Ok(Acted::Fault),
    }
}

// What goes to the operation that waits, if the library may give it.
fn find_answer(
    alloc: Global,
    prepared: &mut Prepared<'_>,
    w: &WorldState,
    value: Option<Given>,
) -> Result<Option<Answer>, NoMemory>
    ensures same { prepared.new ≡ prepared.old }
    ensures answer { IfOk result (λ answer. (P : Program) → IsProgram prepared.old P
        → act_return P w.now (waiting_in P w.now.frames) value ≡ with_answer w.now answer) }
    ensures waits { IfOk result
        (λ answer. CanGoOn w.now.frames → IfSome answer (λ a. HasWaiting w.now.frames)) }
{
    let Some(frame) = waiting_frame(&w.frames) else {
        return Ok(None);
    };
    let at = frame.at;
    let Some(method) = prepared.take(alloc, at)? else {
        return Ok(None);
    };
    let answer = answer_at(prepared.tree(), w, &method, frame.place, value);
    prepared.put(at, method);
    Ok(answer)
}

// What goes to the operation at a place of a method.
fn answer_at(
    tree: &Tree,
    w: &WorldState,
    method: &PreparedMethod,
    place: u32,
    value: Option<Given>,
) -> Option<Answer>
    ensures { (P : Program) (at : Numbers) → IsProgram tree.now P → IsPrepared P at method.now
        → result ≡ answer_for P w.now (awaited_at P at place) value }
{
    match method.ops.get(place as usize) {
        Some(op) => answer_of(tree, w, op, value),
        None => None,
    }
}

// What goes to an operation.
fn answer_of(tree: &Tree, w: &WorldState, op: &RunOp, value: Option<Given>) -> Option<Answer>
    ensures { (P : Program) → IsProgram tree.now P
        → result ≡ answer_for P w.now (pending_of (op_of op.now)) value }
{
    if !is_awaited(op) {
        return None;
    }
    match value {
        Some(value) => match awaited_text(op) {
            Some(text) => value_for(tree, w, text, value),
            None => None,
        },
        None => match awaited_text(op) {
            Some(_) => None,
            None => Some(Answer { value: None }),
        },
    }
}

// A value that goes to where one of a type is awaited.
fn value_for(tree: &Tree, w: &WorldState, text: &[u8], value: Given) -> Option<Answer>
    ensures { (P : Program) → IsProgram tree.now P
        → result
        ≡ value_for P w.now.memory.heap (Some (type_of text.now))
        (value_given w.now.known value) }
{
    let value = given_value(&w.known, value)?;
    let value = narrowed_value(tree, w.memory.heap(), text, &value)?;
    Some(Answer { value: Some(value) })
}

// The method's frame below the library's.
fn waiting_frame(frames: &RunFrameList) -> Option<&MethodFrame>
    ensures { option_copied result ≡ waiting_frame frames.now }
{
    match frames.frames.last() {
        Some(RunFrame::Library { .. }) => method_of(frame_below(frames)),
        Some(RunFrame::Method(_) | RunFrame::Beginning(_)) | None => None,
    }
}

// The frame of a method, if it is one.
fn method_of(frame: Option<&RunFrame>) -> Option<&MethodFrame>
    ensures { option_copied result ≡ method_of (option_copied frame.entry) }
{
    match frame {
        Some(RunFrame::Method(frame)) => Some(frame),
        Some(RunFrame::Library { .. } | RunFrame::Beginning(_)) | None => None,
    }
}

// The library's frame ends, and the method below goes on.
fn go_on(frames: &mut RunFrameList, value: Option<Value>) -> Result<(), NoMemory>
    requires { HasWaiting frames.old }
    ensures { OnOk result (frames.new ≡ goes_on frames.old (values_of value)) }
{
    pop_frame(frames);
    resume(frames, 0, value)
}

// ---- throwables

/// Throws a throwable that the library knows at the operation that waits, if the library may.
///
/// # Errors
///
/// `NoMemory` where memory runs out.
pub(crate) fn throw_to(
    alloc: Global,
    prepared: &mut Prepared<'_>,
    w: &mut WorldState,
    number: u64,
) -> Result<Acted, NoMemory>
    ensures same { prepared.new ≡ prepared.old }
    ensures acted { IfOk result (λ acted. (P : Program) → IsProgram prepared.old P
        → ended (halt_behind acted) w.new
        ≡ act_throw P w.old (waiting_in P w.old.frames) (slice_get w.old.known number)) }
    ensures fault { IfOk result (λ acted. acted ≡ Acted.Fault → w.new ≡ w.old) }
{
    match find_thrown(alloc, prepared, w, number)? {
        Some(at) => throw_below(alloc, prepared, w, at),
        None => Ok(Acted::Fault),
    }
}

// The throwable of a number, if the library may throw it.
fn find_thrown(
    alloc: Global,
    prepared: &mut Prepared<'_>,
    w: &WorldState,
    number: u64,
) -> Result<Option<Ref>, NoMemory>
    ensures same { prepared.new ≡ prepared.old }
    ensures thrown { IfOk result (λ at. (P : Program) → IsProgram prepared.old P
        → act_throw P w.now (waiting_in P w.now.frames) (slice_get w.now.known number)
        ≡ thrown_below P w.now at) }
{
    let Some(at) = w.known.get(number) else {
        return Ok(None);
    };
    let throwable = is_throwable(prepared.tree(), w.memory.heap(), at);
    if throwable && may_throw_below(alloc, prepared, &w.frames)? {
        Ok(Some(at))
    } else {
        Ok(None)
    }
}

// Whether the library may throw in place of an answer to the method below its frame.
fn may_throw_below(
    alloc: Global,
    prepared: &mut Prepared<'_>,
    frames: &RunFrameList,
) -> Result<bool, NoMemory>
    ensures same { prepared.new ≡ prepared.old }
    ensures may { IfOk result (λ may. (P : Program) → IsProgram prepared.old P
        → may ≡ may_throw (awaited_below P frames.now)) }
{
    let Some(frame) = waiting_frame(frames) else {
        return Ok(false);
    };
    let at = frame.at;
    let Some(method) = prepared.take(alloc, at)? else {
        return Ok(false);
    };
    let may = may_throw_at(&method, frame.place);
    prepared.put(at, method);
    Ok(may)
}

// Whether it may throw at a place of a method.
fn may_throw_at(method: &PreparedMethod, place: u32) -> bool
    ensures { (P : Program) (at : Numbers) → IsPrepared P at method.now
        → result ≡ may_throw (awaited_at P at place) }
{
    match method.ops.get(place as usize) {
        Some(op) => may_throw(op),
        None => false,
    }
}

// Whether an object is a throwable.
fn is_throwable(tree: &Tree, heap: &Heap, at: Ref) -> bool
    ensures { (P : Program) (w : State) → IsProgram tree.now P → w.memory.heap ≡ heap.now
        → result ≡ is_throwable P w at }
{
    match heap.object(at) {
        Some(object) => is_instance(tree, &object.shape, THROWABLE),
        None => false,
    }
}

// Throws an object with the library's frame taken off. Where it lands nowhere all stays as it was.
fn throw_below(
    alloc: Global,
    prepared: &mut Prepared<'_>,
    w: &mut WorldState,
    at: Ref,
) -> Result<Acted, NoMemory>
    ensures same { prepared.new ≡ prepared.old }
    ensures acted { IfOk result (λ acted. (P : Program) → IsProgram prepared.old P
        → ended (halt_behind acted) w.new ≡ thrown P w.old at (drop 1 w.old.frames)) }
    ensures done { IfOk result (λ acted. acted ≡ Acted.Fault → ⊥) }
{
    let library = pop_frame(&mut w.frames);
    let thrown = throw(alloc, prepared, w, at);
    match thrown {
        Ok(Outcome::Stuck) => put_back(&mut w.frames, library)?,
        // let go by a call, so that its drop is proved once
        _ => drop(library),
    }
    match thrown? {
        Outcome::Running => Ok(Acted::Done),
        Outcome::InitThrew => Ok(Acted::InitThrew),
        Outcome::Stuck => Ok(Acted::Stuck),
        Outcome::LibraryTurn | Outcome::ArrayTooLong => unreachable!(),
    }
}

// Puts a frame that was taken off back, if there was one.
fn put_back(frames: &mut RunFrameList, frame: Option<RunFrame>) -> Result<(), NoMemory>
    ensures { OnOk result (frames.new ≡ put_back frame frames.old) }
{
    match frame {
        Some(frame) => push_frame(frames, frame),
        None => Ok(()),
    }
}
