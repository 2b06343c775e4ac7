//! One step of a run (JVM Specification SE 8, 2.6, 2.11 and 5.5).
ghost use Rattle.std.specs.Prelude.{◌≡◌, ◌∷◌, ◌↔◌, ◌<◌, ◌≤◌, ◌+◌, ◌-◌, ◌^◌, List, length, true, false, IfOk, OnOk, OnErr};
ghost use Rattle.class_model.specs.declared.class_file.MethodAt.{MethodAt as Numbers};
ghost use Rattle.machine_values.specs.Frames.{MethodState};
ghost use Rattle.machine_values.specs.declared.frame.RunFrame.{RunFrame as Frame};
ghost use Rattle.machine_values.specs.declared.frame.RunFrame.TheVariants.{Method};
ghost use Rattle.member_link.specs.Machine.Programs.{Program, point_at};
ghost use Rattle.member_link.specs.Machine.Stepping.{frames_step, is_library_turn, op_step, point_step, step, work_step};
ghost use Rattle.member_link.specs.Machine.Worlds as Worlds;
ghost use Rattle.member_link.specs.Machine.Worlds.{World as Before};
ghost use Rattle.machine_step.specs.Bounded.{CanGoOn, IsBoundedWorld};
ghost use Rattle.machine_code.specs.Prepared.{IsPrepared};
ghost use Rattle.member_link.specs.TreePrograms.{IsProgram};
ghost use Rattle.machine_step.specs.Room.{HasRoom};
ghost use Rattle.member_link.specs.RunOps.{IsResolved, op_of};
ghost use Rattle.machine_run.specs.Inner.Performed.{CanFinish, CanFinishFrame, CanPerform, HasBoundedNext, HasNoPoint, IsFrameOf, IsKept, operated_world, performed, top_of, world_operated};
ghost use Rattle.machine_run.specs.Inner.StepWords.{AreRunning, HasOperated, IsRunning, Leads, Runs, behind};
ghost use Rattle.machine_run.specs.Outcomes.{Steps, ended, halt_of};

use crate::beginnings::step_beginning;
use crate::laws::{
    a_state_goes_on, a_step_keeps_next_places, a_tree_has_a_program, a_world_goes_on,
    an_operation_has_few_dimensions, begun_classes_are_not_begun,
};
use crate::moves::{Moved, move_frame};
use crate::performing::{perform, resume_frame};
use crate::returning::return_value;
use class_model::{MethodAt, NoMemory};
use class_tree::Tree;
use machine_code::{Prepared, PreparedMethod, operands};
use machine_laws::a_step_keeps_counts_within_bounds;
use machine_step::{Completed, Memory, Outcome, World, WorldState, arity, work};
use machine_values::{MethodFrame, RunFrame, RunFrameList, Value};
use member_link::RunOp;
use std::alloc::Global;

// What an operation of the top frame has done, or leaves to do.
#[derive(Drop)]
pub(crate) enum Operated {
    // It is done.
    Went,
    Stuck,
    // The method ends with a value or none.
    Returns(Option<Value>),
    // It comes to this, with so many operands, which still stand on the stack. It is boxed, since most operations are done at once.
    Works(Box<Completed>, usize),
}

/// One step of a run of a tree's folder, in a world that is not spent: an instruction of the top frame, or one step of the beginning of a
/// class. At the library's turn nothing is done.
///
/// # Errors
///
/// `NoMemory` where memory runs out; the world is then spent.
pub fn step(alloc: Global, tree: &Tree, world: &mut World) -> Result<Outcome, NoMemory>
    requires few { world.old.world.steps < 2 ^ 64 - 1 }
    requires unspent { world.old.spent ≡ false }
    ensures stepped { IfOk result (λ outcome. (P : Program) → IsProgram tree.now P
        → ended (halt_of outcome) world.new.world ≡ step P world.old.world) }
    ensures turn { IfOk result (λ outcome.
        (outcome ≡ Outcome.LibraryTurn) ↔ (is_library_turn world.old.world.frames ≡ true)) }
    ensures unspent { OnOk result (world.new.spent ≡ false) }
    ensures spent { OnErr result (world.new.spent ≡ true) }
{
    a_world_goes_on(world);
    if is_library_turn(&world.state.frames) {
        return Ok(Outcome::LibraryTurn);
    }
    let mut prepared = Prepared::new(alloc, tree);
    match steps_with(alloc, &mut prepared, world, 1) {
        Ok(stepped) => Ok(stepped.outcome),
        Err(NoMemory) => Err(NoMemory),
    }
}

// What steps that follow each other come to.
#[derive(Clone, Copy, PartialEq, Eq)]
pub(crate) struct Stepped {
    // how many there were
    pub(crate) count: u64,
    // what the last one comes to
    pub(crate) outcome: Outcome,
}

/// Makes one step or more, so many at most, with the methods that are prepared so far, in a world that is not spent: operations of the top
/// frame, up to one that calls, returns, throws, begins a class or asks the library.
///
/// # Errors
///
/// `NoMemory` where memory runs out; the world is then spent.
pub(crate) fn steps_with(
    alloc: Global,
    prepared: &mut Prepared<'_>,
    world: &mut World,
    left: u64,
) -> Result<Stepped, NoMemory>
    requires some { 0 < left }
    requires few { world.old.world.steps + left ≤ 2 ^ 64 - 1 }
    requires turn { is_library_turn world.old.world.frames ≡ false }
    requires unspent { world.old.spent ≡ false }
    ensures same { prepared.new ≡ prepared.old }
    ensures stepped { IfOk result (λ stepped. (P : Program) → IsProgram prepared.old P
        → Leads P stepped.count world.old.world (ended (halt_of stepped.outcome) world.new.world)) }
    ensures some { IfOk result (λ stepped. 0 < stepped.count) }
    ensures few { IfOk result (λ stepped. stepped.count ≤ left) }
    ensures runs { IfOk result (λ stepped. Steps stepped.outcome) }
    ensures unspent { OnOk result (world.new.spent ≡ false) }
    ensures spent { OnErr result (world.new.spent ≡ true) }
{
    match step_state(alloc, prepared, &mut world.state, left) {
        Ok(stepped) => Ok(stepped),
        Err(NoMemory) => {
            spend(alloc, &mut world.state);
            world.spent = true;
            Err(NoMemory)
        }
    }
}

/// Clears the state of a world that is spent: memory may have run out in the middle of a step.
pub(crate) fn spend(alloc: Global, w: &mut WorldState)
    ensures { IsBoundedWorld w.new }
{
    w.frames = RunFrameList {
        frames: Vec::new(alloc),
    };
    w.memory.clear(alloc);
}

/// Whether the library's frame is on top.
pub(crate) fn is_library_turn(frames: &RunFrameList) -> bool
    ensures { result ≡ is_library_turn frames.now }
{
    matches!(frames.frames.last(), Some(RunFrame::Library { .. }))
}

// Makes one step or more, none of which is the library's.
fn step_state(
    alloc: Global,
    prepared: &mut Prepared<'_>,
    w: &mut WorldState,
    left: u64,
) -> Result<Stepped, NoMemory>
    requires some { 0 < left }
    requires few { w.old.steps + left ≤ 2 ^ 64 - 1 }
    requires bounded { IsBoundedWorld w.old }
    requires turn { is_library_turn w.old.frames ≡ false }
    ensures same { prepared.new ≡ prepared.old }
    ensures stepped { IfOk result (λ stepped. (P : Program) → IsProgram prepared.old P
        → Leads P stepped.count w.old (ended (halt_of stepped.outcome) w.new)) }
    ensures bounded { OnOk result (IsBoundedWorld w.new) }
    ensures some { IfOk result (λ stepped. 0 < stepped.count) }
    ensures few { IfOk result (λ stepped. stepped.count ≤ left) }
    ensures runs { IfOk result (λ stepped. Steps stepped.outcome) }
{
    a_tree_has_a_program(prepared.tree());
    match top_of(&w.frames) {
        Top::Method(at) => step_method(alloc, prepared, w, at, left),
        Top::Beginning => step_once(alloc, prepared, w),
        Top::Nothing => step_once(alloc, prepared, w),
        Top::Library => step_once(alloc, prepared, w),
    }
}

// What is on top of the frames.
#[derive(Clone, Copy, PartialEq, Eq)]
pub(crate) enum Top {
    Nothing,
    Library,
    Beginning,
    Method(MethodAt),
}

// What is on top of the frames.
fn top_of(frames: &RunFrameList) -> Top
    ensures { result ≡ top_of frames.now }
{
    match frames.frames.last() {
        Some(RunFrame::Library { .. }) => Top::Library,
        Some(RunFrame::Beginning(_)) => Top::Beginning,
        Some(RunFrame::Method(frame)) => Top::Method(frame.at),
        None => Top::Nothing,
    }
}

// One step where no method with code is on top.
fn step_once(
    alloc: Global,
    prepared: &mut Prepared<'_>,
    w: &mut WorldState,
) -> Result<Stepped, NoMemory>
    requires few { w.old.steps < 2 ^ 64 - 1 }
    requires bounded { IsBoundedWorld w.old }
    requires turn { is_library_turn w.old.frames ≡ false }
    requires no_code { (P : Program) → IsProgram prepared.old P → HasNoPoint P w.old.frames }
    ensures same { prepared.new ≡ prepared.old }
    ensures stepped { IfOk result (λ stepped. (P : Program) → IsProgram prepared.old P
        → Leads P stepped.count w.old (ended (halt_of stepped.outcome) w.new)) }
    ensures one { IfOk result (λ stepped. stepped.count ≡ 1) }
    ensures runs { IfOk result (λ stepped. Steps stepped.outcome) }
{
    a_state_goes_on(w);
    a_step_keeps_counts_within_bounds();
    a_step_keeps_next_places();
    w.steps += 1;
    let outcome = step_top(alloc, prepared, w)?;
    Ok(Stepped { count: 1, outcome })
}

// One step of the top frame, which is counted already: there is an operation only in a beginning.
fn step_top(
    alloc: Global,
    prepared: &mut Prepared<'_>,
    w: &mut WorldState,
) -> Result<Outcome, NoMemory>
    requires { (P : Program) → IsProgram prepared.old P → HasNoPoint P w.old.frames }
    ensures same { prepared.new ≡ prepared.old }
    ensures stepped { IfOk result (λ outcome. (P : Program) → IsProgram prepared.old P
        → is_library_turn w.old.frames ≡ false
        → ended (halt_of outcome) w.new ≡ frames_step P w.old w.old.frames) }
    ensures runs { IfOk result Steps }
{
    match top_of(&w.frames) {
        Top::Beginning => step_beginning(alloc, prepared, w),
        Top::Method(_) => Ok(Outcome::Stuck),
        Top::Nothing => Ok(Outcome::Stuck),
        Top::Library => Ok(Outcome::Stuck),
    }
}

// Makes one step or more of a method, whose frame is on top.
fn step_method(
    alloc: Global,
    prepared: &mut Prepared<'_>,
    w: &mut WorldState,
    at: MethodAt,
    left: u64,
) -> Result<Stepped, NoMemory>
    requires some { 0 < left }
    requires few { w.old.steps + left ≤ 2 ^ 64 - 1 }
    requires bounded { IsBoundedWorld w.old }
    requires top { IsFrameOf at w.old.frames }
    ensures same { prepared.new ≡ prepared.old }
    ensures stepped { IfOk result (λ stepped. (P : Program) → IsProgram prepared.old P
        → Leads P stepped.count w.old (ended (halt_of stepped.outcome) w.new)) }
    ensures some { IfOk result (λ stepped. 0 < stepped.count) }
    ensures few { IfOk result (λ stepped. stepped.count ≤ left) }
    ensures runs { IfOk result (λ stepped. Steps stepped.outcome) }
{
    match prepared.take(alloc, at)? {
        Some(method) => step_prepared(alloc, prepared, w, at, method, left),
        None => step_once(alloc, prepared, w),
    }
}

// Makes one step or more of a method whose code is prepared, and whose frame is on top.
fn step_prepared(
    alloc: Global,
    prepared: &mut Prepared<'_>,
    w: &mut WorldState,
    at: MethodAt,
    method: Box<PreparedMethod>,
    left: u64,
) -> Result<Stepped, NoMemory>
    requires some { 0 < left }
    requires few { w.old.steps + left ≤ 2 ^ 64 - 1 }
    requires bounded { IsBoundedWorld w.old }
    requires top { IsFrameOf at w.old.frames }
    requires prepared { (P : Program) → IsProgram prepared.old P → IsPrepared P at method.value }
    ensures same { prepared.new ≡ prepared.old }
    ensures stepped { IfOk result (λ stepped. (P : Program) → IsProgram prepared.old P
        → Leads P stepped.count w.old (ended (halt_of stepped.outcome) w.new)) }
    ensures some { IfOk result (λ stepped. 0 < stepped.count) }
    ensures few { IfOk result (λ stepped. stepped.count ≤ left) }
    ensures runs { IfOk result (λ stepped. Steps stepped.outcome) }
{
    a_state_goes_on(w);
    let mut method = method;
    let done = operate(
        alloc,
        prepared.tree(),
        &mut w.frames,
        &mut w.memory,
        &mut method,
        left,
    )?;
    prepared.put(at, method);
    w.steps += done.count;
    let outcome = finish(alloc, prepared, w, done.last)?;
    Ok(Stepped {
        count: done.count,
        outcome,
    })
}

// Does what an operation leaves to do.
fn finish(
    alloc: Global,
    prepared: &mut Prepared<'_>,
    w: &mut WorldState,
    operated: Operated,
) -> Result<Outcome, NoMemory>
    requires { CanFinish w.old.memory w.old.frames operated }
    ensures same { prepared.new ≡ prepared.old }
    ensures finished { IfOk result (λ outcome. (P : Program) (f : MethodState) (rest : List Frame)
        → IsProgram prepared.old P
        → w.old.frames ≡ Method f ∷ rest
        → ended (halt_of outcome) w.new ≡ world_operated P w.old f rest operated) }
    ensures runs { IfOk result Steps }
{
    a_state_goes_on(w);
    match operated {
        Operated::Went => Ok(Outcome::Running),
        Operated::Stuck => Ok(Outcome::Stuck),
        Operated::Returns(value) => return_value(alloc, prepared.tree(), w, value),
        Operated::Works(completed, count) => {
            perform(alloc, prepared, w, Box::into_inner(completed), count)
        }
    }
}

// What operations of one frame that follow each other have done.
#[derive(Drop)]
pub(crate) struct Operations {
    // how many there were
    count: u64,
    // what the last one has done, or leaves to do
    last: Operated,
}

// Does operations of the top frame, so many at most, up to one that leaves something to do.
fn operate(
    alloc: Global,
    tree: &Tree,
    frames: &mut RunFrameList,
    memory: &mut Memory,
    method: &mut PreparedMethod,
    left: u64,
) -> Result<Operations, NoMemory>
    requires running { AreRunning frames.old memory.old left }
    requires prepared { (P : Program) (f : MethodState) (rest : List Frame) → IsProgram tree.now P
        → frames.old ≡ Method f ∷ rest → IsPrepared P f.at method.old }
    ensures prepared { (P : Program) (f : MethodState) (rest : List Frame) → IsProgram tree.now P
        → frames.old ≡ Method f ∷ rest → IsPrepared P f.at method.new }
    ensures operated { IfOk result (λ done. (P : Program) (w : Before) (f : MethodState)
        (rest : List Frame)
        → IsProgram tree.now P
        → frames.old ≡ Method f ∷ rest
        → Runs w rest f memory.old left
        → HasOperated P w rest frames.new memory.new done.count done.last) }
    ensures can { IfOk result (λ done. CanFinish memory.new frames.new done.last) }
    ensures some { IfOk result (λ done. 0 < left → 0 < done.count) }
    ensures few { IfOk result (λ done. done.count ≤ left) }
{
    let top = frames.frames.len() - 1;
    match &mut frames.frames[top] {
        RunFrame::Method(frame) => operate_in(alloc, tree, frame, memory, method, left),
        RunFrame::Library { .. } => Ok(Operations {
            count: 0,
            last: Operated::Stuck,
        }),
        RunFrame::Beginning(_) => Ok(Operations {
            count: 0,
            last: Operated::Stuck,
        }),
    }
}

// Does operations of a frame, so many at most, up to one that leaves something to do.
fn operate_in(
    alloc: Global,
    tree: &Tree,
    frame: &mut MethodFrame,
    memory: &mut Memory,
    method: &mut PreparedMethod,
    left: u64,
) -> Result<Operations, NoMemory>
    requires running { IsRunning frame.old memory.old left }
    requires prepared { (P : Program) → IsProgram tree.now P
        → IsPrepared P frame.old.at method.old }
    ensures prepared { (P : Program) → IsProgram tree.now P
        → IsPrepared P frame.old.at method.new }
    ensures operated { IfOk result (λ done. (P : Program) (w : Before) (rest : List Frame)
        → IsProgram tree.now P
        → Runs w rest frame.old memory.old left
        → Leads P done.count w
        (world_operated P (behind w rest frame.new memory.new done.count) frame.new rest done.last)) }
    ensures can { IfOk result (λ done. CanFinishFrame frame.new memory.new done.last) }
    ensures some { IfOk result (λ done. 0 < left → 0 < done.count) }
    ensures few { IfOk result (λ done. done.count ≤ left) }
{
    a_tree_has_a_program(tree);
    a_step_keeps_counts_within_bounds();
    a_step_keeps_next_places();
    let mut count: u64 = 0;
    while count < left {
        let operated = operate_frame(alloc, tree, frame, memory, method)?;
        count += 1;
        match operated {
            Operated::Went => {}
            last => return Ok(Operations { count, last }),
        }
    }
    Ok(Operations {
        count,
        last: Operated::Went,
    })
}

// Does the operation at the place of a frame.
fn operate_frame(
    alloc: Global,
    tree: &Tree,
    frame: &mut MethodFrame,
    memory: &mut Memory,
    method: &mut PreparedMethod,
) -> Result<Operated, NoMemory>
    requires room { HasRoom memory.old }
    requires few { length method.old.ops.items < 2 ^ 32 - 1 }
    ensures prepared { (P : Program) (at : Numbers) → IsProgram tree.now P
        → IsPrepared P at method.old → IsPrepared P at method.new }
    ensures operated { IfOk result (λ operated. (P : Program) (w : Before) (rest : List Frame)
        → IsProgram tree.now P
        → IsPrepared P frame.old.at method.old
        → w.memory ≡ memory.old
        → operated_world P w frame.old frame.new rest memory.new operated
        ≡ point_step P w frame.old rest (point_at P frame.old.at frame.old.place)) }
    ensures kept { IfOk result
        (λ operated. IsKept frame.old frame.new memory.old memory.new operated) }
    ensures can { IfOk result (λ operated. (P : Program)
        → IsProgram tree.now P
        → IsPrepared P frame.old.at method.old
        → CanFinishFrame frame.old memory.new operated) }
    ensures next { (P : Program) → IsPrepared P frame.old.at method.old
        → HasBoundedNext P frame.old }
{
    let place = frame.place as usize;
    if place >= method.ops.len() {
        return Ok(Operated::Stuck);
    }
    an_operation_has_few_dimensions(&method.ops[place]);
    operate_op(alloc, tree, frame, memory, &mut method.ops[place])
}

// Does an operation that stands in a frame.
fn operate_op(
    alloc: Global,
    tree: &Tree,
    frame: &mut MethodFrame,
    memory: &mut Memory,
    op: &mut RunOp,
) -> Result<Operated, NoMemory>
    requires room { HasRoom memory.old }
    requires next { frame.old.place < 2 ^ 32 - 1 }
    ensures same { op_of op.new ≡ op_of op.old }
    ensures resolved { (P : Program) → IsProgram tree.now P → IsResolved P op.old
        → IsResolved P op.new }
    ensures operated { IfOk result (λ operated. (P : Program) (w : Before) (rest : List Frame)
        → IsProgram tree.now P
        → IsResolved P op.old
        → w.memory ≡ memory.old
        → operated_world P w frame.old frame.new rest memory.new operated
        ≡ op_step P w frame.old rest (op_of op.old)) }
    ensures kept { IfOk result
        (λ operated. IsKept frame.old frame.new memory.old memory.new operated) }
    ensures can { IfOk result (λ operated. (P : Program)
        → IsProgram tree.now P
        → IsResolved P op.old
        → CanFinishFrame frame.old memory.new operated) }
{
    match move_frame(frame, op)? {
        Moved::Went => Ok(Operated::Went),
        Moved::Stuck => Ok(Operated::Stuck),
        Moved::Returns(value) => Ok(Operated::Returns(value)),
        Moved::Works => operate_on_stack(alloc, tree, frame, memory, op),
    }
}

// Does an operation that works on its operands.
fn operate_on_stack(
    alloc: Global,
    tree: &Tree,
    frame: &mut MethodFrame,
    memory: &mut Memory,
    op: &mut RunOp,
) -> Result<Operated, NoMemory>
    requires room { HasRoom memory.old }
    requires next { frame.old.place < 2 ^ 32 - 1 }
    ensures same { op_of op.new ≡ op_of op.old }
    ensures resolved { (P : Program) → IsProgram tree.now P → IsResolved P op.old
        → IsResolved P op.new }
    ensures operated { IfOk result (λ operated. (P : Program) (w : Before) (rest : List Frame)
        → IsProgram tree.now P
        → IsResolved P op.old
        → w.memory ≡ memory.old
        → operated_world P w frame.old frame.new rest memory.new operated
        ≡ work_step P w frame.old rest (op_of op.old)) }
    ensures kept { IfOk result
        (λ operated. IsKept frame.old frame.new memory.old memory.new operated) }
    ensures can { IfOk result (λ operated. (P : Program)
        → IsProgram tree.now P
        → IsResolved P op.old
        → CanFinishFrame frame.old memory.new operated) }
{
    begun_classes_are_not_begun();
    let count = arity(op);
    match operands(&frame.stack, count) {
        Some(values) => {
            let completed = work(alloc, tree, memory, op, values)?;
            complete(alloc, frame, completed, count)
        }
        None => Ok(Operated::Stuck),
    }
}

// Pushes what an operation with so many operands gives, and leaves to do what else it comes to.
fn complete(
    alloc: Global,
    frame: &mut MethodFrame,
    completed: Completed,
    count: usize,
) -> Result<Operated, NoMemory>
    requires { frame.old.place < 2 ^ 32 - 1 }
    ensures completed { IfOk result (λ operated. (P : Program) (w : Before) (rest : List Frame)
        (memory : Worlds.Memory)
        → operated_world P w frame.old frame.new rest memory operated
        ≡ performed P (record w { memory = memory }) frame.old rest count completed) }
    ensures kept { IfOk result (λ operated. (old new : Worlds.Memory)
        → IsKept frame.old frame.new old new operated) }
    ensures can { IfOk result (λ operated. (memory : Worlds.Memory)
        → CanPerform memory completed
        → count ≤ length frame.old.stack
        → CanFinishFrame frame.old memory operated) }
{
    match completed {
        Completed::Gives(value) => {
            resume_frame(frame, count, value)?;
            Ok(Operated::Went)
        }
        left => Ok(Operated::Works(Box::new(alloc, left)?, count)),
    }
}
