//! A run of a folder with a list of the library's actions.
ghost use Rattle.std.specs.Prelude.{◌≡◌, ◌<◌, ◌≤◌, ◌+◌, ◌-◌, ◌^◌, length, false, true, IfOk, OnOk};
ghost use Rattle.member_link.specs.Machine.Acting.{is_fault};
ghost use Rattle.member_link.specs.Machine.Programs.{Program};
ghost use Rattle.member_link.specs.Machine.Runs.{end_of_going, shown_after};
ghost use Rattle.member_link.specs.Machine.Stepping.{is_library_turn};
ghost use Rattle.member_link.specs.Machine.Worlds.{start};
ghost use Rattle.member_link.specs.TreePrograms.{IsProgram};
ghost use Rattle.machine_step.specs.SpentWorlds.{unspent};
ghost use Rattle.machine_run.specs.Inner.RunWords.{HasRun, IsTurned, end_behind, run_at};
ghost use Rattle.machine_run.specs.Outcomes.{halt_behind, halt_of};

use crate::acting::{act_with, is_fault};
use crate::laws::{a_tree_has_a_program, a_world_goes_on};
use crate::stepping::{is_library_turn, steps_with};
use class_model::NoMemory;
use class_tree::Tree;
use machine_code::Prepared;
use machine_laws::a_run_takes_no_more_steps_than_turns;
use machine_step::{Acted, Outcome, World, WorldState};
use machine_values::{ActionList, End, EventList, Shown};
use std::alloc::Global;

/// What a run of a tree's folder shows: at the library's turn it takes the next action of the list, else it makes a step, so many in
/// all at most. `Running` comes exactly where they are used up, and `Waits` where no action is left at the library's turn.
///
/// # Errors
///
/// `NoMemory` where memory runs out.
pub fn run(alloc: Global, tree: &Tree, actions: &ActionList, steps: u64) -> Result<Shown, NoMemory>
    ensures { IfOk result (λ shown. (P : Program) → IsProgram tree.now P
        → shown ≡ shown_after P actions.now steps) }
{
    let mut world = World::start(alloc, tree)?;
    let mut prepared = Prepared::new(alloc, tree);
    let end = take_turns(alloc, &mut prepared, &mut world, actions, steps);
    // let go by a call, so that its drop is proved once
    drop(prepared);
    match end {
        Ok(end) => Ok(shown_of(world, end)),
        Err(fault) => {
            drop(world);
            Err(fault)
        }
    }
}

// The events of a world, and the run's end.
fn shown_of(world: World, end: End) -> Shown
    ensures events { result.events ≡ world.world.events }
    ensures end { result.end ≡ end }
{
    let World { state, .. } = world;
    let WorldState {
        frames,
        memory,
        known,
        events,
        ..
    } = state;
    drop(frames);
    drop(memory);
    drop(known);
    Shown { events, end }
}

// Takes so many turns, or as many as there are before the run ends or waits, and says how it ends.
fn take_turns(
    alloc: Global,
    prepared: &mut Prepared<'_>,
    world: &mut World,
    actions: &ActionList,
    steps: u64,
) -> Result<End, NoMemory>
    requires { world.old ≡ unspent start }
    ensures { IfOk result (λ end. (P : Program) → IsProgram prepared.old P
        → HasRun P actions.now steps world.new.world end) }
{
    a_tree_has_a_program(prepared.tree());
    a_run_takes_no_more_steps_than_turns();
    let mut used: usize = 0;
    let mut done: u64 = 0;
    while done < steps {
        let turned = take_some(alloc, prepared, world, actions, &mut used, steps - done)?;
        done += turned.count;
        match turned.end {
            Some(end) => return Ok(end),
            None => {}
        }
    }
    a_world_goes_on(world);
    Ok(end_left(world, actions, used))
}

// What turns that follow each other come to.
#[derive(Clone, Copy, PartialEq, Eq)]
pub(crate) struct Turned {
    // how many there were
    count: u64,
    // how the run ends behind them, if it ends or waits
    end: Option<End>,
}

// Takes one turn or more, so many at most, of a run of which so many actions are used.
fn take_some(
    alloc: Global,
    prepared: &mut Prepared<'_>,
    world: &mut World,
    actions: &ActionList,
    used: &mut usize,
    left: u64,
) -> Result<Turned, NoMemory>
    requires some { 0 < left }
    requires few { world.old.world.steps + left ≤ 2 ^ 64 - 1 }
    requires used { used.old ≤ length actions.now }
    requires unspent { world.old.spent ≡ false }
    ensures same { prepared.new ≡ prepared.old }
    ensures turned { IfOk result (λ turned. (P : Program) → IsProgram prepared.old P
        → IsTurned P actions.now turned.count world.old.world used.old world.new.world used.new
        turned.end) }
    ensures used { OnOk result (used.new ≤ length actions.now) }
    ensures unspent { OnOk result (world.new.spent ≡ false) }
    ensures some { IfOk result (λ turned. 0 < turned.count) }
    ensures few { IfOk result (λ turned. turned.count ≤ left) }
{
    if is_library_turn(&world.state.frames) {
        let end = take_next(alloc, prepared, world, actions, used)?;
        return Ok(Turned { count: 1, end });
    }
    let stepped = steps_with(alloc, prepared, world, left)?;
    a_world_goes_on(world);
    Ok(Turned {
        count: stepped.count,
        end: end_of_step(stepped.outcome),
    })
}

// The library's turn: it takes the next action, if there is one.
fn take_next(
    alloc: Global,
    prepared: &mut Prepared<'_>,
    world: &mut World,
    actions: &ActionList,
    used: &mut usize,
) -> Result<Option<End>, NoMemory>
    requires few { world.old.world.steps < 2 ^ 64 - 1 }
    requires turn { is_library_turn world.old.world.frames ≡ true }
    requires used { used.old ≤ length actions.now }
    requires unspent { world.old.spent ≡ false }
    ensures same { prepared.new ≡ prepared.old }
    ensures turned { IfOk result (λ end. (P : Program) → IsProgram prepared.old P
        → IsTurned P actions.now 1 world.old.world used.old world.new.world used.new end) }
    ensures used { OnOk result (used.new ≤ length actions.now) }
    ensures unspent { OnOk result (world.new.spent ≡ false) }
{
    a_world_goes_on(world);
    let items = actions.as_slice();
    if *used >= items.len() {
        return Ok(Some(End::Waits));
    }
    let acted = act_with(alloc, prepared, world, &items[*used])?;
    a_world_goes_on(world);
    if is_fault(acted) {
        return Ok(Some(End::LibraryFault(*used as u64)));
    }
    *used += 1;
    Ok(end_of_action(acted))
}

// How a run ends behind a step that was done, if it ends.
fn end_of_step(outcome: Outcome) -> Option<End>
    ensures { result ≡ end_behind (halt_of outcome) }
{
    match outcome {
        Outcome::Running => None,
        Outcome::LibraryTurn => None,
        Outcome::ArrayTooLong => Some(End::ArrayTooLong),
        Outcome::InitThrew => Some(End::InitThrew),
        Outcome::Stuck => Some(End::Stuck),
    }
}

// How a run ends behind an action that is no fault, if it ends.
fn end_of_action(acted: Acted) -> Option<End>
    ensures { is_fault (halt_behind acted) ≡ false → result ≡ end_behind (halt_behind acted) }
{
    match acted {
        Acted::Done => None,
        Acted::Stopped => Some(End::Stopped),
        Acted::InitThrew => Some(End::InitThrew),
        Acted::Fault => None,
        Acted::Stuck => Some(End::Stuck),
    }
}

// How a run ends that goes on when its steps are used up: it waits where it is the library's turn and no action is left.
fn end_left(world: &World, actions: &ActionList, used: usize) -> End
    requires { used ≤ length actions.now }
    ensures { result ≡ end_of_going (run_at world.now.world actions.now used) }
{
    if !is_library_turn(&world.state.frames) {
        return End::Running;
    }
    if used >= actions.len() {
        End::Waits
    } else {
        End::Running
    }
}
