//! Steps of a run, and actions of its library, that keep a typed world typed.
ghost use Rattle.std.specs.Prelude.{◌≡◌, ◌≢◌, ◌↔◌, ◌<◌, ◌-◌, ◌^◌, true, false, length, IfOk, OnOk, OnErr};
ghost use Rattle.machine_run.specs.Outcomes.{ended, halt_behind, halt_of};
ghost use Rattle.member_link.specs.TreePrograms.{IsProgram};
ghost use Rattle.member_link.specs.Linked.{IsLinked};
ghost use Rattle.member_link.specs.Machine.Acting.{act};
ghost use Rattle.member_link.specs.Machine.Programs.{Program};
ghost use Rattle.member_link.specs.Machine.Stepping.{is_library_turn, step};
ghost use Rattle.member_link.specs.Machine.Worlds.{going};
ghost use Rattle.never_stuck.specs.FolderTypings.{StaysTypedBy};
ghost use Rattle.type_rules.specs.Verified.{TypesFolder};
ghost use Rattle.typed_runs.specs.TypedPrograms.{Typings};
ghost use Rattle.typed_runs.specs.TypedWorlds.{TypedWorld};

use class_model::NoMemory;
use class_tree::Tree;
use machine_run::{act, step};
use machine_step::{Acted, Outcome, World, WorldState};
use machine_values::Action;
use std::alloc::Global;
use type_rules::TypedFolder;
use typed_programs::a_verified_folder_is_a_typed_program;
use typed_runs::{a_step_stays_typed, an_action_stays_typed};

/// One step of a run of a tree's folder, as `machine_run::step` makes it, in a world that is not spent. A typed world stays typed, by whatever
/// typing of the program, and from one the outcome is not `Stuck`. Where the frames `typed` type the folder and it has a class, they are those
/// of such a typing.
///
/// # Errors
///
/// `NoMemory` where memory runs out; the world is then spent.
pub fn stays_typed(
    alloc: Global,
    tree: &Tree,
    _typed: &TypedFolder,
    world: &mut World,
) -> Result<Outcome, NoMemory>
    requires few { world.old.world.steps < 2 ^ 64 - 1 }
    requires unspent { world.old.spent ≡ false }
    ensures stepped { IfOk result (λ outcome. (P : Program) → IsProgram tree.now P
        → ended (halt_of outcome) world.new.world ≡ step P world.old.world) }
    ensures turn { IfOk result (λ outcome.
        (outcome ≡ Outcome.LibraryTurn) ↔ (is_library_turn world.old.world.frames ≡ true)) }
    ensures unspent { OnOk result (world.new.spent ≡ false) }
    ensures spent { OnErr result (world.new.spent ≡ true) }
    ensures typed { OnOk result ((P : Program) (T : Typings) → IsProgram tree.now P
        → TypedWorld P T world.old.world
        → TypedWorld P T world.new.world) }
    ensures not_stuck { IfOk result (λ outcome. (P : Program) (T : Typings) → IsProgram tree.now P
        → TypedWorld P T world.old.world
        → outcome ≢ Outcome.Stuck) }
    ensures by_frames { OnOk result ((P : Program) → IsProgram tree.now P
        → IsLinked tree.now
        → TypesFolder tree.now _typed.now
        → 0 < length tree.now.folder
        → StaysTypedBy P _typed.now world.old.world world.new.world) }
{
    a_world_goes_on(world);
    a_step_stays_typed();
    a_verified_folder_is_a_typed_program();
    // its classes are a hierarchy
    let _ = tree.folder();
    step(alloc, tree, world)
}

/// Takes an action of the library, whose frame is on top, as `machine_run::act` does, in a world that is not spent. A typed world stays typed,
/// by whatever typing of the program, and from one the answer is not `Stuck`. Where the frames `typed` type the folder and it has a class, they
/// are those of such a typing.
///
/// # Errors
///
/// `NoMemory` where memory runs out; the world is then spent.
pub fn acts_typed(
    alloc: Global,
    tree: &Tree,
    _typed: &TypedFolder,
    world: &mut World,
    action: &Action,
) -> Result<Acted, NoMemory>
    requires few { world.old.world.steps < 2 ^ 64 - 1 }
    requires turn { is_library_turn world.old.world.frames ≡ true }
    requires unspent { world.old.spent ≡ false }
    ensures acted { IfOk result (λ acted. (P : Program) → IsProgram tree.now P
        → ended (halt_behind acted) world.new.world ≡ act P action.now world.old.world) }
    ensures unspent { OnOk result (world.new.spent ≡ false) }
    ensures spent { OnErr result (world.new.spent ≡ true) }
    ensures typed { OnOk result ((P : Program) (T : Typings) → IsProgram tree.now P
        → TypedWorld P T world.old.world
        → TypedWorld P T world.new.world) }
    ensures not_stuck { IfOk result (λ acted. (P : Program) (T : Typings) → IsProgram tree.now P
        → TypedWorld P T world.old.world
        → acted ≢ Acted.Stuck) }
    ensures by_frames { OnOk result ((P : Program) → IsProgram tree.now P
        → IsLinked tree.now
        → TypesFolder tree.now _typed.now
        → 0 < length tree.now.folder
        → StaysTypedBy P _typed.now world.old.world world.new.world) }
{
    a_world_goes_on(world);
    an_action_stays_typed();
    a_verified_folder_is_a_typed_program();
    // its classes are a hierarchy
    let _ = tree.folder();
    act(alloc, tree, world, action)
}

// The state of a world goes on: how a run ends is told beside it.
fn a_world_goes_on(world: &World)
    ensures { world.now.world.halt ≡ going }
{
    a_state_goes_on(&world.state);
}

// So does the state.
fn a_state_goes_on(w: &WorldState)
    ensures { w.now.halt ≡ going }
{
    // its model says so
    let _ = &w.steps;
}
