//! Laws of the definitions that calls of this crate lean on.
ghost use Rattle.std.specs.Prelude.{◌≡◌, ℕ, List, true, false};
ghost use Rattle.machine_values.specs.declared.action.Action.{Action};
ghost use Rattle.machine_values.specs.declared.value.Value.{Value};
ghost use Rattle.member_link.specs.Machine.Acting.{act};
ghost use Rattle.member_link.specs.Machine.Bounds.{HasFewDimensions};
ghost use Rattle.member_link.specs.Machine.Completions.{begins};
ghost use Rattle.member_link.specs.Machine.Ops.{Op};
ghost use Rattle.member_link.specs.Machine.Programs.{Program};
ghost use Rattle.member_link.specs.Machine.Stepping.{is_library_turn, step};
ghost use Rattle.member_link.specs.Machine.Work.{work};
ghost use Rattle.member_link.specs.Machine.Worlds.{Memory, World, going, is_begun};
ghost use Rattle.machine_step.specs.Bounded.{CanGoOn};
ghost use Rattle.member_link.specs.TreePrograms.{IsProgram};
ghost use Rattle.member_link.specs.RunOps.{IsResolved, op_of};
ghost use Rattle.machine_run.specs.Inner.Performed.{TopHasNext};

use class_tree::Tree;
use machine_step::{World as RunWorld, WorldState, arity};
use member_link::{RunOp, a_tree_has_links};

/// The classes of a tree have a program.
pub fn a_tree_has_a_program(tree: &Tree)
    ensures { (P : Program) × IsProgram tree.now P }
{
    a_tree_has_links(tree);
}

/// The state of a run goes on: how a run ends is told beside it.
pub(crate) fn a_state_goes_on(w: &WorldState)
    ensures { w.now.halt ≡ going }
{
    // its model says so
    let _ = &w.steps;
}

/// So does the state of a world that may be spent.
pub(crate) fn a_world_goes_on(world: &RunWorld)
    ensures { world.now.world.halt ≡ going }
{
    a_state_goes_on(&world.state);
}

/// A class that an operation begins is not begun.
pub(crate) fn begun_classes_are_not_begun()
    ensures { (P : Program) (memory : Memory) (op : Op) (operands : List Value) (class : ℕ)
        → work P memory op operands ≡ begins class → is_begun memory class ≡ false }
{}

/// An operation makes arrays of at most 255 dimensions.
pub(crate) fn an_operation_has_few_dimensions(op: &RunOp)
    ensures { (P : Program) → IsResolved P op.now → HasFewDimensions (op_of op.now) }
{
    // it takes as many operands
    let _ = arity(op);
}

/// Behind a step there is a place behind the one of each frame below the top one, if there is one behind the place of the operation.
pub(crate) fn a_step_keeps_next_places()
    ensures { (P : Program) (w : World) → TopHasNext P w.frames → CanGoOn w.frames
        → CanGoOn (step P w).frames }
{}

/// So it is behind an action of the library.
pub(crate) fn an_action_keeps_next_places()
    ensures { (P : Program) (action : Action) (w : World)
        → is_library_turn w.frames ≡ true → CanGoOn w.frames
        → CanGoOn (act P action w).frames }
{}
