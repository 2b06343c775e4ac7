//! Bounds of what a run counts.
ghost use Rattle.std.specs.Prelude.{◌≤◌, ℕ, List};
ghost use Rattle.class_tree.specs.Headers.{Classes};
ghost use Rattle.machine_values.specs.declared.action.Action.{Action};
ghost use Rattle.member_link.specs.Machine.Acting.{act};
ghost use Rattle.member_link.specs.Machine.Bounds.{HasBoundedCounts, NextHasFewDimensions, MakesFewArrays};
ghost use Rattle.member_link.specs.Machine.Classes.{program_of};
ghost use Rattle.member_link.specs.Machine.Programs.{Program, Links};
ghost use Rattle.member_link.specs.Machine.Runs.{Run, begins_with, turn, turns};
ghost use Rattle.member_link.specs.Machine.Stepping.{step};
ghost use Rattle.member_link.specs.Machine.Worlds.{World};
ghost use Rattle.machine_laws.specs.CodesOfBytes.{HaveCodesOfBytes};

/// A step keeps the counts within the bounds of the steps: it enters one monitor at most, and allocates 2^28 objects at most.
pub fn a_step_keeps_counts_within_bounds()
    ensures { (P : Program) (w : World) → NextHasFewDimensions P w.frames
        → HasBoundedCounts w → HasBoundedCounts (step P w) }
{}

/// So does an action of the library.
pub fn an_action_keeps_counts_within_bounds()
    ensures { (P : Program) (action : Action) (w : World)
        → HasBoundedCounts w → HasBoundedCounts (act P action w) }
{}

/// So does a turn.
pub fn a_turn_keeps_counts_within_bounds()
    ensures { (P : Program) → MakesFewArrays P → (r : Run)
        → HasBoundedCounts r.world → HasBoundedCounts (turn P r).world }
{}

/// At each moment of a run the counts are within the bounds of its steps.
pub fn counts_of_a_run_are_within_bounds()
    ensures { (P : Program) → MakesFewArrays P → (actions : List Action) (count : ℕ)
        → HasBoundedCounts (turns P count (begins_with actions)).world }
{}

/// A run takes no more steps than turns.
pub fn a_run_takes_no_more_steps_than_turns()
    ensures { (P : Program) (actions : List Action) (count : ℕ)
        → (turns P count (begins_with actions)).world.steps ≤ count }
{}

/// No instruction of a class file makes arrays of more than 255 dimensions.
pub fn class_files_make_few_arrays()
    ensures { (classes : Classes) (links : Links)
        → HaveCodesOfBytes classes → MakesFewArrays (program_of classes links) }
{}
