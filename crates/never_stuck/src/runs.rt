//! Runs of a folder that verifies.
ghost use Rattle.std.specs.Prelude.{◌≡◌, ◌≢◌, ℕ, List, IfOk};
ghost use Rattle.member_link.specs.TreePrograms.{IsProgram};
ghost use Rattle.machine_values.specs.declared.action.Action.{Action};
ghost use Rattle.machine_values.specs.declared.event.End.TheVariants as ends;
ghost use Rattle.member_link.specs.Linked.{IsLinked};
ghost use Rattle.member_link.specs.Machine.Programs.{Program};
ghost use Rattle.member_link.specs.Machine.Runs.{shown_after};
ghost use Rattle.type_rules.specs.Verified.{IsVerified, TypesFolder};

use crate::no_classes::without_classes_the_library_stays_alone;
use class_model::NoMemory;
use class_tree::Tree;
use machine_run::run;
use machine_values::{ActionList, Shown};
use std::alloc::Global;
use type_rules::TypedFolder;
use typed_programs::a_verified_folder_is_a_typed_program;
use typed_runs::{a_run_starts_typed, a_step_stays_typed, an_action_stays_typed};

/// A run of a folder that verifies is never stuck, whatever the library does, for any number of steps.
pub fn a_verified_run_is_never_stuck(tree: &Tree)
    ensures { (P : Program) (actions : List Action) (count : ℕ)
        → IsProgram tree.now P
        → IsVerified tree.now
        → (shown_after P actions count).end ≢ ends.Stuck }
{
    a_verified_folder_is_a_typed_program();
    without_classes_the_library_stays_alone();
    a_run_starts_typed();
    a_step_stays_typed();
    an_action_stays_typed();
}

/// What a run of a folder shows that verifies, as `machine_run::run` gives it, in at most so many steps. The frames type the folder. Its
/// end is not `Stuck`.
///
/// # Errors
///
/// `NoMemory` where memory runs out.
pub fn run_verified(
    alloc: Global,
    tree: &Tree,
    _typed: &TypedFolder,
    actions: &ActionList,
    steps: u64,
) -> Result<Shown, NoMemory>
    requires linked { IsLinked tree.now }
    requires typed { TypesFolder tree.now _typed.now }
    ensures run { IfOk result (λ shown. (P : Program) → IsProgram tree.now P
        → shown ≡ shown_after P actions.now steps) }
    ensures never_stuck { IfOk result (λ shown. (P : Program) → IsProgram tree.now P
        → shown.end ≢ ends.Stuck) }
{
    a_verified_run_is_never_stuck(tree);
    // its classes are a hierarchy
    let _ = tree.folder();
    run(alloc, tree, actions, steps)
}
