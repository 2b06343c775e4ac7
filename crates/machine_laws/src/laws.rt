//! Laws of runs.
ghost use Rattle.std.specs.Prelude.{◌≡◌, ◌+◌, ℕ, List};
ghost use Rattle.class_tree.specs.Headers.{Classes, Headers, headers_of};
ghost use Rattle.machine_values.specs.declared.action.Action.{Action};
ghost use Rattle.member_link.specs.Machine.Classes.{program_of};
ghost use Rattle.member_link.specs.Machine.Links.{AreLinksOf};
ghost use Rattle.member_link.specs.Machine.Programs.{Program, Links};
ghost use Rattle.member_link.specs.Machine.Runs.{Run, turn, turns, shown_after};
ghost use Rattle.member_link.specs.Machine.SameRuns.{SameRuns};
ghost use Rattle.member_link.specs.Machine.Replaced.{Replacement, replaced};
ghost use Rattle.machine_laws.specs.Growth.{WorldGrows, IsOver};
ghost use Rattle.machine_laws.specs.Replacing.{ReplacesNothing};

use member_link::{a_look_up_finds_one_field, a_look_up_finds_one_method, a_selection_chooses_one};

/// A turn keeps what was shown and is known, the objects and what they are, the references of constants and the classes that are
/// begun, and counts no less: events and known references are added at the end alone, and no reference is used for another object.
pub fn a_turn_keeps_what_was_shown()
    ensures { (P : Program) (r : Run) → WorldGrows r.world (turn P r).world }
{}

/// So do any number of turns.
pub fn turns_keep_what_was_shown()
    ensures { (P : Program) (count : ℕ) (r : Run) → WorldGrows r.world (turns P count r).world }
{}

/// A run that ended, or waits for an action that is not there, stays as it is.
pub fn a_run_that_is_over_stays()
    ensures { (P : Program) (r : Run) → IsOver r → turn P r ≡ r }
{}

/// A run of some turns and then of others is one of all of them.
pub fn a_run_goes_on_where_it_stopped()
    ensures { (P : Program) (first then : ℕ) (r : Run)
        → turns P (first + then) r ≡ turns P then (turns P first r) }
{}

/// A program runs the same as itself.
pub fn running_the_same_is_reflexive()
    ensures { (P : Program) → SameRuns P P }
{}

/// What runs the same as what runs the same runs the same.
pub fn running_the_same_composes()
    ensures { (P Q R : Program) → SameRuns P Q → SameRuns Q R → SameRuns P R }
{}

/// A hierarchy has at most one list of links.
pub fn links_of_a_hierarchy_are_one()
    ensures { (headers : Headers) (one other : Links)
        → AreLinksOf headers one
        → AreLinksOf headers other
        → one ≡ other }
{
    a_look_up_finds_one_field();
    a_look_up_finds_one_method();
    a_selection_chooses_one();
}

/// So what a folder and its library show does not depend on which links are taken.
pub fn programs_with_one_list_of_links_run_the_same()
    ensures { (classes : Classes) (one other : Links)
        → AreLinksOf (headers_of classes) one
        → AreLinksOf (headers_of classes) other
        → (actions : List Action) (count : ℕ)
        → shown_after (program_of classes one) actions count
        ≡ shown_after (program_of classes other) actions count }
{
    links_of_a_hierarchy_are_one();
}

/// A program in which nothing is replaced is itself.
pub fn a_program_in_which_nothing_is_replaced_is_itself()
    ensures { (P : Program) (r : Replacement) → ReplacesNothing r → replaced P r ≡ P }
{}
