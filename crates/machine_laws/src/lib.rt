//! Laws of the bounded machine that member_link defines: functions that do nothing, whose contracts say what always holds.
#![tactic(auto)]

mod bounds;
mod cases;
mod laws;

pub use bounds::{
    a_run_takes_no_more_steps_than_turns, a_step_keeps_counts_within_bounds,
    a_turn_keeps_counts_within_bounds, an_action_keeps_counts_within_bounds,
    class_files_make_few_arrays, counts_of_a_run_are_within_bounds,
};
pub use cases::{
    programs_show_what_arithmetic_gives, programs_show_what_calls_run, programs_show_what_is_stuck,
    programs_show_what_the_library_is_asked, programs_show_what_the_stack_holds,
    programs_show_where_values_are_narrowed, programs_show_which_actions_are_faults,
    programs_show_which_handler_catches, programs_show_which_stores_are_final,
    programs_show_which_throwables_are_raised, programs_show_who_begins_a_class,
    programs_show_who_holds_a_monitor, worked_programs_run_as_written,
};
pub use laws::{
    a_program_in_which_nothing_is_replaced_is_itself, a_run_goes_on_where_it_stopped,
    a_run_that_is_over_stays, a_turn_keeps_what_was_shown, links_of_a_hierarchy_are_one,
    programs_with_one_list_of_links_run_the_same, running_the_same_composes,
    running_the_same_is_reflexive, turns_keep_what_was_shown,
};
