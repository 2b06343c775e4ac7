//! What holds of each world in a run of a folder that verifies, and that such a run is never stuck: functions that do nothing,
//! whose contracts say what always holds.
#![tactic(auto)]

mod actions;
mod steps;
mod worlds;

pub use actions::an_action_stays_typed;
pub use steps::{
    a_call_stays_typed, a_new_object_stays_typed, a_return_stays_typed,
    a_step_of_a_beginning_stays_typed, a_step_stays_typed, a_throw_stays_typed,
    an_instruction_on_arrays_stays_typed, an_instruction_on_fields_stays_typed,
    an_instruction_on_operands_stays_typed,
};
pub use worlds::{a_run_starts_typed, frames_of_flat_code_conform};
