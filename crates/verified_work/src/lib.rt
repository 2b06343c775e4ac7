//! Generated work verifies with the base library, and its script is one: functions that do nothing, whose contracts say what always holds.
#![tactic(auto)]

mod laws;

pub use laws::{a_generated_script_is_read, generated_work_verifies};
