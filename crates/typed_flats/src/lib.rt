//! Programs in which methods run flat code are typed: functions that do nothing, whose contracts say what always holds.
#![tactic(auto)]

mod laws;

pub use laws::{a_program_with_typed_codes_is_typed, flat_codes_run_typed};
