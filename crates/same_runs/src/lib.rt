//! Laws of programs that run the same: functions that do nothing, whose contracts say what always holds. What flat code means to the
//! machine is defined here.
#![tactic(auto)]

mod equal_runs;

pub use equal_runs::{programs_that_are_equal_run_equally, running_equally_is_running_the_same};
