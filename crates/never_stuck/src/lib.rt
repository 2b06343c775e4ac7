//! Soundness of the verifier: a run of a folder that verifies is never stuck.
#![tactic(auto)]

mod no_classes;
mod runs;
mod steps;

pub use no_classes::without_classes_the_library_stays_alone;
pub use runs::{a_verified_run_is_never_stuck, run_verified};
pub use steps::{acts_typed, stays_typed};
