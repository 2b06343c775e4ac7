//! What runs of the program with flat codes and of the one with written codes have in common, and that the second program runs the same as the
//! first: definitions, laws over them, and a function that does nothing, whose contract is the theorem.
#![tactic(auto)]

mod laws;

pub use laws::written_codes_run_the_same;
