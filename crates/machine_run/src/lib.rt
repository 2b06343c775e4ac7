//! Runs of the bounded machine (JVM Specification SE 8, 2.6, 2.10, 2.11 and 5.5; the library's part is this project's profile): one
//! step, one action of the library, and a run of a list of actions, as member_link defines them.
#![tactic(auto)]

mod acting;
mod beginnings;
mod calls;
mod coming_first;
mod ending;
mod frames;
mod jumping;
mod laws;
mod moves;
mod names;
mod performing;
mod raising;
mod returning;
mod running;
mod starts;
mod stepping;
mod throw_targets;
mod unwinding;

pub use acting::act;
pub use laws::a_tree_has_a_program;
pub use running::run;
pub use stepping::step;
