//! The frame behind an instruction of code that need be no class's (JVM Specification SE 8, 4.10.1.9): what it pops and pushes, and not
//! whether it may.
#![tactic(auto)]

mod arithmetic;
mod arrays;
mod calls;
mod constants;
mod fields;
mod initialisers;
mod local_units;
mod names;
mod objects;
mod shuffles;
mod step;
mod table;

pub use table::frame_behind;
