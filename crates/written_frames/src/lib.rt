//! The types that written code has at a point of flat code in a state of virtual objects, as frames state them (JVM Specification SE 8,
//! 4.10.1.4), and whether a later frame says more.
#![tactic(auto)]

mod behind;
mod differences;
mod locals;
mod maker;
mod starts;
mod types;

pub use differences::differ;
pub use maker::{FrameMaker, state_frame};
pub use starts::{BlockStart, BlockStartList};
