//! The written list of a plan: the code that is written of a flat code in which objects stay virtual where the plan says so, with the
//! constants that it needs (the definitions are in plan_flow's `Written`).
#![tactic(auto)]

mod blocks;
mod drafts;
mod emitting;
mod instructions;
mod making;
mod pads;
mod passes;

pub use emitting::{WrittenCode, emit, write_code};
