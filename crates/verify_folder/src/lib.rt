//! Verification by type checking (JVM Specification SE 8, 4.10.1): the frames that type each method of a folder, or the
//! first failure.
#![tactic(auto)]

mod active;
mod before;
mod flow;
mod folder;
mod handlers;
mod laws;
mod method;
mod stop;
mod typing;

pub use before::{FrameBefore, frame_before};
pub use folder::{check_all, check_next, verify_all, verify_next};
pub use laws::a_folder_fails_once;
pub use method::verify_method;
