//! Constant pools that grow at their end.
#![tactic(auto)]

mod added;
mod edit;
mod known;
mod laws;

pub use edit::{AddFault, PoolEdit};
pub use laws::an_edit_goes_back_to_what_it_was;
