//! Flat code of methods: with callees in place of their calls, or of each method by itself.
#![tactic(auto)]

mod alone;
mod called_methods;
mod callees;
mod calls;
mod candidates;
mod classes;
mod coded;
mod expanded;
mod expanding;
mod expansions;
mod final_stores;
mod folder_methods;
mod found;
mod handlers;
mod host;
mod initialised;
mod known_frames;
mod laws;
mod method_set;
mod numbered;
mod numbers;
mod open;
mod overridden;
mod parameters;
mod places;
mod quiet;
mod ready;
mod renumbered;
mod replaced;
mod shallow;
mod sites;
mod standing;
mod typed_methods;
mod verdicts;
mod visits;
mod without_this;

pub use alone::flat_alone;
pub use callees::callee;
pub use candidates::{Candidates, candidate};
pub use expanding::{Expander, expand};
pub use laws::{a_host_has_an_expanded_flat_code, a_method_has_one_expanded_flat_code};
