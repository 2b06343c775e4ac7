//! Pools that grow, layouts, flat code, plans and states of virtual objects for cases and benches: what asks a condition is made where
//! a test at run time holds.
#![tactic(auto)]

mod decoded;
mod emitting;
mod flat;
mod making;
mod plan_code;
mod pools;
mod states;

pub use decoded::decoded_code;
pub use emitting::emitted_of;
pub use flat::flat_of;
pub use making::{made_code, saved_places};
pub use plan_code::{PlanCode, without_sites};
pub use pools::{appended_and_taken_back, push_constant};
pub use states::{chain_of, changed, entered, joined, left, state_of, without_differing};
