//! Laws of flat code, by itself and with callees in place of their calls: programs that run it run equally, and its typed points type it.
//! Functions that do nothing, whose contracts say what always holds.
#![tactic(auto)]

mod byte_codes;
mod laws;
mod named;

pub use byte_codes::codes_of_a_tree_are_bytes;
pub use laws::{
    a_flat_code_alone_is_typed, an_expanded_flat_code_carries_constants,
    an_expanded_flat_code_catches_what_its_host_names, an_expanded_flat_code_is_of_one_version,
    an_expanded_flat_code_is_ready, an_expanded_flat_code_is_typed,
    an_expanded_flat_code_names_what_the_host_may_use, expanded_flat_codes_have_a_replacement,
    expanded_flat_codes_run_equally, flat_codes_alone_run_equally,
};
pub use named::expanded_flat_codes_have_framed_names;
