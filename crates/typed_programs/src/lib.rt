//! Programs of folders that verify are typed: a function that does nothing, whose contract says what always holds.
#![tactic(auto)]

mod programs;

pub use programs::{
    a_verified_folder_is_a_typed_program, linked_instructions_have_linked_operations,
};
