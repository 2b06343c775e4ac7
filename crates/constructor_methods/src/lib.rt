//! The methods of field constructors: their instructions, their Code and their constants, as they are added to the class files of the
//! classes whose objects written code makes.
#![tactic(auto)]

mod constructor_bytes;
mod constructor_code;
mod constructor_method;
mod field_kinds;

pub use constructor_method::{field_constructor, field_constructor_with};
