//! Listings: class files as texts that people read and an assembler can read back, a line for each part (this project's profile). The lines
//! are those of `specs/Lines.antt`.
#![tactic(auto)]

mod attributes;
mod constants;
mod instructions;
mod laws;
mod listing;
mod members;
mod mnemonics;
mod words;

pub use laws::a_class_file_has_codes;
pub use listing::list_class;
