//! Instructions read from bytes and written to bytes (JVM Specification SE 8, 6.5), and what is known of the methods of a
//! class file that was read: what reading asked of their code, their instructions, and the frame that they begin with.
#![tactic(auto)]

mod code;
mod decoding;
mod descriptor;
mod encoding;
mod entry;
mod forms;
mod instruction;
mod jumps;
mod laws;
mod layouts;
mod source;
mod spelling_laws;
mod switches;

pub use code::instructions_of;
pub use decoding::decode;
pub use descriptor::method_descriptor;
pub use encoding::{code_len, encode_into, encode_one};
pub use entry::{entry_frame, entry_locals, is_text, verification_type};
pub use laws::{
    a_class_file_has_read_methods, frames_are_stated_at_instructions, instructions_are_consecutive,
    one_chosen_spelling,
};
pub use spelling_laws::{
    a_length_does_not_depend_on_targets, a_wide_goto_spells_a_goto, each_spelling_is_of_the_table,
    the_chosen_spelling_is_of_the_table,
};
