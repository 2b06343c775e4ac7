//! Scripts, which say what the library does in a run, and the printed events of a run: texts of this project's profile.
#![tactic(auto)]

mod actions;
mod events;
mod given;
mod kinds;
mod laws;
mod lists;
mod numbers;
mod printed;
mod printed_scripts;
mod scripts;
mod seen;
mod texts;
mod words;

pub use events::print_events;
pub use laws::{
    a_printed_script_reads_back, a_printed_text_is_one_text, a_script_has_no_line_outside,
    a_script_has_one_list_of_actions, hexadecimal_digits_are_one_number,
};
pub use printed::push_text;
pub use printed_scripts::print_script;
pub use scripts::{ScriptFault, read_script};
