//! The top call: from the words of a command to files, a printed line and a status.
#![tactic(auto)]

mod both;
mod explaining;
mod folder;
mod generating;
mod laws;
mod lines;
mod linking;
mod listing;
mod optimising;
mod progress;
mod reading;
mod script;
mod sharing;
mod status;
mod top;
mod verifying;
mod words;
mod work;
mod writing;

pub use laws::{words_and_files_have_one_answer, words_spell_one_command};
pub use status::Status;
pub use top::pea;
