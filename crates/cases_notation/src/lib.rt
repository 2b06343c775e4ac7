//! Files of cases that programs ask, and class files in a small notation, for tests and programs that need many of them.
#![tactic(auto)]

mod case;
mod case_files;
mod code;
mod code_tables;
mod counted;
mod frame_text;
mod head;
mod input;
mod library;
mod lines;
mod notation;
mod pool;
mod questions;
mod setting;

pub use case::{difference, print_difference, question_of};
pub use case_files::compare_files;
pub use frame_text::{frame_of, text_of_frame, type_of};
pub use input::Input;
pub use lines::{Line, lines_of, word_and_rest};
pub use notation::{OBJECT, class_file};
pub use questions::{last_method, superclasses};
pub use setting::Setting;
