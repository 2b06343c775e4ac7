//! Class files read from bytes and written to bytes (JVM Specification SE 8, chapter 4).
#![tactic(auto)]

mod attr_writing;
mod bootstraps;
mod checks;
mod class_checks;
mod code;
mod code_cutting;
mod cut;
mod cutting;
mod entering;
mod entry;
mod fields;
mod flags;
mod frames;
mod handlers;
mod head;
mod header;
mod header_checks;
mod header_cutting;
mod home;
mod known_shapes;
mod laws;
mod method_code;
mod methods;
mod names;
mod operands;
mod reading;
mod signatures;
mod text_numbers;
mod writing;

pub use header::read_header;
pub use laws::{
    a_class_file_fits_its_counts, a_class_file_has_a_header_and_a_pool,
    a_value_is_the_class_file_of_its_bytes,
};
pub use reading::read_class;
pub use writing::{push_class, write_class};
