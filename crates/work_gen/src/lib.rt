//! Generated work, and the smallest library that linking accepts.
#![tactic(auto)]

mod base;
mod choices;
mod classes;
mod entries;
mod generated;
mod headers;
mod kinds;
mod laws;
mod parts;

pub use base::base_library;
pub use choices::{Choice, Kind};
pub use generated::{Work, generate};
pub use headers::base_headers;
pub use laws::{base_headers_are_library_classes, generated_classes_are_class_files};
