//! Stack map frames read from bytes and written to bytes (JVM Specification SE 8, 4.7.4).
#![tactic(auto)]

mod class_indices;
mod context;
mod cursor;
mod entries;
mod frame_writing;
mod kinds;
mod laws;
mod local_units;
mod reading;
mod type_writing;
mod walk;
mod writing;

pub use laws::one_written_table;
pub use reading::{check_frames, read_frames};
pub use writing::{IndexOfText, NamedIndex, frame_bytes};
