//! The constant pool read from bytes and written to bytes (JVM Specification SE 8, 4.4).
#![tactic(auto)]

mod checking;
mod cutting;
mod dynamics;
mod kinds;
mod laws;
mod lookups;
mod raw;
mod reading;
mod texts;
mod writing;

pub use cutting::cut_pool;
pub use laws::{a_pool_is_read_back, each_pool_is_told};
pub use raw::RawPool;
pub use reading::read_pool;
pub use writing::{push_pool, write_pool};
