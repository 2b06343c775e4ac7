//! The outside of a program: files below roots and standard output, as a trait that says what each call does, of the system
//! or in memory.
#![tactic(auto)]

mod call;
mod faults;
mod file_name;
mod host;
mod memory;
mod progress;
mod real;
mod stream;
mod tree;
mod walk;

pub use call::{HostCall, HostFail};
pub use file_name::{FileName, FileNameList};
pub use host::Host;
pub use memory::{CallNumberList, MemoryHost};
pub use progress::Progress;
pub use real::RealHost;
