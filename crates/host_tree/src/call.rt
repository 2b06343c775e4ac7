//! The kinds of call, and why a call is refused.
ghost use Rattle.std.specs.Prelude.{◌≡◌};
ghost use Rattle.host_tree.specs.declared.call.HostFail.TheVariants.{NoMemory as no_memory};

use class_model::NoMemory;
use std::alloc::{AllocError, AllocFailed};

/// The kinds of call that reach outside.
#[derive(Clone, Copy, PartialEq, Eq, Debug)]
pub enum HostCall {
    List,
    Read,
    Write,
    Print,
}

/// Why a host refused a call.
#[derive(Clone, Copy, PartialEq, Eq, Debug)]
pub enum HostFail {
    /// The outside failed.
    Failed,
    /// The root does not hold the name that was to be read.
    Absent,
    /// Memory ran out.
    NoMemory,
}

impl From<NoMemory> for HostFail {
    ghost from_gives = { λ _ fail. fail ≡ no_memory };

    fn from(_: NoMemory) -> Self {
        HostFail::NoMemory
    }
}

impl From<AllocError> for HostFail {
    ghost from_gives = { λ _ fail. fail ≡ no_memory };

    fn from(_: AllocError) -> Self {
        HostFail::NoMemory
    }
}

impl<T: Drop> From<AllocFailed<T>> for HostFail {
    ghost from_gives = { λ _ fail. fail ≡ no_memory };

    fn from(_: AllocFailed<T>) -> Self {
        HostFail::NoMemory
    }
}
