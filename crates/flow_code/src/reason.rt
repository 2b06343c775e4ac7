//! Why a method is kept as it is.
use class_model::NoMemory;
use std::alloc::{AllocError, AllocFailed};

/// What becomes of a method of a folder's class, and why: the first of these that holds of it.
#[derive(Clone, Copy, PartialEq, Eq, Debug)]
pub enum Reason {
    /// It has no code, or is named `<init>` or `<clinit>`.
    Host,
    /// Its own code has arithmetic, a comparison or a conversion of float or double.
    Float,
    /// With its callees in place it has more than 8,000 instructions.
    Expanded,
    /// No object that it makes may be kept in locals.
    NoSite,
    /// It would take more sites, field units of sites, local units or stack than a method may have.
    Wide,
    /// Nothing would be gained.
    NoGain,
    /// Its written code would have more than 32,767 bytes, or its exception table more than 65,535 entries.
    Long,
    /// Its constants would take the constant pool past its limit.
    PoolFull,
    /// None of these: it is rewritten.
    Rewritten,
}

/// Why a call on a method gives nothing.
#[derive(Clone, Copy, PartialEq, Eq)]
pub enum KeptFault {
    /// The method is kept, for this reason.
    Kept(Reason),
    /// Memory ran out.
    NoMemory,
}

impl From<NoMemory> for KeptFault {
    ghost use Rattle.std.specs.Prelude.{◌≡◌};
    ghost use Rattle.flow_code.specs.declared.reason.KeptFault.TheVariants.{NoMemory as no_memory};

    ghost from_gives = { λ _ fault. fault ≡ no_memory };

    fn from(_: NoMemory) -> Self {
        KeptFault::NoMemory
    }
}

impl From<AllocError> for KeptFault {
    ghost use Rattle.std.specs.Prelude.{◌≡◌};
    ghost use Rattle.flow_code.specs.declared.reason.KeptFault.TheVariants.{NoMemory as no_memory};

    ghost from_gives = { λ _ fault. fault ≡ no_memory };

    fn from(_: AllocError) -> Self {
        KeptFault::NoMemory
    }
}

impl<T: Drop> From<AllocFailed<T>> for KeptFault {
    ghost use Rattle.std.specs.Prelude.{◌≡◌};
    ghost use Rattle.flow_code.specs.declared.reason.KeptFault.TheVariants.{NoMemory as no_memory};

    ghost from_gives = { λ _ fault. fault ≡ no_memory };

    fn from(_: AllocFailed<T>) -> Self {
        KeptFault::NoMemory
    }
}
