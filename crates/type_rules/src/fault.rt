//! Why a method does not verify.
ghost use Rattle.std.specs.Prelude.{◌≡◌};
ghost use Rattle.type_rules.specs.declared.fault.RuleFault.TheVariants.{NoMemory as no_memory};
ghost use Rattle.type_rules.specs.declared.fault.VerifyFault.TheVariants.{NoMemory as out_of_memory};

use class_model::{Member, NoMemory, Text};
use thiserror::Error;

/// A rule of verification by type checking (JVM Specification SE 8, 4.10.1), in the order in which they are asked of a
/// method: its exception table, and then each instruction.
#[derive(Clone, Copy, PartialEq, Eq, Debug)]
pub enum TypeRule {
    /// A caught class is not a throwable.
    CatchType,
    /// No frame flows in, and none is stated.
    NoFrame,
    /// What flows in is not assignable to the stated frame.
    Mismatch,
    /// A handler has no stated frame, or the locals with the caught class are not assignable to it.
    Handler,
    /// The stack does not hold what the instruction takes.
    Stack,
    /// A local does not hold what the instruction needs.
    Local,
    /// The stack behind the instruction is deeper than the greatest depth.
    Depth,
    /// A further condition of the instruction fails.
    Kind,
    /// A target has no stated frame, or the frame behind the instruction is not assignable to it.
    Target,
    /// Control flows past the last instruction.
    FallsOff,
}

/// Why an instruction has no frame behind it.
#[derive(Clone, Copy, PartialEq, Eq)]
pub enum RuleFault {
    /// The first rule that fails: `Stack`, `Local`, `Depth` or `Kind`.
    Fails(TypeRule),
    NoMemory,
}

impl From<NoMemory> for RuleFault {
    ghost from_gives = { λ _ fault. fault ≡ no_memory };

    fn from(_: NoMemory) -> Self {
        RuleFault::NoMemory
    }
}

/// Why a folder does not verify.
#[derive(Debug, Drop, Error)]
pub enum VerifyFault {
    /// A method breaks a rule, first at this offset of its code, in bytes: of `CatchType` the start of the handler's range, of
    /// `FallsOff` the length of the code, else that of the instruction.
    #[error("{class:?} does not verify at {offset}: {rule:?}")]
    Unverified {
        class: Text,
        method: Member,
        offset: u32,
        rule: TypeRule,
    },
    #[error("out of memory")]
    NoMemory,
}

impl From<NoMemory> for VerifyFault {
    ghost from_gives = { λ _ fault. fault ≡ out_of_memory };

    fn from(_: NoMemory) -> Self {
        VerifyFault::NoMemory
    }
}
