//! The instructions of a code that was read.
ghost use Rattle.std.specs.Prelude.{◌≡◌, Ok, IfOk};
ghost use Rattle.class_model.specs.Checks.{AllHold};
ghost use Rattle.class_model.specs.Instructions.{decoded};
ghost use Rattle.code_bytes.specs.Decoding.{decoding_checks};

use crate::decoding::instrs_of;
use class_model::{ClassFault, NoMemory, PlacedList};
use std::alloc::Global;

/// The instructions of a code that was read, by offset. What reading asked of them is not asked again.
pub fn instructions_of(alloc: Global, code: &[u8]) -> Result<PlacedList, NoMemory>
    requires { AllHold (decoding_checks code.now) }
    ensures { IfOk result (λ instrs. decoded code.now ≡ Ok instrs) }
{
    match instrs_of(alloc, code) {
        Ok(instrs) => Ok(instrs),
        Err(ClassFault::NoMemory) => Err(NoMemory),
        Err(ClassFault::Malformed { .. }) => unreachable!(),
        Err(ClassFault::Version { .. }) => unreachable!(),
    }
}
