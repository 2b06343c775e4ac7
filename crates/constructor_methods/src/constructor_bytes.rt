//! The bytes of a field constructor's code.
ghost use Rattle.std.specs.Prelude.{◌≡◌, ◌≤◌, length, IfOk};
ghost use Rattle.std.specs.List.{AllByRecursion};
ghost use Rattle.making_code.specs.ConstructorCode.{bytes_from};
ghost use Rattle.constructor_methods.specs.Inner.ConstructorWords.{IsShortForm};

use class_model::{ByteList, Instr, ListOf, NoMemory};
use code_bytes::encode_into;
use std::alloc::Global;

/// The bytes of instructions, one after the other.
pub(crate) fn bytes_of(alloc: Global, instrs: &[Instr]) -> Result<ByteList, NoMemory>
    requires short { AllByRecursion IsShortForm instrs.now }
    requires few { length instrs.now ≤ 1000 }
    ensures { IfOk result (λ bytes. bytes ≡ bytes_from 0 instrs.now) }
{
    let mut bytes = Vec::new(alloc);
    for instr in instrs {
        let at = bytes.len() as u32;
        encode_into(&mut bytes, instr, at)?;
    }
    Ok(ListOf::from_vec(bytes))
}
