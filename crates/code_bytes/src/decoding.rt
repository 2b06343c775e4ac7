//! Reading instructions.
ghost use Rattle.std.specs.Prelude.{◌≡◌, ◌≤◌, [], Ok, IfOk, length};
ghost use Rattle.class_model.specs.Answers.{Gives, Tells};
ghost use Rattle.class_model.specs.Instructions.{CodeOf, decoded};
ghost use Rattle.code_bytes.specs.Decoding.{decoding_checks};

use crate::instruction::instr_of;
use crate::jumps::check_jumps;
use crate::source::Source;
use class_model::{ClassFault, FileRule, ListOf, NoMemory, Placed, PlacedList};
use std::alloc::Global;

// The greatest length of a code, in bytes (JVM Specification SE 8, 4.7.3).
const MAX_LENGTH: usize = 65_535;

/// The instructions of a code, one after the other from offset 0 to its end, with their jump targets as
/// offsets in bytes (JVM Specification SE 8, 4.7.3, 4.9.1). What asks the constant pool or the number of locals is not tested.
///
/// # Errors
/// `Malformed` at an offset with the first fault: `CodeLength` at 0; then, by offset, `Opcode` and `Operand`;
/// then, by offset, `Jump`. `NoMemory`, where memory runs out.
pub fn decode(alloc: Global, code: &[u8]) -> Result<PlacedList, ClassFault>
    ensures told { Tells (decoding_checks code.now)
        (λ instrs. decoded code.now ≡ Ok instrs) result }
    ensures code { IfOk result (CodeOf code.now) }
{
    if code.is_empty() || code.len() > MAX_LENGTH {
        return Err(ClassFault::Malformed {
            at: 0,
            rule: FileRule::CodeLength,
        });
    }
    let instrs = instrs_of(alloc, code)?;
    check_jumps(alloc, &instrs)?;
    Ok(instrs)
}

/// The instructions, whose targets are not asked.
pub(crate) fn instrs_of(alloc: Global, code: &[u8]) -> Result<PlacedList, ClassFault>
    requires { length code.now ≤ 65535 }
    ensures { Gives (decoded code.now) result }
{
    let mut instrs = room_for(alloc, code.len())?;
    let mut at = 0;
    let mut bytes = code;
    while !bytes.is_empty() {
        let (instr, len) = instr_of(alloc, &Source { at, bytes })?;
        bytes = &bytes[len..];
        let len = len as u32;
        instrs.push(Placed { at, len, instr })?;
        at += len;
    }
    Ok(instrs)
}

// An empty list with room for so many instructions.
fn room_for(alloc: Global, count: usize) -> Result<PlacedList, NoMemory>
    ensures { IfOk result (λ list. list ≡ []) }
{
    Ok(ListOf::from_vec(Vec::with_capacity(alloc, count)?))
}
