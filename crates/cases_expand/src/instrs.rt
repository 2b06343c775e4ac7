//! Instructions by their mnemonics and operands. Jumps name the numbers of what they go to. A tableswitch has its lowest key, its
//! default target and its targets; a lookupswitch its default target and its pairs, as `-5:1`.
use cases_notation::word_and_rest;
use class_model::opcodes::{
    ACONST_NULL, ATHROW, GOTO, IF_ACMPEQ, IF_ACMPNE, IF_ICMPEQ, IF_ICMPLE, IFEQ, IFLE, IFNONNULL,
    IFNULL, LOOKUPSWITCH, NEW, NOP, RETURN, TABLESWITCH,
};
use class_model::{Imm, Instr, ListOf, Pair, opcode_of};
use std::alloc::Global;

/// The instruction that a text says. None where it is none or memory runs out, as in what follows.
pub(crate) fn instr_in(alloc: Global, text: &str) -> Option<Instr> {
    let (name, operands) = word_and_rest(text);
    match opcode_of(name)? {
        NOP => Some(Instr::Nop),
        ACONST_NULL => Some(Instr::Const(Imm::Null)),
        ATHROW => Some(Instr::Throw),
        RETURN => Some(Instr::Return(None)),
        TABLESWITCH => table_in(alloc, operands),
        LOOKUPSWITCH => lookup_in(alloc, operands),
        opcode => naming(opcode, operands.parse::<u32>().ok()?),
    }
}

// The instruction of an opcode and the number of what it goes to, or of the constant that it names.
fn naming(opcode: u8, number: u32) -> Option<Instr> {
    match opcode {
        GOTO => Some(Instr::Goto(number)),
        IFEQ..=IFLE => Some(Instr::If(opcode, number)),
        IF_ICMPEQ..=IF_ICMPLE => Some(Instr::If2(opcode, number)),
        IF_ACMPEQ | IF_ACMPNE => Some(Instr::IfSame(opcode, number)),
        IFNULL | IFNONNULL => Some(Instr::IfNull(opcode, number)),
        NEW => Some(Instr::New(u16::try_from(number).ok()?)),
        _ => None,
    }
}

fn table_in(alloc: Global, operands: &str) -> Option<Instr> {
    let (low, operands) = operands.split_once(' ')?;
    let (other, words) = operands.split_once(' ')?;
    let mut targets = ListOf::new(alloc);
    for word in words.split(' ') {
        targets.push(word.parse::<u32>().ok()?).ok()?;
    }
    Some(Instr::Table {
        low: low.parse::<i32>().ok()?,
        other: other.parse::<u32>().ok()?,
        targets,
    })
}

fn lookup_in(alloc: Global, operands: &str) -> Option<Instr> {
    let (other, words) = operands.split_once(' ')?;
    let mut pairs = ListOf::new(alloc);
    for word in words.split(' ') {
        let (key, to) = word.split_once(':')?;
        pairs
            .push(Pair {
                key: key.parse::<i32>().ok()?,
                to: to.parse::<u32>().ok()?,
            })
            .ok()?;
    }
    Some(Instr::Lookup {
        other: other.parse::<u32>().ok()?,
        pairs,
    })
}
