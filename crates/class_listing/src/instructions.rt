//! The lines of instructions.
ghost use Rattle.std.specs.Prelude.{◌≡◌, ◌∷◌, ◌++◌, ◌-◌, ◌+ℤ◌, pos, length, map, take, drop, Ok, OnOk};
ghost use Rattle.std.specs.Fmt.{signed_decimal};
ghost use Rattle.std.specs.List.{flat_map};
ghost use Rattle.class_model.specs.Checks.{AllHold};
ghost use Rattle.class_model.specs.Instructions.{decoded, instr_at, pad_of, u1_in};
ghost use Rattle.code_bytes.specs.Decoding.{decoding_checks};
ghost use Rattle.script_text.specs.Events.{spaced};
ghost use Rattle.class_listing.specs.Inner.InstrWords.{call_words, imm_words, instr_words, kept_target, local_words, lookup_words, pair_word, range_words, switch_words, target_word};
ghost use Rattle.class_listing.specs.Inner.ListingTexts.{name_word, pad_in, placed_text};
ghost use Rattle.class_listing.specs.Listings.{placed_lines};
ghost use Rattle.class_listing.specs.Lines.{lines_text};

use crate::mnemonics::mnemonic;
use crate::words::{push_hex_word, push_index, push_number, push_signed};
use class_model::opcodes::{INVOKEINTERFACE, WIDE};
use class_model::{Cursor, Imm, Instr, NoMemory, Pair, Placed};
use code_bytes::instructions_of;
use itoa::Buffer;
use std::alloc::Global;

/// Appends a line for each instruction of a code.
pub(crate) fn push_instructions(
    alloc: Global,
    out: &mut Vec<u8>,
    code: &[u8],
) -> Result<(), NoMemory>
    requires { AllHold (decoding_checks code.now) }
    ensures { OnOk result
        (out.new.items ≡ out.old.items ++ lines_text (placed_lines code.now (decoded code.now))) }
{
    let instrs = instructions_of(alloc, code)?;
    let pushed = push_each(out, code, instrs.as_slice());
    drop(instrs);
    pushed
}

/// Appends the lines of the instructions of a code.
fn push_each(out: &mut Vec<u8>, code: &[u8], instrs: &[Placed]) -> Result<(), NoMemory>
    requires { decoded code.now ≡ Ok instrs.now }
    ensures { OnOk result
        (out.new.items ≡ out.old.items ++ lines_text (placed_lines code.now (decoded code.now))) }
{
    for placed in instrs {
        push_placed(out, code, placed)?;
    }
    Ok(())
}

/// Appends the line of an instruction of a code.
fn push_placed(out: &mut Vec<u8>, code: &[u8], placed: &Placed) -> Result<(), NoMemory>
    requires { instr_at placed.now.at (drop placed.now.at code.now)
        ≡ Ok (placed.now.instr, placed.now.len) }
    ensures { OnOk result
        (out.new.items ≡ out.old.items ++ placed_text code.now placed.now) }
{
    let bytes = Cursor::new(code, placed.at as usize).rest();
    out.extend_from_slice(b"op ")?;
    push_number(out, u64::from(placed.at))?;
    push_name(out, bytes)?;
    push_operands(out, bytes, placed)?;
    out.push(b'\n')?;
    Ok(())
}

/// Appends a space and the mnemonic of the instruction that begins these bytes.
fn push_name(out: &mut Vec<u8>, bytes: &[u8]) -> Result<(), NoMemory>
    ensures { OnOk result (out.new.items ≡ out.old.items ++ (32 ∷ name_word bytes.now)) }
{
    match byte_at(bytes, 0) {
        WIDE => {
            out.extend_from_slice(b" wide_")?;
            out.extend_from_slice(mnemonic(byte_at(bytes, 1)).as_bytes())?;
        }
        opcode => {
            out.push(b' ')?;
            out.extend_from_slice(mnemonic(opcode).as_bytes())?;
        }
    }
    Ok(())
}

/// The byte at an index, or 0 where there is none.
fn byte_at(bytes: &[u8], at: usize) -> u8
    ensures { result ≡ u1_in bytes.now at }
{
    match bytes.get(at) {
        Some(byte) => *byte,
        None => 0,
    }
}

/// Appends the operands of an instruction, which begins these bytes, each behind a space.
fn push_operands(out: &mut Vec<u8>, bytes: &[u8], placed: &Placed) -> Result<(), NoMemory>
    ensures { OnOk result (out.new.items ≡ out.old.items ++ spaced (instr_words placed.now.at
        (pad_in placed.now.at bytes.now) placed.now.len placed.now.instr)) }
{
    match &placed.instr {
        Instr::Const(value) => push_imm(out, placed.len, *value),
        Instr::Load(_, index) | Instr::Store(_, index) => push_local(out, placed.len, *index),
        Instr::Iinc(index, number) => {
            push_index(out, *index)?;
            push_integer(out, b" ", i64::from(*number))
        }
        Instr::If(_, to)
        | Instr::If2(_, to)
        | Instr::IfSame(_, to)
        | Instr::IfNull(_, to)
        | Instr::Goto(to) => push_target(out, b" ", placed.at, *to),
        Instr::Table {
            low,
            other,
            targets,
        } => {
            push_switch(out, bytes, placed.at, *other)?;
            push_range(out, *low, targets.len())?;
            push_targets(out, placed.at, targets.as_slice())
        }
        Instr::Lookup { other, pairs } => {
            push_switch(out, bytes, placed.at, *other)?;
            push_pairs(out, placed.at, pairs.as_slice())
        }
        Instr::Ldc(index)
        | Instr::Ldc2(index)
        | Instr::GetStatic(index)
        | Instr::PutStatic(index)
        | Instr::GetField(index)
        | Instr::PutField(index)
        | Instr::Dynamic(index)
        | Instr::New(index)
        | Instr::NewRefArray(index)
        | Instr::Cast(index)
        | Instr::InstanceOf(index) => push_index(out, *index),
        Instr::Invoke(opcode, method, count) => push_call(out, *opcode, *method, *count),
        Instr::NewArray(code) => push_index(out, u16::from(*code)),
        Instr::NewMulti(class, dimensions) => {
            push_index(out, *class)?;
            push_index(out, u16::from(*dimensions))
        }
        _ => Ok(()),
    }
}

/// Appends the number that an instruction of some bytes pushes, where it does not stand for its opcode alone.
fn push_imm(out: &mut Vec<u8>, len: u32, value: Imm) -> Result<(), NoMemory>
    ensures { OnOk result (out.new.items ≡ out.old.items ++ spaced (imm_words len value)) }
{
    match value {
        Imm::Int(number) if len != 1 => push_integer(out, b" ", i64::from(number)),
        _ => Ok(()),
    }
}

/// Appends the local unit of an instruction of some bytes, where its opcode does not name it.
fn push_local(out: &mut Vec<u8>, len: u32, index: u16) -> Result<(), NoMemory>
    ensures { OnOk result (out.new.items ≡ out.old.items ++ spaced (local_words len index)) }
{
    if len == 1 {
        Ok(())
    } else {
        push_index(out, index)
    }
}

/// Appends the method of a call, and the count of an `invokeinterface`.
fn push_call(out: &mut Vec<u8>, opcode: u8, method: u16, count: u8) -> Result<(), NoMemory>
    ensures { OnOk result
        (out.new.items ≡ out.old.items ++ spaced (call_words opcode method count)) }
{
    push_index(out, method)?;
    if opcode == INVOKEINTERFACE {
        push_index(out, u16::from(count))
    } else {
        Ok(())
    }
}

/// Appends what stands before a signed number, and the number.
fn push_integer(out: &mut Vec<u8>, front: &[u8], number: i64) -> Result<(), NoMemory>
    ensures { OnOk result (out.new.items ≡ out.old.items ++ (front.now ++ signed_decimal number)) }
{
    out.extend_from_slice(front)?;
    push_signed(out, number)
}

/// Appends what stands before the target of a jump at an offset, and the target.
fn push_target(out: &mut Vec<u8>, front: &[u8], at: u32, to: u32) -> Result<(), NoMemory>
    ensures { OnOk result (out.new.items ≡ out.old.items ++ (front.now ++ target_word at to)) }
{
    push_integer(out, front, target(at, to))
}

/// A target, which an instruction at an offset keeps in 32 bits, as a signed number: one before the code's start is negative.
fn target(at: u32, to: u32) -> i64
    ensures { result ≡ kept_target at to }
{
    i64::from(at) + i64::from(to.wrapping_sub(at).cast_signed())
}

/// Appends the pad bytes and the default target of a switch, whose opcode begins these bytes.
fn push_switch(out: &mut Vec<u8>, bytes: &[u8], at: u32, other: u32) -> Result<(), NoMemory>
    ensures { OnOk result (out.new.items
        ≡ out.old.items ++ spaced (switch_words at (pad_in at bytes.now) other)) }
{
    out.extend_from_slice(b" pad=")?;
    push_hex_word(out, pad(bytes, at))?;
    push_target(out, b" default=", at, other)
}

/// The pad bytes of a switch at an offset, whose opcode begins these bytes.
fn pad(bytes: &[u8], at: u32) -> &[u8]
    ensures { result.now ≡ pad_in at bytes.now }
{
    let behind = Cursor::new(bytes, 1).rest();
    match behind.get(..(3 - at % 4) as usize) {
        Some(pad) => pad,
        None => behind,
    }
}

/// Appends the lowest and the highest of so many keys.
fn push_range(out: &mut Vec<u8>, low: i32, count: usize) -> Result<(), NoMemory>
    ensures { OnOk result (out.new.items ≡ out.old.items ++ spaced (range_words low count)) }
{
    push_integer(out, b" low=", i64::from(low))?;
    out.extend_from_slice(b" high=")?;
    let mut buffer = Buffer::new();
    let high = i128::from(low) + count.saturating_sub(1) as i128;
    out.extend_from_slice(buffer.format(high).as_bytes())?;
    Ok(())
}

/// Appends the targets of a `tableswitch` at an offset.
fn push_targets(out: &mut Vec<u8>, at: u32, targets: &[u32]) -> Result<(), NoMemory>
    ensures { OnOk result
        (out.new.items ≡ out.old.items ++ spaced (map (target_word at) targets.now)) }
{
    for to in targets {
        push_target(out, b" ", at, *to)?;
    }
    Ok(())
}

/// Appends the keys of a `lookupswitch` at an offset, with their targets.
fn push_pairs(out: &mut Vec<u8>, at: u32, pairs: &[Pair]) -> Result<(), NoMemory>
    ensures { OnOk result
        (out.new.items ≡ out.old.items ++ spaced (map (pair_word at) pairs.now)) }
{
    for pair in pairs {
        push_pair(out, at, *pair)?;
    }
    Ok(())
}

/// Appends a space, a key and its target.
fn push_pair(out: &mut Vec<u8>, at: u32, pair: Pair) -> Result<(), NoMemory>
    ensures { OnOk result (out.new.items ≡ out.old.items ++ (32 ∷ pair_word at pair)) }
{
    push_integer(out, b" ", i64::from(pair.key))?;
    push_target(out, b":", at, pair.to)
}
