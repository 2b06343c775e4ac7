//! The layout of one code, and the decoding of its bytes.
use cases_rewrite::emitted_of;
use class_model::opcodes::IFNONNULL;
use class_model::{Imm, Instr, Kind, ListOf, NoMemory};
use code_bytes::decode;
use code_layout::{Catch, EmitItem, EmitItemList, Emitted, layout};
use std::alloc::Global;

/// Lays out a code of so many items so many times, and counts the bytes.
pub(crate) fn lay_out(alloc: Global, count: u32, times: u32) -> Option<u64> {
    let emitted = emitted_of(items(alloc, count).ok()?)?;
    let mut bytes: u64 = 0;
    for _ in 0..times {
        bytes = bytes.wrapping_add(layout(alloc, &emitted).ok()?.code.len() as u64);
    }
    Some(bytes)
}

/// Lays out a code of so many items once, decodes its bytes so many times, and counts the instructions.
pub(crate) fn decode_laid(alloc: Global, count: u32, times: u32) -> Option<u64> {
    let emitted = emitted_of(items(alloc, count).ok()?)?;
    decode_bytes(alloc, &emitted, times)
}

fn decode_bytes(alloc: Global, emitted: &Emitted, times: u32) -> Option<u64> {
    let laid = layout(alloc, emitted).ok()?;
    let mut instrs: u64 = 0;
    for _ in 0..times {
        let decoded = decode(alloc, laid.code.as_slice()).ok()?;
        instrs = instrs.wrapping_add(decoded.len() as u64);
    }
    Some(instrs)
}

// So many items, of which each eight are a test against null, a jump to the start, a load and nops.
fn items(alloc: Global, count: u32) -> Result<EmitItemList, NoMemory> {
    let mut items = ListOf::new(alloc);
    for number in 0..count {
        items.push(item(alloc, number, count)?)?;
    }
    Ok(items)
}

// The item of a number. What is thrown is caught by the first item.
fn item(alloc: Global, number: u32, count: u32) -> Result<EmitItem, NoMemory> {
    let is_whole = number / 8 < count / 8;
    let mut catches = ListOf::new(alloc);
    if number % 8 == 3 {
        catches.push(Catch {
            to: 0,
            catch_type: 0,
        })?;
    }
    Ok(EmitItem {
        instr: instr(number, is_whole),
        near: is_whole && number % 8 == 1,
        catches,
    })
}

fn instr(number: u32, is_whole: bool) -> Instr {
    match number % 8 {
        0 => Instr::Load(Kind::Ref, 1),
        1 if is_whole => Instr::IfNull(IFNONNULL, number.saturating_add(3)),
        2 => Instr::Const(Imm::Null),
        3 => Instr::Throw,
        4 => Instr::Goto(0),
        _ => Instr::Nop,
    }
}
