//! The items of the wide form.
ghost use Rattle.std.specs.Prelude.{◌≡◌, ◌≤◌, ◌++◌, ◌∷◌, [], length, is_some, if◌then◌else◌, IfOk, OnOk};
ghost use Rattle.std.specs.Option.{option_map};
ghost use Rattle.making_code.specs.Opposites.{opposite};
ghost use Rattle.member_link.specs.Targets.{with_targets};
ghost use Rattle.code_layout.specs.Layout.{start_in};
ghost use Rattle.code_layout.specs.WideForm.{closing, jump_over, nop_item, one_target, renumbered_catches, wide_from, wide_item, wide_numbers, widened, width};

use crate::emitted::{Catch, CatchList, EmitItem, Emitted};
use crate::places::start_of;
use crate::retarget::retargeted;
use class_model::opcodes::{
    IF_ACMPEQ, IF_ACMPNE, IF_ICMPEQ, IF_ICMPGE, IF_ICMPGT, IF_ICMPLE, IF_ICMPLT, IF_ICMPNE, IFEQ,
    IFGE, IFGT, IFLE, IFLT, IFNE, IFNONNULL, IFNULL,
};
use class_model::{Instr, ListOf, NoMemory};
use std::alloc::Global;

/// The same code in its wide form: each conditional jump, but for that inside a test against null, is the opposite one over a goto.
///
/// # Errors
/// `NoMemory`, where memory runs out.
pub fn widened(alloc: Global, emitted: &Emitted) -> Result<Emitted, NoMemory>
    requires { length emitted.now ≤ 65535 }
    ensures { IfOk result (λ wide. wide ≡ widened emitted.now) }
{
    let items = emitted.as_slice();
    let numbers = wide_numbers(alloc, items)?;
    let mut wide = wide_items(alloc, items, numbers.as_slice())?;
    push_closing(alloc, items, &mut wide)?;
    Ok(Emitted::of(ListOf::from_vec(wide)))
}

// Appends a nop, where the jump of the last item leads behind the goto that it is written over.
fn push_closing(alloc: Global, items: &[EmitItem], wide: &mut Vec<EmitItem>) -> Result<(), NoMemory>
    ensures { OnOk result (wide.new.items ≡ wide.old.items ++ closing items.now) }
{
    if goes_past(items) {
        wide.push(EmitItem {
            instr: Instr::Nop,
            near: false,
            catches: ListOf::new(alloc),
        })?;
    }
    Ok(())
}

// Whether the last item is one that is written over a goto.
fn goes_past(items: &[EmitItem]) -> bool
    ensures { closing items.now ≡ (if result then nop_item ∷ [] else []) }
{
    match items.last() {
        Some(item) => is_over(item),
        None => false,
    }
}

/// The number of each item among those of the wide form, or of the first where it is two there.
///
/// # Errors
/// `NoMemory`, where memory runs out.
pub fn wide_numbers(alloc: Global, items: &[EmitItem]) -> Result<Vec<u32>, NoMemory>
    requires { length items.now ≤ 65535 }
    ensures { IfOk result (λ numbers. numbers.items ≡ wide_numbers items.now) }
{
    let mut numbers = Vec::with_capacity(alloc, items.len())?;
    let mut number: u32 = 0;
    for item in items {
        numbers.push(number)?;
        number += width(item);
    }
    Ok(numbers)
}

// How many items an item is written as.
fn width(item: &EmitItem) -> u32
    ensures is { result ≡ width (jump_over item.now) }
    ensures few { result ≤ 2 }
{
    if is_over(item) { 2 } else { 1 }
}

// Whether an item is written over a goto.
fn is_over(item: &EmitItem) -> bool
    ensures { result ≡ is_some (jump_over item.now) }
{
    !item.near
        && matches!(
            item.instr,
            Instr::If(..) | Instr::If2(..) | Instr::IfSame(..) | Instr::IfNull(..)
        )
}

// The jump that is written over a goto in place of an item's instruction, to the item of a number, if there is one.
fn jump_over(item: &EmitItem, to: u32) -> Option<Instr>
    ensures { result ≡ option_map (with_targets (λ _. to)) (jump_over item.now) }
{
    if item.near {
        return None;
    }
    match &item.instr {
        Instr::If(opcode, _) => Some(Instr::If(opposite(*opcode), to)),
        Instr::If2(opcode, _) => Some(Instr::If2(opposite(*opcode), to)),
        Instr::IfSame(opcode, _) => Some(Instr::IfSame(opposite(*opcode), to)),
        Instr::IfNull(opcode, _) => Some(Instr::IfNull(opposite(*opcode), to)),
        _ => None,
    }
}

// The opcode of the opposite jump.
fn opposite(opcode: u8) -> u8
    ensures { result ≡ opposite opcode }
{
    match opcode {
        IFEQ => IFNE,
        IFNE => IFEQ,
        IFLT => IFGE,
        IFGE => IFLT,
        IFGT => IFLE,
        IFLE => IFGT,
        IF_ICMPEQ => IF_ICMPNE,
        IF_ICMPNE => IF_ICMPEQ,
        IF_ICMPLT => IF_ICMPGE,
        IF_ICMPGE => IF_ICMPLT,
        IF_ICMPGT => IF_ICMPLE,
        IF_ICMPLE => IF_ICMPGT,
        IF_ACMPEQ => IF_ACMPNE,
        IF_ACMPNE => IF_ACMPEQ,
        IFNULL => IFNONNULL,
        IFNONNULL => IFNULL,
        _ => opcode,
    }
}

// All items, whose numbers these are.
fn wide_items(alloc: Global, items: &[EmitItem], numbers: &[u32]) -> Result<Vec<EmitItem>, NoMemory>
    requires { length items.now ≤ 65535 }
    ensures { IfOk result (λ wide. wide.items ≡ wide_from (start_in numbers.now) 0 items.now) }
{
    let mut wide = Vec::new(alloc);
    let mut number: u32 = 0;
    for item in items {
        push_wide(alloc, &mut wide, item, number, numbers)?;
        number += width(item);
    }
    Ok(wide)
}

// Appends what an item is written as whose first number this is.
fn push_wide(
    alloc: Global,
    wide: &mut Vec<EmitItem>,
    item: &EmitItem,
    number: u32,
    numbers: &[u32],
) -> Result<(), NoMemory>
    requires { number ≤ 131070 }
    ensures { OnOk result (wide.new.items ≡ wide.old.items
        ++ wide_item (start_in numbers.now) number item.now (jump_over item.now)) }
{
    let catches = renumbered(alloc, item.catches.as_slice(), numbers)?;
    let Some(instr) = jump_over(item, number + 2) else {
        let instr = renumbered_instr(alloc, &item.instr, numbers)?;
        let near = item.near;
        wide.push(EmitItem {
            instr,
            near,
            catches,
        })?;
        return Ok(());
    };
    wide.push(EmitItem {
        instr,
        near: false,
        catches,
    })?;
    wide.push(EmitItem {
        instr: Instr::Goto(start_of(numbers, one_target(&item.instr))),
        near: false,
        catches: ListOf::new(alloc),
    })?;
    Ok(())
}

// An instruction with the new numbers of its targets.
fn renumbered_instr(alloc: Global, instr: &Instr, numbers: &[u32]) -> Result<Instr, NoMemory>
    ensures { IfOk result (λ made. made ≡ with_targets (start_in numbers.now) instr.now) }
{
    match retargeted(alloc, instr, numbers)? {
        Some(made) => Ok(made),
        None => instr.copy(alloc),
    }
}

// Handlers with their new numbers.
fn renumbered(alloc: Global, catches: &[Catch], numbers: &[u32]) -> Result<CatchList, NoMemory>
    ensures { IfOk result (λ made. made ≡ renumbered_catches (start_in numbers.now) catches.now) }
{
    let mut made = Vec::with_capacity(alloc, catches.len())?;
    for catch in catches {
        made.push(Catch {
            to: start_of(numbers, catch.to),
            catch_type: catch.catch_type,
        })?;
    }
    Ok(ListOf::from_vec(made))
}

// The target of a jump.
fn one_target(instr: &Instr) -> u32
    ensures { result ≡ one_target instr.now }
{
    match instr {
        Instr::If(_, to)
        | Instr::If2(_, to)
        | Instr::IfSame(_, to)
        | Instr::IfNull(_, to)
        | Instr::Goto(to) => *to,
        Instr::Table { other, .. } | Instr::Lookup { other, .. } => *other,
        _ => 0,
    }
}
