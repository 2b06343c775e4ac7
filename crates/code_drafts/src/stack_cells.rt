//! Instructions that move stack entries, of which only the plain ones stand on the written stack (JVM Specification SE 8, 6.5: pop to
//! swap).
ghost use Rattle.std.specs.Prelude.{◌≡◌, ◌<◌, ◌≤◌, ◌-◌, ◌^◌, ◌∷◌, [], drop, option_map, slice_get, take, IfSome, OnOk};
ghost use Rattle.std.specs.List.{flat_map};
ghost use Rattle.std.specs.Option.{option_copied};
ghost use Rattle.class_model.specs.Frames.{depth};
ghost use Rattle.code_drafts.specs.Inner.CellWords.{cell_meant, shuffle_of};
ghost use Rattle.code_drafts.specs.Puts.{Puts};
ghost use Rattle.flow_code.specs.FlatCode.{FlatCode};
ghost use Rattle.plan_flow.specs.Written.Templates.{below_units, by_units, cells, dups, dups_among, plain_among, plain_units, pops, shuffles, swaps};

use crate::kept::KeptItems;
use crate::putting::put;
use class_model::opcodes::{DUP, DUP_X1, DUP_X2, DUP2, DUP2_X1, DUP2_X2, POP, POP2, SWAP};
use class_model::{Frame, Instr, NoMemory, VType};
use std::alloc::Global;
use virtual_state::{Slot, VState};

/// An entry of the stack before a point: its units, and its slot.
#[derive(Clone, Copy)]
pub(crate) struct StackCell {
    pub(crate) units: u8,
    pub(crate) slot: Slot,
}

impl StackCell {
    // How many units it takes on the written stack.
    fn plain_units(self) -> u8
        ensures { result ≡ plain_units (cell_meant self) }
    {
        match self.slot {
            Slot::Plain => self.units,
            Slot::Virt(_) | Slot::Unusable => 0,
        }
    }
}

// What is among so many units of the stack, from an entry on: how many units stand on the written stack, and the number of the entry below
// them.
#[derive(Clone, Copy)]
struct Among {
    plain: u16,
    next: usize,
}

/// Writes what an instruction moves of the stack entries that are plain.
///
/// # Errors
/// `NoMemory`, where memory runs out.
pub(crate) fn write_shuffle(
    alloc: Global,
    types: &Frame,
    state: &VState,
    opcode: u8,
    kept: &mut KeptItems,
) -> Result<(), NoMemory>
    ensures { OnOk result ((flat : FlatCode)
        → Puts flat (shuffles opcode (cells types.now state.now)) kept.old kept.new) }
{
    put_shuffle(alloc, shuffled(types, state, opcode), kept)
}

/// Pops the plain ones of so many stack entries, the topmost first.
///
/// # Errors
/// `NoMemory`, where memory runs out.
pub(crate) fn pop_entries(
    alloc: Global,
    types: &Frame,
    state: &VState,
    count: usize,
    kept: &mut KeptItems,
) -> Result<(), NoMemory>
    ensures { OnOk result ((flat : FlatCode)
        → Puts flat (flat_map (λ cell. pops (plain_units cell)) (take count (cells types.now state.now)))
        kept.old kept.new) }
{
    for number in 0..count {
        let Some(cell) = cell_at(types, state, number) else {
            return Ok(());
        };
        put_shuffle(alloc, popped(u16::from(cell.plain_units())), kept)?;
    }
    Ok(())
}

/// Appends an instruction that moves stack entries, if there is one.
///
/// # Errors
/// `NoMemory`, where memory runs out.
pub(crate) fn put_shuffle(
    alloc: Global,
    opcode: Option<u8>,
    kept: &mut KeptItems,
) -> Result<(), NoMemory>
    ensures { OnOk result ((flat : FlatCode) → Puts flat (shuffle_of opcode) kept.old kept.new) }
{
    match opcode {
        Some(opcode) => put(alloc, Instr::Shuffle(opcode), kept),
        None => Ok(()),
    }
}

// The instruction that moves the plain entries as another one moves all, if one is needed.
fn shuffled(types: &Frame, state: &VState, opcode: u8) -> Option<u8>
    ensures { shuffle_of result ≡ shuffles opcode (cells types.now state.now) }
{
    match opcode {
        POP => popped(counted_among(types, state, 1, 0).plain),
        POP2 => popped(counted_among(types, state, 2, 0).plain),
        DUP => copied_over(types, state, 1, 0),
        DUP_X1 => copied_over(types, state, 1, 1),
        DUP_X2 => copied_over(types, state, 1, 2),
        DUP2 => copied_over(types, state, 2, 0),
        DUP2_X1 => copied_over(types, state, 2, 1),
        DUP2_X2 => copied_over(types, state, 2, 2),
        SWAP => swapped(counted_among(types, state, 2, 0).plain),
        _ => None,
    }
}

// The instruction that copies so many units over so many others, of which the plain ones count.
fn copied_over(types: &Frame, state: &VState, copied: u8, over: u8) -> Option<u8>
    ensures { shuffle_of result ≡ dups_among copied over (cells types.now state.now) }
{
    let one = counted_among(types, state, copied, 0);
    let other = counted_among(types, state, over, one.next);
    duplicated(one.plain, other.plain)
}

// The instruction that pops so many units.
fn popped(units: u16) -> Option<u8>
    ensures { shuffle_of result ≡ pops units }
{
    match units {
        1 => Some(POP),
        2 => Some(POP2),
        _ => None,
    }
}

// The instruction that swaps two units, if there are two.
fn swapped(units: u16) -> Option<u8>
    ensures { shuffle_of result ≡ swaps units }
{
    if units == 2 { Some(SWAP) } else { None }
}

// The instruction that copies so many units over so many.
fn duplicated(copied: u16, over: u16) -> Option<u8>
    ensures { shuffle_of result ≡ dups copied over }
{
    match copied {
        1 => Some(by_units(over, DUP, DUP_X1, DUP_X2)),
        2 => Some(by_units(over, DUP2, DUP2_X1, DUP2_X2)),
        _ => None,
    }
}

// One of three, by a number of units.
fn by_units(units: u16, none: u8, one: u8, two: u8) -> u8
    ensures { result ≡ by_units units none one two }
{
    match units {
        0 => none,
        1 => one,
        _ => two,
    }
}

// What is among so many units from an entry on, the topmost entry having number 0.
fn counted_among(types: &Frame, state: &VState, units: u8, first: usize) -> Among
    ensures plain { result.plain ≡ plain_among units (drop first (cells types.now state.now)) }
    ensures next { drop result.next (cells types.now state.now)
        ≡ below_units units (drop first (cells types.now state.now)) }
{
    let mut left = units;
    let mut plain = 0;
    let mut next = first;
    while left > 0 {
        let Some(cell) = cell_at(types, state, next) else {
            return Among { plain, next };
        };
        plain += u16::from(cell.plain_units());
        left = left.saturating_sub(cell.units);
        next += 1;
    }
    Among { plain, next }
}

// The entry of a number, from the topmost on, if there is one.
fn cell_at(types: &Frame, state: &VState, number: usize) -> Option<StackCell>
    ensures is { option_map cell_meant result ≡ slice_get (cells types.now state.now) number }
    ensures units { IfSome result (λ cell. (1 ≤ cell.units) × (cell.units ≤ 2)) }
    ensures inside { IfSome result (λ cell. number < 2 ^ 64 - 1) }
{
    let stack = types.stack.as_slice();
    let first = types.locals.len();
    let count = stack.len().min(state.len().saturating_sub(first));
    if number >= count {
        return None;
    }
    let at = count - number - 1;
    let Some(of_type) = vtype_at(stack, at) else {
        return None;
    };
    let Some(slot) = state.slot(first + at) else {
        return None;
    };
    Some(StackCell {
        units: width(of_type),
        slot,
    })
}

// The type of a stack entry, counted from the lowest on, if there is one.
fn vtype_at(stack: &[VType], at: usize) -> Option<&VType>
    ensures { option_copied result ≡ slice_get stack.now at }
{
    stack.get(at)
}

// How many units a stack entry of a type takes.
fn width(of_type: &VType) -> u8
    ensures is { result ≡ depth (of_type.now ∷ []) }
    ensures some { 1 ≤ result }
    ensures few { result ≤ 2 }
{
    match of_type {
        VType::Long | VType::Double => 2,
        _ => 1,
    }
}
