//! Frames whose uninitialised objects get other numbers: those of items for those of points, and offsets for those of items.
ghost use Rattle.std.specs.Prelude.{◌≡◌, ◌+◌, ◌<◌, ℕ, Some, map, length, slice_get, IfOk, OnOk};
ghost use Rattle.stackmap_emit.specs.Inner.PlacedUnits.{ArePlacedBefore, number_by, numbered};
ghost use Rattle.stackmap_emit.specs.PlacedFrames.{frame_at, type_at};

use class_model::{Frame, ListOf, LocalTypeList, NoMemory, VType, VTypeList};
use std::alloc::Global;

/// Numbers for numbers: those at their indices, or one for all others.
#[derive(Clone, Copy)]
pub(crate) struct Renumbering<'a> {
    pub(crate) numbers: &'a [u32],
    pub(crate) other: u32,
}

/// A frame whose uninitialised objects get other numbers. It shares with the frame what it can.
pub(crate) fn frame_at(
    alloc: Global,
    starts: &Renumbering<'_>,
    frame: &Frame,
) -> Result<Frame, NoMemory>
    ensures { IfOk result (λ placed. placed
        ≡ frame_at (number_by starts.now.numbers.now starts.now.other) frame.now) }
{
    let stack = stack_at(alloc, starts, frame.stack.as_slice())?;
    let locals = locals_at(alloc, starts, &frame.locals)?;
    Ok(Frame { locals, stack })
}

// The types of stack entries so.
fn stack_at(alloc: Global, starts: &Renumbering<'_>, types: &[VType]) -> Result<VTypeList, NoMemory>
    ensures { IfOk result (λ placed. placed
        ≡ map (type_at (number_by starts.now.numbers.now starts.now.other)) types.now) }
{
    let mut placed = ListOf::new(alloc);
    for entry in types {
        placed.push(type_at(starts, entry)?)?;
    }
    Ok(placed)
}

// The types of local units so.
fn locals_at(
    alloc: Global,
    starts: &Renumbering<'_>,
    units: &LocalTypeList,
) -> Result<LocalTypeList, NoMemory>
    ensures { IfOk result (λ placed. placed
        ≡ map (type_at (number_by starts.now.numbers.now starts.now.other)) units.now) }
{
    let mut placed = units.copy(alloc)?;
    for at in 0..units.listed() {
        let Some(unit) = units.get(at) else {
            unreachable!()
        };
        place_unit(starts, units, unit, at, &mut placed)?;
    }
    Ok(placed)
}

// Changes a unit so.
fn place_unit(
    starts: &Renumbering<'_>,
    units: &LocalTypeList,
    unit: &VType,
    at: usize,
    placed: &mut LocalTypeList,
) -> Result<(), NoMemory>
    requires there { at < length units.now }
    requires unit { slice_get units.now at ≡ Some unit.now }
    requires before { ArePlacedBefore (number_by starts.now.numbers.now starts.now.other)
        units.now at placed.old }
    ensures { OnOk result (ArePlacedBefore (number_by starts.now.numbers.now starts.now.other)
        units.now (at + 1) placed.new) }
{
    if let Some(number) = number_of(unit) {
        placed.set(at, VType::Uninit(start_at(starts, number)))?;
    }
    Ok(())
}

// The number that names an uninitialised object.
fn number_of(of: &VType) -> Option<u32>
    ensures { (start : ℕ → ℕ) → type_at start of.now ≡ numbered start result of.now }
{
    match of {
        VType::Uninit(number) => Some(*number),
        VType::Top
        | VType::Int
        | VType::Float
        | VType::Long
        | VType::Double
        | VType::Null
        | VType::UninitThis
        | VType::Object(_) => None,
    }
}

// A type so.
fn type_at(starts: &Renumbering<'_>, of: &VType) -> Result<VType, NoMemory>
    ensures { IfOk result (λ placed. placed
        ≡ type_at (number_by starts.now.numbers.now starts.now.other) of.now) }
{
    match of {
        VType::Uninit(number) => Ok(VType::Uninit(start_at(starts, *number))),
        _ => of.copy(),
    }
}

// The number for a number.
fn start_at(starts: &Renumbering<'_>, number: u32) -> u32
    ensures { result ≡ number_by starts.now.numbers.now starts.now.other number }
{
    match starts.numbers.get(number as usize) {
        Some(start) => *start,
        None => starts.other,
    }
}
