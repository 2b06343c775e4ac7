//! How many local units written code has.
ghost use Rattle.std.specs.Prelude.{◌≡◌, length, max, min};
ghost use Rattle.class_model.specs.Frames.{depth, units};
ghost use Rattle.flow_code.specs.WrittenUnits.{greatest_depth, written_units};

use class_model::VType;
use flow_code::Flat;
use materialise::Units;

/// The local units of the code that is written of a flat code.
pub(crate) fn local_units(units: &Units<'_>) -> u16
    ensures { result ≡ written_units units.now }
{
    let flat = units.flat();
    units.scratch(greatest_depth(flat))
}

// The most units of the stack before a point, or 65,535 where they are more.
fn greatest_depth(flat: &Flat) -> u16
    ensures { result ≡ min (greatest_depth flat.now.points) 65535 }
{
    let mut greatest: u16 = 0;
    for at in 0..flat.len() {
        let Some(types) = flat.typed(at) else {
            unreachable!()
        };
        greatest = greater(greatest, depth_of(types.stack.as_slice()));
    }
    greatest
}

// The greater of two counts.
fn greater(one: u16, other: u16) -> u16
    ensures { result ≡ max one other }
{
    if one < other { other } else { one }
}

// The units that stack entries take, or 65,535 where they are more.
fn depth_of(entries: &[VType]) -> u16
    ensures { result ≡ min (depth entries.now) 65535 }
{
    let mut units: u16 = 0;
    for entry in entries {
        units = units.saturating_add(entry_units(entry));
    }
    units
}

// How many units an entry takes.
fn entry_units(entry: &VType) -> u16
    ensures { result ≡ length (units entry.now) }
{
    match entry {
        VType::Long | VType::Double => 2,
        _ => 1,
    }
}
