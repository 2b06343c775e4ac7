//! The local units of written code that frames leave `Top`.
ghost use Rattle.std.specs.Prelude.{◌≡◌, ◌≤◌, max, length};
ghost use Rattle.class_model.specs.Descriptors.{parameter_units};
ghost use Rattle.class_model.specs.Frames.{depth, units};
ghost use Rattle.flow_code.specs.WrittenUnits.{greatest_depth, written_units};
ghost use Rattle.written_frames.specs.Inner.Rooms.{IsRoom};

use class_model::{FieldType, VType};
use flow_code::Flat;

/// The units of the objects of sites, and the scratch units.
pub(crate) fn units_behind(flat: &Flat) -> usize
    requires { written_units flat.now ≤ 65535 }
    ensures { IsRoom flat.now result }
{
    flat.sites().len() + greatest_depth(flat)
}

// The most units of the stack before a point.
fn greatest_depth(flat: &Flat) -> usize
    requires { greatest_depth flat.now.points ≤ 65535 }
    ensures { result ≡ greatest_depth flat.now.points }
{
    let mut greatest = 0;
    for at in 0..flat.len() {
        let Some(typed) = flat.typed(at) else {
            unreachable!()
        };
        greatest = greater(greatest, depth(typed.stack.as_slice()));
    }
    greatest
}

// The greater of two counts.
fn greater(one: usize, other: usize) -> usize
    ensures { result ≡ max one other }
{
    if one < other { other } else { one }
}

// The units that stack entries take.
fn depth(entries: &[VType]) -> usize
    requires { depth entries.now ≤ 65535 }
    ensures { result ≡ depth entries.now }
{
    let mut units: usize = 0;
    for entry in entries {
        units += entry_units(entry);
    }
    units
}

// How many units an entry takes.
fn entry_units(entry: &VType) -> usize
    ensures { result ≡ length (units entry.now) }
{
    match entry {
        VType::Long | VType::Double => 2,
        _ => 1,
    }
}

/// The units of fields.
pub(crate) fn units_of(fields: &[FieldType]) -> usize
    requires { parameter_units fields.now ≤ 18446744073709551615 }
    ensures { result ≡ parameter_units fields.now }
{
    let mut units: usize = 0;
    for field in fields {
        units += usize::from(field.kind().units());
    }
    units
}
