//! The units of the operand stack (JVM Specification SE 8, 2.6.2).
ghost use Rattle.std.specs.Prelude.{◌≡◌, length, min};
ghost use Rattle.class_model.specs.Frames.{depth, units};

use class_model::VType;

/// The units that stack entries take, or 65,535 where they are more.
pub(crate) fn units_of(entries: &[VType]) -> u16
    ensures { result ≡ min (depth entries.now) 65535 }
{
    let mut units: u16 = 0;
    for entry in entries {
        units = units.saturating_add(entry_units(entry));
    }
    units
}

// How many units an entry takes.
fn entry_units(entry: &VType) -> u16
    ensures { result ≡ length (units entry.now) }
{
    match entry {
        VType::Long | VType::Double => 2,
        _ => 1,
    }
}
