//! Whether flat code has more than written code may have.
ghost use Rattle.std.specs.Prelude.{◌≡◌, ◌↔◌, length, max, IsTrue};
ghost use Rattle.class_model.specs.Descriptors.{parameter_units};
ghost use Rattle.class_model.specs.Frames.{depth, units};
ghost use Rattle.expanded_code.specs.ExpandAnswers.{IsWide};
ghost use Rattle.flow_code.specs.WrittenUnits.{field_units, greatest_depth};
ghost use Rattle.inline_expand.specs.Inner.WideWords.{counted};

use class_model::{FieldType, VType};
use flow_code::{Flat, Site};

const MOST_SITES: usize = 256;

const MOST_FIELD_UNITS: usize = 4_096;

const MOST_UNITS: usize = 65_535;

// Units of the stack that written code may take beside those of the flat code.
const MORE_DEPTH: usize = 70;

/// Whether a flat code has more sites, fields, local units or stack than written code may have.
pub(crate) fn is_wide(flat: &Flat) -> bool
    ensures { IsTrue result ↔ IsWide flat.now }
{
    let sites = flat.sites().len();
    let fields = field_units(flat.sites().as_slice());
    let depth = greatest_depth(flat);
    let units = usize::from(flat.locals())
        .saturating_add(fields)
        .saturating_add(sites)
        .saturating_add(depth);
    if sites > MOST_SITES || fields > MOST_FIELD_UNITS {
        return true;
    }
    units > MOST_UNITS || depth.saturating_add(MORE_DEPTH) > MOST_UNITS
}

// The local units of the fields of sites.
fn field_units(sites: &[Site]) -> usize
    ensures { result ≡ counted (field_units sites.now) }
{
    let mut units: usize = 0;
    for site in sites {
        units = units.saturating_add(units_of(site.fields.as_slice()));
    }
    units
}

// The local units of values of field types.
fn units_of(types: &[FieldType]) -> usize
    ensures { result ≡ counted (parameter_units types.now) }
{
    let mut units: usize = 0;
    for field_type in types {
        units = units.saturating_add(usize::from(field_type.kind().units()));
    }
    units
}

// The most units of the stack before a point.
fn greatest_depth(flat: &Flat) -> usize
    ensures { result ≡ counted (greatest_depth flat.now.points) }
{
    let mut greatest = 0;
    for at in 0..flat.len() {
        let Some(typed) = flat.typed(at) else {
            unreachable!()
        };
        greatest = greater(greatest, depth(typed.stack.as_slice()));
    }
    greatest
}

// The greater of two counts.
fn greater(one: usize, other: usize) -> usize
    ensures { result ≡ max one other }
{
    if one < other { other } else { one }
}

// The units that stack entries take.
fn depth(entries: &[VType]) -> usize
    ensures { result ≡ counted (depth entries.now) }
{
    let mut units: usize = 0;
    for entry in entries {
        units = units.saturating_add(entry_units(entry));
    }
    units
}

// How many units an entry takes.
fn entry_units(entry: &VType) -> usize
    ensures { result ≡ length (units entry.now) }
{
    match entry {
        VType::Long | VType::Double => 2,
        _ => 1,
    }
}
