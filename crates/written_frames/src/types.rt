//! Types of flat code as written code has them.
ghost use Rattle.std.specs.Prelude.{◌≡◌, IfOk};
ghost use Rattle.std.specs.Option.{option_copied};
ghost use Rattle.flow_code.specs.ReadTypes.{class_of_site, read_type};
ghost use Rattle.making_code.specs.StateFrames.{type_of_slot};
ghost use Rattle.written_frames.specs.Inner.Types.{type_or};

use class_model::{NoMemory, Text, VType};
use flow_code::{Flat, Site};
use virtual_state::Slot;

/// What a type of flat code is where the objects of sites count as initialised, if that is another type.
fn other_type(flat: &Flat, of: &VType) -> Result<Option<VType>, NoMemory>
    ensures { IfOk result (λ other. type_or other of.now ≡ read_type flat.now of.now) }
{
    if let VType::Uninit(at) = of {
        if let Some(class) = class_of_site(flat.sites().as_slice(), *at) {
            return Ok(Some(VType::Object(class.copy()?)));
        }
    }
    Ok(None)
}

// The class of the site at a point, if one is there.
fn class_of_site(sites: &[Site], at: u32) -> Option<&Text>
    ensures { option_copied result ≡ class_of_site sites.now at }
{
    for site in sites {
        if site.at == at as usize {
            return Some(&site.class);
        }
    }
    None
}

/// A type of flat code, where the objects of sites count as initialised.
pub(crate) fn read_type(flat: &Flat, of: &VType) -> Result<VType, NoMemory>
    ensures { IfOk result (λ read. read ≡ read_type flat.now of.now) }
{
    match other_type(flat, of)? {
        Some(other) => Ok(other),
        None => of.copy(),
    }
}

/// The type that written code has in a local unit, by its type in the flat code and its slot, if that is another one.
pub(crate) fn other_type_of_slot(
    flat: &Flat,
    of: &VType,
    slot: Slot,
) -> Result<Option<VType>, NoMemory>
    ensures { IfOk result (λ other. type_or other of.now ≡ type_of_slot flat.now of.now slot) }
{
    match slot {
        Slot::Plain => other_type(flat, of),
        Slot::Virt(_) => Ok(top_for(of)),
        Slot::Unusable => Ok(top_for(of)),
    }
}

/// The type that written code has in a local unit, by its type in the flat code and its slot.
pub(crate) fn type_of_slot(flat: &Flat, of: &VType, slot: Slot) -> Result<VType, NoMemory>
    ensures { IfOk result (λ type. type ≡ type_of_slot flat.now of.now slot) }
{
    match other_type_of_slot(flat, of, slot)? {
        Some(other) => Ok(other),
        None => of.copy(),
    }
}

// `Top` in place of another type.
fn top_for(of: &VType) -> Option<VType>
    ensures { type_or result of.now ≡ VType.Top }
{
    match of {
        VType::Top => None,
        _ => Some(VType::Top),
    }
}
