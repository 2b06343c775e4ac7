//! Entries of the operand stack around virtual objects that are made.
ghost use Rattle.std.specs.Prelude.{◌≡◌, ◌≤◌, ◌∷◌, List, map, reverse, IfOk, OnOk};
ghost use Rattle.std.specs.List.{filter};
ghost use Rattle.flow_code.specs.WrittenUnits.{written_units};
ghost use Rattle.making_code.specs.MakeCode.{Entry, entries_at, from_lowest, is_plain as is_plain_slot, kind_of_type, names_in, saved};
ghost use Rattle.materialise.specs.Inner.StackWords.{Gathers, entry_meant, place_and_unit};
ghost use Rattle.materialise.specs.MadeCode.{HasFewLocals};
ghost use Rattle.materialise.specs.Restacking.{restacked};

use crate::units::Units;
use class_model::{Kind, ListOf, NoMemory, VType};
use flow_code::Flat;
use std::alloc::Global;
use virtual_state::{SiteSet, Slot, VState};

/// An entry of the operand stack at a typed point: its place among the entries, counted from the lowest, the units of those
/// below it, the kind of its value, and its slot.
#[derive(Clone, Copy)]
pub(crate) struct StackEntry {
    pub(crate) place: usize,
    pub(crate) below: u16,
    pub(crate) kind: Kind,
    pub(crate) slot: Slot,
}

/// An entry of the operand stack that make code saves: its place among the entries, counted from the lowest, and the local
/// unit that it is saved in.
#[derive(Clone, Copy, PartialEq, Eq, Debug)]
pub struct Restacked {
    pub place: usize,
    pub unit: u16,
}

/// Entries that make code saves, in the order in which it does.
pub type RestackList = ListOf<Restacked>;

/// What the make code of a closed set of sites saves of the operand stack at a point, or on an edge to it: the plain entries
/// above the lowest one that holds an object of the set, the topmost first.
///
/// # Errors
/// `NoMemory`, where memory runs out.
pub fn restack(
    alloc: Global,
    flat: &Flat,
    at: usize,
    state: &VState,
    sites: &SiteSet,
) -> Result<RestackList, NoMemory>
    requires units { written_units flat.now ≤ 65535 }
    requires locals { HasFewLocals flat.now at }
    ensures { IfOk result (λ list. list ≡ restacked flat.now at state.now sites.now) }
{
    let units = Units::new(alloc, flat)?;
    let entries = entries_above(alloc, flat, at, state, sites)?;
    let saved = saved_entries(alloc, entries.as_slice())?;
    saved_places(alloc, &units, saved.as_slice())
}

// The places and units of entries that are saved.
fn saved_places(
    alloc: Global,
    units: &Units<'_>,
    saved: &[StackEntry],
) -> Result<RestackList, NoMemory>
    ensures { IfOk result (λ list. list ≡ map (place_and_unit units.now) saved.now) }
{
    let mut places = ListOf::new(alloc);
    for entry in saved {
        places.push(Restacked {
            place: entry.place,
            unit: units.scratch(entry.below),
        })?;
    }
    Ok(places)
}

/// The entries at a point from the lowest on that holds an object of a set.
pub(crate) fn entries_above(
    alloc: Global,
    flat: &Flat,
    at: usize,
    state: &VState,
    sites: &SiteSet,
) -> Result<Vec<StackEntry>, NoMemory>
    requires units { written_units flat.now ≤ 65535 }
    requires locals { HasFewLocals flat.now at }
    ensures { IfOk result (λ entries. map entry_meant entries.items
        ≡ from_lowest sites.now (entries_at flat.now at state.now)) }
{
    let mut entries = Vec::new(alloc);
    let Some(types) = flat.typed(at) else {
        return Ok(entries);
    };
    let locals = types.locals.len();
    let mut below = 0;
    for (place, vtype) in types.stack.as_slice().iter().enumerate() {
        let kind = kind_of_type(vtype);
        let Some(slot) = state.slot(locals + place) else {
            return Ok(entries);
        };
        let entry = StackEntry {
            place,
            below,
            kind,
            slot,
        };
        gather(sites, entry, &mut entries)?;
        below += kind.units();
    }
    Ok(entries)
}

// Adds an entry, if it or one below it holds an object of a set.
fn gather(sites: &SiteSet, entry: StackEntry, entries: &mut Vec<StackEntry>) -> Result<(), NoMemory>
    ensures { OnOk result ((rest all : List Entry)
        → Gathers sites.now entries.old.items (entry_meant entry ∷ rest) all
        → Gathers sites.now entries.new.items rest all) }
{
    if !entries.is_empty() || is_made(sites, entry.slot) {
        entries.push(entry)?;
    }
    Ok(())
}

/// The plain ones of these entries, the topmost first.
pub(crate) fn saved_entries(
    alloc: Global,
    entries: &[StackEntry],
) -> Result<Vec<StackEntry>, NoMemory>
    ensures { IfOk result (λ saved. saved.items
        ≡ reverse (filter (λ entry. is_plain_slot entry.slot) entries.now)) }
{
    let mut saved = Vec::new(alloc);
    let mut left = entries.len();
    while left > 0 {
        left -= 1;
        if is_plain(entries[left].slot) {
            saved.push(entries[left])?;
        }
    }
    Ok(saved)
}

// The kind of what has a verification type.
fn kind_of_type(vtype: &VType) -> Kind
    ensures { result ≡ kind_of_type vtype.now }
{
    match vtype {
        VType::Int => Kind::Int,
        VType::Long => Kind::Long,
        VType::Float => Kind::Float,
        VType::Double => Kind::Double,
        VType::Top | VType::Null | VType::UninitThis | VType::Object(_) | VType::Uninit(_) =>
            Kind::Ref,
    }
}

// Whether a slot holds a value, or a reference to an object that was made.
fn is_plain(slot: Slot) -> bool
    ensures { result ≡ is_plain_slot slot }
{
    match slot {
        Slot::Plain => true,
        Slot::Virt(_) | Slot::Unusable => false,
    }
}

/// Whether a slot holds an object of a set.
pub(crate) fn is_made(sites: &SiteSet, slot: Slot) -> bool
    ensures { result ≡ names_in sites.now slot }
{
    match slot {
        Slot::Virt(site) => sites.has(site),
        Slot::Plain | Slot::Unusable => false,
    }
}
