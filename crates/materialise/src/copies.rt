//! Objects that were made, copied to where they are held.
ghost use Rattle.std.specs.Prelude.{◌≡◌, Some, map, OnOk};
ghost use Rattle.std.specs.List.{flat_map};
ghost use Rattle.flow_code.specs.FlatCode.{point_at};
ghost use Rattle.making_code.specs.MakeCode.{copy_fields_from, copy_locals_from, copy_object, load_entry, local_slots_in, save};
ghost use Rattle.making_code.specs.Units.{WUnit};
ghost use Rattle.materialise.specs.Inner.CodeWords.{Writes, copied};
ghost use Rattle.materialise.specs.Inner.StackWords.{entry_meant};
ghost use Rattle.materialise.specs.Inner.UnitWords.{kept_unit};
ghost use Rattle.materialise.specs.MadeCode.{HasFewLocals};
ghost use Rattle.virtual_state.specs.States.{object_of};
ghost use Rattle.virtual_state.specs.declared.slot.VObject.{VObject};

use crate::stack::StackEntry;
use crate::units::Units;
use class_model::{Instr, Kind, NoMemory};
use virtual_state::{SiteSet, Slot, VObject, VState};

/// Saves entries of the stack in scratch units.
pub(crate) fn save_entries(
    units: &Units<'_>,
    saved: &[StackEntry],
    instrs: &mut Vec<Instr>,
) -> Result<(), NoMemory>
    ensures { OnOk result (Writes units.now instrs.old.items
        (map (λ entry. save (entry_meant entry)) saved.now)
        instrs.new.items) }
{
    for entry in saved {
        instrs.push(Instr::Store(entry.kind, units.scratch(entry.below)))?;
    }
    Ok(())
}

/// Loads entries of the stack again, and those that hold an object of a set from the object's unit.
pub(crate) fn load_entries(
    units: &Units<'_>,
    sites: &SiteSet,
    entries: &[StackEntry],
    instrs: &mut Vec<Instr>,
) -> Result<(), NoMemory>
    ensures { OnOk result (Writes units.now instrs.old.items
        (flat_map (λ entry. load_entry sites.now (entry_meant entry)) entries.now)
        instrs.new.items) }
{
    for entry in entries {
        load_stack_entry(units, sites, *entry, instrs)?;
    }
    Ok(())
}

// Loads an entry of the stack again.
fn load_stack_entry(
    units: &Units<'_>,
    sites: &SiteSet,
    entry: StackEntry,
    instrs: &mut Vec<Instr>,
) -> Result<(), NoMemory>
    ensures { OnOk result (Writes units.now instrs.old.items
        (load_entry sites.now (entry_meant entry))
        instrs.new.items) }
{
    match entry.slot {
        Slot::Plain => instrs.push(Instr::Load(entry.kind, units.scratch(entry.below)))?,
        Slot::Virt(site) => {
            if sites.has(site) {
                instrs.push(Instr::Load(Kind::Ref, units.object(site)))?;
            }
        }
        Slot::Unusable => {}
    }
    Ok(())
}

/// Copies objects of a set to the local units of the flat code at a point that hold them.
pub(crate) fn copy_to_locals(
    units: &Units<'_>,
    at: usize,
    state: &VState,
    sites: &SiteSet,
    instrs: &mut Vec<Instr>,
) -> Result<(), NoMemory>
    requires { HasFewLocals units.now at }
    ensures { OnOk result (Writes units.now instrs.old.items
        (copy_locals_from sites.now 0 (local_slots_in (point_at units.now at) state.now))
        instrs.new.items) }
{
    let Some(types) = units.flat().typed(at) else {
        return Ok(());
    };
    for unit in 0..types.locals.len() {
        let Some(slot) = state.slot(unit) else {
            return Ok(());
        };
        copy_slot(units, sites, slot, unit as u16, instrs)?;
    }
    Ok(())
}

/// Copies objects of a set to the field units of the other objects that hold them.
pub(crate) fn copy_to_fields(
    units: &Units<'_>,
    state: &VState,
    sites: &SiteSet,
    instrs: &mut Vec<Instr>,
) -> Result<(), NoMemory>
    ensures { OnOk result (Writes units.now instrs.old.items
        (flat_map (copy_object sites.now) state.now.objects)
        instrs.new.items) }
{
    state.is_state();
    let mut from = 0;
    while let Some(site) = state.site_from(from) {
        copy_to_object(units, state, sites, site, instrs)?;
        from = usize::from(site) + 1;
    }
    Ok(())
}

// Copies objects of a set to the field units of a site's object, if that stays virtual.
fn copy_to_object(
    units: &Units<'_>,
    state: &VState,
    sites: &SiteSet,
    site: u16,
    instrs: &mut Vec<Instr>,
) -> Result<(), NoMemory>
    ensures { OnOk result ((object : VObject)
        → object_of state.now.objects site ≡ Some object
        → Writes units.now instrs.old.items (copy_object sites.now object) instrs.new.items) }
{
    let Some(object) = state.object(site) else {
        return Ok(());
    };
    if sites.has(object.site) {
        return Ok(());
    }
    copy_to_slots(units, sites, object.as_ref(), instrs)
}

// Copies objects of a set to the field units of an object.
fn copy_to_slots(
    units: &Units<'_>,
    sites: &SiteSet,
    object: &VObject,
    instrs: &mut Vec<Instr>,
) -> Result<(), NoMemory>
    ensures { OnOk result (Writes units.now instrs.old.items
        (copy_fields_from sites.now object.now.site 0 object.now.fields)
        instrs.new.items) }
{
    let mut unit = units.first_field(object.site);
    for (number, slot) in object.fields.as_slice().iter().enumerate() {
        copy_slot(units, sites, *slot, unit, instrs)?;
        unit = units.next_field(object.site, number, unit);
    }
    Ok(())
}

// Copies an object of a set to a unit, if a slot names it.
fn copy_slot(
    units: &Units<'_>,
    sites: &SiteSet,
    slot: Slot,
    to: u16,
    instrs: &mut Vec<Instr>,
) -> Result<(), NoMemory>
    ensures { OnOk result ((unit : WUnit)
        → kept_unit units.now unit ≡ to
        → Writes units.now instrs.old.items (copied sites.now slot unit) instrs.new.items) }
{
    match slot {
        Slot::Virt(site) => {
            if sites.has(site) {
                instrs.push(Instr::Load(Kind::Ref, units.object(site)))?;
                instrs.push(Instr::Store(Kind::Ref, to))?;
            }
        }
        Slot::Plain | Slot::Unusable => {}
    }
    Ok(())
}
