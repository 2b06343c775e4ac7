//! The local units of written code.
ghost use Rattle.std.specs.Prelude.{◌≡◌, ◌+◌, ◌-◌, ◌^◌, ◌<◌, ◌≤◌, ◌++◌, length, replicate, IfOk, OnOk};
ghost use Rattle.std.specs.List.{flat_map};
ghost use Rattle.class_model.specs.Code.{verification_type};
ghost use Rattle.class_model.specs.Descriptors.{kind_of, parameter_units, units_of};
ghost use Rattle.class_model.specs.Frames.{units};
ghost use Rattle.flow_code.specs.WrittenUnits.{field_units, greatest_depth};
ghost use Rattle.making_code.specs.StateFrames.{field_types, local_types_from, site_types_from};
ghost use Rattle.written_frames.specs.Inner.OwnUnits.{AreChanged, AreListed};
ghost use Rattle.written_frames.specs.Inner.Rooms.{IsRoom};

use crate::behind::units_of;
use crate::types::{other_type_of_slot, type_of_slot};
use class_model::{FieldType, LocalTypeList, NoMemory, VType};
use code_bytes::verification_type;
use flow_code::{Flat, Site};
use std::alloc::Global;
use virtual_state::VState;

/// The local units of written code at a point whose local units have these types in the flat code: these, those of the sites' fields, and
/// so many behind.
pub(crate) fn written_locals(
    alloc: Global,
    flat: &Flat,
    types: &LocalTypeList,
    state: &VState,
    behind: usize,
) -> Result<LocalTypeList, NoMemory>
    requires room { IsRoom flat.now behind }
    requires few { length types.now ≤ 65536 }
    ensures { IfOk result (λ locals. locals
        ≡ local_types_from flat.now types.now state.now.slots
        ++ site_types_from state.now 0 flat.now.sites
        ++ replicate (length flat.now.sites) VType.Top
        ++ replicate (greatest_depth flat.now.points) VType.Top) }
{
    let mut locals = own_locals(alloc, flat, types, state)?;
    push_sites(&mut locals, flat.sites().as_slice(), state)?;
    let len = locals.len() + behind;
    locals.fill(len);
    Ok(locals)
}

// The units of the flat code. Where the state lists as many as the types do, a copy of the types is changed, which shares what stays.
fn own_locals(
    alloc: Global,
    flat: &Flat,
    types: &LocalTypeList,
    state: &VState,
) -> Result<LocalTypeList, NoMemory>
    ensures { IfOk result
        (λ locals. locals ≡ local_types_from flat.now types.now state.now.slots) }
{
    if state.len() < types.len() || state.front().listed().len() < types.listed() {
        listed_locals(alloc, flat, types, state)
    } else {
        changed_locals(alloc, flat, types, state)
    }
}

// The same by a copy of the types, where each has a slot.
fn changed_locals(
    alloc: Global,
    flat: &Flat,
    types: &LocalTypeList,
    state: &VState,
) -> Result<LocalTypeList, NoMemory>
    requires { length types.now ≤ length state.now.slots }
    ensures { IfOk result
        (λ locals. locals ≡ local_types_from flat.now types.now state.now.slots) }
{
    let mut locals = types.copy(alloc)?;
    for at in 0..types.listed() {
        change_unit(flat, types, state, at, &mut locals)?;
    }
    Ok(locals)
}

// Changes a unit.
fn change_unit(
    flat: &Flat,
    types: &LocalTypeList,
    state: &VState,
    at: usize,
    locals: &mut LocalTypeList,
) -> Result<(), NoMemory>
    requires typed { at < length types.now }
    requires slot { at < length state.now.slots }
    requires before { AreChanged flat.now types.now state.now.slots at locals.old }
    ensures { OnOk result
        (AreChanged flat.now types.now state.now.slots (at + 1) locals.new) }
{
    let (Some(of), Some(slot)) = (types.get(at), state.slot(at)) else {
        unreachable!()
    };
    if let Some(other) = other_type_of_slot(flat, of, slot)? {
        locals.set(at, other)?;
    }
    Ok(())
}

// The same, unit by unit.
fn listed_locals(
    alloc: Global,
    flat: &Flat,
    types: &LocalTypeList,
    state: &VState,
) -> Result<LocalTypeList, NoMemory>
    ensures { IfOk result
        (λ locals. locals ≡ local_types_from flat.now types.now state.now.slots) }
{
    let mut locals = LocalTypeList::new(alloc);
    let len = types.len().min(state.len());
    for at in 0..types.listed().min(len) {
        push_unit(flat, types, state, at, &mut locals)?;
    }
    locals.fill(len);
    Ok(locals)
}

// Appends the type of a unit.
fn push_unit(
    flat: &Flat,
    types: &LocalTypeList,
    state: &VState,
    at: usize,
    locals: &mut LocalTypeList,
) -> Result<(), NoMemory>
    requires few { at < 2 ^ 64 - 1 }
    requires typed { at < length types.now }
    requires slot { at < length state.now.slots }
    requires before { AreListed flat.now types.now state.now.slots at locals.old }
    ensures { OnOk result (AreListed flat.now types.now state.now.slots (at + 1) locals.new) }
{
    let (Some(of), Some(slot)) = (types.get(at), state.slot(at)) else {
        unreachable!()
    };
    locals.push(type_of_slot(flat, of, slot)?)?;
    Ok(())
}

// Appends the units of the fields of sites.
fn push_sites(locals: &mut LocalTypeList, sites: &[Site], state: &VState) -> Result<(), NoMemory>
    requires few { length sites.now ≤ 65535 }
    requires room { length locals.old + field_units sites.now < 2 ^ 64 }
    ensures { OnOk result (locals.new ≡ locals.old ++ site_types_from state.now 0 sites.now) }
{
    for number in 0..sites.len() {
        let fields = sites[number].fields.as_slice();
        push_site(locals, fields, state.present(number as u16))?;
    }
    Ok(())
}

// Appends the units of the fields of a site, which is present or not.
fn push_site(
    locals: &mut LocalTypeList,
    fields: &[FieldType],
    is_present: bool,
) -> Result<(), NoMemory>
    requires { length locals.old + parameter_units fields.now < 2 ^ 64 }
    ensures { OnOk result (locals.new ≡ locals.old ++ field_types is_present fields.now) }
{
    if is_present {
        return push_fields(locals, fields);
    }
    let len = locals.len() + units_of(fields);
    locals.fill(len);
    Ok(())
}

// Appends the units of fields.
fn push_fields(locals: &mut LocalTypeList, fields: &[FieldType]) -> Result<(), NoMemory>
    requires { length locals.old + parameter_units fields.now < 2 ^ 64 }
    ensures { OnOk result
        (locals.new ≡ locals.old ++ flat_map (λ type. units (verification_type type)) fields.now) }
{
    for field in fields {
        push_field(locals, field)?;
    }
    Ok(())
}

// Appends the units of a field: a long or double is followed by `Top`.
fn push_field(locals: &mut LocalTypeList, field: &FieldType) -> Result<(), NoMemory>
    requires { length locals.old + units_of (kind_of field.now) < 2 ^ 64 }
    ensures { OnOk result (locals.new ≡ locals.old ++ units (verification_type field.now)) }
{
    locals.push(verification_type(field)?)?;
    if let FieldType::Long | FieldType::Double = field {
        locals.push(VType::Top)?;
    }
    Ok(())
}
