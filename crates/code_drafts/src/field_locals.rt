//! Fields of virtual objects, which are kept in local units.
ghost use Rattle.std.specs.Prelude.{◌≡◌, ℕ, OnOk, Some};
ghost use Rattle.std.specs.List.{slice_get};
ghost use Rattle.std.specs.Option.{option_copied};
ghost use Rattle.class_model.specs.declared.instr.Instr.TheVariants.{Const};
ghost use Rattle.code_drafts.specs.Puts.{Puts};
ghost use Rattle.flow_code.specs.FlatCode.{FlatCode};
ghost use Rattle.making_code.specs.Units.{field_unit, fields_at, unit_number};
ghost use Rattle.plan_flow.specs.Written.Templates.{cleared_fields, load_of_field, narrowing, store_of_field, zero_of};

use crate::kept::KeptItems;
use crate::putting::put;
use class_model::opcodes::{I2B, I2C, I2S, IAND};
use class_model::{FieldType, Imm, Instr, Kind, NoMemory};
use materialise::Units;
use std::alloc::Global;

/// Sets each field of a site's new object to zero or null.
///
/// # Errors
/// `NoMemory`, where memory runs out.
pub(crate) fn clear_fields(
    alloc: Global,
    units: &Units<'_>,
    site: u16,
    kept: &mut KeptItems,
) -> Result<(), NoMemory>
    ensures { OnOk result
        (Puts units.now (cleared_fields site 0 (fields_at units.now site)) kept.old kept.new) }
{
    match units.flat().sites().get(usize::from(site)) {
        Some(one) => clear_types(alloc, units, site, one.fields.as_slice(), kept),
        None => Ok(()),
    }
}

// The same, by the types of the fields.
fn clear_types(
    alloc: Global,
    units: &Units<'_>,
    site: u16,
    types: &[FieldType],
    kept: &mut KeptItems,
) -> Result<(), NoMemory>
    ensures { OnOk result
        (Puts units.now (cleared_fields site 0 types.now) kept.old kept.new) }
{
    let _few = units.flat();
    let mut unit = units.first_field(site);
    let mut number = 0;
    while let Some(of_type) = type_at(types, number) {
        put(alloc, Instr::Const(zero_of(of_type.kind())), kept)?;
        put(alloc, Instr::Store(of_type.kind(), unit), kept)?;
        unit = units.next_field(site, number, unit);
        number += 1;
    }
    Ok(())
}

// The type of a number, if there is one.
fn type_at(types: &[FieldType], number: usize) -> Option<&FieldType>
    ensures { option_copied result ≡ slice_get types.now number }
{
    types.get(number)
}

/// Loads a field of a site's object, by the field's number, if there is such a field.
///
/// # Errors
/// `NoMemory`, where memory runs out.
pub(crate) fn load_field(
    alloc: Global,
    units: &Units<'_>,
    site: u16,
    number: usize,
    kept: &mut KeptItems,
) -> Result<(), NoMemory>
    ensures { OnOk result (Puts units.now
        (load_of_field site number (slice_get (fields_at units.now site) number))
        kept.old kept.new) }
{
    match field_type(units, site, number) {
        Some(of_type) => {
            let unit = unit_of_field(units, site, number);
            put(alloc, Instr::Load(of_type.kind(), unit), kept)?;
            Ok(())
        }
        None => Ok(()),
    }
}

/// Stores into a field of a site's object, by the field's number, if there is such a field.
///
/// # Errors
/// `NoMemory`, where memory runs out.
pub(crate) fn store_field(
    alloc: Global,
    units: &Units<'_>,
    site: u16,
    number: usize,
    kept: &mut KeptItems,
) -> Result<(), NoMemory>
    ensures { OnOk result (Puts units.now
        (store_of_field site number (slice_get (fields_at units.now site) number))
        kept.old kept.new) }
{
    match field_type(units, site, number) {
        Some(of_type) => {
            let unit = unit_of_field(units, site, number);
            store_into(alloc, of_type, unit, kept)?;
            Ok(())
        }
        None => Ok(()),
    }
}

// Stores into a field of a type that has this unit.
fn store_into(
    alloc: Global,
    of_type: &FieldType,
    unit: u16,
    kept: &mut KeptItems,
) -> Result<(), NoMemory>
    ensures { OnOk result ((flat : FlatCode) (site number : ℕ)
        → unit ≡ unit_number flat (field_unit site number)
        → Puts flat (store_of_field site number (Some of_type.now)) kept.old kept.new) }
{
    narrow(alloc, of_type, kept)?;
    put(alloc, Instr::Store(of_type.kind(), unit), kept)?;
    Ok(())
}

// Narrows an int to a field's type.
fn narrow(alloc: Global, of_type: &FieldType, kept: &mut KeptItems) -> Result<(), NoMemory>
    ensures { OnOk result ((flat : FlatCode)
        → Puts flat (narrowing of_type.now) kept.old kept.new) }
{
    match of_type {
        FieldType::Byte => put(alloc, Instr::Pure(I2B), kept),
        FieldType::Short => put(alloc, Instr::Pure(I2S), kept),
        FieldType::Char => put(alloc, Instr::Pure(I2C), kept),
        FieldType::Bool => {
            put(alloc, Instr::Const(Imm::Int(1)), kept)?;
            put(alloc, Instr::Pure(IAND), kept)?;
            Ok(())
        }
        _ => Ok(()),
    }
}

// The constant that a field of a kind begins with.
fn zero_of(kind: Kind) -> Imm
    ensures { Const result ≡ zero_of kind }
{
    match kind {
        Kind::Int => Imm::Int(0),
        Kind::Long => Imm::Long(0),
        Kind::Float => Imm::Float(0),
        Kind::Double => Imm::Double(0),
        Kind::Ref => Imm::Null,
    }
}

// The type of a field of a site's object, by the field's number.
fn field_type<'u>(units: &'u Units<'_>, site: u16, number: usize) -> Option<&'u FieldType>
    ensures { option_copied result ≡ slice_get (fields_at units.now site) number }
{
    match units.flat().sites().get(usize::from(site)) {
        Some(one) => one.fields.get(number),
        None => None,
    }
}

// The local unit of a field of a site's object, by the field's number.
fn unit_of_field(units: &Units<'_>, site: u16, number: usize) -> u16
    ensures { result ≡ unit_number units.now (field_unit site number) }
{
    let _few = units.flat();
    let mut unit = units.first_field(site);
    for before in 0..number {
        unit = units.next_field(site, before, unit);
    }
    unit
}
