//! The local units of written code.
ghost use Rattle.std.specs.Prelude.{◌≡◌, ◌≤◌, ◌+◌, suc, min, IfOk};
ghost use Rattle.class_model.specs.Descriptors.{parameter_units};
ghost use Rattle.flow_code.specs.WrittenUnits.{field_units, written_units};
ghost use Rattle.making_code.specs.Units.{field_unit, object_unit, scratch};
ghost use Rattle.materialise.specs.Inner.UnitWords.{first_units, kept_unit, units_at};

use class_model::{FieldType, NoMemory};
use flow_code::{Flat, Site};
use std::alloc::Global;
use std::marker::Model;

/// The local units of the code that is written of a flat code. In order: those of the flat code; for each site those of the
/// fields of its object; for each site one for its object; and scratch units. Contracts see the flat code.
pub struct Units<'f> {
    flat: &'f Flat,
    // by site: the first unit of the fields of its object
    fields: Vec<u16>,
    objects: u16,
    scratch: u16,
}

// Written out: a derived drop would be spelled out, field by field, in each function that drops one, and be proved there.
impl Drop for Units<'_> {
    fn drop(self) {
        let Units {
            flat: _,
            fields: _,
            objects: _,
            scratch: _,
        } = self;
    }
}

impl<'f> Model for Units<'f> {
    ghost use Rattle.flow_code.specs.FlatCode.{FlatCode};
    ghost use Rattle.materialise.specs.Inner.UnitWords.{AreKept};

    ghost Value = { FlatCode };

    ghost view = { λ units. units.flat.now };

    ghost invariant = { λ units.
        AreKept units.flat.now units.fields.items units.objects units.scratch };
}

impl<'f> Units<'f> {
    /// Those of a flat code that is not too wide.
    ///
    /// # Errors
    /// `NoMemory`, where memory runs out.
    pub fn new(alloc: Global, flat: &'f Flat) -> Result<Self, NoMemory>
        requires { written_units flat.now ≤ 65535 }
        ensures { IfOk result (λ units. units ≡ flat.now) }
    {
        let (fields, objects) = first_units(alloc, flat.locals(), flat.sites().as_slice())?;
        let scratch = objects + flat.sites().len() as u16;
        Ok(Units {
            flat,
            fields,
            objects,
            scratch,
        })
    }

    /// The flat code.
    pub fn flat(&self) -> &Flat
        ensures flat { result.now ≡ self.now }
        ensures few { written_units self.now ≤ 65535 }
    {
        self.flat
    }

    /// The unit of the first field of the object of a site.
    pub fn first_field(&self, site: u16) -> u16
        ensures { result ≡ kept_unit self.now (field_unit site 0) }
    {
        match self.fields.get(usize::from(site)) {
            Some(unit) => *unit,
            None => self.objects,
        }
    }

    /// The unit of the field behind one of a number, which has this unit.
    pub fn next_field(&self, site: u16, number: usize, unit: u16) -> u16
        requires { unit ≡ kept_unit self.now (field_unit site number) }
        ensures { result ≡ kept_unit self.now (field_unit site (suc number)) }
    {
        match self.flat.sites().get(usize::from(site)) {
            Some(one) => unit_behind(one.fields.as_slice(), number, unit),
            None => unit,
        }
    }

    /// The unit of the object of a site.
    pub fn object(&self, site: u16) -> u16
        ensures { result ≡ kept_unit self.now (object_unit site) }
    {
        self.objects.saturating_add(site)
    }

    /// The scratch unit of a stack entry, by the units below it.
    pub fn scratch(&self, below: u16) -> u16
        ensures { result ≡ kept_unit self.now (scratch below) }
    {
        self.scratch.saturating_add(below)
    }
}

// For each site the first unit of its fields, where those of the first begin at a unit; and the one behind all.
fn first_units(alloc: Global, first: u16, sites: &[Site]) -> Result<(Vec<u16>, u16), NoMemory>
    requires { first + field_units sites.now ≤ 65535 }
    ensures units { IfOk result (λ units. units.0.items ≡ first_units first sites.now) }
    ensures end { IfOk result (λ units. units.1 ≡ first + field_units sites.now) }
{
    let mut units = Vec::new(alloc);
    let mut unit = first;
    for site in sites {
        units.push(unit)?;
        unit += units_of_fields(site.fields.as_slice());
    }
    Ok((units, unit))
}

// The units of fields.
fn units_of_fields(fields: &[FieldType]) -> u16
    requires { parameter_units fields.now ≤ 65535 }
    ensures { result ≡ parameter_units fields.now }
{
    let mut units = 0;
    for field in fields {
        units += field.kind().units();
    }
    units
}

// The unit behind a field of a number that has this unit, or the same one where there is no such field.
fn unit_behind(fields: &[FieldType], number: usize, unit: u16) -> u16
    ensures { result ≡ min (unit + units_at fields.now number) 65535 }
{
    match fields.get(number) {
        Some(field) => unit.saturating_add(field.kind().units()),
        None => unit,
    }
}
