//! The verification types of local units.
ghost use Rattle.std.specs.Prelude.{◌≡◌, ◌^◌, ◌-◌, ◌<◌, ◌≤◌, ◌/◌, ◌%◌, ◌++◌, ◌∷◌, [], ◌==◌, length, take, drop, replicate, get_or, slice_get, slice_set, OnOk, OnErr, IfOk};
ghost use Rattle.std.specs.Cmp.Lexicographic.{pointwise, lists_per, lists_equiv};
ghost use Rattle.std.specs.Option.{option_copied};
ghost use Rattle.class_model.specs.contracts.frame.VTypePartialEq.TheImpl.{ghosts as comparison};
ghost use Rattle.class_model.specs.contracts.frame.VTypePartialEq.TheImpl.Laws.{laws-law as type_laws};
ghost use Rattle.class_model.specs.contracts.frame.VTypeEq.TheImpl.Laws.{laws-law as type_equality_laws};
ghost use Rattle.class_model.specs.LocalTypes.{unit_in};
ghost use Rattle.class_model.specs.Inner.LocalTypes.{IsPut, IsKept, IsTopFrom};

use crate::frame::VType;
use crate::local_part::LocalPart;
use crate::memory::NoMemory;
use std::alloc::Global;
use std::marker::Model;

/// The verification types of a frame's local units (JVM Specification SE 8, 4.10.1.2), where a long or double is followed
/// by `Top`. Contracts see the list. A copy shares the types, a change copies a part of them, and units that are `Top` to
/// the end take no space.
pub struct LocalTypeList {
    // Parts of so many types each, or fewer; a unit that none of them has is `Top`.
    parts: Vec<LocalPart>,
    len: usize,
    top: VType,
}

// Written out: a derived drop would be spelled out, field by field, in each function that drops one, and be proved there.
impl Drop for LocalTypeList {
    fn drop(self) {
        let LocalTypeList {
            parts: _,
            len: _,
            top: _,
        } = self;
    }
}

// How many units a part has at most.
const PART: usize = 256;

impl Model for LocalTypeList {
    ghost use Rattle.std.specs.Prelude.{List};
    ghost use Rattle.class_model.specs.declared.frame.VType.{VType};
    ghost use Rattle.class_model.specs.LocalTypes.{unit_in, units_below};
    ghost use Rattle.class_model.specs.Inner.LocalTypes.{IsInParts};

    ghost Value = { List VType };

    ghost view = { λ list. units_below list.len (unit_in list.parts.items) };

    ghost invariant = { λ list. IsInParts list.parts.items list.len list.top };
}

impl PartialEq for LocalTypeList {
    ghost eq = { pointwise comparison.eq };

    ghost laws = { lists_per type_laws };

    fn eq(&self, other: &Self) -> bool {
        self.len == other.len && has_same_units(self, other, self.listed().max(other.listed()))
    }
}

impl Eq for LocalTypeList {
    ghost laws = { lists_equiv type_equality_laws };
}

impl LocalTypeList {
    /// No units.
    pub fn new(alloc: Global) -> Self
        ensures { result ≡ [] }
    {
        LocalTypeList {
            parts: Vec::new(alloc),
            len: 0,
            top: VType::Top,
        }
    }

    /// How many units there are.
    pub fn len(&self) -> usize
        ensures { result ≡ length self.now }
    {
        self.len
    }

    /// Whether there is no unit.
    pub fn is_empty(&self) -> bool
        ensures { result ≡ (length self.now == 0) }
    {
        self.len == 0
    }

    /// The type of a unit, counted from 0.
    pub fn get(&self, at: usize) -> Option<&VType>
        ensures { option_copied result ≡ slice_get self.now at }
    {
        if at < self.len {
            Some(unit_of(self.parts.as_slice(), &self.top, at))
        } else {
            None
        }
    }

    /// A number of units behind which all are `Top`. It is found in no time.
    pub fn listed(&self) -> usize
        ensures few { result ≤ length self.now }
        ensures tops { drop result self.now ≡ replicate (length self.now - result) VType.Top }
    {
        listed_in(self.parts.as_slice(), self.len)
    }

    /// Appends a unit. Where memory runs out, the list stays as it was.
    pub fn push(&mut self, unit: VType) -> Result<(), NoMemory>
        requires { length self.old < 2 ^ 64 - 1 }
        ensures ok { OnOk result (self.new ≡ self.old ++ unit ∷ []) }
        ensures err { OnErr result (self.new ≡ self.old) }
    {
        put(&mut self.parts, self.len, unit)?;
        self.len += 1;
        Ok(())
    }

    /// Appends `Top` up to so many units. It takes no memory.
    pub fn fill(&mut self, len: usize)
        ensures { self.new ≡ self.old ++ replicate (len - length self.old) VType.Top }
    {
        self.len = self.len.max(len);
    }

    /// Gives a unit another type. Other lists that share it keep theirs. Where memory runs out, the list stays as it was.
    pub fn set(&mut self, at: usize, unit: VType) -> Result<(), NoMemory>
        requires { at < length self.old }
        ensures ok { OnOk result (self.new ≡ slice_set self.old at unit) }
        ensures err { OnErr result (self.new ≡ self.old) }
    {
        put(&mut self.parts, at, unit)?;
        Ok(())
    }

    /// An equal list, which shares the types.
    pub fn copy(&self, alloc: Global) -> Result<Self, NoMemory>
        ensures { IfOk result (λ copy. copy ≡ self.now) }
    {
        Ok(LocalTypeList {
            parts: copy_parts(alloc, self.parts.as_slice())?,
            len: self.len,
            top: VType::Top,
        })
    }
}

// Whether two lists have the same types up to a unit.
fn has_same_units(list: &LocalTypeList, other: &LocalTypeList, end: usize) -> bool
    ensures { result ≡ pointwise comparison.eq (take end list.now) (take end other.now) }
{
    for at in 0..end {
        if list.get(at) != other.get(at) {
            return false;
        }
    }
    true
}

// The type that parts list for a unit, if they do.
fn listed_unit(parts: &[LocalPart], at: usize) -> Option<&VType>
    ensures { option_copied result ≡ slice_get (get_or parts.now (at / 256) []) (at % 256) }
{
    parts.get(at / PART)?.get(at % PART)
}

// The type of a unit in parts.
fn unit_of<'a>(parts: &'a [LocalPart], top: &'a VType, at: usize) -> &'a VType
    requires { top.now ≡ VType.Top }
    ensures { result.now ≡ unit_in parts.now at }
{
    match listed_unit(parts, at) {
        Some(unit) => unit,
        None => top,
    }
}

// A number of units behind which parts list none, at most so many.
fn listed_in(parts: &[LocalPart], len: usize) -> usize
    requires { IsTopFrom len (unit_in parts.now) }
    ensures few { result ≤ len }
    ensures tops { IsTopFrom result (unit_in parts.now) }
{
    match parts.last() {
        Some(part) => (parts.len() - 1)
            .saturating_mul(PART)
            .saturating_add(part.len())
            .min(len),
        None => 0,
    }
}

// The same parts, which share the types.
fn copy_parts(alloc: Global, parts: &[LocalPart]) -> Result<Vec<LocalPart>, NoMemory>
    ensures { IfOk result (λ copy. copy.items ≡ parts.now) }
{
    let mut copy = Vec::new(alloc);
    for part in parts {
        copy.push(part.copy()?)?;
    }
    Ok(copy)
}

// Gives a unit in parts another type. `Top` that is not listed stays so.
fn put(parts: &mut Vec<LocalPart>, at: usize, unit: VType) -> Result<(), NoMemory>
    ensures ok { OnOk result (IsPut (unit_in parts.old.items) (unit_in parts.new.items) at unit) }
    ensures err { OnErr result (IsKept (unit_in parts.old.items) (unit_in parts.new.items)) }
{
    if let (VType::Top, None) = (&unit, listed_unit(parts.as_slice(), at)) {
        return Ok(());
    }
    add_parts(parts, at / PART)?;
    parts[at / PART].put(at % PART, unit)
}

// Adds parts that list nothing, until there is one of this number.
fn add_parts(parts: &mut Vec<LocalPart>, number: usize) -> Result<(), NoMemory>
    ensures kept { IsKept (unit_in parts.old.items) (unit_in parts.new.items) }
    ensures there { OnOk result (number < length parts.new.items) }
{
    if number < parts.len() {
        return Ok(());
    }
    let alloc = *parts.allocator();
    let blank = LocalPart::new(alloc)?;
    while parts.len() <= number {
        parts.push(blank.copy()?)?;
    }
    Ok(())
}
