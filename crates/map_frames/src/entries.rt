//! The entries of a frame (JVM Specification SE 8, 4.7.4).
ghost use Rattle.std.specs.Prelude.{◌≡◌, ◌+◌, ◌-◌, ◌≤◌, ◌++◌, ◌∷◌, [], length, take, drop, IfOk, OnOk};
ghost use Rattle.class_model.specs.Frames.{depth, filled, is_wide, listed, units_of_entries};
ghost use Rattle.map_frames.specs.Inner.Steps.{of_locals};
ghost use Rattle.map_frames.specs.Inner.Units.{Follows};

use crate::local_units::count_listed;
use class_model::{ListOf, LocalTypeList, NoMemory, VType, VTypeList};
use std::alloc::Global;
use std::marker::Model;

/// Entries of locals or of a stack, where a long or double is one, and the units that they take. Contracts see
/// the list of entries.
#[derive(Drop)]
pub(crate) struct Entries {
    types: Vec<VType>,
    units: usize,
}

impl Model for Entries {
    ghost use Rattle.std.specs.Prelude.{◌≡◌, List};
    ghost use Rattle.class_model.specs.declared.frame.VType.{VType};
    ghost use Rattle.class_model.specs.Frames.{depth};

    ghost Value = { List VType };

    ghost view = { λ entries. entries.types.items };

    ghost invariant = { λ entries. entries.units ≡ depth entries.types.items };
}

impl Entries {
    /// No entry.
    pub(crate) fn new(alloc: Global) -> Self
        ensures { result ≡ [] }
    {
        Entries {
            types: Vec::new(alloc),
            units: 0,
        }
    }

    /// How many entries there are.
    pub(crate) fn len(&self) -> usize
        ensures { result ≡ length self.now }
    {
        self.types.len()
    }

    /// The units that they take.
    pub(crate) fn units(&self) -> usize
        ensures { result ≡ depth self.now }
    {
        self.units
    }

    /// Appends an entry.
    pub(crate) fn push(&mut self, entry: VType) -> Result<(), NoMemory>
        ensures { OnOk result (self.new ≡ self.old ++ entry ∷ []) }
    {
        let units = units_of(&entry);
        self.types.push(entry)?;
        self.units += units;
        Ok(())
    }

    /// Removes the last entries, so many.
    pub(crate) fn chop(&mut self, count: usize)
        ensures { self.new ≡ take (length self.old - count) self.old }
    {
        for _ in 0..count {
            if let Some(entry) = self.types.pop() {
                self.units -= units_of(&entry);
            }
        }
    }

    /// The entries as a list.
    pub(crate) fn into_list(self) -> VTypeList
        ensures { result ≡ self }
    {
        ListOf::from_vec(self.types)
    }

    /// The local units of the entries, with `Top` behind them up to a number of units.
    pub(crate) fn filled(&self, alloc: Global, max_locals: u16) -> Result<LocalTypeList, NoMemory>
        ensures { IfOk result (λ locals. locals ≡ filled max_locals self.now) }
    {
        let mut locals = units_of_entries(alloc, &self.types)?;
        locals.fill(usize::from(max_locals));
        Ok(locals)
    }

    /// Turns the local units of the frame before into those of these entries, so many of which are kept from
    /// that frame. Its entries take `before` units. The units of entries that are kept stay shared.
    pub(crate) fn follow(
        &self,
        alloc: Global,
        max_locals: u16,
        kept: usize,
        before: usize,
        locals: &mut LocalTypeList,
    ) -> Result<(), NoMemory>
        requires { Follows max_locals kept before self.now locals.old }
        ensures { OnOk result (locals.new ≡ filled max_locals self.now) }
    {
        // Nothing is kept, or the entry frame had more units than fit.
        if kept == 0 || before > usize::from(max_locals) {
            *locals = self.filled(alloc, max_locals)?;
            return Ok(());
        }
        let mut changed = units_of_entries(alloc, &self.types[kept..])?;
        let from = self.units - changed.len();
        changed.fill(before - from);
        overwrite(locals, from, &changed)
    }
}

/// The entries that list the locals of a frame, up to the last that is not `Top`.
pub(crate) fn listed_entries(alloc: Global, locals: &LocalTypeList) -> Result<Entries, NoMemory>
    ensures { IfOk result (λ entries. entries ≡ listed (of_locals locals.now)) }
{
    let mut entries = Entries::new(alloc);
    let end = count_listed(locals);
    let mut at = 0;
    while at < end {
        let Some(entry) = locals.get(at) else {
            break;
        };
        entries.push(entry.copy()?)?;
        at = at.saturating_add(units_of(entry));
    }
    Ok(entries)
}

// The local units of entries.
fn units_of_entries(alloc: Global, entries: &[VType]) -> Result<LocalTypeList, NoMemory>
    ensures { IfOk result (λ units. units ≡ units_of_entries entries.now) }
{
    let mut units = LocalTypeList::new(alloc);
    for entry in entries {
        units.push(entry.copy()?)?;
        if is_wide(entry) {
            units.push(VType::Top)?;
        }
    }
    Ok(units)
}

// Gives the units from a place on the types of others.
fn overwrite(units: &mut LocalTypeList, from: usize, others: &LocalTypeList) -> Result<(), NoMemory>
    requires within { from + length others.now ≤ length units.old }
    requires short { length units.old ≤ 65535 }
    ensures { OnOk result (units.new ≡ take from units.old
        ++ others.now
        ++ drop (from + length others.now) units.old) }
{
    let mut at = 0;
    while let Some(unit) = others.get(at) {
        units.set(from + at, unit.copy()?)?;
        at += 1;
    }
    Ok(())
}

// How many units an entry takes.
fn units_of(entry: &VType) -> usize
    ensures { result ≡ depth (entry.now ∷ []) }
{
    if is_wide(entry) { 2 } else { 1 }
}

// Whether a type takes two units.
fn is_wide(entry: &VType) -> bool
    ensures { result ≡ is_wide entry.now }
{
    matches!(entry, VType::Long | VType::Double)
}
