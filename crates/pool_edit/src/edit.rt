//! Constant pools that grow at their end.
ghost use Rattle.std.specs.Prelude.{◌≡◌, ◌≢◌, ◌+◌, ◌++◌, ◌<◌, ◌≤◌, [], length, slice_get, Some, None, IfOk, OnOk, OnErr};
ghost use Rattle.std.specs.Result.{IsErrOf};
ghost use Rattle.std.specs.List.{flat_map};
ghost use Rattle.std.specs.Map.{keys_of};
ghost use Rattle.class_model.specs.Pool.{IsPool, entries_of};
ghost use Rattle.pool_edit.specs.Edits.{Adds, AreNew, IsBoundary, IsFirstIndex, IsPast, TakesBack, added_entries, grown};
ghost use Rattle.pool_edit.specs.Inner.Known.{Says};

use crate::added::{append, kept_below};
use crate::known::first_indices;
use class_model::{Const, NoMemory, Pool, constants_compare_by_value};
use indexmap::IndexMap;
use std::alloc::{AllocFailed, Global};
use std::collections::HashMap;
use std::marker::Model;

/// Why a constant is not added.
#[derive(Clone, Copy, PartialEq, Eq)]
pub enum AddFault {
    /// No entry equals it, and appending it would take the count past the limit.
    PoolFull,
    /// Memory ran out.
    NoMemory,
}

impl<T: Drop> From<AllocFailed<T>> for AddFault {
    ghost use Rattle.std.specs.Prelude.{◌≡◌};
    ghost use Rattle.pool_edit.specs.declared.edit.AddFault.TheVariants.{NoMemory as no_memory};

    ghost from_gives = { λ _ fault. fault ≡ no_memory };

    fn from(_: AllocFailed<T>) -> Self {
        AddFault::NoMemory
    }
}

/// A constant pool (JVM Specification SE 8, 4.4) that grows at its end: what it was when the edit began is a prefix of what it
/// is. Contracts see that pool, the greatest count that it may have, and the constants that were appended and not taken away.
/// A constant is found, appended and taken away in constant time.
pub struct PoolEdit {
    base: Pool,
    limit: u16,
    count: u16,
    // the smallest indices of the constants of the old pool
    known: HashMap<Const, u16>,
    added: IndexMap<Const, u16>,
}

// Written out: a derived drop would be spelled out, field by field, in each function that drops one, and be proved there.
impl Drop for PoolEdit {
    fn drop(self) {
        let PoolEdit {
            base: _,
            limit: _,
            count: _,
            known: _,
            added: _,
        } = self;
    }
}

impl Model for PoolEdit {
    ghost use Rattle.std.specs.Map.{keys_of};
    ghost use Rattle.pool_edit.specs.Edits.{Edit};
    ghost use Rattle.pool_edit.specs.Inner.Kept.{IsKept};

    ghost Value = { Edit };

    ghost view = { λ e.
        record { base = e.base; limit = e.limit; added = keys_of e.added.entries } };

    ghost invariant = { λ e. IsKept e.base e.known e.added.entries e.count };
}

impl PoolEdit {
    /// An edit of a pool, in which nothing is appended yet. The pool's count may grow up to the limit.
    ///
    /// # Errors
    ///
    /// `NoMemory`, where memory runs out.
    pub fn over(alloc: Global, pool: &Pool, limit: u16) -> Result<PoolEdit, NoMemory>
        ensures { IfOk result
            (λ edit. edit ≡ record { base = pool.now; limit = limit; added = [] }) }
    {
        Ok(PoolEdit {
            base: pool.copy(alloc)?,
            limit,
            count: pool.count(),
            known: first_indices(alloc, pool)?,
            added: IndexMap::new(alloc),
        })
    }

    /// The smallest index of an entry that equals the constant, which is appended where there is none. After an error the
    /// edit is as before.
    ///
    /// # Errors
    ///
    /// `PoolFull`, exactly where an append would take the count past the limit; `NoMemory`, where memory runs out.
    pub fn add(&mut self, value: Const) -> Result<u16, AddFault>
        ensures index { IfOk result (IsFirstIndex (grown self.new) value) }
        ensures ok { OnOk result (Adds self.old value self.new) }
        ensures full { IsErrOf result AddFault.PoolFull → IsPast self.old value }
        ensures err { OnErr result (self.new ≡ self.old) }
    {
        constants_compare_by_value();
        if let Some(index) = self.index_of(&value) {
            return Ok(index);
        }
        let index = self.count;
        let units = value.units();
        if units > self.limit.saturating_sub(index) {
            return Err(AddFault::PoolFull);
        }
        append(&mut self.added, value, index)?;
        self.count = index + units;
        Ok(index)
    }

    // The smallest index of an entry that equals the constant.
    fn index_of(&self, value: &Const) -> Option<u16>
        ensures { Says (grown self.now) value.now result }
    {
        constants_compare_by_value();
        match self.known.get(value) {
            Some(index) => Some(*index),
            None => self.added.get(value).copied(),
        }
    }

    /// The count that a class file with this pool states: one more than its last index.
    pub fn count(&self) -> u16
        ensures count { result ≡ length (grown self.now) }
        ensures pool { IsPool (grown self.now) }
        ensures new { AreNew self.now.base self.now.added }
    {
        self.count
    }

    /// The entries that were appended and not taken away, each with its index, in the order of appending.
    pub fn added(&self) -> &IndexMap<Const, u16>
        ensures { result.now.entries ≡ added_entries self.now }
    {
        &self.added
    }

    /// Takes away the entries from an index on, so that the edit is as it was when its count was that number. The index is at
    /// least the count when the edit began and at most the present count, and not the second one of a long or double.
    pub fn back(&mut self, count: u16)
        requires { IsBoundary self.old count }
        ensures { TakesBack self.old count self.new }
    {
        let kept = kept_below(&self.added, count);
        self.added.truncate(kept);
        self.count = count;
    }

    /// The pool as it is.
    ///
    /// # Errors
    ///
    /// `NoMemory`, where memory runs out.
    pub fn finish(self) -> Result<Pool, NoMemory>
        ensures { IfOk result (λ pool. pool ≡ grown self) }
    {
        let PoolEdit {
            base,
            limit: _,
            count: _,
            known: _,
            added,
        } = self;
        with_added(base, &added)
    }
}

// A pool, and these constants behind its entries.
fn with_added(pool: Pool, added: &IndexMap<Const, u16>) -> Result<Pool, NoMemory>
    requires { length (pool ++ flat_map entries_of (keys_of added.now.entries)) ≤ 65535 }
    ensures { IfOk result
        (λ all. all ≡ pool ++ flat_map entries_of (keys_of added.now.entries)) }
{
    let mut all = pool;
    for at in 0..added.len() {
        let Some((constant, _)) = added.get_index(at) else {
            unreachable!()
        };
        all.push(constant.copy()?)?;
    }
    Ok(all)
}
