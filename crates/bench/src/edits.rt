//! Constant pools that grow at their end.
use cases_rewrite::{appended_and_taken_back, push_constant};
use class_model::{Const, Pool};
use pool_edit::PoolEdit;
use std::alloc::Global;

/// Adds so many constants to an empty pool, and looks each up, so many times, and counts what was looked up. None where memory
/// runs out or the pool is full, as in what follows.
pub(crate) fn grow_pools(alloc: Global, count: u16, times: u32) -> Option<u64> {
    let pool = Pool::new(alloc);
    let mut found: u64 = 0;
    for _ in 0..times {
        let mut edit = PoolEdit::over(alloc, &pool, u16::MAX).ok()?;
        add_all(&mut edit, count)?;
        found = found.wrapping_add(add_all(&mut edit, count)?);
    }
    Some(found)
}

// Adds so many constants, and counts them.
fn add_all(edit: &mut PoolEdit, count: u16) -> Option<u64> {
    let mut added: u64 = 0;
    for number in 0..count {
        edit.add(Const::Integer(i32::from(number))).ok()?;
        added = added.wrapping_add(1);
    }
    Some(added)
}

/// Looks a constant of a pool of so many up, and appends another one and takes it back, so many times, and counts both.
pub(crate) fn edit_pool(alloc: Global, count: u16, times: u32) -> Option<u64> {
    let mut edit = PoolEdit::over(alloc, &pool_of(alloc, count)?, u16::MAX).ok()?;
    let mut edits: u64 = 0;
    for number in 0..times {
        let known = number.wrapping_mul(7919) % u32::from(count.max(1));
        edit.add(Const::Integer(known as i32)).ok()?;
        appended_and_taken_back(&mut edit, Const::Float(number)).ok()?;
        edits = edits.wrapping_add(2);
    }
    Some(edits)
}

// A pool of so many constants.
fn pool_of(alloc: Global, count: u16) -> Option<Pool> {
    let mut pool = Pool::new(alloc);
    for number in 0..count {
        push_constant(&mut pool, Const::Integer(i32::from(number))).ok()?;
    }
    Some(pool)
}
