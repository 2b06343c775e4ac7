//! Constant pools.
ghost use Rattle.std.specs.Prelude.{◌≡◌, ◌++◌, IfOk, IsTrue, OnOk};
ghost use Rattle.class_model.specs.Pool.{entries_of};

use class_model::{Const, NoMemory, Pool};
use pool_edit::{AddFault, PoolEdit, an_edit_goes_back_to_what_it_was};

/// Appends a constant, if the pool's count stays at most 65,535, and tells whether it does.
pub fn push_constant(pool: &mut Pool, value: Const) -> Result<bool, NoMemory>
    ensures { IfOk result (λ fits. IsTrue fits → pool.new ≡ pool.old ++ entries_of value) }
{
    if value.units() > 65_535 - pool.count() {
        return Ok(false);
    }
    pool.push(value)?;
    Ok(true)
}

/// Adds a constant and takes back what that appended. The index of the constant and the count before it was taken back.
pub fn appended_and_taken_back(edit: &mut PoolEdit, value: Const) -> Result<(u16, u16), AddFault>
    ensures { OnOk result (edit.new ≡ edit.old) }
{
    an_edit_goes_back_to_what_it_was();
    let before = edit.count();
    let index = edit.add(value)?;
    let count = edit.count();
    edit.back(before);
    Ok((index, count))
}
