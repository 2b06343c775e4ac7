//! Where the constants of a pool stand.
ghost use Rattle.std.specs.Prelude.{◌≡◌, IfOk, IfSome, IfNone};
ghost use Rattle.std.specs.Option.{option_copied};
ghost use Rattle.pool_edit.specs.Edits.{IsAbsent, IsFirstIndex};
ghost use Rattle.pool_edit.specs.Inner.Known.{KnowsFirst};

use class_model::{Const, NoMemory, Pool, constants_compare_by_value};
use std::alloc::Global;
use std::collections::HashMap;

/// The smallest index of each constant of a pool, in time that grows with its count.
pub(crate) fn first_indices(alloc: Global, pool: &Pool) -> Result<HashMap<Const, u16>, NoMemory>
    ensures { IfOk result (KnowsFirst pool.now) }
{
    constants_compare_by_value();
    let mut known = HashMap::new(alloc);
    for index in 1..pool.count() {
        if let Some(constant) = pool.get(index) {
            if !known.contains_key(constant) {
                known.insert(constant.copy()?, index)?;
            }
        }
    }
    Ok(known)
}
