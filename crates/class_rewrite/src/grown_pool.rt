//! A constant pool as an edit has it.
ghost use Rattle.std.specs.Prelude.{◌≡◌, ◌≤◌, ◌++◌, length, IfOk};
ghost use Rattle.std.specs.List.{flat_map};
ghost use Rattle.std.specs.Map.{keys_of};
ghost use Rattle.class_model.specs.Pool.{entries_of};
ghost use Rattle.pool_edit.specs.Edits.{grown};

use class_model::{Const, NoMemory, Pool};
use indexmap::IndexMap;
use pool_edit::PoolEdit;
use std::alloc::Global;

/// The pool as an edit has it, which was begun over this one.
///
/// # Errors
/// `NoMemory`, where memory runs out.
pub(crate) fn grown_pool(alloc: Global, base: &Pool, edit: &PoolEdit) -> Result<Pool, NoMemory>
    requires { edit.now.base ≡ base.now }
    ensures { IfOk result (λ pool. pool ≡ grown edit.now) }
{
    let _count = edit.count();
    let pool = base.copy(alloc)?;
    with_added(pool, edit.added())
}

// A pool, and these constants behind its entries.
fn with_added(pool: Pool, added: &IndexMap<Const, u16>) -> Result<Pool, NoMemory>
    requires { length (pool ++ flat_map entries_of (keys_of added.now.entries)) ≤ 65535 }
    ensures { IfOk result
        (λ all. all ≡ pool ++ flat_map entries_of (keys_of added.now.entries)) }
{
    let mut all = pool;
    for at in 0..added.len() {
        let Some((constant, _)) = added.get_index(at) else {
            unreachable!()
        };
        all.push(constant.copy()?)?;
    }
    Ok(all)
}
