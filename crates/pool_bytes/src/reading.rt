//! Reading the constant pool.
ghost use Rattle.std.specs.Prelude.{◌≡◌, ◌++◌, drop, IfOk};
ghost use Rattle.class_model.specs.Answers.{Tells};
ghost use Rattle.class_model.specs.Spelling.{pool_bytes};
ghost use Rattle.pool_bytes.specs.Reading.{rest_at, pool_checks, Stands};

use crate::cutting::cut_pool;
use class_model::{ClassFault, Cursor, Pool, a_cut_pool_is_spelled};
use std::alloc::Global;

/// The constant pool that stands at a place of bytes, from its count on, and the place behind it; as in a
/// class file of version 52.
///
/// # Errors
/// `Malformed` at a place of `bytes` with the first fault: `Short` and `Tag`, and then by index `Text`,
/// `Index`, `Name` and `Descriptor`. `NoMemory`, where memory runs out.
pub fn read_pool(alloc: Global, bytes: &[u8], at: usize) -> Result<(Pool, usize), ClassFault>
    ensures told { Tells (pool_checks 52 (rest_at bytes.now at))
        (λ read. Stands 52 bytes.now at read.0 read.1) result }
    ensures spelled { IfOk result
        (λ read. drop at bytes.now ≡ pool_bytes read.0 ++ drop read.1 bytes.now) }
{
    let mut cursor = Cursor::new(bytes, at);
    let raw = cut_pool(alloc, VERSION, &mut cursor)?;
    let end = cursor.at();
    a_cut_pool_is_spelled();
    raw.check(VERSION, at as u64 + COUNT_LEN)?;
    Ok((raw.to_pool(alloc)?, end as usize))
}

const VERSION: u16 = 52;

// How many bytes the count of a pool takes.
const COUNT_LEN: u64 = 2;
