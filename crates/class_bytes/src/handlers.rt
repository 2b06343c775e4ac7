//! The exception table of a code (JVM Specification SE 8, 4.7.3).
ghost use Rattle.std.specs.Prelude.{◌≡◌, ◌⊎◌, ◌↔◌, ◌+◌, ◌*◌, ◌<◌, ◌^◌, length, IsTrue};
ghost use Rattle.class_model.specs.Answers.{Tells};
ghost use Rattle.class_model.specs.Code.{IsRange, handlers_checks};
ghost use Rattle.class_model.specs.PoolChecks.{IsClassAt};
ghost use Rattle.class_bytes.specs.Inner.CodeParts.{handler_checks};

use crate::checks::ask;
use class_model::{ClassFault, CodeIndex, Const, FileRule, Handler, PlacedList, Pool};
use std::alloc::Global;

/// Checks the entries of an exception table, the first of which stands at this place, against a code of so
/// many bytes and its instructions.
pub(crate) fn check_handlers(
    alloc: Global,
    pool: &Pool,
    instrs: &PlacedList,
    len: usize,
    handlers: &[Handler],
    at: u64,
) -> Result<(), ClassFault>
    requires { at + 8 * length handlers.now < 2 ^ 64 }
    ensures { Tells (handlers_checks pool.now instrs.now len at handlers.now)
        (λ done. Unit {0}) result }
{
    if handlers.is_empty() {
        return Ok(());
    }
    let code = CodeIndex::of(alloc, instrs)?;
    let mut place = at;
    for handler in handlers {
        check_handler(pool, &code, len, handler, place)?;
        place += 8;
    }
    Ok(())
}

// Checks an entry, which stands at this place.
fn check_handler(
    pool: &Pool,
    code: &CodeIndex<'_>,
    len: usize,
    handler: &Handler,
    at: u64,
) -> Result<(), ClassFault>
    requires { at + 8 < 2 ^ 64 }
    ensures { Tells (handler_checks pool.now code.now len at handler.now) (λ done. Unit {0})
        result }
{
    ask(is_range(code, len, handler), at, FileRule::Range)?;
    ask(is_caught(pool, handler.catch_type), at + 6, FileRule::Index)
}

// Whether an entry is of a range of instructions that is not empty, up to an instruction or the end, and of a
// handler.
fn is_range(code: &CodeIndex<'_>, len: usize, handler: &Handler) -> bool
    ensures { IsTrue result ↔ IsRange code.now len handler.now }
{
    handler.start < handler.end
        && code.has_start(u32::from(handler.start))
        && (code.has_start(u32::from(handler.end)) || usize::from(handler.end) == len)
        && code.has_start(u32::from(handler.at))
}

// Whether an index names a class, or is 0 for all that is thrown.
fn is_caught(pool: &Pool, index: u16) -> bool
    ensures { IsTrue result ↔ ((index ≡ 0) ⊎ IsClassAt pool.now index) }
{
    index == 0 || matches!(pool.get(index), Some(Const::Class(_)))
}
