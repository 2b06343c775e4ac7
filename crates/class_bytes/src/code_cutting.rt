//! The content of a Code attribute cut into its parts (JVM Specification SE 8, 4.7.3).
ghost use Rattle.std.specs.Prelude.{◌≡◌, IfOk};
ghost use Rattle.std.specs.Option.{option_map};
ghost use Rattle.class_model.specs.Answers.{Takes};
ghost use Rattle.class_model.specs.Code.{handler_at, part_at, code_part};
ghost use Rattle.class_model.specs.Cutting.{counted_at};
ghost use Rattle.class_bytes.specs.Inner.Cut.{result_seen, part_of};

use crate::cut::CutPart;
use crate::cutting::cut_attrs;
use class_model::{ClassFault, Cursor, Handler, HandlerList, ListOf, NoMemory};
use std::alloc::Global;

/// The parts of the content of a Code attribute, if they fill it.
pub(crate) fn code_part<'a>(
    alloc: Global,
    content: &'a [u8],
) -> Result<Option<CutPart<'a>>, NoMemory>
    ensures { IfOk result (λ part. option_map part_of part ≡ code_part content.now) }
{
    let mut cursor = Cursor::new(content, 0);
    match cut_part(alloc, &mut cursor) {
        Ok(part) if cursor.is_empty() => Ok(Some(part)),
        Err(ClassFault::NoMemory) => Err(NoMemory),
        Ok(_) | Err(ClassFault::Malformed { .. } | ClassFault::Version { .. }) => Ok(None),
    }
}

// Reads the parts.
fn cut_part<'a>(alloc: Global, cursor: &mut Cursor<'a>) -> Result<CutPart<'a>, ClassFault>
    ensures { Takes (part_at cursor.old) cursor.new (result_seen part_of result) }
{
    let max_stack = cursor.u2()?;
    let max_locals = cursor.u2()?;
    let len = cursor.u4()?;
    let code = cursor.bytes(len as usize)?;
    let handlers = cut_handlers(alloc, cursor)?;
    let attrs = cut_attrs(alloc, cursor)?;
    Ok(CutPart {
        max_stack,
        max_locals,
        code,
        handlers,
        attrs,
    })
}

// Reads an exception table.
fn cut_handlers(alloc: Global, cursor: &mut Cursor<'_>) -> Result<HandlerList, ClassFault>
    ensures { Takes (counted_at handler_at cursor.old) cursor.new result }
{
    let count = cursor.u2()?;
    let mut handlers = ListOf::new(alloc);
    for _ in 0..count {
        handlers.push(cut_handler(cursor)?)?;
    }
    Ok(handlers)
}

// Reads an entry of an exception table.
fn cut_handler(cursor: &mut Cursor<'_>) -> Result<Handler, ClassFault>
    ensures { Takes (handler_at cursor.old) cursor.new result }
{
    let start = cursor.u2()?;
    let end = cursor.u2()?;
    let at = cursor.u2()?;
    let catch_type = cursor.u2()?;
    Ok(Handler {
        start,
        end,
        at,
        catch_type,
    })
}
