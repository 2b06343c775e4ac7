//! The code of generated methods.
ghost use Rattle.std.specs.Prelude.{◌≡◌, ◌<◌, IfOk};
ghost use Rattle.work_gen.specs.Generated as generated;

use crate::choices::Kind;
use crate::parts::bytes_of;
use class_model::{CodePart, Handler, HandlerList, InnerAttr, InnerAttrList, ListOf, NoMemory};
use std::alloc::Global;

// The index of the name StackMapTable.
const STACK_MAP_TABLE: u16 = 27;

const ADDS: &[u8] = &[
    0xbb, 0, 8, 0x59, 0x1a, 0x05, 0xb7, 0, 12, 0x4c, 0x2b, 0xb4, 0, 16, 0x2b, 0xb6, 0, 20, 0x60,
    0xac,
];

const LOOPS: &[u8] = &[
    0x03, 0x3c, 0x03, 0x3d, 0x1c, 0x1a, 0xa2, 0, 26, 0xbb, 0, 8, 0x59, 0x1c, 0x1c, 0xb7, 0, 12,
    0x4e, 0x1b, 0x2d, 0xb4, 0, 16, 0x60, 0x3c, 0x84, 2, 1, 0xa7, 0xff, 0xe7, 0x1b, 0xac,
];

const LOOPS_FRAMES: &[u8] = &[0, 2, 253, 0, 4, 1, 1, 250, 0, 27];

const BRANCHES: &[u8] = &[
    0xbb, 0, 8, 0x59, 0x04, 0x05, 0xb7, 0, 12, 0x4c, 0x1a, 0x05, 0xa0, 0, 6, 0x10, 9, 0xac, 0x1a,
    0x04, 0xa0, 0, 7, 0x2b, 0xb8, 0, 26, 0x2b, 0xb4, 0, 16, 0xac,
];

const BRANCHES_FRAMES: &[u8] = &[0, 2, 252, 0, 18, 7, 0, 8, 8];

const LOCKS: &[u8] = &[
    0xbb, 0, 8, 0x59, 0x1a, 0x03, 0xb7, 0, 12, 0x4c, 0x2b, 0x59, 0x4d, 0xc2, 0x2b, 0xb4, 0, 16,
    0x2c, 0xc3, 0xac, 0x4e, 0x2c, 0xc3, 0x2d, 0xbf,
];

const LOCKS_FRAMES: &[u8] = &[0, 1, 255, 0, 21, 0, 3, 1, 7, 0, 8, 7, 0, 4, 0, 1, 7, 0, 29];

// The exception table, whose handler is for every class.
const LOCKS_TABLE: &[Handler] = &[
    Handler {
        start: 14,
        end: 20,
        at: 21,
        catch_type: 0,
    },
    Handler {
        start: 21,
        end: 24,
        at: 21,
        catch_type: 0,
    },
];

/// The code of a method of this kind.
pub(crate) fn code_of_kind(alloc: Global, kind: Kind) -> Result<CodePart, NoMemory>
    ensures { IfOk result (λ part. part ≡ generated.kind_code kind) }
{
    match kind {
        Kind::Adds => part_of(alloc, 2, ADDS, &[], &[]),
        Kind::Loops => part_of(alloc, 4, LOOPS, &[], LOOPS_FRAMES),
        Kind::Branches => part_of(alloc, 2, BRANCHES, &[], BRANCHES_FRAMES),
        Kind::Locks => part_of(alloc, 4, LOCKS, LOCKS_TABLE, LOCKS_FRAMES),
    }
}

// Code of four stack entries and so many locals, with these handlers and frames.
fn part_of(
    alloc: Global,
    max_locals: u16,
    code: &[u8],
    table: &[Handler],
    frames: &[u8],
) -> Result<CodePart, NoMemory>
    ensures { IfOk result
        (λ part. part ≡ generated.part_of max_locals code.now table.now frames.now) }
{
    Ok(CodePart {
        max_stack: 4,
        max_locals,
        code: bytes_of(alloc, code)?,
        handlers: handlers_of(alloc, table)?,
        attrs: frames_of(alloc, frames)?,
    })
}

// A list of these entries of an exception table.
fn handlers_of(alloc: Global, table: &[Handler]) -> Result<HandlerList, NoMemory>
    ensures { IfOk result (λ list. list ≡ table.now) }
{
    let mut items = Vec::with_capacity(alloc, table.len())?;
    items.extend_from_slice(table)?;
    Ok(ListOf::from_vec(items))
}

// The StackMapTable attribute of these bytes, if there are any.
fn frames_of(alloc: Global, bytes: &[u8]) -> Result<InnerAttrList, NoMemory>
    ensures { IfOk result (λ attrs. attrs ≡ generated.frames_of bytes.now) }
{
    let mut attrs = ListOf::new(alloc);
    if !bytes.is_empty() {
        attrs.push(InnerAttr {
            name: STACK_MAP_TABLE,
            bytes: bytes_of(alloc, bytes)?,
        })?;
    }
    Ok(attrs)
}

/// The code of the constructor of the objects.
pub(crate) fn point_init(alloc: Global) -> Result<CodePart, NoMemory>
    ensures { IfOk result (λ part. part ≡ generated.point_init) }
{
    let code = [
        0x2a, 0xb7, 0, 10, 0x2a, 0x1b, 0xb5, 0, 14, 0x2a, 0x1c, 0xb5, 0, 17, 0xb1,
    ];
    plain_part(alloc, 2, 3, &code)
}

/// The code of the method that gives a field of the objects.
pub(crate) fn point_y(alloc: Global) -> Result<CodePart, NoMemory>
    ensures { IfOk result (λ part. part ≡ generated.point_y) }
{
    plain_part(alloc, 1, 1, &[0x2a, 0xb4, 0, 17, 0xac])
}

// Code without handlers and frames.
fn plain_part(
    alloc: Global,
    max_stack: u16,
    max_locals: u16,
    code: &[u8],
) -> Result<CodePart, NoMemory>
    ensures { IfOk result (λ part. part ≡ generated.plain_code max_stack max_locals code.now) }
{
    Ok(CodePart {
        max_stack,
        max_locals,
        code: bytes_of(alloc, code)?,
        handlers: ListOf::new(alloc),
        attrs: ListOf::new(alloc),
    })
}
