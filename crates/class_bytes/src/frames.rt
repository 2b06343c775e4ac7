//! The attributes of a code, of which one StackMapTable is read (JVM Specification SE 8, 4.7.4).
ghost use Rattle.std.specs.Prelude.{◌≡◌, ◌==◌, ◌+◌, ◌<◌, ◌^◌, false, length, if◌then◌else◌, IfSome, IsSome};
ghost use Rattle.class_model.specs.Answers.{Tells};
ghost use Rattle.class_model.specs.Code.{inners_checks, inner_is_named, stack_map_table};
ghost use Rattle.class_model.specs.Methods.{IsDescriptorOf};
ghost use Rattle.class_model.specs.PoolChecks.{utf8_at};
ghost use Rattle.class_bytes.specs.Inner.CodeParts.{inners_len, inner_checks, table_checks, setting_of_code, entry_frame_of};
ghost use Rattle.class_bytes.specs.Inner.Cut.{inner_of, inners_of};

use crate::checks::{ask, ask_text};
use crate::cut::CutAttr;
use crate::entry::entry_frame;
use crate::method_code::MethodCode;
use crate::names::STACK_MAP_TABLE;
use class_model::{ClassFault, FileRule};
use map_frames::check_frames;
use std::alloc::Global;

/// Checks the attributes of a code, the first of which stands at this place.
pub(crate) fn check_inners(alloc: Global, code: &MethodCode<'_>, at: u64) -> Result<(), ClassFault>
    requires fits { at + inners_len (inners_of code.now.part.now.attrs) < 2 ^ 64 }
    requires descriptor { IfSome (utf8_at code.now.home.now.pool.now code.now.method.now.desc)
        (IsDescriptorOf code.now.method.now.flags) }
    requires there { IsSome (utf8_at code.now.home.now.pool.now code.now.method.now.desc) }
    ensures { Tells (inners_checks (setting_of_code code.now)
        (entry_frame_of code.now) false at (inners_of code.now.part.now.attrs))
        (λ done. Unit {0}) result }
{
    let mut place = at;
    let mut has_table = false;
    for attr in code.part.attrs.as_slice() {
        has_table |= check_inner(alloc, code, has_table, attr, place)?;
        place += 6 + attr.content.len() as u64;
    }
    Ok(())
}

// Checks an attribute of a code, which stands at this place behind a StackMapTable or not, and answers whether
// it is a StackMapTable itself.
fn check_inner(
    alloc: Global,
    code: &MethodCode<'_>,
    has_table: bool,
    attr: &CutAttr<'_>,
    at: u64,
) -> Result<bool, ClassFault>
    requires fits { at + 6 + length attr.now.content.now < 2 ^ 64 }
    requires descriptor { IfSome (utf8_at code.now.home.now.pool.now code.now.method.now.desc)
        (IsDescriptorOf code.now.method.now.flags) }
    requires there { IsSome (utf8_at code.now.home.now.pool.now code.now.method.now.desc) }
    ensures { Tells (inner_checks (setting_of_code code.now)
        (entry_frame_of code.now) has_table at (inner_of attr.now))
        (λ is_table. is_table
        ≡ inner_is_named code.now.home.now.pool.now stack_map_table
        (inner_of attr.now)) result }
{
    let name = ask_text(code.home.pool, attr.name, at)?;
    let is_table = name.bytes() == STACK_MAP_TABLE;
    if is_table {
        ask(!has_table, at, FileRule::Twice)?;
        check_table(alloc, code, attr.content, at)?;
    }
    Ok(is_table)
}

// Checks the content of a StackMapTable, whose attribute stands at this place.
fn check_table(
    alloc: Global,
    code: &MethodCode<'_>,
    content: &[u8],
    at: u64,
) -> Result<(), ClassFault>
    requires fits { at + 6 + length content.now < 2 ^ 64 }
    requires descriptor { IfSome (utf8_at code.now.home.now.pool.now code.now.method.now.desc)
        (IsDescriptorOf code.now.method.now.flags) }
    requires there { IsSome (utf8_at code.now.home.now.pool.now code.now.method.now.desc) }
    ensures { Tells (table_checks (setting_of_code code.now)
        (entry_frame_of code.now) at content.now) (λ done. Unit {0}) result }
{
    let entry = entry_frame(alloc, code.home, code.method)?;
    let part = code.part;
    match check_frames(
        alloc,
        code.home.pool,
        &entry,
        part.max_locals,
        part.max_stack,
        code.instrs,
        content,
    ) {
        Ok(()) => Ok(()),
        Err(ClassFault::Malformed { at: inside, rule }) => Err(ClassFault::Malformed {
            at: place_of(at, inside),
            rule,
        }),
        Err(fault @ (ClassFault::Version { .. } | ClassFault::NoMemory)) => { Err(fault) }
    }
}

// The place in the file of a place inside a table, whose attribute stands at the first: 0 is the attribute's own.
fn place_of(at: u64, inside: u64) -> u64
    requires { at + 6 + inside < 2 ^ 64 }
    ensures { result ≡ (if inside == 0 then at else at + 6 + inside) }
{
    if inside == 0 { at } else { at + 6 + inside }
}
