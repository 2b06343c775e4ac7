//! Code attributes (JVM Specification SE 8, 4.7.3, 4.9.1).
ghost use Rattle.std.specs.Prelude.{◌≡◌, ◌↔◌, ◌+◌, ◌<◌, ◌≤◌, ◌^◌, ◌&&◌, nat_lt, length, IfSome, IsSome, IsTrue, Ok};
ghost use Rattle.class_model.specs.Answers.{Tells};
ghost use Rattle.class_model.specs.Code.{code_part};
ghost use Rattle.class_model.specs.Instructions.{decoded};
ghost use Rattle.class_model.specs.Methods.{part_checks, content_checks, units_at_call, IsDescriptorOf};
ghost use Rattle.class_model.specs.PoolChecks.{utf8_at};
ghost use Rattle.class_bytes.specs.Inner.CodeParts.{parts_len, decoded_checks, parts_checks};
ghost use Rattle.class_bytes.specs.Inner.Cut.{home_seen, method_of, part_of};

use crate::checks::ask;
use crate::code_cutting::code_part;
use crate::cut::{CutMember, CutPart};
use crate::frames::check_inners;
use crate::handlers::check_handlers;
use crate::home::Home;
use crate::method_code::MethodCode;
use crate::operands::check_operands;
use class_model::{ACC_STATIC, ClassFault, FileRule, PlacedList, has, parameters_are_spelled};
use code_bytes::decode;
use std::alloc::Global;

/// Checks the content of a Code attribute of a method whose descriptor is that of its flags; the place is
/// that of the attribute.
pub(crate) fn check_code(
    alloc: Global,
    home: &Home<'_>,
    method: &CutMember<'_>,
    content: &[u8],
    at: u64,
) -> Result<(), ClassFault>
    requires shapes { home.now.shapes.now ≡ home.now.pool.now }
    requires fits { at + 6 + length content.now < 2 ^ 63 }
    requires descriptor { IfSome (utf8_at home.now.pool.now method.now.desc)
        (IsDescriptorOf method.now.flags) }
    requires there { IsSome (utf8_at home.now.pool.now method.now.desc) }
    ensures { Tells (content_checks (home_seen home.now) (method_of method.now) at
        (code_part content.now)) (λ done. Unit {0}) result }
{
    match code_part(alloc, content)? {
        Some(part) => check_part(alloc, home, method, &part, at),
        None => Err(ClassFault::Malformed {
            at,
            rule: FileRule::Attribute,
        }),
    }
}

// Checks the parts of a Code attribute, whose place this is.
fn check_part(
    alloc: Global,
    home: &Home<'_>,
    method: &CutMember<'_>,
    part: &CutPart<'_>,
    at: u64,
) -> Result<(), ClassFault>
    requires shapes { home.now.shapes.now ≡ home.now.pool.now }
    requires fits { at + 14 + parts_len (part_of part.now) < 2 ^ 63 }
    requires descriptor { IfSome (utf8_at home.now.pool.now method.now.desc)
        (IsDescriptorOf method.now.flags) }
    requires there { IsSome (utf8_at home.now.pool.now method.now.desc) }
    ensures { Tells (part_checks (home_seen home.now) (method_of method.now) at
        (part_of part.now)) (λ done. Unit {0}) result }
{
    ask(fits_len(part.code), at + 10, FileRule::CodeLength)?;
    ask(
        fits_locals(home, method, part.max_locals),
        at + 8,
        FileRule::Locals,
    )?;
    let instrs = decode_at(alloc, part.code, at + 14)?;
    let code = MethodCode {
        home,
        method,
        part,
        instrs: &instrs,
    };
    check_parts(alloc, &code, at + 14)
}

// The most bytes of a code.
const MAX_LEN: usize = 65_535;

// Whether a code is not empty and not too long.
fn fits_len(code: &[u8]) -> bool
    ensures { result ≡ (nat_lt 0 (length code.now) && nat_lt (length code.now) 65536) }
{
    !code.is_empty() && code.len() <= MAX_LEN
}

// Whether the parameters, this counted where there is one, have room in the locals.
fn fits_locals(home: &Home<'_>, method: &CutMember<'_>, max_locals: u16) -> bool
    requires shapes { home.now.shapes.now ≡ home.now.pool.now }
    requires descriptor { IfSome (utf8_at home.now.pool.now method.now.desc)
        (IsDescriptorOf method.now.flags) }
    ensures { IsTrue result
        ↔ IfSome (utf8_at home.now.pool.now method.now.desc)
        (λ text. units_at_call method.now.flags text ≤ max_locals) }
{
    parameters_are_spelled();
    let this = if has(method.flags, ACC_STATIC) { 0 } else { 1 };
    match home.shapes.at(method.desc) {
        Some(shape) => u32::from(shape.units) + this <= u32::from(max_locals),
        None => true,
    }
}

// The instructions of a code, which begins at this place and is not too long.
fn decode_at(alloc: Global, code: &[u8], start: u64) -> Result<PlacedList, ClassFault>
    requires some { 0 < length code.now }
    requires few { length code.now < 65536 }
    requires fits { start + length code.now < 2 ^ 63 }
    ensures { Tells (decoded_checks start code.now)
        (λ instrs. decoded code.now ≡ Ok instrs) result }
{
    match decode(alloc, code) {
        Ok(instrs) => Ok(instrs),
        Err(ClassFault::Malformed { at, rule }) => Err(ClassFault::Malformed {
            at: start + at,
            rule,
        }),
        Err(fault @ (ClassFault::Version { .. } | ClassFault::NoMemory)) => { Err(fault) }
    }
}

// Checks what stands in a code and behind it: the operands, the exception table and the attributes. The code
// begins at this place.
fn check_parts(alloc: Global, code: &MethodCode<'_>, start: u64) -> Result<(), ClassFault>
    requires shapes { code.now.home.now.shapes.now ≡ code.now.home.now.pool.now }
    requires fits { start + parts_len (part_of code.now.part.now) < 2 ^ 63 }
    requires descriptor { IfSome (utf8_at code.now.home.now.pool.now code.now.method.now.desc)
        (IsDescriptorOf code.now.method.now.flags) }
    requires there { IsSome (utf8_at code.now.home.now.pool.now code.now.method.now.desc) }
    ensures { Tells (parts_checks code.now start) (λ done. Unit {0}) result }
{
    let part = code.part;
    let home = code.home;
    let handlers = part.handlers.as_slice();
    let table = start + part.code.len() as u64 + 2;
    check_operands(home, part.max_locals, code.instrs.as_slice(), start)?;
    check_handlers(
        alloc,
        home.pool,
        code.instrs,
        part.code.len(),
        handlers,
        table,
    )?;
    check_inners(alloc, code, table + 8 * handlers.len() as u64 + 2)
}
