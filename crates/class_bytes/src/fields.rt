//! The fields of a class file (JVM Specification SE 8, 4.5, 4.7.2).
ghost use Rattle.std.specs.Prelude.{◌≡◌, [], ◌+◌, ◌<◌, ◌^◌, ◌↔◌, Some, IsTrue, List, length};
ghost use Rattle.class_model.specs.Answers.{Tells};
ghost use Rattle.class_model.specs.ClassOf.{fields_checks};
ghost use Rattle.class_model.specs.Members.{Signature, constant_value, has_named, is_named, stands_before, attrs_checks, field_attr_checks, field_checks, IsConstantOf, IsConstantValue, field_signature};
ghost use Rattle.class_model.specs.Members as members;
ghost use Rattle.class_model.specs.PoolChecks.{utf8_at};
ghost use Rattle.class_model.specs.Spelling.{field_bytes};
ghost use Rattle.class_model.specs.declared.class_file.Attr.{Attr};
ghost use Rattle.class_bytes.specs.Inner.Cut.{attr_of, attrs_of, field_of, fields_of};
ghost use Rattle.class_bytes.specs.Inner.Parts.{attrs_len, fields_len};

use crate::checks::{ask, ask_text};
use crate::cut::{CutAttr, CutMember};
use crate::flags::one_visibility;
use crate::known_shapes::KnownShapes;
use crate::names::CONSTANT_VALUE;
use crate::signatures::Signatures;
use class_model::{
    ACC_INTERFACE, ACC_STATIC, ClassFault, Const, FileRule, Pool, has, is_field_name,
};
use std::alloc::Global;

/// Checks the fields of a class with these flags, the first of which stands at this place, and answers the
/// place behind the last.
pub(crate) fn check_fields(
    alloc: Global,
    pool: &Pool,
    shapes: &KnownShapes<'_>,
    class_flags: u16,
    fields: &[CutMember<'_>],
    at: u64,
) -> Result<u64, ClassFault>
    requires shapes { shapes.now ≡ pool.now }
    requires fits { at + fields_len (fields_of fields.now) < 2 ^ 64 }
    ensures { Tells (fields_checks pool.now class_flags [] at (fields_of fields.now))
        (λ end. end ≡ at + fields_len (fields_of fields.now)) result }
{
    let mut signatures = Signatures::new(alloc, pool)?;
    let mut place = at;
    for field in fields {
        let is_again = signatures.add(field.name, field.desc)?;
        place = check_field(pool, shapes, class_flags, field, is_again, place)?;
    }
    Ok(place)
}

// Checks a field, which stands at this place behind a field of the same name and descriptor or not, and answers
// the place behind it.
fn check_field(
    pool: &Pool,
    shapes: &KnownShapes<'_>,
    class_flags: u16,
    field: &CutMember<'_>,
    is_again: bool,
    at: u64,
) -> Result<u64, ClassFault>
    requires shapes { shapes.now ≡ pool.now }
    requires fits { at + length (field_bytes (field_of field.now)) < 2 ^ 64 }
    ensures { (before : List Signature)
        → is_again ≡ stands_before pool.now before (field_signature (field_of field.now))
        → Tells (field_checks pool.now class_flags before at (field_of field.now))
        (λ end. end ≡ at + length (field_bytes (field_of field.now))) result }
{
    ask(fits_field(class_flags, field.flags), at, FileRule::Flags)?;
    ask(!is_again, at, FileRule::Twice)?;
    let name = ask_text(pool, field.name, at + 2)?;
    ask(is_field_name(name.bytes()), at + 2, FileRule::Name)?;
    let desc = ask_text(pool, field.desc, at + 4)?;
    ask(
        shapes.is_field_type(field.desc, desc.bytes()),
        at + 4,
        FileRule::Descriptor,
    )?;
    check_field_attrs(pool, field, desc.bytes(), at + 8)
}

// Whether the flags of a field fit each other and those of its class: the fields of an interface are static.
fn fits_field(class_flags: u16, flags: u16) -> bool
    ensures { result ≡ members.fits_field class_flags flags }
{
    one_visibility(flags) && (!has(class_flags, ACC_INTERFACE) || has(flags, ACC_STATIC))
}

// Checks the attributes of a field with this descriptor, the first of which stands at this place, and answers
// the place behind the last.
fn check_field_attrs(
    pool: &Pool,
    field: &CutMember<'_>,
    desc: &[u8],
    at: u64,
) -> Result<u64, ClassFault>
    requires fits { at + attrs_len (attrs_of field.now.attrs) < 2 ^ 64 }
    requires desc { utf8_at pool.now field.now.desc ≡ Some desc.now }
    ensures { Tells (attrs_checks (field_attr_checks pool.now (field_of field.now)) [] at
        (attrs_of field.now.attrs)) (λ end. end
        ≡ at + attrs_len (attrs_of field.now.attrs)) result }
{
    let mut place = at;
    let mut has_value = false;
    for attr in field.attrs.as_slice() {
        has_value |= check_field_attr(pool, field, desc, has_value, attr, place)?;
        place += 6 + attr.content.len() as u64;
    }
    Ok(place)
}

// Checks an attribute of a field of this descriptor, which stands at this place behind a ConstantValue or not,
// and answers whether it is a ConstantValue itself.
fn check_field_attr(
    pool: &Pool,
    field: &CutMember<'_>,
    desc: &[u8],
    has_value: bool,
    attr: &CutAttr<'_>,
    at: u64,
) -> Result<bool, ClassFault>
    requires desc { utf8_at pool.now field.now.desc ≡ Some desc.now }
    ensures { (before : List Attr) → has_value ≡ has_named pool.now constant_value before
        → Tells (field_attr_checks pool.now (field_of field.now) before at (attr_of attr.now))
        (λ is_value. is_value ≡ is_named pool.now constant_value (attr_of attr.now)) result }
{
    let name = ask_text(pool, attr.name, at)?;
    let is_value = name.bytes() == CONSTANT_VALUE;
    if has(field.flags, ACC_STATIC) && is_value {
        ask(!has_value, at, FileRule::Twice)?;
        ask(
            is_constant_value(pool, desc, attr.content),
            at,
            FileRule::Constant,
        )?;
    }
    Ok(is_value)
}

// Whether the content of a ConstantValue attribute names a constant of a field's descriptor.
fn is_constant_value(pool: &Pool, desc: &[u8], content: &[u8]) -> bool
    ensures { IsTrue result ↔ IsConstantValue pool.now (Some desc.now) content.now }
{
    match content {
        [high, low] => match pool.get(u16::from_be_bytes([*high, *low])) {
            Some(constant) => is_constant_of(desc, constant),
            None => false,
        },
        _ => false,
    }
}

const STRING_TYPE: &[u8] = b"Ljava/lang/String;";

// Whether a static field of a descriptor may begin with a constant (JVM Specification SE 8, table 4.7.2-A).
fn is_constant_of(desc: &[u8], constant: &Const) -> bool
    ensures { IsTrue result ↔ IsConstantOf desc.now (Some constant.now) }
{
    match constant {
        Const::Integer(_) => matches!(desc, [b'I' | b'S' | b'C' | b'B' | b'Z']),
        Const::Long(_) => matches!(desc, [b'J']),
        Const::Float(_) => matches!(desc, [b'F']),
        Const::Double(_) => matches!(desc, [b'D']),
        Const::String(_) => desc == STRING_TYPE,
        _ => false,
    }
}
