//! What a header keeps is asked in file order, and kept (JVM Specification SE 8, 4.1 to 4.6). The texts of the pool are
//! lent, and those that are kept are copied.
ghost use Rattle.std.specs.Prelude.{◌≡◌, ◌+◌, ◌*◌, ◌<◌, ◌^◌, [], ◌∷◌, Some, None, length, map, IfOk, IsSome};
ghost use Rattle.class_model.specs.Answers.{Tells};
ghost use Rattle.class_model.specs.Checks.{check};
ghost use Rattle.class_model.specs.Members.{class_name_checks, super_checks, interfaces_checks};
ghost use Rattle.class_model.specs.ModifiedUtf8.{IsText};
ghost use Rattle.class_model.specs.PoolChecks.{utf8_at, class_at};
ghost use Rattle.class_model.specs.declared.fault.FileRule.TheVariants as rules;
ghost use Rattle.pool_bytes.specs.Texts.{HasTexts};
ghost use Rattle.class_bytes.specs.Inner.HeaderParts.{field_head_checks, method_head_checks, member_checks, members_checks, members_len, header_len, cut_header_checks, class_name_in, member_in, header_in};
ghost use Rattle.class_bytes.specs.Inner.Shapes.{IsShape};

use crate::checks::ask;
use crate::header_cutting::{CutHeader, MemberHead};
use crate::methods::{fits_units, is_name_with};
use class_model::{
    ClassFault, FileRule, Header, ListOf, Member, MemberList, MethodShape, NoMemory, Text,
    TextList, a_descriptor_of_a_text, is_class_name, is_field_descriptor, is_field_name,
    method_shape,
};
use pool_bytes::RawPool;
use std::alloc::Global;

/// Checks what a header keeps, the flags of the class at this place, and answers the header.
pub(crate) fn own_header(
    alloc: Global,
    pool: &RawPool<'_>,
    head: &CutHeader,
    at: u64,
) -> Result<Header, ClassFault>
    requires texts { HasTexts pool.now }
    requires none { class_at pool.now 0 ≡ None }
    requires room { at + header_len head.now < 2 ^ 64 }
    ensures { Tells (cut_header_checks pool.now at head.now)
        (λ header. header ≡ header_in pool.now head.now) result }
{
    let name = own_class_name(alloc, pool, head.this_class, at + 2)?;
    let super_name = own_super(alloc, pool, head.super_class, at + 4)?;
    let indices = head.interfaces.as_slice();
    let interfaces = own_interfaces(alloc, pool, indices, at + 8)?;
    let fields_at = at + 8 + 2 * indices.len() as u64 + 2;
    let (fields, end) = own_members(
        alloc,
        pool,
        MemberKind::Field,
        head.fields.as_slice(),
        fields_at,
    )?;
    let (methods, _) = own_members(
        alloc,
        pool,
        MemberKind::Method,
        head.methods.as_slice(),
        end + 2,
    )?;
    Ok(Header {
        name,
        flags: head.flags,
        super_name,
        interfaces,
        fields,
        methods,
    })
}

// ---- the head

// Checks that an index, which is at this place, names a class by a class name, and answers the name.
fn own_class_name(
    alloc: Global,
    pool: &RawPool<'_>,
    index: u16,
    at: u64,
) -> Result<Text, ClassFault>
    requires { HasTexts pool.now }
    ensures { Tells (class_name_checks pool.now at index)
        (λ name. class_at pool.now index ≡ Some name) result }
{
    let Some(name) = pool.class_text(index) else {
        return Err(ClassFault::Malformed {
            at,
            rule: FileRule::Index,
        });
    };
    if !is_class_name(name) {
        return Err(ClassFault::Malformed {
            at,
            rule: FileRule::Name,
        });
    }
    Ok(Text::of_text(alloc, name)?)
}

// Checks the superclass at this place, or that there is none, and answers its name.
fn own_super(
    alloc: Global,
    pool: &RawPool<'_>,
    index: u16,
    at: u64,
) -> Result<Option<Text>, ClassFault>
    requires texts { HasTexts pool.now }
    requires none { class_at pool.now 0 ≡ None }
    ensures { Tells (super_checks pool.now at index)
        (λ name. name ≡ class_at pool.now index) result }
{
    if index == 0 {
        return Ok(None);
    }
    Ok(Some(own_class_name(alloc, pool, index, at)?))
}

// Checks the interfaces, the first of which stands at this place, and answers their names.
fn own_interfaces(
    alloc: Global,
    pool: &RawPool<'_>,
    indices: &[u16],
    at: u64,
) -> Result<TextList, ClassFault>
    requires texts { HasTexts pool.now }
    requires room { at + 2 * length indices.now < 2 ^ 64 }
    ensures { Tells (interfaces_checks pool.now at indices.now)
        (λ names. names ≡ map (class_name_in pool.now) indices.now) result }
{
    let mut names = ListOf::new(alloc);
    let mut place = at;
    for index in indices {
        names.push(own_class_name(alloc, pool, *index, place)?)?;
        place += 2;
    }
    Ok(names)
}

// ---- members

// How many bytes a member takes without its attributes, their count counted.
const MEMBER_LEN: u64 = 8;

/// What members are.
#[derive(Clone, Copy, PartialEq, Eq)]
pub(crate) enum MemberKind {
    Field,
    Method,
}

// Checks members, the first of which stands at this place, and answers what is kept of them and the place behind the last.
fn own_members(
    alloc: Global,
    pool: &RawPool<'_>,
    kind: MemberKind,
    members: &[MemberHead],
    at: u64,
) -> Result<(MemberList, u64), ClassFault>
    requires texts { HasTexts pool.now }
    requires room { at + members_len members.now < 2 ^ 64 }
    ensures { Tells (members_checks kind pool.now at members.now)
        (λ own. (own.0 ≡ map (member_in pool.now) members.now)
        × (own.1 ≡ at + members_len members.now)) result }
{
    let mut all = ListOf::new(alloc);
    let mut place = at;
    for member in members {
        all.push(own_member(alloc, pool, kind, member, place)?)?;
        place += MEMBER_LEN + member.attrs;
    }
    Ok((all, place))
}

// Checks a member, which stands at this place, and answers what is kept of it.
fn own_member(
    alloc: Global,
    pool: &RawPool<'_>,
    kind: MemberKind,
    member: &MemberHead,
    at: u64,
) -> Result<Member, ClassFault>
    requires texts { HasTexts pool.now }
    requires room { at + 8 < 2 ^ 64 }
    ensures { Tells (member_checks kind pool.now at member.now)
        (λ own. own ≡ member_in pool.now member.now) result }
{
    let (name, desc) = match kind {
        MemberKind::Field => check_field(pool, member, at)?,
        MemberKind::Method => check_method(pool, member, at)?,
    };
    Ok(Member {
        flags: member.flags,
        name: Text::of_text(alloc, name)?,
        desc: Text::of_text(alloc, desc)?,
    })
}

// Checks a field, which stands at this place, and lends its name and its descriptor.
fn check_field<'a>(
    pool: &'a RawPool<'_>,
    field: &MemberHead,
    at: u64,
) -> Result<(&'a [u8], &'a [u8]), ClassFault>
    requires texts { HasTexts pool.now }
    requires room { at + 8 < 2 ^ 64 }
    ensures { Tells (field_head_checks pool.now at field.now)
        (λ lent. (utf8_at pool.now field.now.name ≡ Some lent.0.now)
        × IsText lent.0.now
        × (utf8_at pool.now field.now.desc ≡ Some lent.1.now)
        × IsText lent.1.now) result }
{
    let name = ask_text(pool, field.name, at + 2)?;
    ask(is_field_name(name), at + 2, FileRule::Name)?;
    let desc = ask_text(pool, field.desc, at + 4)?;
    ask(is_field_descriptor(desc), at + 4, FileRule::Descriptor)?;
    Ok((name, desc))
}

// Checks a method, which stands at this place, and lends its name and its descriptor.
fn check_method<'a>(
    pool: &'a RawPool<'_>,
    method: &MemberHead,
    at: u64,
) -> Result<(&'a [u8], &'a [u8]), ClassFault>
    requires texts { HasTexts pool.now }
    requires room { at + 8 < 2 ^ 64 }
    ensures { Tells (method_head_checks pool.now at method.now)
        (λ lent. (utf8_at pool.now method.now.name ≡ Some lent.0.now)
        × IsText lent.0.now
        × (utf8_at pool.now method.now.desc ≡ Some lent.1.now)
        × IsText lent.1.now) result }
{
    let shape = shape_at(pool, method.desc);
    let name = ask_text(pool, method.name, at + 2)?;
    ask(is_name_with(name, shape), at + 2, FileRule::Name)?;
    let desc = ask_text(pool, method.desc, at + 4)?;
    ask(
        fits_units(method.flags, shape),
        at + 4,
        FileRule::Descriptor,
    )?;
    Ok((name, desc))
}

// The shape of the method descriptor at an index, if one is there.
fn shape_at(pool: &RawPool<'_>, index: u16) -> Option<MethodShape>
    requires { HasTexts pool.now }
    ensures { IsShape (utf8_at pool.now index) result }
{
    let text = pool.text(index)?;
    a_descriptor_of_a_text();
    method_shape(text)
}

// ---- texts

// Asks that an index, which is at this place, names a Utf8 constant, and lends its text.
fn ask_text<'a>(pool: &'a RawPool<'_>, index: u16, at: u64) -> Result<&'a [u8], ClassFault>
    requires { HasTexts pool.now }
    ensures { Tells (check at rules.Index (IsSome (utf8_at pool.now index)) ∷ [])
        (λ text. (utf8_at pool.now index ≡ Some text.now) × IsText text.now) result }
{
    match pool.text(index) {
        Some(text) => Ok(text),
        None => Err(ClassFault::Malformed {
            at,
            rule: FileRule::Index,
        }),
    }
}
