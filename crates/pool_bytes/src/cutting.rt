//! Cutting a constant pool out of bytes, from left to right.
ghost use Rattle.std.specs.Prelude.{◌≡◌, ◌≢◌, ◌<◌, ◌+◌, ◌≤◌, true, false, length, IfOk};
ghost use Rattle.class_model.specs.Answers.{Takes};
ghost use Rattle.class_model.specs.Cutting.{pool_at, fields_at, u2_pair_at};
ghost use Rattle.class_model.specs.Cutting as cutting;
ghost use Rattle.class_model.specs.Pool.{entries_of};
ghost use Rattle.pool_bytes.specs.Behind.{IsBehind};
ghost use Rattle.pool_bytes.specs.Inner.Entries.{indices_of, is_number_tag, entry_at};

use crate::raw::{RawConst, RawForm, RawPool};
use class_model::constant_tags::{
    CLASS_TAG, DOUBLE_TAG, FIELDREF_TAG, FLOAT_TAG, INTEGER_TAG, INTERFACE_METHODREF_TAG,
    INVOKE_DYNAMIC_TAG, LONG_TAG, METHOD_HANDLE_TAG, METHOD_TYPE_TAG, METHODREF_TAG,
    NAME_AND_TYPE_TAG, STRING_TAG, UTF8_TAG,
};
use class_model::{ClassFault, Const, Cursor, FileRule};
use std::alloc::Global;

/// The constant pool of a class file of this major version, from its count on. Its texts are neither
/// checked nor copied (JVM Specification SE 8, 4.4).
///
/// # Errors
/// `Malformed` at the first item that needs more bytes than there are, with `Short`; or with `Tag`, at a
/// count of 0, at a tag that is unknown or not of the version, or at that of a long or double at the last
/// index. `NoMemory`, where memory runs out. The cursor may then stand behind what was read.
pub fn cut_pool<'a>(
    alloc: Global,
    major: u16,
    cursor: &mut Cursor<'a>,
) -> Result<RawPool<'a>, ClassFault>
    ensures taken { Takes (pool_at major cursor.old) cursor.new result }
    ensures behind { IsBehind cursor.old cursor.new }
{
    let at = cursor.at();
    let count = cursor.u2()?;
    if count == 0 {
        return Err(ClassFault::Malformed {
            at,
            rule: FileRule::Tag,
        });
    }
    let mut pool = RawPool::new(alloc);
    while pool.count() < count {
        let constant = entry(major, pool.count(), count, cursor)?;
        pool.push(constant)?;
    }
    Ok(pool)
}

// The constant at an index of a pool of this count: its tag, which is tested before what follows, and its
// fields.
#[tactic(auto, unfolding(crate::specs::Inner::Entries::entry_at), using(crate::proofs::Moves::stays, crate::proofs::Moves::u1_then))]
fn entry<'a>(
    major: u16,
    index: u16,
    count: u16,
    cursor: &mut Cursor<'a>,
) -> Result<RawConst<'a>, ClassFault>
    requires { index < count }
    ensures taken { Takes (entry_at major index count cursor.old) cursor.new result }
    ensures behind { IsBehind cursor.old cursor.new }
    ensures within { IfOk result (λ constant. index + length (entries_of constant) ≤ count) }
{
    let at = cursor.at();
    let tag = cursor.u1()?;
    if !may_stand(major, index, count, tag) {
        return Err(ClassFault::Malformed {
            at,
            rule: FileRule::Tag,
        });
    }
    fields(tag, cursor)
}

// Whether a tag is known, and is not that of a long or double at the last index.
fn may_stand(major: u16, index: u16, count: u16, tag: u8) -> bool
    requires { index < count }
    ensures { result ≡ cutting.may_stand major index count tag }
{
    is_tag(major, tag) && !(matches!(tag, LONG_TAG | DOUBLE_TAG) && index + 1 == count)
}

// Whether a tag is one of a class file of this major version: method handles, method types and
// invokedynamic stand from version 51 on.
fn is_tag(major: u16, tag: u8) -> bool
    ensures { result ≡ cutting.is_tag major tag }
{
    match tag {
        UTF8_TAG | INTEGER_TAG..=NAME_AND_TYPE_TAG => true,
        METHOD_HANDLE_TAG | METHOD_TYPE_TAG | INVOKE_DYNAMIC_TAG => major >= 51,
        _ => false,
    }
}

// The constant of a known tag, from behind the tag.
fn fields<'a>(tag: u8, cursor: &mut Cursor<'a>) -> Result<RawConst<'a>, ClassFault>
    ensures taken { Takes (fields_at tag cursor.old) cursor.new result }
    ensures behind { IsBehind cursor.old cursor.new }
    ensures units { IfOk result (λ constant. length (entries_of constant) ≡ indices_of tag) }
{
    match tag {
        UTF8_TAG => text(cursor),
        INTEGER_TAG..=STRING_TAG | METHOD_HANDLE_TAG | METHOD_TYPE_TAG => {
            Ok(RawConst::new(RawForm::Constant(number(tag, cursor)?)))
        }
        _ => Ok(RawConst::new(RawForm::Constant(member(tag, cursor)?))),
    }
}

// The text of a Utf8 constant, behind its length.
#[tactic(auto, unfolding(class_model::specs::Cutting::fields_at), using(crate::proofs::Moves::stays, crate::proofs::Moves::u2_then, crate::proofs::Moves::bytes_then))]
fn text<'a>(cursor: &mut Cursor<'a>) -> Result<RawConst<'a>, ClassFault>
    ensures taken { Takes (fields_at 1 cursor.old) cursor.new result }
    ensures behind { IsBehind cursor.old cursor.new }
    ensures units { IfOk result (λ constant. length (entries_of constant) ≡ 1) }
{
    let len = cursor.u2()?;
    let text = cursor.bytes(usize::from(len))?;
    Ok(RawConst::new(RawForm::Text(text)))
}

// A constant of one number, or a method handle.
#[tactic(auto, unfolding(class_model::specs::Cutting::fields_at), using(crate::proofs::Moves::stays, crate::proofs::Moves::u1_then, crate::proofs::Moves::u2_then, crate::proofs::Moves::u4_then, crate::proofs::Moves::u8_then))]
fn number(tag: u8, cursor: &mut Cursor<'_>) -> Result<Const, ClassFault>
    requires { is_number_tag tag ≡ true }
    ensures taken { Takes (fields_at tag cursor.old) cursor.new result }
    ensures behind { IsBehind cursor.old cursor.new }
    ensures units { IfOk result (λ constant. length (entries_of constant) ≡ indices_of tag) }
{
    match tag {
        INTEGER_TAG => Ok(Const::Integer(cursor.u4()?.cast_signed())),
        FLOAT_TAG => Ok(Const::Float(cursor.u4()?)),
        LONG_TAG => Ok(Const::Long(cursor.eight_bytes()?.cast_signed())),
        DOUBLE_TAG => Ok(Const::Double(cursor.eight_bytes()?)),
        CLASS_TAG => Ok(Const::Class(cursor.u2()?)),
        STRING_TAG => Ok(Const::String(cursor.u2()?)),
        METHOD_HANDLE_TAG => {
            let kind = cursor.u1()?;
            Ok(Const::MethodHandle(kind, cursor.u2()?))
        }
        _ => Ok(Const::MethodType(cursor.u2()?)),
    }
}

// A constant of two indices.
#[tactic(auto, unfolding(class_model::specs::Cutting::fields_at))]
fn member(tag: u8, cursor: &mut Cursor<'_>) -> Result<Const, ClassFault>
    requires no_text { tag ≢ 1 }
    requires no_number { is_number_tag tag ≡ false }
    ensures taken { Takes (fields_at tag cursor.old) cursor.new result }
    ensures behind { IsBehind cursor.old cursor.new }
    ensures units { IfOk result (λ constant. length (entries_of constant) ≡ indices_of tag) }
{
    let (first, second) = u2_pair(cursor)?;
    Ok(match tag {
        FIELDREF_TAG => Const::Fieldref(first, second),
        METHODREF_TAG => Const::Methodref(first, second),
        INTERFACE_METHODREF_TAG => Const::InterfaceMethodref(first, second),
        NAME_AND_TYPE_TAG => Const::NameAndType(first, second),
        _ => Const::InvokeDynamic(first, second),
    })
}

// Two numbers of two bytes.
#[tactic(auto, using(crate::proofs::Moves::stays, crate::proofs::Moves::u2_then))]
fn u2_pair(cursor: &mut Cursor<'_>) -> Result<(u16, u16), ClassFault>
    ensures taken { Takes (u2_pair_at cursor.old) cursor.new result }
    ensures behind { IsBehind cursor.old cursor.new }
{
    let first = cursor.u2()?;
    Ok((first, cursor.u2()?))
}
