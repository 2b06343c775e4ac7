//! What a header keeps, cut out of a class file behind its pool (JVM Specification SE 8, 4.1, 4.5 to 4.7). Attributes are
//! skipped by their length.
ghost use Rattle.class_model.specs.Answers.{Gives, Takes};
ghost use Rattle.class_model.specs.Cutting.{counted_at};
ghost use Rattle.class_bytes.specs.Inner.HeaderParts.{skipped_at, member_head_at, cut_header_at};

use crate::cutting::{cut_attr, cut_indices};
use class_model::{ClassFault, Cursor, FileRule, IndexList, ListOf};
use std::alloc::Global;

/// A field or a method without its attributes.
#[derive(Clone, Copy)]
pub(crate) struct MemberHead {
    pub flags: u16,
    pub name: u16,
    pub desc: u16,
    /// How many bytes its attributes take, without their count.
    pub attrs: u64,
}

/// A class file without its pool and attributes.
#[derive(Drop)]
pub(crate) struct CutHeader {
    pub flags: u16,
    pub this_class: u16,
    pub super_class: u16,
    pub interfaces: IndexList,
    pub fields: ListOf<MemberHead>,
    pub methods: ListOf<MemberHead>,
}

/// Reads what stands behind the pool, to the last byte.
pub(crate) fn cut_header(alloc: Global, cursor: &mut Cursor<'_>) -> Result<CutHeader, ClassFault>
    ensures { Gives (cut_header_at cursor.old) result }
{
    let flags = cursor.u2()?;
    let this_class = cursor.u2()?;
    let super_class = cursor.u2()?;
    let interfaces = cut_indices(alloc, cursor)?;
    let fields = cut_heads(alloc, cursor)?;
    let methods = cut_heads(alloc, cursor)?;
    skip_attrs(cursor)?;
    if !cursor.is_empty() {
        return Err(ClassFault::Malformed {
            at: cursor.at(),
            rule: FileRule::Extra,
        });
    }
    Ok(CutHeader {
        flags,
        this_class,
        super_class,
        interfaces,
        fields,
        methods,
    })
}

// Reads the fields or the methods behind their count.
fn cut_heads(alloc: Global, cursor: &mut Cursor<'_>) -> Result<ListOf<MemberHead>, ClassFault>
    ensures { Takes (counted_at member_head_at cursor.old) cursor.new result }
{
    let count = cursor.u2()?;
    let mut members = ListOf::new(alloc);
    for _ in 0..count {
        members.push(cut_head(cursor)?)?;
    }
    Ok(members)
}

// Reads a field or a method.
fn cut_head(cursor: &mut Cursor<'_>) -> Result<MemberHead, ClassFault>
    ensures { Takes (member_head_at cursor.old) cursor.new result }
{
    let flags = cursor.u2()?;
    let name = cursor.u2()?;
    let desc = cursor.u2()?;
    let attrs = skip_attrs(cursor)?;
    Ok(MemberHead {
        flags,
        name,
        desc,
        attrs,
    })
}

// Skips attributes behind their count, and answers how many bytes they take without it.
fn skip_attrs(cursor: &mut Cursor<'_>) -> Result<u64, ClassFault>
    ensures { Takes (skipped_at cursor.old) cursor.new result }
{
    let count = cursor.u2()?;
    let before = cursor.rest().len();
    for _ in 0..count {
        cut_attr(cursor)?;
    }
    Ok((before - cursor.rest().len()) as u64)
}
