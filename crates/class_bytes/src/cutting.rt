//! The first pass: a class file cut into its items (JVM Specification SE 8, 4.1, 4.5 to 4.7).
ghost use Rattle.class_model.specs.Answers.{Gives, Takes};
ghost use Rattle.class_model.specs.Cutting.{u2_at, version_at, counted_at, attr_at, field_at, method_at};
ghost use Rattle.class_model.specs.Code.{inner_at};
ghost use Rattle.class_model.specs.Pool.{Constants};
ghost use Rattle.class_model.specs.Cutting.{body_at};
ghost use Rattle.class_bytes.specs.Inner.Cut.{result_seen, version_of, attr_of, inner_of, attrs_of, inners_of, field_of, method_of, fields_of, methods_of, class_of};

use crate::cut::{CutAttr, CutBody, CutMember, MAGIC, Version};
use class_model::{ClassFault, Cursor, FileRule, IndexList, ListOf};
use std::alloc::Global;

/// Reads the magic and the version.
pub(crate) fn cut_version(cursor: &mut Cursor<'_>) -> Result<Version, ClassFault>
    ensures { Takes (version_at cursor.old) cursor.new (result_seen version_of result) }
{
    if cursor.u4()? != MAGIC {
        return Err(ClassFault::Malformed {
            at: 0,
            rule: FileRule::Magic,
        });
    }
    let minor = cursor.u2()?;
    let major = cursor.u2()?;
    Ok(Version { minor, major })
}

/// Reads what stands behind the pool, to the last byte.
pub(crate) fn cut_body<'a>(
    alloc: Global,
    version: Version,
    cursor: &mut Cursor<'a>,
) -> Result<CutBody<'a>, ClassFault>
    ensures { (pool : Constants)
        → Gives (body_at (version_of version) pool cursor.old)
        (result_seen (class_of pool) result) }
{
    let flags = cursor.u2()?;
    let this_class = cursor.u2()?;
    let super_class = cursor.u2()?;
    let interfaces = cut_indices(alloc, cursor)?;
    let fields = cut_members(alloc, cursor)?;
    let methods = cut_members(alloc, cursor)?;
    let attrs = cut_attrs(alloc, cursor)?;
    if !cursor.is_empty() {
        return Err(ClassFault::Malformed {
            at: cursor.at(),
            rule: FileRule::Extra,
        });
    }
    Ok(CutBody {
        version,
        flags,
        this_class,
        super_class,
        interfaces,
        fields,
        methods,
        attrs,
    })
}

/// Reads indices behind their count.
pub(crate) fn cut_indices(alloc: Global, cursor: &mut Cursor<'_>) -> Result<IndexList, ClassFault>
    ensures { Takes (counted_at u2_at cursor.old) cursor.new result }
{
    let count = cursor.u2()?;
    let mut indices = ListOf::new(alloc);
    for _ in 0..count {
        indices.push(cursor.u2()?)?;
    }
    Ok(indices)
}

// Reads the fields or the methods, which are cut alike.
fn cut_members<'a>(
    alloc: Global,
    cursor: &mut Cursor<'a>,
) -> Result<ListOf<CutMember<'a>>, ClassFault>
    ensures fields { Takes (counted_at field_at cursor.old) cursor.new
        (result_seen (λ members. fields_of members) result) }
    ensures methods { Takes (counted_at method_at cursor.old) cursor.new
        (result_seen (λ members. methods_of members) result) }
{
    let count = cursor.u2()?;
    let mut members = ListOf::new(alloc);
    for _ in 0..count {
        members.push(cut_member(alloc, cursor)?)?;
    }
    Ok(members)
}

// Reads a field or a method.
fn cut_member<'a>(alloc: Global, cursor: &mut Cursor<'a>) -> Result<CutMember<'a>, ClassFault>
    ensures field { Takes (field_at cursor.old) cursor.new (result_seen field_of result) }
    ensures method { Takes (method_at cursor.old) cursor.new (result_seen method_of result) }
{
    let flags = cursor.u2()?;
    let name = cursor.u2()?;
    let desc = cursor.u2()?;
    let attrs = cut_attrs(alloc, cursor)?;
    Ok(CutMember {
        flags,
        name,
        desc,
        attrs,
    })
}

/// Reads the attributes of a class, a member or a code.
pub(crate) fn cut_attrs<'a>(
    alloc: Global,
    cursor: &mut Cursor<'a>,
) -> Result<ListOf<CutAttr<'a>>, ClassFault>
    ensures attrs { Takes (counted_at attr_at cursor.old) cursor.new
        (result_seen (λ attrs. attrs_of attrs) result) }
    ensures inners { Takes (counted_at inner_at cursor.old) cursor.new
        (result_seen (λ attrs. inners_of attrs) result) }
{
    let count = cursor.u2()?;
    let mut attrs = ListOf::new(alloc);
    for _ in 0..count {
        attrs.push(cut_attr(cursor)?)?;
    }
    Ok(attrs)
}

/// Reads an attribute: its name, length and content.
pub(crate) fn cut_attr<'a>(cursor: &mut Cursor<'a>) -> Result<CutAttr<'a>, ClassFault>
    ensures attr { Takes (attr_at cursor.old) cursor.new (result_seen attr_of result) }
    ensures inner { Takes (inner_at cursor.old) cursor.new (result_seen inner_of result) }
{
    let name = cursor.u2()?;
    let len = cursor.u4()?;
    let content = cursor.bytes(len as usize)?;
    Ok(CutAttr { name, content })
}
