//! A checked class file as a value of its own, with the Code of its methods cut into parts.
ghost use Rattle.std.specs.Prelude.{◌≡◌, map, IfOk};
ghost use Rattle.class_model.specs.ClassOf.{entered, entered_method, entered_attr};
ghost use Rattle.class_bytes.specs.Inner.Cut.{attr_of, attrs_of, inners_of, part_of, method_of, methods_of, fields_of, class_of};

use crate::code_cutting::code_part;
use crate::cut::{CutAttr, CutBody, CutMember, CutPart};
use crate::names::{CODE, is_named};
use class_model::{
    Attr, AttrList, ByteList, ClassFile, CodePart, Field, FieldList, InnerAttr, InnerAttrList,
    ListOf, Method, MethodList, NoMemory, Pool,
};
use std::alloc::Global;

/// The class file of a pool and the parts behind it, whose bytes it copies.
pub(crate) fn enter(alloc: Global, pool: Pool, body: CutBody<'_>) -> Result<ClassFile, NoMemory>
    ensures { IfOk result (λ class. class ≡ entered (class_of pool body.entry)) }
{
    let (fields, methods, attrs) = enter_members(alloc, &pool, &body)?;
    Ok(ClassFile {
        major: body.version.major,
        minor: body.version.minor,
        pool,
        flags: body.flags,
        this_class: body.this_class,
        super_class: body.super_class,
        interfaces: body.interfaces,
        fields,
        methods,
        attrs,
    })
}

// The fields, the methods and the attributes.
fn enter_members(
    alloc: Global,
    pool: &Pool,
    body: &CutBody<'_>,
) -> Result<(FieldList, MethodList, AttrList), NoMemory>
    ensures { IfOk result (λ all. (all.0 ≡ fields_of body.now.fields)
        × (all.1 ≡ map (entered_method pool.now) (methods_of body.now.methods))
        × (all.2 ≡ attrs_of body.now.attrs)) }
{
    let fields = own_fields(alloc, body.fields.as_slice())?;
    let methods = enter_methods(alloc, pool, body.methods.as_slice())?;
    let attrs = own_attrs(alloc, body.attrs.as_slice())?;
    Ok((fields, methods, attrs))
}

// The fields.
fn own_fields(alloc: Global, fields: &[CutMember<'_>]) -> Result<FieldList, NoMemory>
    ensures { IfOk result (λ all. all ≡ fields_of fields.now) }
{
    let mut all = ListOf::from_vec(Vec::with_capacity(alloc, fields.len())?);
    for field in fields {
        let attrs = own_attrs(alloc, field.attrs.as_slice())?;
        all.push(Field {
            flags: field.flags,
            name: field.name,
            desc: field.desc,
            attrs,
        })?;
    }
    Ok(all)
}

// The methods.
fn enter_methods(
    alloc: Global,
    pool: &Pool,
    methods: &[CutMember<'_>],
) -> Result<MethodList, NoMemory>
    ensures { IfOk result (λ all. all ≡ map (entered_method pool.now) (methods_of methods.now)) }
{
    let mut all = ListOf::from_vec(Vec::with_capacity(alloc, methods.len())?);
    for method in methods {
        all.push(enter_method(alloc, pool, method)?)?;
    }
    Ok(all)
}

// A method, with its Code cut into parts.
fn enter_method(alloc: Global, pool: &Pool, method: &CutMember<'_>) -> Result<Method, NoMemory>
    ensures { IfOk result (λ entered. entered ≡ entered_method pool.now (method_of method.now)) }
{
    let attrs = enter_attrs(alloc, pool, method.attrs.as_slice())?;
    Ok(Method {
        flags: method.flags,
        name: method.name,
        desc: method.desc,
        attrs,
    })
}

// The attributes of a method.
fn enter_attrs(alloc: Global, pool: &Pool, attrs: &[CutAttr<'_>]) -> Result<AttrList, NoMemory>
    ensures { IfOk result (λ all. all ≡ map (entered_attr pool.now) (attrs_of attrs.now)) }
{
    let mut all = ListOf::from_vec(Vec::with_capacity(alloc, attrs.len())?);
    for attr in attrs {
        all.push(enter_attr(alloc, pool, attr)?)?;
    }
    Ok(all)
}

// An attribute of a method: one that is named Code in its parts.
fn enter_attr(alloc: Global, pool: &Pool, attr: &CutAttr<'_>) -> Result<Attr, NoMemory>
    ensures { IfOk result (λ entered. entered ≡ entered_attr pool.now (attr_of attr.now)) }
{
    if !is_named(pool, CODE, attr) {
        return own_attr(alloc, attr);
    }
    match code_part(alloc, attr.content)? {
        Some(part) => Ok(Attr::Code {
            name: attr.name,
            part: own_part(alloc, part)?,
        }),
        None => own_attr(alloc, attr),
    }
}

// The parts of a Code attribute.
fn own_part(alloc: Global, part: CutPart<'_>) -> Result<CodePart, NoMemory>
    ensures { IfOk result (λ own. own ≡ part_of part.entry) }
{
    let code = own_bytes(alloc, part.code)?;
    let attrs = own_inners(alloc, part.attrs.as_slice())?;
    Ok(CodePart {
        max_stack: part.max_stack,
        max_locals: part.max_locals,
        code,
        handlers: part.handlers,
        attrs,
    })
}

// The attributes of a code.
fn own_inners(alloc: Global, attrs: &[CutAttr<'_>]) -> Result<InnerAttrList, NoMemory>
    ensures { IfOk result (λ all. all ≡ inners_of attrs.now) }
{
    let mut all = ListOf::from_vec(Vec::with_capacity(alloc, attrs.len())?);
    for attr in attrs {
        all.push(InnerAttr {
            name: attr.name,
            bytes: own_bytes(alloc, attr.content)?,
        })?;
    }
    Ok(all)
}

// The attributes of a class or a field.
fn own_attrs(alloc: Global, attrs: &[CutAttr<'_>]) -> Result<AttrList, NoMemory>
    ensures { IfOk result (λ all. all ≡ attrs_of attrs.now) }
{
    let mut all = ListOf::from_vec(Vec::with_capacity(alloc, attrs.len())?);
    for attr in attrs {
        all.push(own_attr(alloc, attr)?)?;
    }
    Ok(all)
}

// An attribute as its bytes.
fn own_attr(alloc: Global, attr: &CutAttr<'_>) -> Result<Attr, NoMemory>
    ensures { IfOk result (λ own. own ≡ attr_of attr.now) }
{
    Ok(Attr::Raw {
        name: attr.name,
        bytes: own_bytes(alloc, attr.content)?,
    })
}

// A copy of bytes.
fn own_bytes(alloc: Global, bytes: &[u8]) -> Result<ByteList, NoMemory>
    ensures { IfOk result (λ own. own ≡ bytes.now) }
{
    Ok(ListOf::from_vec(Vec::from_slice(alloc, bytes)?))
}
