//! Parts of class files.
ghost use Rattle.std.specs.Prelude.{◌≡◌, ◌+◌, ◌≤◌, [], ◌∷◌, ◌++◌, length, Some, IfOk, OnOk};
ghost use Rattle.class_model.specs.ModifiedUtf8.{IsText};
ghost use Rattle.class_model.specs.declared.class_file.Attr.TheVariants as attrs;
ghost use Rattle.class_model.specs.declared.pool.Const.TheVariants as consts;
ghost use Rattle.work_gen.specs.Values as values;

use class_model::{
    Attr, ByteList, ClassFile, CodePart, Const, ListOf, Method, MethodList, NoMemory, Pool, Text,
};
use std::alloc::Global;

/// Appends a text to a pool.
pub(crate) fn push_text(alloc: Global, pool: &mut Pool, text: &[u8]) -> Result<(), NoMemory>
    requires text { IsText text.now }
    requires few { length pool.old + 1 ≤ 65535 }
    ensures { OnOk result (pool.new ≡ pool.old ++ Some (consts.Utf8 text.now) ∷ []) }
{
    let text = Text::of_text(alloc, text)?;
    pool.push(Const::Utf8(text))
}

/// Appends a name to a pool, and behind it the class of this name.
pub(crate) fn push_class(alloc: Global, pool: &mut Pool, name: &[u8]) -> Result<(), NoMemory>
    requires text { IsText name.now }
    requires few { length pool.old + 2 ≤ 65535 }
    ensures { OnOk result (pool.new ≡ pool.old ++ values.class_name (length pool.old) name.now) }
{
    let index = pool.count();
    push_text(alloc, pool, name)?;
    pool.push(Const::Class(index))
}

/// A method without code.
pub(crate) fn native(alloc: Global, flags: u16, name: u16, desc: u16) -> Method
    ensures { result ≡ values.method flags name desc [] }
{
    Method {
        flags,
        name,
        desc,
        attrs: ListOf::new(alloc),
    }
}

/// A method of these access flags, of the indices of its name, of its descriptor and of `Code`.
pub(crate) fn method_of(
    alloc: Global,
    flags: u16,
    name: u16,
    desc: u16,
    attr: u16,
    part: CodePart,
) -> Result<Method, NoMemory>
    ensures { IfOk result
        (λ method. method ≡ values.method flags name desc (attrs.Code attr part ∷ [])) }
{
    let mut attrs = ListOf::new(alloc);
    attrs.push(Attr::Code { name: attr, part })?;
    Ok(Method {
        flags,
        name,
        desc,
        attrs,
    })
}

/// Code of one local, without handlers.
pub(crate) fn code_of(alloc: Global, max_stack: u16, code: &[u8]) -> Result<CodePart, NoMemory>
    ensures { IfOk result (λ part. part ≡ values.code_of max_stack code.now) }
{
    Ok(CodePart {
        max_stack,
        max_locals: 1,
        code: bytes_of(alloc, code)?,
        handlers: ListOf::new(alloc),
        attrs: ListOf::new(alloc),
    })
}

/// A list of these bytes.
pub(crate) fn bytes_of(alloc: Global, bytes: &[u8]) -> Result<ByteList, NoMemory>
    ensures { IfOk result (λ list. list ≡ bytes.now) }
{
    let mut items = Vec::with_capacity(alloc, bytes.len())?;
    items.extend_from_slice(bytes)?;
    Ok(ListOf::from_vec(items))
}

/// A class file of version 52.0 with these methods and no other member. Its own constant is the second.
pub(crate) fn class_of(
    alloc: Global,
    pool: Pool,
    flags: u16,
    super_class: u16,
    methods: MethodList,
) -> ClassFile
    ensures { result ≡ values.class_of pool flags super_class methods }
{
    ClassFile {
        major: 52,
        minor: 0,
        pool,
        flags,
        this_class: 2,
        super_class,
        interfaces: ListOf::new(alloc),
        fields: ListOf::new(alloc),
        methods,
        attrs: ListOf::new(alloc),
    }
}
