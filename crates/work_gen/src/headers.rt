//! The headers of the smallest library that linking accepts.
ghost use Rattle.std.specs.Prelude.{◌≡◌, ◌∷◌, [], ◌++◌, true, Some, None, IfOk, OnOk};
ghost use Rattle.class_model.specs.ModifiedUtf8.{is_plain_text};
ghost use Rattle.class_tree.specs.Names.{object};
ghost use Rattle.work_gen.specs.BaseLibrary as library;

use crate::base::{FINAL, INTERFACE, OPEN};
use class_model::{
    ACC_NATIVE, ACC_PROTECTED, ACC_PUBLIC, ACC_STATIC, Header, INIT, ListOf, Member, MemberList,
    NoMemory, Text,
};
use class_tree::{HeaderList, METHOD_HANDLE, OBJECT, THROWABLE, machine_throwables};
use std::alloc::Global;

/// The headers of the class files of `base_library`, in the same order.
///
/// # Errors
/// `NoMemory` where memory runs out.
pub fn base_headers(alloc: Global) -> Result<HeaderList, NoMemory>
    ensures { IfOk result (λ headers. headers ≡ library.base_headers) }
{
    let mut headers = ListOf::new(alloc);
    push_named_headers(alloc, &mut headers)?;
    for name in machine_throwables() {
        headers.push(thrown_header(alloc, THROWABLE, name)?)?;
    }
    Ok(headers)
}

// Appends those of the classes but for the throwables that instructions raise.
fn push_named_headers(alloc: Global, headers: &mut HeaderList) -> Result<(), NoMemory>
    ensures { OnOk result (headers.new ≡ headers.old ++ library.named_headers) }
{
    headers.push(root_header(alloc)?)?;
    push_memberless(alloc, headers, INTERFACE, b"java/lang/Cloneable")?;
    push_memberless(alloc, headers, INTERFACE, b"java/io/Serializable")?;
    push_memberless(alloc, headers, FINAL, b"java/lang/String")?;
    push_memberless(alloc, headers, FINAL, b"java/lang/Class")?;
    push_memberless(alloc, headers, OPEN, METHOD_HANDLE)?;
    push_memberless(alloc, headers, OPEN, b"java/lang/invoke/MethodType")?;
    headers.push(keeper_header(alloc)?)?;
    headers.push(thrown_header(alloc, OBJECT, THROWABLE)?)
}

// Appends the header of a class without members, below `java/lang/Object`.
fn push_memberless(
    alloc: Global,
    headers: &mut HeaderList,
    flags: u16,
    name: &[u8],
) -> Result<(), NoMemory>
    requires { is_plain_text name.now ≡ true }
    ensures { OnOk result
        (headers.new ≡ headers.old ++ library.class name.now flags (Some object) [] ∷ []) }
{
    headers.push(header(alloc, name, flags, OBJECT, ListOf::new(alloc))?)
}

// The header of a throwable.
fn thrown_header(alloc: Global, super_name: &[u8], name: &[u8]) -> Result<Header, NoMemory>
    requires super_name { is_plain_text super_name.now ≡ true }
    requires name { is_plain_text name.now ≡ true }
    ensures { IfOk result
        (λ header. header ≡ library.thrown_header super_name.now name.now) }
{
    let mut methods = ListOf::new(alloc);
    methods.push(constructor(alloc)?)?;
    header(alloc, name, OPEN, super_name, methods)
}

// The header of `java/lang/Object`.
fn root_header(alloc: Global) -> Result<Header, NoMemory>
    ensures { IfOk result (λ header. header ≡ library.root_header) }
{
    let flags = ACC_PROTECTED | ACC_NATIVE;
    let mut methods = ListOf::new(alloc);
    methods.push(constructor(alloc)?)?;
    methods.push(member(alloc, flags, b"clone", b"()Ljava/lang/Object;")?)?;
    methods.push(member(alloc, flags, b"finalize", b"()V")?)?;
    Ok(Header {
        name: Text::of_plain(alloc, OBJECT)?,
        flags: OPEN,
        super_name: None,
        interfaces: ListOf::new(alloc),
        fields: ListOf::new(alloc),
        methods,
    })
}

// The header of the class `L`.
fn keeper_header(alloc: Global) -> Result<Header, NoMemory>
    ensures { IfOk result (λ header. header ≡ library.keeper_header) }
{
    let flags = ACC_PUBLIC | ACC_STATIC | ACC_NATIVE;
    let mut methods = ListOf::new(alloc);
    methods.push(member(alloc, flags, b"use", b"(Ljava/lang/Object;)V")?)?;
    methods.push(member(alloc, flags, b"keep", b"(Ljava/lang/Object;)V")?)?;
    header(alloc, b"L", OPEN, OBJECT, methods)
}

// A public constructor without parameters.
fn constructor(alloc: Global) -> Result<Member, NoMemory>
    ensures { IfOk result (λ member. member ≡ library.constructor) }
{
    member(alloc, ACC_PUBLIC, INIT, b"()V")
}

// A method of these access flags, this name and this descriptor.
fn member(alloc: Global, flags: u16, name: &[u8], desc: &[u8]) -> Result<Member, NoMemory>
    requires name { is_plain_text name.now ≡ true }
    requires desc { is_plain_text desc.now ≡ true }
    ensures { IfOk result (λ member. member ≡ library.member flags name.now desc.now) }
{
    Ok(Member {
        flags,
        name: Text::of_plain(alloc, name)?,
        desc: Text::of_plain(alloc, desc)?,
    })
}

// The header of a class with these methods and no other member, below another.
fn header(
    alloc: Global,
    name: &[u8],
    flags: u16,
    super_name: &[u8],
    methods: MemberList,
) -> Result<Header, NoMemory>
    requires name { is_plain_text name.now ≡ true }
    requires super_name { is_plain_text super_name.now ≡ true }
    ensures { IfOk result
        (λ header. header ≡ library.class name.now flags (Some super_name.now) methods) }
{
    Ok(Header {
        name: Text::of_plain(alloc, name)?,
        flags,
        super_name: Some(Text::of_plain(alloc, super_name)?),
        interfaces: ListOf::new(alloc),
        fields: ListOf::new(alloc),
        methods,
    })
}
