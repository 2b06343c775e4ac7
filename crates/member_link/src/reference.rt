//! Members as constants name them (JVM Specification SE 8, 4.4.2 and 4.4.6).
ghost use Rattle.std.specs.Prelude.{◌≡◌, IfOk};
ghost use Rattle.std.specs.Option.{option_copied, option_map};
ghost use Rattle.class_model.specs.Pool.{constant_at};
ghost use Rattle.class_model.specs.PoolChecks.{descriptor_at, name_at};
ghost use Rattle.member_link.specs.MemberRefs.{reference_meant};
ghost use Rattle.member_link.specs.References.{reference_at};
ghost use Rattle.member_link.specs.Signatures.{reference_of};

use class_model::{Const, NoMemory, Pool, Text};
use std::marker::Model;

/// A symbolic reference to a field or method: the class or array that it is looked up in or declared in, its name and its descriptor.
#[derive(Drop)]
pub struct Reference {
    pub class: Text,
    pub name: Text,
    pub desc: Text,
}

impl Model for Reference {
    ghost use Rattle.member_link.specs.References.{Reference as Named};

    ghost Value = { Named };

    ghost view = { λ reference. record {
      class = reference.class;
      name = reference.name;
      desc = reference.desc;
    } };
}

impl Reference {
    /// An equal reference, which shares the bytes of its texts.
    ///
    /// # Errors
    /// `NoMemory`, where memory runs out.
    pub fn copy(&self) -> Result<Reference, NoMemory>
        ensures { IfOk result (λ copy. copy ≡ self.now) }
    {
        Ok(Reference {
            class: self.class.copy()?,
            name: self.name.copy()?,
            desc: self.desc.copy()?,
        })
    }
}

/// A symbolic reference to a field or method as a constant pool has it, borrowed from there.
#[derive(Clone, Copy)]
pub struct MemberRef<'p> {
    pub class: &'p Text,
    pub name: &'p Text,
    pub desc: &'p Text,
}

impl<'p> MemberRef<'p> {
    /// An owned reference, which shares the bytes of its texts.
    ///
    /// # Errors
    /// `NoMemory`, where memory runs out.
    pub fn copy(&self) -> Result<Reference, NoMemory>
        ensures { IfOk result (λ copy. copy ≡ reference_meant self.now) }
    {
        Ok(Reference {
            class: self.class.copy()?,
            name: self.name.copy()?,
            desc: self.desc.copy()?,
        })
    }
}

/// The member that the constant at an index refers to, if it is one of a field or method.
pub fn member_at(pool: &Pool, index: u16) -> Option<MemberRef<'_>>
    ensures { option_map reference_meant result
        ≡ reference_of pool.now (constant_at pool.now index) }
{
    match pool.get(index) {
        Some(Const::Fieldref(class, member)) => reference_at(pool, *class, *member),
        Some(Const::Methodref(class, member)) => reference_at(pool, *class, *member),
        Some(Const::InterfaceMethodref(class, member)) => reference_at(pool, *class, *member),
        _ => None,
    }
}

/// The member that the constant at an index refers to, owned, if it is one of a field or method.
///
/// # Errors
/// `NoMemory`, where memory runs out.
pub fn reference_of(pool: &Pool, index: u16) -> Result<Option<Reference>, NoMemory>
    ensures { IfOk result
        (λ reference. reference ≡ reference_of pool.now (constant_at pool.now index)) }
{
    match member_at(pool, index) {
        Some(member) => Ok(Some(member.copy()?)),
        None => Ok(None),
    }
}

/// The reference of a class index and a NameAndType index, if all of it could be had.
pub(crate) fn reference_at(pool: &Pool, class: u16, member: u16) -> Option<MemberRef<'_>>
    ensures { option_map reference_meant result ≡ reference_at pool.now class member }
{
    let class = pool.class_name(class)?;
    let (name, desc) = pool.name_and_type(member)?;
    let name = pool.utf8(name)?;
    let desc = pool.utf8(desc)?;
    Some(MemberRef { class, name, desc })
}

/// The name of the NameAndType constant at an index, if one is there.
pub fn name_at(pool: &Pool, member: u16) -> Option<&Text>
    ensures { option_copied result ≡ name_at pool.now member }
{
    let (name, _) = pool.name_and_type(member)?;
    pool.utf8(name)
}

/// The descriptor of the NameAndType constant at an index, if one is there.
pub fn descriptor_at(pool: &Pool, member: u16) -> Option<&Text>
    ensures { option_copied result ≡ descriptor_at pool.now member }
{
    let (_, desc) = pool.name_and_type(member)?;
    pool.utf8(desc)
}
