//! What an instruction refers to.
use crate::pool_texts::{class_name, utf8};
use class_model::{Const, Instr, Pool, Text};
use class_tree::{LinkRule, Tree};
use member_link::{Found, find_field, find_method};

/// Where references stand: a class of a hierarchy with its constants; and the rule that one of them breaks.
#[derive(Clone, Copy)]
pub(crate) struct Use<'a> {
    pub tree: &'a Tree,
    pub from: &'a Text,
    pub pool: &'a Pool,
    pub rule: LinkRule,
}

/// A field or method that a constant names.
#[derive(Clone, Copy)]
pub(crate) struct Reference<'a> {
    pub kind: MemberRef,
    pub class: &'a Text,
    pub name: &'a Text,
    pub desc: &'a Text,
}

/// The kind of a constant that names a member.
#[derive(Clone, Copy, PartialEq, Eq)]
pub(crate) enum MemberRef {
    Field,
    Method,
    InterfaceMethod,
}

/// The constant that an instruction names. Of a method handle it is what that refers to.
pub(crate) fn constant_of<'a>(pool: &'a Pool, instr: &Instr) -> Option<&'a Const> {
    match pool.get(index_of(instr)?)? {
        Const::MethodHandle(_, reference) => pool.get(*reference),
        constant => Some(constant),
    }
}

fn index_of(instr: &Instr) -> Option<u16> {
    match instr {
        Instr::Ldc(index)
        | Instr::GetStatic(index)
        | Instr::PutStatic(index)
        | Instr::GetField(index)
        | Instr::PutField(index)
        | Instr::Invoke(_, index, _)
        | Instr::Dynamic(index) => Some(*index),
        _ => class_index(instr),
    }
}

fn class_index(instr: &Instr) -> Option<u16> {
    match instr {
        Instr::New(index)
        | Instr::NewRefArray(index)
        | Instr::NewMulti(index, _)
        | Instr::Cast(index)
        | Instr::InstanceOf(index) => Some(*index),
        _ => None,
    }
}

/// The member that the constant at an index names.
pub(crate) fn reference_at(pool: &Pool, index: u16) -> Option<Reference<'_>> {
    reference_of(pool, pool.get(index)?)
}

/// The member that a constant names.
pub(crate) fn reference_of<'a>(pool: &'a Pool, constant: &Const) -> Option<Reference<'a>> {
    match constant {
        Const::Fieldref(class, member) => named(pool, MemberRef::Field, *class, *member),
        Const::Methodref(class, member) => named(pool, MemberRef::Method, *class, *member),
        Const::InterfaceMethodref(class, member) => {
            named(pool, MemberRef::InterfaceMethod, *class, *member)
        }
        _ => None,
    }
}

fn named(pool: &Pool, kind: MemberRef, class: u16, member: u16) -> Option<Reference<'_>> {
    match pool.get(member)? {
        Const::NameAndType(name, desc) => Some(Reference {
            kind,
            class: class_name(pool, class)?,
            name: utf8(pool, *name)?,
            desc: utf8(pool, *desc)?,
        }),
        _ => None,
    }
}

/// The descriptor that a dynamic call or a method type names.
pub(crate) fn descriptor_of<'a>(pool: &'a Pool, constant: &Const) -> Option<&'a Text> {
    match constant {
        Const::MethodType(desc) => utf8(pool, *desc),
        Const::InvokeDynamic(_, member) => match pool.get(*member)? {
            Const::NameAndType(_, desc) => utf8(pool, *desc),
            _ => None,
        },
        _ => None,
    }
}

/// The member that a reference finds.
pub(crate) fn found_of(tree: &Tree, reference: &Reference<'_>) -> Option<Found> {
    match reference.kind {
        MemberRef::Field => find_field(tree, reference.class, reference.name, reference.desc),
        MemberRef::Method | MemberRef::InterfaceMethod => {
            find_method(tree, reference.class, reference.name, reference.desc)
        }
    }
}
