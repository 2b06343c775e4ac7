//! The form that an instruction needs of what it names (JVM Specification SE 8, 6.5).
use crate::references::{MemberRef, Reference};
use class_model::opcodes::{INVOKEINTERFACE, INVOKESPECIAL, INVOKESTATIC};
use class_model::{
    ACC_ABSTRACT, ACC_INTERFACE, ACC_PRIVATE, ACC_STATIC, Header, INIT, Instr, Text, has,
};
use class_tree::Tree;

/// Why `new` makes no objects of a class; empty where it does, and for other instructions.
pub(crate) fn wrong_class(tree: &Tree, instr: &Instr, name: &Text) -> &'static str {
    if !matches!(instr, Instr::New(_)) {
        return "";
    }
    match header_of(tree, name) {
        Some(header) if has(header.flags, ACC_INTERFACE) => "  it is an interface\n",
        Some(header) if has(header.flags, ACC_ABSTRACT) => "  it is abstract\n",
        Some(_) => "",
        None => "  it is an array\n",
    }
}

/// Why a member with these flags is not what an instruction needs; empty where it is.
pub(crate) fn wrong_form(
    tree: &Tree,
    instr: &Instr,
    reference: &Reference<'_>,
    flags: u16,
) -> &'static str {
    let is_static = has(flags, ACC_STATIC);
    match instr {
        Instr::GetStatic(_) | Instr::PutStatic(_) => wrong_kind(is_static, true),
        Instr::GetField(_) | Instr::PutField(_) => wrong_kind(is_static, false),
        Instr::Invoke(opcode, _, _) => {
            let wrong = wrong_kind(is_static, *opcode == INVOKESTATIC);
            if wrong.is_empty() {
                wrong_call(tree, *opcode, reference, flags)
            } else {
                wrong
            }
        }
        _ => "",
    }
}

fn wrong_kind(is_static: bool, wants_static: bool) -> &'static str {
    match (is_static, wants_static) {
        (true, false) => "  it is static\n",
        (false, true) => "  it is not static\n",
        _ => "",
    }
}

fn wrong_call(tree: &Tree, opcode: u8, reference: &Reference<'_>, flags: u16) -> &'static str {
    let is_interface = match header_of(tree, reference.class) {
        Some(header) => has(header.flags, ACC_INTERFACE),
        None => false,
    };
    if is_interface && reference.kind == MemberRef::Method {
        "  its class is an interface, which an InterfaceMethodref would name\n"
    } else if !is_interface && reference.kind == MemberRef::InterfaceMethod {
        "  its class is no interface, which a Methodref would name\n"
    } else if reference.name.bytes() == INIT && opcode != INVOKESPECIAL {
        "  invokespecial alone calls a constructor\n"
    } else if opcode == INVOKEINTERFACE && has(flags, ACC_PRIVATE) {
        "  it is private\n"
    } else {
        ""
    }
}

fn header_of<'a>(tree: &'a Tree, name: &Text) -> Option<&'a Header> {
    tree.header(tree.place(name)?)
}
