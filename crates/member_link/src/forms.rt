//! The form that an instruction needs of what it names (JVM Specification SE 8, 6.5).
ghost use Rattle.std.specs.Prelude.{◌≡◌, ◌↔◌, Option, Some, IsTrue};
ghost use Rattle.std.specs.Option.{option_copied};
ghost use Rattle.class_model.specs.declared.pool.Const.{Const};
ghost use Rattle.class_tree.specs.Headers.{Headers, headers_of, class_named};
ghost use Rattle.member_link.specs.DeclaredMembers.{Declared};
ghost use Rattle.member_link.specs.Forms.{FitsCall, FitsKind, IsInterfaceNamed, IsInstantiable};
ghost use Rattle.member_link.specs.Inner.NeededForms.{IsFieldForm, IsMethodForm};
ghost use Rattle.member_link.specs.References.{Reference};
ghost use Rattle.member_link.specs.Inner.Resolutions.{IsCallee};

use crate::resolution::{Callee, Referent};
use class_model::opcodes::{INVOKEINTERFACE, INVOKESPECIAL, INVOKESTATIC};
use class_model::{ACC_ABSTRACT, ACC_INTERFACE, ACC_PRIVATE, ACC_STATIC, Const, Header, Text, has};
use class_tree::{Tree, a_tree_is_a_hierarchy};

/// The form that is needed of a field.
#[derive(Clone, Copy)]
pub(crate) enum FieldForm {
    Any,
    Static,
    Instance,
}

/// The form that is needed of a method: any, or that of a call by its opcode.
#[derive(Clone, Copy)]
pub(crate) enum MethodForm {
    Any,
    Call(u8),
}

/// Whether a field that is found has a form.
pub(crate) fn fits_field(form: FieldForm, field: Referent) -> bool
    ensures { (declared : Declared)
        → field.flags ≡ declared.member.flags
        → IsTrue result ↔ IsFieldForm form declared }
{
    match form {
        FieldForm::Any => true,
        FieldForm::Static => has(field.flags, ACC_STATIC),
        FieldForm::Instance => !has(field.flags, ACC_STATIC),
    }
}

/// Whether a method that a reference finds has a form.
pub(crate) fn fits_method(form: MethodForm, method: Referent, callee: Callee) -> bool
    ensures { (headers : Headers) (constant : Option Const) (reference : Reference)
        (declared : Declared)
        → IsCallee headers constant reference callee
        → method.flags ≡ declared.member.flags
        → IsTrue result ↔ IsMethodForm headers form constant reference declared }
{
    match form {
        MethodForm::Any => true,
        MethodForm::Call(opcode) => fits_call(opcode, method.flags, callee),
    }
}

// Whether a call by an opcode may name a method of these flags.
fn fits_call(opcode: u8, flags: u16, callee: Callee) -> bool
    ensures { (headers : Headers) (constant : Option Const) (reference : Reference)
        (declared : Declared)
        → IsCallee headers constant reference callee
        → flags ≡ declared.member.flags
        → IsTrue result ↔ FitsCall headers opcode constant reference declared }
{
    has(flags, ACC_STATIC) == (opcode == INVOKESTATIC)
        && callee.fits_kind
        && (!callee.is_initialiser || opcode == INVOKESPECIAL)
        && !(has(flags, ACC_PRIVATE) && opcode == INVOKEINTERFACE)
}

/// Whether `new` makes objects of the class of this name: it is neither abstract nor an interface.
pub(crate) fn is_instantiable(tree: &Tree, name: &Text) -> bool
    ensures { IsTrue result ↔ IsInstantiable (headers_of tree.now) name.now }
{
    match class_of(tree, name) {
        Some(class) => !has(class.flags, ACC_ABSTRACT) && !has(class.flags, ACC_INTERFACE),
        None => false,
    }
}

/// Whether a method constant is of the kind of the class that it names: an InterfaceMethodref names an interface, and a
/// Methodref none.
pub(crate) fn fits_kind(tree: &Tree, constant: &Const, class: &Text) -> bool
    ensures { IsTrue result ↔ FitsKind (headers_of tree.now) (Some constant.now) class.now }
{
    match constant {
        Const::InterfaceMethodref(..) => is_interface_named(tree, class),
        _ => !is_interface_named(tree, class),
    }
}

// Whether an interface has this name.
fn is_interface_named(tree: &Tree, name: &Text) -> bool
    ensures { IsTrue result ↔ IsInterfaceNamed (headers_of tree.now) name.now }
{
    match class_of(tree, name) {
        Some(class) => has(class.flags, ACC_INTERFACE),
        None => false,
    }
}

// The class of a name.
fn class_of<'a>(tree: &'a Tree, name: &Text) -> Option<&'a Header>
    ensures { option_copied result ≡ class_named (headers_of tree.now) name.now }
{
    a_tree_is_a_hierarchy(tree);
    tree.header(tree.place(name)?)
}
