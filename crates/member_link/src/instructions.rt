//! What the references of instructions are asked (JVM Specification SE 8, 5.4.3, 5.4.4 and 6.5).
ghost use Rattle.std.specs.Prelude.{◌≡◌};
ghost use Rattle.class_model.specs.Pool.{constant_at};
ghost use Rattle.class_tree.specs.Answers.{Answers};
ghost use Rattle.member_link.specs.Inner.Resolving.{resolved_scope};
ghost use Rattle.member_link.specs.Uses.{instr_use_checks, new_checks, loaded_checks, dynamic_use_checks};

use crate::forms::{FieldForm, MethodForm};
use crate::references::{check_field, check_handle, check_method};
use crate::resolution::Resolution;
use crate::resolver::{Resolver, check_class};
use class_model::{Const, Instr, Member};
use class_tree::{LinkFault, LinkRule};
use std::alloc::Global;

/// Asks that what an instruction of a method refers to is there, of the form that it needs, and accessible.
pub(crate) fn check_instr(
    alloc: Global,
    resolver: &mut Resolver<'_>,
    member: &Member,
    instr: &Instr,
) -> Result<(), LinkFault>
    ensures same { resolver.new ≡ resolver.old }
    ensures told { Answers
        (instr_use_checks (resolved_scope resolver.old member.now) instr.now) result }
{
    match instr {
        Instr::Ldc(index) => check_loaded(alloc, resolver, member, *index),
        Instr::GetStatic(index) | Instr::PutStatic(index) => {
            check_field(alloc, resolver, member, *index, FieldForm::Static)
        }
        Instr::GetField(index) | Instr::PutField(index) => {
            check_field(alloc, resolver, member, *index, FieldForm::Instance)
        }
        Instr::Invoke(opcode, index, _) => {
            check_method(alloc, resolver, member, *index, MethodForm::Call(*opcode))
        }
        Instr::Dynamic(index) => check_dynamic(alloc, resolver, member, *index),
        Instr::New(index) => check_new(alloc, resolver, member, *index),
        Instr::NewRefArray(index)
        | Instr::NewMulti(index, _)
        | Instr::Cast(index)
        | Instr::InstanceOf(index) => check_class(alloc, resolver, member, *index),
        _ => Ok(()),
    }
}

// Asks that a constant that is loaded refers to what is there and accessible.
fn check_loaded(
    alloc: Global,
    resolver: &mut Resolver<'_>,
    member: &Member,
    index: u16,
) -> Result<(), LinkFault>
    ensures same { resolver.new ≡ resolver.old }
    ensures told { Answers
        (loaded_checks (resolved_scope resolver.old member.now) index
        (constant_at resolver.old.pool index)) result }
{
    match resolver.constant(index) {
        Some(Const::Class(_)) => check_class(alloc, resolver, member, index),
        Some(Const::MethodHandle(_, reference)) => {
            let reference = *reference;
            check_handle(alloc, resolver, member, reference)
        }
        Some(Const::MethodType(_)) => match resolver.resolution(alloc, index)? {
            Resolution::Broken(rule) => resolver.ask(alloc, false, member, rule),
            _ => Ok(()),
        },
        _ => Ok(()),
    }
}

// Asks that the classes of a dynamic call's descriptor are there.
fn check_dynamic(
    alloc: Global,
    resolver: &mut Resolver<'_>,
    member: &Member,
    index: u16,
) -> Result<(), LinkFault>
    ensures same { resolver.new ≡ resolver.old }
    ensures told { Answers
        (dynamic_use_checks (resolved_scope resolver.old member.now)
        (constant_at resolver.old.pool index)) result }
{
    let Some(Const::InvokeDynamic(..)) = resolver.constant(index) else {
        return Ok(());
    };
    match resolver.resolution(alloc, index)? {
        Resolution::Broken(rule) => resolver.ask(alloc, false, member, rule),
        _ => Ok(()),
    }
}

// Asks that a class is there, accessible, and one of which `new` makes objects.
fn check_new(
    alloc: Global,
    resolver: &mut Resolver<'_>,
    member: &Member,
    index: u16,
) -> Result<(), LinkFault>
    ensures same { resolver.new ≡ resolver.old }
    ensures told { Answers (new_checks (resolved_scope resolver.old member.now) index) result }
{
    let Some(Const::Class(_)) = resolver.constant(index) else {
        return Ok(());
    };
    match resolver.resolution(alloc, index)? {
        Resolution::Broken(rule) => resolver.ask(alloc, false, member, rule),
        Resolution::Class(is_instantiable) => {
            resolver.ask(alloc, is_instantiable, member, LinkRule::WrongForm)
        }
        _ => Ok(()),
    }
}
