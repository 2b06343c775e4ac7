//! What references to members are asked (JVM Specification SE 8, 5.4.3, 5.4.4 and 6.5).
ghost use Rattle.std.specs.Prelude.{◌≡◌, [], ◌∷◌, IsTrue};
ghost use Rattle.class_model.specs.Pool.{constant_at};
ghost use Rattle.class_tree.specs.Answers.{Answers};
ghost use Rattle.class_tree.specs.declared.fault.LinkRule.TheVariants as rules;
ghost use Rattle.member_link.specs.Declarations.{asked};
ghost use Rattle.member_link.specs.Inner.NeededForms.{IsFieldForm, IsMethodForm};
ghost use Rattle.member_link.specs.Inner.Resolving.{resolved_scope};
ghost use Rattle.member_link.specs.Uses.{fieldref_use_checks, methodref_use_checks, handle_use_checks};

use crate::constants::{is_field, is_method};
use crate::forms::{FieldForm, MethodForm, fits_field, fits_method};
use crate::resolution::Resolution;
use crate::resolver::Resolver;
use class_model::Member;
use class_tree::{LinkFault, LinkRule};
use std::alloc::Global;

/// Asks that the field of a Fieldref constant is there, of a form, and accessible.
pub(crate) fn check_field(
    alloc: Global,
    resolver: &mut Resolver<'_>,
    member: &Member,
    index: u16,
    form: FieldForm,
) -> Result<(), LinkFault>
    ensures same { resolver.new ≡ resolver.old }
    ensures told { Answers
        (fieldref_use_checks (resolved_scope resolver.old member.now) (IsFieldForm form)
        (constant_at resolver.old.pool index)) result }
{
    if !is_field(resolver.constant(index)) {
        return Ok(());
    }
    match resolver.resolution(alloc, index)? {
        Resolution::Field(field) => {
            let has_form = fits_field(form, field);
            ask_found(alloc, resolver, member, has_form, field.is_accessible)
        }
        Resolution::Broken(rule) => resolver.ask(alloc, false, member, rule),
        _ => Ok(()),
    }
}

/// Asks that the method of a Methodref or InterfaceMethodref constant is there, of a form, and accessible.
pub(crate) fn check_method(
    alloc: Global,
    resolver: &mut Resolver<'_>,
    member: &Member,
    index: u16,
    form: MethodForm,
) -> Result<(), LinkFault>
    ensures same { resolver.new ≡ resolver.old }
    ensures told { Answers
        (methodref_use_checks (resolved_scope resolver.old member.now)
        (IsMethodForm resolver.old.headers form (constant_at resolver.old.pool index))
        (constant_at resolver.old.pool index)) result }
{
    if !is_method(resolver.constant(index)) {
        return Ok(());
    }
    match resolver.resolution(alloc, index)? {
        Resolution::Method(method, callee) => {
            let has_form = fits_method(form, method, callee);
            ask_found(alloc, resolver, member, has_form, method.is_accessible)
        }
        Resolution::Broken(rule) => resolver.ask(alloc, false, member, rule),
        _ => Ok(()),
    }
}

/// Asks that what a method handle refers to is there and accessible.
pub(crate) fn check_handle(
    alloc: Global,
    resolver: &mut Resolver<'_>,
    member: &Member,
    index: u16,
) -> Result<(), LinkFault>
    ensures same { resolver.new ≡ resolver.old }
    ensures told { Answers
        (handle_use_checks (resolved_scope resolver.old member.now)
        (constant_at resolver.old.pool index)) result }
{
    check_field(alloc, resolver, member, index, FieldForm::Any)?;
    check_method(alloc, resolver, member, index, MethodForm::Any)
}

// Asks that a member that is found has a form and is accessible.
fn ask_found(
    alloc: Global,
    resolver: &Resolver<'_>,
    member: &Member,
    has_form: bool,
    is_accessible: bool,
) -> Result<(), LinkFault>
    ensures { Answers (asked (resolved_scope resolver.now member.now).site rules.WrongForm
        (IsTrue has_form)
        ∷ asked (resolved_scope resolver.now member.now).site rules.NoAccess (IsTrue is_accessible)
        ∷ []) result }
{
    resolver.ask(alloc, has_form, member, LinkRule::WrongForm)?;
    resolver.ask(alloc, is_accessible, member, LinkRule::NoAccess)
}
