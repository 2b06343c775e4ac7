//! The rules of instructions on fields (JVM Specification SE 8, 6.5).
ghost use Rattle.std.specs.Prelude.{◌≡◌, ◌↔◌, IfOk, IfSome, IsTrue, Some};
ghost use Rattle.std.specs.Option.{option_map};
ghost use Rattle.class_model.specs.Descriptors.{type_of};
ghost use Rattle.class_model.specs.Pool.{constant_at};
ghost use Rattle.member_link.specs.Rows.MemberRows.{get_static_row, put_static_row, get_field_row, put_field_row, IsOwnField, MayPut, PassesPut};
ghost use Rattle.member_link.specs.Signatures.{reference_of};
ghost use Rattle.member_link.specs.MemberRefs.{reference_meant};
ghost use Rattle.type_rules.specs.Rule.{RowRules};
ghost use Rattle.member_link.specs.Scope.{row_scope};

use crate::descriptors::field_type;
use crate::fault::RuleFault;
use crate::method_rules::MethodRules;
use crate::need::Need;
use crate::operands::lowest_of;
use crate::protected::passes_field;
use crate::ruled::Ruled;
use crate::step::Step;
use class_model::{FieldType, NoMemory, VType};
use code_bytes::verification_type;
use member_link::{MemberRef, member_at};
use std::alloc::Global;

// A reference to a field, and the field's type.
#[derive(Drop)]
struct FieldReference<'a> {
    reference: MemberRef<'a>,
    field_type: FieldType,
}

/// Pushes a static field.
pub(crate) fn get_static(step: &Step<'_>, index: u16) -> Result<Ruled, RuleFault>
    ensures { RowRules (row_scope step.now.rules.now) step.now.before.now
        (get_static_row step.now.before.now
        (reference_of step.now.rules.now.class.pool
        (constant_at step.now.rules.now.class.pool index))) result }
{
    match field_at(step.alloc, step.rules, index)? {
        Some(field) => step.plain(&[], Some(verification_type(&field.field_type)?)),
        None => step.no_row(),
    }
}

/// Pops a value into a static field.
pub(crate) fn put_static(step: &Step<'_>, index: u16) -> Result<Ruled, RuleFault>
    ensures { RowRules (row_scope step.now.rules.now) step.now.before.now
        (put_static_row step.now.before.now
        (reference_of step.now.rules.now.class.pool
        (constant_at step.now.rules.now.class.pool index))) result }
{
    match field_at(step.alloc, step.rules, index)? {
        Some(field) => step.plain(&[Need::Value(&field.field_type)], None),
        None => step.no_row(),
    }
}

/// Pushes a field of an object.
pub(crate) fn get_field(step: &Step<'_>, index: u16) -> Result<Ruled, RuleFault>
    ensures { RowRules (row_scope step.now.rules.now) step.now.before.now
        (get_field_row (row_scope step.now.rules.now) step.now.before.now
        (reference_of step.now.rules.now.class.pool
        (constant_at step.now.rules.now.class.pool index))) result }
{
    match field_at(step.alloc, step.rules, index)? {
        Some(field) => get_from(step, &field),
        None => step.no_row(),
    }
}

// Pushes this field of an object.
fn get_from(step: &Step<'_>, field: &FieldReference<'_>) -> Result<Ruled, RuleFault>
    requires { field.now.field_type ≡ type_of field.now.reference.desc.now }
    ensures { RowRules (row_scope step.now.rules.now) step.now.before.now
        (get_field_row (row_scope step.now.rules.now) step.now.before.now
        (Some (reference_meant field.now.reference))) result }
{
    let reference = &field.reference;
    let top = VType::Top;
    let receiver = lowest_of(step.before.stack.as_slice(), 1, &top);
    step.conditional(
        &[Need::Object(reference.class.bytes())],
        Some(verification_type(&field.field_type)?),
        true,
        passes_field(step.rules, reference, receiver),
    )
}

/// Pops a value into a field of an object.
pub(crate) fn put_field(step: &Step<'_>, index: u16) -> Result<Ruled, RuleFault>
    ensures { RowRules (row_scope step.now.rules.now) step.now.before.now
        (put_field_row (row_scope step.now.rules.now) step.now.before.now
        (reference_of step.now.rules.now.class.pool
        (constant_at step.now.rules.now.class.pool index))) result }
{
    match field_at(step.alloc, step.rules, index)? {
        Some(field) => put_into(step, &field),
        None => step.no_row(),
    }
}

// Pops a value into this field of an object.
fn put_into(step: &Step<'_>, field: &FieldReference<'_>) -> Result<Ruled, RuleFault>
    requires { field.now.field_type ≡ type_of field.now.reference.desc.now }
    ensures { RowRules (row_scope step.now.rules.now) step.now.before.now
        (put_field_row (row_scope step.now.rules.now) step.now.before.now
        (Some (reference_meant field.now.reference))) result }
{
    let reference = &field.reference;
    let top = VType::Top;
    let receiver = lowest_of(step.before.stack.as_slice(), 2, &top);
    step.conditional(
        &[
            Need::ObjectOrThis(reference.class.bytes()),
            Need::Value(&field.field_type),
        ],
        None,
        may_put(step.rules, reference, receiver),
        passes_put(step.rules, reference, receiver),
    )
}

// Whether a field of a receiver may be written: an uninitialised this has its own fields written.
fn may_put(rules: &MethodRules<'_>, reference: &MemberRef<'_>, receiver: &VType) -> bool
    ensures { IsTrue result
        ↔ MayPut (row_scope rules.now) (reference_meant reference.now) receiver.now }
{
    match receiver {
        VType::UninitThis => is_own_field(rules, reference),
        _ => true,
    }
}

// Whether another object lends the field, if it is protected.
fn passes_put(rules: &MethodRules<'_>, reference: &MemberRef<'_>, receiver: &VType) -> bool
    ensures { IsTrue result
        ↔ PassesPut (row_scope rules.now) (reference_meant reference.now) receiver.now }
{
    match receiver {
        VType::UninitThis => true,
        _ => passes_field(rules, reference, receiver),
    }
}

// Whether a field is one of the current class, and named there.
fn is_own_field(rules: &MethodRules<'_>, reference: &MemberRef<'_>) -> bool
    ensures { IsTrue result ↔ IsOwnField (row_scope rules.now) (reference_meant reference.now) }
{
    rules.is_current(reference.class.bytes())
        && rules
            .tree
            .field(rules.place, reference.name, reference.desc)
            .is_some()
}

// What the constant at an index refers to, as a field.
fn field_at<'a>(
    alloc: Global,
    rules: &MethodRules<'a>,
    index: u16,
) -> Result<Option<FieldReference<'a>>, NoMemory>
    ensures same { IfOk result (λ found.
        option_map (λ field. reference_meant field.reference) found
        ≡ reference_of rules.now.class.pool (constant_at rules.now.class.pool index)) }
    ensures typed { IfOk result
        (λ found. IfSome found (λ field. field.field_type ≡ type_of field.reference.desc.now)) }
{
    let Some(reference) = member_at(&rules.class.pool, index) else {
        return Ok(None);
    };
    let field_type = field_type(alloc, reference.desc)?;
    Ok(Some(FieldReference {
        reference,
        field_type,
    }))
}
