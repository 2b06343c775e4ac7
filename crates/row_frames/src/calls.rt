//! Calls (JVM Specification SE 8, 6.5: invokevirtual to invokedynamic).
ghost use Rattle.std.specs.Prelude.{◌≡◌, Some, bytes_eq, IfOk};
ghost use Rattle.class_model.specs.Names.{init};
ghost use Rattle.class_model.specs.Pool.{constant_at};
ghost use Rattle.member_link.specs.MemberRefs.{reference_meant};
ghost use Rattle.member_link.specs.RowScope.{RowScope};
ghost use Rattle.member_link.specs.Rows.MemberRows.{argument_needs, call_row, dynamic_row, init_row, instance_row, result_types, special_row, static_row};
ghost use Rattle.member_link.specs.Rows.Row.{either, plain};
ghost use Rattle.member_link.specs.Signatures.{reference_of, result_of};
ghost use Rattle.row_frames.specs.Inner.Rows.{IsBehindRow};
ghost use Rattle.row_frames.specs.Inner.Scopes.{scope_with};

use crate::initialisers::initialised;
use crate::names::given_by;
use crate::step::Step;
use class_model::opcodes::{INVOKESPECIAL, INVOKESTATIC};
use class_model::{Const, Frame, INIT, NoMemory, Text};
use member_link::{MemberRef, descriptor_at, member_at, parameter_count};

/// Calls a method, by its opcode.
pub(crate) fn call(step: &Step<'_>, opcode: u8, index: u16) -> Result<Option<Frame>, NoMemory>
    ensures { IfOk result (λ frame. (s : RowScope)
        → IsBehindRow step.now.before.now
        (call_row (scope_with s step.now.pool.now step.now.own.now) step.now.before.now opcode
        (reference_of step.now.pool.now (constant_at step.now.pool.now index))) frame) }
{
    match member_at(step.pool, index) {
        Some(reference) => call_method(step, opcode, &reference),
        None => step.no_row(),
    }
}

// Calls this method, by its opcode.
fn call_method(
    step: &Step<'_>,
    opcode: u8,
    reference: &MemberRef<'_>,
) -> Result<Option<Frame>, NoMemory>
    ensures { IfOk result (λ frame. (s : RowScope)
        → IsBehindRow step.now.before.now
        (call_row (scope_with s step.now.pool.now step.now.own.now) step.now.before.now opcode
        (Some (reference_meant reference.now))) frame) }
{
    if opcode == INVOKESTATIC {
        return call_site(step, reference.desc);
    }
    if opcode == INVOKESPECIAL {
        return call_named(step, reference);
    }
    call_on(step, reference)
}

/// Calls a call site.
pub(crate) fn call_dynamic(step: &Step<'_>, index: u16) -> Result<Option<Frame>, NoMemory>
    ensures { IfOk result (λ frame. (s : RowScope)
        → IsBehindRow step.now.before.now
        (dynamic_row (scope_with s step.now.pool.now step.now.own.now) step.now.before.now
        (constant_at step.now.pool.now index)) frame) }
{
    let Some(Const::InvokeDynamic(_, member)) = step.pool.get(index) else {
        return step.no_row();
    };
    match descriptor_at(step.pool, *member) {
        Some(desc) => call_site(step, desc),
        None => step.no_row(),
    }
}

// Calls a static method or a call site of this descriptor.
fn call_site(step: &Step<'_>, desc: &Text) -> Result<Option<Frame>, NoMemory>
    ensures { IfOk result (IsBehindRow step.now.before.now
        (plain step.now.before.now (argument_needs desc.now) (result_types (result_of desc.now)))) }
{
    match given_by(step.alloc, desc.bytes())? {
        Some(gives) => step.replaced(parameter_count(desc.bytes()), gives),
        None => Ok(None),
    }
}

// Calls a method on an object.
fn call_on(step: &Step<'_>, reference: &MemberRef<'_>) -> Result<Option<Frame>, NoMemory>
    ensures { IfOk result (IsBehindRow step.now.before.now
        (instance_row step.now.before.now (reference_meant reference.now) (Unit {0}) (Unit {0}))) }
{
    let desc = reference.desc.bytes();
    match given_by(step.alloc, desc)? {
        Some(gives) => step.replaced(parameter_count(desc) + 1, gives),
        None => Ok(None),
    }
}

// Calls an initialiser, or a method that is not chosen by the object.
fn call_named(step: &Step<'_>, reference: &MemberRef<'_>) -> Result<Option<Frame>, NoMemory>
    ensures { IfOk result (λ frame. (s : RowScope)
        → IsBehindRow step.now.before.now
        (either (bytes_eq reference.now.name.now init)
        (init_row (scope_with s step.now.pool.now step.now.own.now) step.now.before.now
        (reference_meant reference.now))
        (special_row (scope_with s step.now.pool.now step.now.own.now) step.now.before.now
        (reference_meant reference.now))) frame) }
{
    if reference.name.bytes() == INIT {
        initialise(step, reference)
    } else {
        call_on(step, reference)
    }
}

// Calls an initialiser.
fn initialise(step: &Step<'_>, reference: &MemberRef<'_>) -> Result<Option<Frame>, NoMemory>
    ensures { IfOk result (λ frame. (s : RowScope)
        → IsBehindRow step.now.before.now
        (init_row (scope_with s step.now.pool.now step.now.own.now) step.now.before.now
        (reference_meant reference.now)) frame) }
{
    let desc = reference.desc.bytes();
    match given_by(step.alloc, desc)? {
        Some(gives) => initialised(step, reference.class, parameter_count(desc) + 1, gives),
        None => Ok(None),
    }
}
