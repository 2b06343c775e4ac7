//! Instructions on fields (JVM Specification SE 8, 6.5).
ghost use Rattle.std.specs.Prelude.{◌≡◌, [], ◌∷◌, IfOk};
ghost use Rattle.class_model.specs.Pool.{constant_at};
ghost use Rattle.member_link.specs.RowScope.{RowScope};
ghost use Rattle.member_link.specs.Rows.MemberRows.{get_static_row, put_static_row, get_field_row, put_field_row};
ghost use Rattle.member_link.specs.Rows.Row.{row_frame};
ghost use Rattle.member_link.specs.Signatures.{field_type, reference_of};
ghost use Rattle.row_frames.specs.Behind.{HasText};
ghost use Rattle.row_frames.specs.Inner.Rows.{IsBehindRow};
ghost use Rattle.row_frames.specs.Inner.Stacks.{leaves};

use crate::names::type_of;
use crate::step::Step;
use class_model::{Frame, NoMemory, Text};
use member_link::member_at;

/// Pushes a static field.
pub(crate) fn get_static(step: &Step<'_>, index: u16) -> Result<Option<Frame>, NoMemory>
    ensures { IfOk result (IsBehindRow step.now.before.now
        (get_static_row step.now.before.now
        (reference_of step.now.pool.now (constant_at step.now.pool.now index)))) }
{
    match member_at(step.pool, index) {
        Some(reference) => push_value(step, 0, reference.desc),
        None => step.no_row(),
    }
}

/// Pops a value into a static field.
pub(crate) fn put_static(step: &Step<'_>, index: u16) -> Result<Option<Frame>, NoMemory>
    ensures { IfOk result (λ frame. frame
        ≡ row_frame step.now.before.now
        (put_static_row step.now.before.now
        (reference_of step.now.pool.now (constant_at step.now.pool.now index)))) }
{
    match member_at(step.pool, index) {
        Some(_) => step.pops(1),
        None => step.no_row(),
    }
}

/// Pushes a field of an object.
pub(crate) fn get_field(step: &Step<'_>, index: u16) -> Result<Option<Frame>, NoMemory>
    ensures { IfOk result (λ frame. (s : RowScope)
        → IsBehindRow step.now.before.now
        (get_field_row s step.now.before.now
        (reference_of step.now.pool.now (constant_at step.now.pool.now index))) frame) }
{
    match member_at(step.pool, index) {
        Some(reference) => push_value(step, 1, reference.desc),
        None => step.no_row(),
    }
}

/// Pops a value into a field of an object.
pub(crate) fn put_field(step: &Step<'_>, index: u16) -> Result<Option<Frame>, NoMemory>
    ensures { IfOk result (λ frame. (s : RowScope)
        → frame ≡ row_frame step.now.before.now
        (put_field_row s step.now.before.now
        (reference_of step.now.pool.now (constant_at step.now.pool.now index)))) }
{
    match member_at(step.pool, index) {
        Some(_) => step.pops(2),
        None => step.no_row(),
    }
}

// Pops so many entries, and pushes the value of a field of this descriptor.
fn push_value(step: &Step<'_>, count: usize, desc: &Text) -> Result<Option<Frame>, NoMemory>
    ensures { IfOk result (λ frame.
        HasText (field_type desc.now)
        → frame ≡ leaves step.now.before.now count (field_type desc.now ∷ [])) }
{
    match type_of(step.alloc, desc.bytes())? {
        Some(value) => step.replaced(count, Some(value)),
        None => Ok(None),
    }
}
