//! Instructions on objects (JVM Specification SE 8, 6.5: new and checkcast).
ghost use Rattle.std.specs.Prelude.{◌≡◌, ◌↔◌, map, slice_get, Some, IfOk, IsTrue};
ghost use Rattle.class_model.specs.PoolChecks.{class_at};
ghost use Rattle.member_link.specs.Rows.Row.{row_frame};
ghost use Rattle.member_link.specs.Rows.Table.{cast_row, new_row, without_older};

use crate::step::Step;
use class_model::{Frame, LocalTypeList, NoMemory, VType};
use std::alloc::Global;

/// Makes an object by the instruction of a number. No local keeps an older one of that number.
pub(crate) fn new_object(step: &Step<'_>, number: u32) -> Result<Option<Frame>, NoMemory>
    ensures { IfOk result
        (λ frame. frame ≡ row_frame step.now.before.now (new_row step.now.before.now number)) }
{
    let locals = without_older(step.alloc, &step.before.locals, number)?;
    let mut stack = step.under(0)?;
    stack.push(VType::Uninit(number))?;
    Ok(Some(Frame { locals, stack }))
}

/// Casts a reference to a class or array.
pub(crate) fn cast(step: &Step<'_>, index: u16) -> Result<Option<Frame>, NoMemory>
    ensures { IfOk result (λ frame. frame
        ≡ row_frame step.now.before.now
        (cast_row step.now.before.now (class_at step.now.pool.now index))) }
{
    match step.pool.class_name(index) {
        Some(name) => step.replaced(1, Some(VType::Object(name.copy()?))),
        None => step.no_row(),
    }
}

// The locals without objects that were made by the instruction of a number and not initialised.
fn without_older(alloc: Global, locals: &LocalTypeList, at: u32) -> Result<LocalTypeList, NoMemory>
    ensures { IfOk result (λ after. after ≡ map (without_older at) locals.now) }
{
    let mut after = locals.copy(alloc)?;
    for index in 0..locals.listed() {
        if is_older(locals, index, at) {
            after.set(index, VType::Top)?;
        }
    }
    Ok(after)
}

// Whether a type is that of an object made by the instruction of a number and not initialised.
fn is_made_at(entry: &VType, at: u32) -> bool
    ensures { IsTrue result ↔ (entry.now ≡ VType.Uninit at) }
{
    matches!(entry, VType::Uninit(other) if *other == at)
}

// Whether a local has an object made by the instruction of a number and not initialised.
fn is_older(locals: &LocalTypeList, index: usize, at: u32) -> bool
    ensures { IsTrue result ↔ (slice_get locals.now index ≡ Some (VType.Uninit at)) }
{
    match locals.get(index) {
        Some(unit) => is_made_at(unit, at),
        None => false,
    }
}
