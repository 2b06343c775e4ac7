//! Instructions on local units (JVM Specification SE 8, 6.5: load and store).
ghost use Rattle.std.specs.Prelude.{◌≡◌, ◌↔◌, ◌≤◌, Some, slice_get, slice_set, IfOk, OnOk, IsTrue};
ghost use Rattle.class_model.specs.Frames.{is_wide};
ghost use Rattle.member_link.specs.Rows.LocalRows.{cut_before, load_row, store_row, stored};
ghost use Rattle.member_link.specs.Rows.Row.{row_frame};

use crate::step::{Step, lowest_of};
use class_model::{Frame, Kind, LocalTypeList, NoMemory, VType};
use std::alloc::Global;

/// Pushes a local.
pub(crate) fn load(step: &Step<'_>, kind: Kind, local: u16) -> Result<Option<Frame>, NoMemory>
    ensures { IfOk result
        (λ frame. frame ≡ row_frame step.now.before.now (load_row step.now.before.now kind local)) }
{
    match step.before.locals.get(usize::from(local)) {
        Some(unit) => step.replaced(0, Some(unit.copy()?)),
        None => step.pops(0),
    }
}

/// Pops a value into a local. The long or double that it cuts is none any more.
pub(crate) fn store(step: &Step<'_>, kind: Kind, local: u16) -> Result<Option<Frame>, NoMemory>
    ensures { IfOk result (λ frame. frame
        ≡ row_frame step.now.before.now (store_row step.now.before.now kind local)) }
{
    let top = VType::Top;
    let value = lowest_of(step.before.stack.as_slice(), 1, &top);
    let locals = stored(step.alloc, &step.before.locals, usize::from(local), value)?;
    let stack = step.under(1)?;
    Ok(Some(Frame { locals, stack }))
}

// The locals after a store.
fn stored(
    alloc: Global,
    locals: &LocalTypeList,
    at: usize,
    value: &VType,
) -> Result<LocalTypeList, NoMemory>
    requires { at ≤ 65535 }
    ensures { IfOk result (λ after. after ≡ stored at value.now locals.now) }
{
    let mut after = locals.copy(alloc)?;
    cut_before(&mut after, at)?;
    put(&mut after, at, value.copy()?)?;
    if is_wide(value) {
        put(&mut after, at + 1, VType::Top)?;
    }
    Ok(after)
}

// The long or double whose second unit is written is none any more.
fn cut_before(locals: &mut LocalTypeList, at: usize) -> Result<(), NoMemory>
    ensures { OnOk result (locals.new ≡ cut_before at locals.old) }
{
    let Some(first) = at.checked_sub(1) else {
        return Ok(());
    };
    if is_wide_at(locals, first) {
        return locals.set(first, VType::Top);
    }
    Ok(())
}

// Gives a local another type, if there is one of this number.
fn put(locals: &mut LocalTypeList, at: usize, unit: VType) -> Result<(), NoMemory>
    ensures { OnOk result (locals.new ≡ slice_set locals.old at unit) }
{
    if at < locals.len() {
        return locals.set(at, unit);
    }
    Ok(())
}

// Whether a local has the first unit of a long or double.
fn is_wide_at(locals: &LocalTypeList, at: usize) -> bool
    ensures { IsTrue result
        ↔ ((unit : VType) × (slice_get locals.now at ≡ Some unit) × IsTrue (is_wide unit)) }
{
    match locals.get(at) {
        Some(unit) => is_wide(unit),
        None => false,
    }
}

// Whether a type takes two units.
fn is_wide(entry: &VType) -> bool
    ensures { result ≡ is_wide entry.now }
{
    matches!(entry, VType::Long | VType::Double)
}
