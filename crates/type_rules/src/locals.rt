//! The rules of instructions on locals (JVM Specification SE 8, 6.5: load, store and iinc).
ghost use Rattle.std.specs.Prelude.{◌≡◌, ◌↔◌, ◌+◌, ◌≤◌, length, slice_get, Some, MatchOption, IfOk, OnOk, IsTrue};
ghost use Rattle.std.specs.Option.{option_copied};
ghost use Rattle.class_model.specs.Frames.{is_wide, units};
ghost use Rattle.member_link.specs.Rows.LocalRows.{HasRoom, HoldsKind, cut_before, stored, load_row, store_row, iinc_row};
ghost use Rattle.member_link.specs.Rows.Operands.{IsOfKind};
ghost use Rattle.type_rules.specs.Rule.{RowRules};
ghost use Rattle.member_link.specs.Scope.{row_scope};

use crate::fault::{RuleFault, TypeRule};
use crate::need::{Need, is_of_kind};
use crate::ruled::Ruled;
use crate::step::Step;
use class_model::{Frame, Kind, LocalTypeList, NoMemory, VType};
use std::alloc::Global;

/// Pushes a local.
pub(crate) fn load(step: &Step<'_>, kind: Kind, local: u16) -> Result<Ruled, RuleFault>
    ensures { RowRules (row_scope step.now.rules.now) step.now.before.now
        (load_row step.now.before.now kind local) result }
{
    match held(step.before, kind, local) {
        Some(unit) => step.plain(&[], Some(unit.copy()?)),
        None => Err(RuleFault::Fails(TypeRule::Local)),
    }
}

/// Pops a value into a local. The long or double that it cuts is none any more.
pub(crate) fn store(step: &Step<'_>, kind: Kind, local: u16) -> Result<Ruled, RuleFault>
    ensures { RowRules (row_scope step.now.rules.now) step.now.before.now
        (store_row step.now.before.now kind local) result }
{
    let before = step.before;
    step.takes(&[Need::OfKind(kind)])?;
    if !has_room(&before.locals, kind, local) {
        return Err(RuleFault::Fails(TypeRule::Local));
    }
    let Some(value) = before.stack.as_slice().last() else {
        unreachable!();
    };
    let locals = stored(step.alloc, &before.locals, usize::from(local), value)?;
    let stack = step.under(1)?;
    step.conclude(stack, locals, true, true)
}

/// Adds to a local.
pub(crate) fn increment(step: &Step<'_>, local: u16) -> Result<Ruled, RuleFault>
    ensures { RowRules (row_scope step.now.rules.now) step.now.before.now
        (iinc_row step.now.before.now local) result }
{
    match held(step.before, Kind::Int, local) {
        Some(_) => step.plain(&[], None),
        None => Err(RuleFault::Fails(TypeRule::Local)),
    }
}

// A local, if it is there and of a kind.
fn held(frame: &Frame, kind: Kind, local: u16) -> Option<&VType>
    ensures { MatchOption (option_copied result) (¬ HoldsKind kind frame.now.locals local)
        (λ unit. (slice_get frame.now.locals local ≡ Some unit) × IsOfKind kind unit) }
{
    match frame.locals.get(usize::from(local)) {
        Some(unit) if is_of_kind(kind, unit) => Some(unit),
        _ => None,
    }
}

// Whether the units of a value of a kind are there from a local on.
fn has_room(locals: &LocalTypeList, kind: Kind, local: u16) -> bool
    ensures { IsTrue result ↔ HasRoom kind locals.now local }
{
    let units = match kind {
        Kind::Long | Kind::Double => 2,
        _ => 1,
    };
    usize::from(local) + units <= locals.len()
}

// The locals after a store.
fn stored(
    alloc: Global,
    locals: &LocalTypeList,
    at: usize,
    value: &VType,
) -> Result<LocalTypeList, NoMemory>
    requires { at + length (units value.now) ≤ length locals.now }
    ensures { IfOk result (λ after. after ≡ stored at value.now locals.now) }
{
    // as many as a usize counts, so that there is a next
    let _units = locals.len();
    let mut after = locals.copy(alloc)?;
    cut_before(&mut after, at)?;
    after.set(at, value.copy()?)?;
    if is_wide(value) {
        after.set(at + 1, VType::Top)?;
    }
    Ok(after)
}

// The long or double whose second unit is written is none any more.
fn cut_before(locals: &mut LocalTypeList, at: usize) -> Result<(), NoMemory>
    ensures { OnOk result (locals.new ≡ cut_before at locals.old) }
{
    let Some(first) = at.checked_sub(1) else {
        return Ok(());
    };
    if is_wide_at(locals, first) {
        return locals.set(first, VType::Top);
    }
    Ok(())
}

// Whether a local has the first unit of a long or double.
fn is_wide_at(locals: &LocalTypeList, at: usize) -> bool
    ensures { IsTrue result
        ↔ ((unit : VType) × (slice_get locals.now at ≡ Some unit) × IsTrue (is_wide unit)) }
{
    match locals.get(at) {
        Some(unit) => is_wide(unit),
        None => false,
    }
}

// Whether a type takes two units.
fn is_wide(entry: &VType) -> bool
    ensures { result ≡ is_wide entry.now }
{
    matches!(entry, VType::Long | VType::Double)
}
