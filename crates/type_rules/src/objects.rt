//! The rules of instructions on objects (JVM Specification SE 8, 6.5: new, checkcast, instanceof, athrow, monitorenter and monitorexit).
ghost use Rattle.std.specs.Prelude.{◌≡◌, ◌≢◌, ◌↔◌, [], ◌∷◌, map, slice_get, IfOk, IsTrue};
ghost use Rattle.std.specs.List.{AllByRecursion};
ghost use Rattle.class_model.specs.PoolChecks.{class_at};
ghost use Rattle.class_model.specs.declared.descriptor.Kind.TheVariants as kinds;
ghost use Rattle.member_link.specs.Rows.Operands.{initialised, of_kind};
ghost use Rattle.member_link.specs.Rows.Row.{plain};
ghost use Rattle.member_link.specs.Rows.Table.{new_row, cast_row, throw_row, without_older};
ghost use Rattle.type_rules.specs.Rule.{RowRules};
ghost use Rattle.member_link.specs.Scope.{row_scope};

use crate::fault::RuleFault;
use crate::need::Need;
use crate::ruled::Ruled;
use crate::step::Step;
use class_model::{Kind, LocalTypeList, NoMemory, VType, VTypeList};
use class_tree::THROWABLE;
use std::alloc::Global;

/// Makes an object at an offset, in bytes. No local keeps an older one of that offset.
pub(crate) fn new_object(step: &Step<'_>, at: u32) -> Result<Ruled, RuleFault>
    ensures { RowRules (row_scope step.now.rules.now) step.now.before.now
        (new_row step.now.before.now at) result }
{
    let before = step.before;
    let is_first = has_none_made(&before.stack, at);
    let stack = step.replaced(0, Some(VType::Uninit(at)))?;
    let locals = without_older(step.alloc, &before.locals, at)?;
    step.conclude(stack, locals, is_first, true)
}

/// Casts a reference to a class or array.
pub(crate) fn cast(step: &Step<'_>, index: u16) -> Result<Ruled, RuleFault>
    ensures { RowRules (row_scope step.now.rules.now) step.now.before.now
        (cast_row step.now.before.now (class_at step.now.rules.now.class.pool index)) result }
{
    let rules = step.rules;
    match rules.class.pool.class_name(index) {
        Some(name) => step.plain(&[Need::Initialised], Some(VType::Object(name.copy()?))),
        None => step.no_row(),
    }
}

/// Asks whether a reference is of a class or array.
pub(crate) fn is_instance(step: &Step<'_>) -> Result<Ruled, RuleFault>
    ensures { RowRules (row_scope step.now.rules.now) step.now.before.now
        (plain step.now.before.now (initialised ∷ []) (VType.Int ∷ [])) result }
{
    step.plain(&[Need::Initialised], Some(VType::Int))
}

/// Enters or leaves the monitor of an object.
pub(crate) fn use_monitor(step: &Step<'_>) -> Result<Ruled, RuleFault>
    ensures { RowRules (row_scope step.now.rules.now) step.now.before.now
        (plain step.now.before.now (of_kind kinds.Ref ∷ []) []) result }
{
    step.plain(&[Need::OfKind(Kind::Ref)], None)
}

/// Throws an object.
pub(crate) fn throw(step: &Step<'_>) -> Result<Ruled, RuleFault>
    ensures { RowRules (row_scope step.now.rules.now) step.now.before.now
        (throw_row step.now.before.now) result }
{
    let needs = [Need::Object(THROWABLE)];
    step.takes(&needs)?;
    step.end(1, true)
}

// The locals without objects that were made at an offset and not initialised.
fn without_older(alloc: Global, locals: &LocalTypeList, at: u32) -> Result<LocalTypeList, NoMemory>
    ensures { IfOk result (λ after. after ≡ map (without_older at) locals.now) }
{
    let mut after = locals.copy(alloc)?;
    for index in 0..locals.listed() {
        if is_older(locals, index, at) {
            after.set(index, VType::Top)?;
        }
    }
    Ok(after)
}

// Whether a type is that of an object made at an offset and not initialised.
fn is_made_at(entry: &VType, at: u32) -> bool
    ensures { IsTrue result ↔ (entry.now ≡ VType.Uninit at) }
{
    matches!(entry, VType::Uninit(other) if *other == at)
}

// Whether a local has an object made at an offset and not initialised.
fn is_older(locals: &LocalTypeList, index: usize, at: u32) -> bool
    ensures { IsTrue result ↔ (slice_get locals.now index ≡ Some (VType.Uninit at)) }
{
    match locals.get(index) {
        Some(unit) => is_made_at(unit, at),
        None => false,
    }
}

// Whether no entry is an object made at an offset and not initialised.
fn has_none_made(entries: &VTypeList, at: u32) -> bool
    ensures { IsTrue result ↔ AllByRecursion (λ type. type ≢ VType.Uninit at) entries.now }
{
    entries
        .as_slice()
        .iter()
        .all(|entry| !is_made_at(entry, at))
}
