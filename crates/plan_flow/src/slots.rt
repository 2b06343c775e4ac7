//! What places hold before an instruction, and behind its edges.
ghost use Rattle.std.specs.Prelude.{◌≡◌, ◌+◌, ◌≤◌, ◌++◌, length, slice_get, IsTrue, IfOk, OnOk};
ghost use Rattle.std.specs.Option.{option_copied};
ghost use Rattle.plan_flow.specs.Inner.Fitting.{local_of, or_plain as slot_or_plain};
ghost use Rattle.plan_flow.specs.PlanRows.{Change};
ghost use Rattle.plan_flow.specs.PlanScope.{PlanScope};
ghost use Rattle.plan_flow.specs.PlanSlots.{fit_locals as fitted_locals, fit_stack as fitted_stack, held as held_slot, is_plain as plain_slot, may_be_same as may_be_same_slots, may_differ as may_differ_slots, slots_from};
ghost use Rattle.plan_flow.specs.PlanTable.{held_from};

use class_model::{Frame, ListOf, NoMemory, VType};
use std::alloc::Global;
use virtual_state::{Slot, SlotList, VState};

/// What a place of a state holds: the places are the local units, counted from 0, and behind them the stack entries, the lowest
/// first. An unusable place, or one that the state does not have, is read as a plain one: no code that types reads it.
pub fn held(state: &VState, place: usize) -> Slot
    ensures { result ≡ held_slot state.now place }
{
    match state.slot(place) {
        Some(Slot::Virt(site)) => Slot::Virt(site),
        Some(Slot::Plain) | Some(Slot::Unusable) | None => Slot::Plain,
    }
}

/// Whether a slot holds no virtual object.
pub(crate) fn is_plain(slot: Slot) -> bool
    ensures { result ≡ plain_slot slot }
{
    match slot {
        Slot::Virt(_) => false,
        Slot::Plain | Slot::Unusable => true,
    }
}

/// Whether two slots are the same.
pub(crate) fn is_same(slot: Slot, other: Slot) -> bool
    ensures { IsTrue result → slot ≡ other }
{
    match slot {
        Slot::Plain => matches!(other, Slot::Plain),
        Slot::Virt(site) => match other {
            Slot::Virt(same) => site == same,
            Slot::Plain | Slot::Unusable => false,
        },
        Slot::Unusable => matches!(other, Slot::Unusable),
    }
}

/// Whether two slots may hold one reference.
pub(crate) fn may_be_same(one: Slot, other: Slot) -> bool
    ensures { result ≡ may_be_same_slots one other }
{
    match one {
        Slot::Virt(site) => match other {
            Slot::Virt(also) => site == also,
            Slot::Plain | Slot::Unusable => false,
        },
        Slot::Plain | Slot::Unusable => match other {
            Slot::Virt(_) => false,
            Slot::Plain | Slot::Unusable => true,
        },
    }
}

/// Whether two slots may hold two references, or a reference and null.
pub(crate) fn may_differ(one: Slot, other: Slot) -> bool
    ensures { result ≡ may_differ_slots one other }
{
    match one {
        Slot::Virt(site) => match other {
            Slot::Virt(also) => site != also,
            Slot::Plain | Slot::Unusable => true,
        },
        Slot::Plain | Slot::Unusable => true,
    }
}

/// Appends what so many places hold, from one on.
pub(crate) fn push_held(
    slots: &mut Vec<Slot>,
    state: &VState,
    first: usize,
    count: usize,
) -> Result<(), NoMemory>
    ensures { OnOk result
        ((s : PlanScope) (by : Change)
        → slots.new.items ≡ slots.old.items ++ slots_from s state.now by (held_from first count)) }
{
    for at in 0..count {
        slots.push(held_behind(state, first, at))?;
    }
    Ok(())
}

// What the place that is so far behind one holds.
fn held_behind(state: &VState, first: usize, at: usize) -> Slot
    ensures { result ≡ held_slot state.now (first + at) }
{
    if at < state.len() {
        held(state, first.saturating_add(at))
    } else {
        Slot::Plain
    }
}

/// The slots of a point with these types: the local units, of which those that are Top become unusable, and behind them the
/// stack entries. What is missing is plain.
pub(crate) fn fitted(
    alloc: Global,
    locals: &[Slot],
    stack: &[Slot],
    types: &Frame,
) -> Result<SlotList, NoMemory>
    ensures { IfOk result
        (λ slots. slots
        ≡ fitted_locals types.now.locals locals.now ++ fitted_stack types.now.stack stack.now) }
{
    let mut slots = Vec::new(alloc);
    push_locals(&mut slots, locals, types)?;
    push_stack(&mut slots, stack, types.stack.as_slice())?;
    Ok(ListOf::from_vec(slots))
}

/// The stack entries of a point with these types. What is missing is plain.
pub(crate) fn fitted_stack(
    alloc: Global,
    stack: &[Slot],
    types: &[VType],
) -> Result<SlotList, NoMemory>
    ensures { IfOk result (λ slots. slots ≡ fitted_stack types.now stack.now) }
{
    let mut slots = Vec::new(alloc);
    push_stack(&mut slots, stack, types)?;
    Ok(ListOf::from_vec(slots))
}

// Appends local units of these types.
fn push_locals(slots: &mut Vec<Slot>, locals: &[Slot], types: &Frame) -> Result<(), NoMemory>
    ensures { OnOk result
        (slots.new.items ≡ slots.old.items ++ fitted_locals types.now.locals locals.now) }
{
    for at in 0..types.locals.len() {
        slots.push(local_slot(slot_at(locals, at), types.locals.get(at)))?;
    }
    Ok(())
}

/// A local unit of a type. What is missing is plain.
pub(crate) fn local_slot(slot: Option<Slot>, of_type: Option<&VType>) -> Slot
    ensures { result ≡ local_of (option_copied of_type.entry) slot }
{
    if let Some(VType::Top) = of_type {
        return Slot::Unusable;
    }
    or_plain(slot)
}

// Appends stack entries, as many as there are types. What is missing is plain.
fn push_stack(slots: &mut Vec<Slot>, stack: &[Slot], types: &[VType]) -> Result<(), NoMemory>
    ensures { OnOk result
        (slots.new.items ≡ slots.old.items ++ fitted_stack types.now stack.now) }
{
    for at in 0..types.len() {
        slots.push(or_plain(slot_at(stack, at)))?;
    }
    Ok(())
}

/// The slot at an index, if there is one.
pub(crate) fn slot_at(slots: &[Slot], at: usize) -> Option<Slot>
    ensures { result ≡ slice_get slots.now at }
{
    slots.get(at).copied()
}

/// A slot that may be missing.
pub(crate) fn or_plain(slot: Option<Slot>) -> Slot
    ensures { result ≡ slot_or_plain slot }
{
    match slot {
        Some(slot) => slot,
        None => Slot::Plain,
    }
}
