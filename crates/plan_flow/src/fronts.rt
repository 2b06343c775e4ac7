//! The local units behind an edge.
ghost use Rattle.std.specs.Prelude.{◌≡◌, ◌≤◌, get_or, length, slice_get, take, IfOk, IsTrue};
ghost use Rattle.class_model.specs.Frames.{is_top as is_top_type};
ghost use Rattle.class_model.specs.declared.frame.VType.{VType};
ghost use Rattle.plan_flow.specs.Inner.Fitting.{local_of};
ghost use Rattle.plan_flow.specs.Inner.Fronts.{IsNextTop, KeepsSlot, locals_held, tops_before};
ghost use Rattle.plan_flow.specs.Inner.RowViews.{stored_by};
ghost use Rattle.plan_flow.specs.Narrow.{HasFewLocals};
ghost use Rattle.plan_flow.specs.PlanSlots.{fit_locals};

use crate::beneath::is_top;
use crate::edge::EdgeKind;
use crate::rows::operand;
use crate::slots::{held, is_same, local_slot};
use class_model::{Frame, ListOf, LocalTypeList, NoMemory, VType};
use std::alloc::Global;
use virtual_state::{FrontSlots, Slot, VState};

/// The local unit that is stored into: a handler begins with those before the instruction.
pub(crate) fn stored_by(stored: Option<u16>, by: EdgeKind) -> Option<u16>
    ensures { result ≡ stored_by stored by }
{
    match by {
        EdgeKind::Next => stored,
        EdgeKind::Jump(_) => stored,
        EdgeKind::Handler(_) => None,
    }
}

/// The local units of a point whose local units have these types: those of a state at a point with the other types, of which
/// one may become what the topmost operand is. Where they are as before, they are shared.
///
/// # Errors
/// `NoMemory`, where memory runs out.
pub(crate) fn locals_behind(
    alloc: Global,
    state: &VState,
    types: &Frame,
    stored: Option<u16>,
    target: &LocalTypeList,
) -> Result<FrontSlots, NoMemory>
    requires few { HasFewLocals types.now }
    requires also { length target.now ≤ 65536 }
    ensures { IfOk result
        (λ locals. locals ≡ fit_locals target.now (locals_held state.now types.now stored)) }
{
    let front = state.front();
    if is_as_before(front, state, types, stored, target) {
        let same = front.copy()?;
        return Ok(same);
    }
    let count = target.listed();
    let unusable = target.len() - count;
    let listed = listed_locals(alloc, state, types, stored, target, count)?;
    let locals = FrontSlots::of(alloc, ListOf::from_vec(listed), unusable)?;
    Ok(locals)
}

// Whether slots are these local units: those that are unusable are those that become so, and the one that is stored into keeps its slot.
fn is_as_before(
    front: &FrontSlots,
    state: &VState,
    types: &Frame,
    stored: Option<u16>,
    target: &LocalTypeList,
) -> bool
    requires few { HasFewLocals types.now }
    requires first { front.now ≡ take (length front.now) state.now.slots }
    ensures { IsTrue result
        → front.now ≡ fit_locals target.now (locals_held state.now types.now stored) }
{
    let (listed, gaps) = front.listed_with_gaps();
    if front.len() != target.len() {
        return false;
    }
    if front.len() != types.locals.len() {
        return false;
    }
    if listed.len() != target.listed() {
        return false;
    }
    if !keeps_slot(front, state, types, stored) {
        return false;
    }
    has_tops_at(target, listed.len(), gaps)
}

// Whether the local unit that is stored into holds before what is stored.
fn keeps_slot(front: &FrontSlots, state: &VState, types: &Frame, stored: Option<u16>) -> bool
    requires { HasFewLocals types.now }
    ensures { IsTrue result → KeepsSlot front.now state.now types.now stored }
{
    let Some(local) = stored else {
        return true;
    };
    let Some(slot) = front.get(usize::from(local)) else {
        return true;
    };
    is_same(slot, held(state, operand(types, 0)))
}

// Whether the local units that are Top among so many are those of these indices.
fn has_tops_at(target: &LocalTypeList, count: usize, places: &[usize]) -> bool
    requires { count ≤ length target.now }
    ensures { IsTrue result → tops_before target.now count ≡ places.now }
{
    let mut from = 0;
    for number in 0..places.len() {
        let Some(at) = next_top(target, from, count) else {
            return false;
        };
        if at != places[number] {
            return false;
        }
        from = at + 1;
    }
    next_top(target, from, count).is_none()
}

// The first local unit from one on that is Top, before an end.
fn next_top(target: &LocalTypeList, from: usize, end: usize) -> Option<usize>
    requires order { from ≤ end }
    requires inside { end ≤ length target.now }
    ensures { IsNextTop target.now from end result }
{
    for at in from..end {
        if is_top_at(target, at) {
            return Some(at);
        }
    }
    None
}

// Whether a local unit is Top.
fn is_top_at(types: &LocalTypeList, at: usize) -> bool
    ensures { result ≡ is_top_type (get_or types.now at VType.Top) }
{
    match types.get(at) {
        Some(one) => is_top(one),
        None => true,
    }
}

// So many of the first of these local units.
fn listed_locals(
    alloc: Global,
    state: &VState,
    types: &Frame,
    stored: Option<u16>,
    target: &LocalTypeList,
    count: usize,
) -> Result<Vec<Slot>, NoMemory>
    requires few { HasFewLocals types.now }
    requires inside { count ≤ length target.now }
    ensures { IfOk result
        (λ slots. slots.items
        ≡ fit_locals (take count target.now) (locals_held state.now types.now stored)) }
{
    let mut slots = Vec::with_capacity(alloc, count)?;
    for at in 0..count {
        slots.push(local_behind(state, types, stored, target, at))?;
    }
    Ok(slots)
}

// One of these local units.
fn local_behind(
    state: &VState,
    types: &Frame,
    stored: Option<u16>,
    target: &LocalTypeList,
    at: usize,
) -> Slot
    requires few { HasFewLocals types.now }
    ensures { result
        ≡ local_of (slice_get target.now at)
        (slice_get (locals_held state.now types.now stored) at) }
{
    local_slot(local_held(state, types, stored, at), target.get(at))
}

// What a local unit holds, of which one may become what the topmost operand is.
fn local_held(state: &VState, types: &Frame, stored: Option<u16>, at: usize) -> Option<Slot>
    requires { HasFewLocals types.now }
    ensures { result ≡ slice_get (locals_held state.now types.now stored) at }
{
    if at >= types.locals.len() {
        return None;
    }
    match stored {
        Some(local) => {
            if usize::from(local) == at {
                Some(held(state, operand(types, 0)))
            } else {
                Some(held(state, at))
            }
        }
        None => Some(held(state, at)),
    }
}
