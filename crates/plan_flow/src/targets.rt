//! The state of the target of an edge.
ghost use Rattle.std.specs.Prelude.{◌≡◌, ℕ, Some, IfOk, drop};
ghost use Rattle.std.specs.Option.{option_copied};
ghost use Rattle.plan_flow.specs.Inner.Iteration.{IsCleaned, IsJoined, IsRaised, slots_beneath};
ghost use Rattle.plan_flow.specs.PlanScope.{PlanScope};
ghost use Rattle.plan_flow.specs.Plans.{IsStateAt};
ghost use Rattle.virtual_state.specs.Orders.{HaveSamePlaces};
ghost use Rattle.virtual_state.specs.Sites.{has};
ghost use Rattle.virtual_state.specs.States.{State, names};

use crate::beneath::{add_entries, has_top};
use crate::slots::or_plain;
use class_model::NoMemory;
use flow_code::Flat;
use std::alloc::Global;
use virtual_state::{SiteSet, Slot, VState, closure, join, without};

/// The least state of a point that is above the state behind an edge to it, and above the state that
/// the point has, if it has one: no object stays virtual that lies at or below a stack entry whose
/// type is Top.
///
/// # Errors
/// `NoMemory`, where memory runs out.
pub(crate) fn raised(
    alloc: Global,
    flat: &Flat,
    to: usize,
    behind: &VState,
    old: Option<&VState>,
) -> Result<VState, NoMemory>
    requires { (state : State)
        → option_copied old ≡ Some state
        → HaveSamePlaces behind.now state }
    ensures { IfOk result (λ above. (s : PlanScope)
        → s.flat ≡ flat.now
        → IsStateAt s to behind.now
        → IsRaised s to behind.now (option_copied old.entry) above) }
{
    let both = joined(alloc, behind, old)?;
    let above = cleaned(alloc, flat, to, both)?;
    Ok(above)
}

// The state behind an edge, joined with the one that its target has.
fn joined(alloc: Global, behind: &VState, old: Option<&VState>) -> Result<VState, NoMemory>
    requires { (state : State)
        → option_copied old ≡ Some state
        → HaveSamePlaces behind.now state }
    ensures { IfOk result (λ both. IsJoined behind.now (option_copied old.entry) both) }
{
    match old {
        Some(old) => Ok(join(alloc, behind, old)?),
        None => Ok(behind.copy()?),
    }
}

/// A state, where each object is made that lies at or below a stack entry whose type at a point is
/// Top.
///
/// # Errors
/// `NoMemory`, where memory runs out.
pub(crate) fn cleaned(
    alloc: Global,
    flat: &Flat,
    at: usize,
    state: VState,
) -> Result<VState, NoMemory>
    ensures { IfOk result (λ clean. IsCleaned flat.now at state clean) }
{
    state.is_state();
    let sites = sites_beneath(alloc, flat, at, &state)?;
    if sites.is_empty() {
        return Ok(state);
    }
    let away = closure(alloc, &state, &sites)?;
    let clean = without(alloc, &state, &away)?;
    Ok(clean)
}

// The sites of the objects that lie there.
fn sites_beneath(alloc: Global, flat: &Flat, at: usize, state: &VState) -> Result<SiteSet, NoMemory>
    ensures { IfOk result (λ sites. (site : ℕ)
        → has sites site ≡ names (slots_beneath flat.now at state.now) site) }
{
    state.is_state();
    let mut sites = SiteSet::new(alloc);
    let Some(types) = flat.typed(at) else {
        return Ok(sites);
    };
    let stack = types.stack.as_slice();
    if !has_top(stack) {
        return Ok(sites);
    }
    let entries = slots_from(alloc, state, types.locals.len())?;
    add_entries(&mut sites, stack, entries.as_slice(), state)?;
    Ok(sites)
}

// The slots from a place on.
fn slots_from(alloc: Global, state: &VState, first: usize) -> Result<Vec<Slot>, NoMemory>
    ensures { IfOk result (λ slots. slots.items ≡ drop first state.now.slots) }
{
    let mut slots = Vec::new(alloc);
    for at in first..state.len() {
        slots.push(or_plain(state.slot(at)))?;
    }
    Ok(slots)
}
