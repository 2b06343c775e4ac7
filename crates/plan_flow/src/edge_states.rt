//! The states behind edges.
ghost use Rattle.std.specs.Prelude.{◌≡◌, ◌++◌, ◌+◌, ◌-◌, ◌<◌, [], ◌∷◌, map, replicate, IfOk};
ghost use Rattle.plan_flow.specs.PlanSlots.{fit_stack as stack_fitted};
ghost use Rattle.virtual_state.specs.Making.{CanBeState};
ghost use Rattle.plan_flow.specs.Inner.Fitting.{IsKept};

use crate::slots::fitted_stack;
use class_model::{ListOf, NoMemory, VType};
use std::alloc::Global;
use virtual_state::{FrontSlots, Slot, VObject, VObjectList, VState};

/// The state behind an edge to a point with these types on the stack: these local units and stack entries, and the objects that
/// they reach, of which some are new or take the place of those of their sites.
pub(crate) fn state_behind(
    alloc: Global,
    before: &VState,
    locals: FrontSlots,
    stack: &[Slot],
    changed: VObjectList,
    types: &[VType],
) -> Result<VState, NoMemory>
    requires { CanBeState (locals ++ stack_fitted types.now stack.now)
        (changed ++ before.now.objects) }
    ensures { IfOk result
        (λ state. IsKept (locals ++ stack_fitted types.now stack.now)
        (changed ++ before.now.objects) state) }
{
    let stack = fitted_stack(alloc, stack, types)?;
    let state = before.moved(alloc, locals, stack, changed)?;
    state.is_state();
    Ok(state)
}

/// A new object of a site with so many fields.
pub(crate) fn blank_object(alloc: Global, site: u16, count: usize) -> Result<VObject, NoMemory>
    ensures { IfOk result
        (λ object. object ≡ record { site = site; fields = replicate count Slot.Plain; depth = 0 }) }
{
    let mut fields = Vec::new(alloc);
    fields.resize(count, Slot::Plain)?;
    Ok(VObject {
        site,
        fields: ListOf::from_vec(fields),
        depth: 0,
    })
}
