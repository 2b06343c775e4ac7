//! Virtual objects that come to lie at or below a stack entry whose type is Top, which no instruction takes away.
ghost use Rattle.std.specs.Prelude.{◌≡◌, ◌<◌, ℕ, drop, map, IsFalse, IsTrue, OnOk};
ghost use Rattle.std.specs.List.{list_any};
ghost use Rattle.class_model.specs.Frames.{is_top};
ghost use Rattle.member_link.specs.Machine.Programs.{Links};
ghost use Rattle.plan_flow.specs.Inner.Asking.{HasAdded, IsBeneath, IsBeneathAny};
ghost use Rattle.plan_flow.specs.Inner.EdgeViews.{row_edge};
ghost use Rattle.plan_flow.specs.Inner.RowViews.{plan_row};
ghost use Rattle.plan_flow.specs.Narrow.{HasFewLocals};
ghost use Rattle.plan_flow.specs.PlanScope.{scope_of, stack_types};
ghost use Rattle.plan_flow.specs.PlanSlots.{fit_stack as fitted_stack, stack_slots};
ghost use Rattle.virtual_state.specs.States.{is_present};

use crate::asked::add_tested;
use crate::edges::{GuardedEdge, edge_at};
use crate::rows::Row;
use crate::slots::{or_plain, slot_at};
use crate::sources::edge_stack;
use class_model::{Frame, NoMemory, VType};
use class_tree::Tree;
use flow_code::Flat;
use std::alloc::Global;
use virtual_state::{SiteSet, Slot, VState};

/// Adds the sites that are present and come to lie there behind these edges.
///
/// # Errors
/// `NoMemory`, where memory runs out.
pub(crate) fn add_beneath(
    sites: &mut SiteSet,
    alloc: Global,
    tree: &Tree,
    flat: &Flat,
    types: &Frame,
    row: &Row,
    edges: &[GuardedEdge],
    state: &VState,
) -> Result<(), NoMemory>
    requires { HasFewLocals types.now }
    ensures { OnOk result ((links : Links) → HasAdded sites.old sites.new
        (IsBeneathAny (scope_of tree.now links flat.now) state.now (plan_row types.now row.now)
        (map row_edge edges.now))) }
{
    let mut at = 0;
    while let Some(edge) = edge_at(edges, at) {
        add_behind(sites, alloc, tree, flat, types, row, edge, state)?;
        at += 1;
    }
    Ok(())
}

// Behind one edge.
fn add_behind(
    sites: &mut SiteSet,
    alloc: Global,
    tree: &Tree,
    flat: &Flat,
    types: &Frame,
    row: &Row,
    edge: GuardedEdge,
    state: &VState,
) -> Result<(), NoMemory>
    requires { HasFewLocals types.now }
    ensures { OnOk result ((links : Links) → HasAdded sites.old sites.new
        (IsBeneath state.now (stack_types flat.now edge.to)
        (stack_slots (scope_of tree.now links flat.now) state.now (plan_row types.now row.now)
        (row_edge edge)))) }
{
    let Some(target) = flat.typed(edge.to) else {
        return Ok(());
    };
    let target = target.stack.as_slice();
    if !has_top(target) {
        return Ok(());
    }
    let entries = edge_stack(alloc, tree, flat, state, types, row, edge.by)?;
    add_entries(sites, target, entries.as_slice(), state)?;
    Ok(())
}

/// Adds those among stack entries of these types.
///
/// # Errors
/// `NoMemory`, where memory runs out.
pub(crate) fn add_entries(
    sites: &mut SiteSet,
    types: &[VType],
    entries: &[Slot],
    state: &VState,
) -> Result<(), NoMemory>
    ensures { OnOk result (HasAdded sites.old sites.new
        (IsBeneath state.now types.now (fitted_stack types.now entries.now))) }
{
    let end = tops_end(types);
    let mut at = 0;
    while at < end {
        let slot = or_plain(slot_at(entries, at));
        add_tested(sites, slot, is_present(state, slot))?;
        at += 1;
    }
    Ok(())
}

// The number of the types up to the last one that is Top.
fn tops_end(types: &[VType]) -> usize
    ensures before { (at : ℕ) → at < result → IsTrue (list_any is_top (drop at types.now)) }
    ensures behind { IsFalse (list_any is_top (drop result types.now)) }
{
    let mut end = types.len();
    while end > 0 {
        if is_top(&types[end - 1]) {
            return end;
        }
        end -= 1;
    }
    0
}

/// Whether one of these types is Top.
pub(crate) fn has_top(types: &[VType]) -> bool
    ensures { result ≡ list_any is_top types.now }
{
    for one in types {
        if is_top(one) {
            return true;
        }
    }
    false
}

/// Whether a type is Top.
pub(crate) fn is_top(one: &VType) -> bool
    ensures { result ≡ is_top one.now }
{
    matches!(one, VType::Top)
}

// Whether the virtual object that a slot holds is there.
fn is_present(state: &VState, slot: Slot) -> bool
    ensures { (site : ℕ)
        → slot ≡ Slot.Virt site
        → result ≡ is_present state.now.objects site }
{
    match slot {
        Slot::Virt(site) => state.present(site),
        Slot::Plain | Slot::Unusable => false,
    }
}
