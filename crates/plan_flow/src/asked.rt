//! The virtual objects that the positions of a row ask for.
ghost use Rattle.std.specs.Prelude.{◌≡◌, ◌↔◌, ◌⊎◌, ◌++◌, ℕ, not, Some, IsTrue, IfOk, OnOk};
ghost use Rattle.class_tree.specs.Headers.{headers_of};
ghost use Rattle.member_link.specs.Machine.Links.{AreLinksOf};
ghost use Rattle.member_link.specs.Machine.Programs.{Links};
ghost use Rattle.plan_flow.specs.Inner.Asking.{HasAdded, IsAskedIn, IsAtDepth, IsTested};
ghost use Rattle.plan_flow.specs.Inner.RowViews.{asked_by, change_of, plan_row};
ghost use Rattle.plan_flow.specs.Must.{CannotBePut};
ghost use Rattle.plan_flow.specs.Narrow.{HasFewLocals};
ghost use Rattle.plan_flow.specs.PlanScope.{PlanScope, is_site_below, scope_of};
ghost use Rattle.plan_flow.specs.PlanTable.{change_asks, operands_asked, positions};
ghost use Rattle.virtual_state.specs.Depths.{depth_of};
ghost use Rattle.virtual_state.specs.States.{IsPath};

use crate::rows::{Asks, Change, Row, operand};
use crate::slots::held;
use class_model::{Frame, NoMemory, Text};
use class_tree::{Tree, is_sub};
use flow_code::Flat;
use std::alloc::Global;
use virtual_state::{SiteSet, Slot, VState, closure};

/// Adds the sites for whose objects a row asks.
///
/// # Errors
/// `NoMemory`, where memory runs out.
pub(crate) fn add_asked(
    sites: &mut SiteSet,
    alloc: Global,
    tree: &Tree,
    flat: &Flat,
    types: &Frame,
    row: &Row,
    state: &VState,
) -> Result<(), NoMemory>
    requires { HasFewLocals types.now }
    ensures { OnOk result ((links : Links)
        → AreLinksOf (headers_of tree.now) links
        → HasAdded sites.old sites.new
        (IsAskedIn (scope_of tree.now links flat.now) state.now
        (positions (plan_row types.now row.now)))) }
{
    add_operands_asked(sites, tree, flat, types, &row.asks, state)?;
    add_change_asked(sites, alloc, &row.change, state)?;
    Ok(())
}

// Adds those for which it asks besides what its change asks.
fn add_operands_asked(
    sites: &mut SiteSet,
    tree: &Tree,
    flat: &Flat,
    types: &Frame,
    asks: &Asks,
    state: &VState,
) -> Result<(), NoMemory>
    requires { HasFewLocals types.now }
    ensures { OnOk result ((links : Links)
        → AreLinksOf (headers_of tree.now) links
        → HasAdded sites.old sites.new
        (IsAskedIn (scope_of tree.now links flat.now) state.now (asked_by types.now asks.now))) }
{
    match asks {
        Asks::Operands(count) => Ok(add_operands(sites, types, *count, state)?),
        Asks::NotBelow(class) => {
            let slot = held(state, operand(types, 0));
            let fails = fails_cast(tree, flat, slot, class);
            add_tested(sites, slot, fails)
        }
    }
}

// Adds those of so many operands.
fn add_operands(
    sites: &mut SiteSet,
    types: &Frame,
    count: usize,
    state: &VState,
) -> Result<(), NoMemory>
    requires { HasFewLocals types.now }
    ensures { OnOk result ((s : PlanScope)
        → HasAdded sites.old sites.new (IsAskedIn s state.now (operands_asked types.now count))) }
{
    for number in 0..count {
        add_tested(sites, held(state, operand(types, number)), true)?;
    }
    Ok(())
}

// Adds those for which a change asks.
fn add_change_asked(
    sites: &mut SiteSet,
    alloc: Global,
    change: &Change,
    state: &VState,
) -> Result<(), NoMemory>
    ensures { OnOk result ((s : PlanScope)
        → HasAdded sites.old sites.new
        (IsAskedIn s state.now (change_asks (change_of change.now)))) }
{
    match change {
        Change::Nothing => Ok(()),
        Change::New(site) => add_tested(sites, Slot::Virt(*site), state.present(*site)),
        Change::Put { place, value, .. } => {
            let slot = held(state, *value);
            let asked = cannot_be_put(alloc, state, slot, held(state, *place))?;
            add_tested(sites, slot, asked)
        }
        Change::Enter(place) => add_at_depth(sites, *place, u16::MAX, state),
        Change::Leave(place) => add_at_depth(sites, *place, 0, state),
    }
}

// Adds the one that a place holds, if its monitor is entered so often.
fn add_at_depth(
    sites: &mut SiteSet,
    place: usize,
    depth: u16,
    state: &VState,
) -> Result<(), NoMemory>
    ensures { OnOk result (HasAdded sites.old sites.new (IsAtDepth state.now place depth)) }
{
    let slot = held(state, place);
    let asked = is_at_depth(state, slot, depth);
    add_tested(sites, slot, asked)
}

/// Adds the site whose object a slot holds, where a test is passed.
///
/// # Errors
/// `NoMemory`, where memory runs out.
pub(crate) fn add_tested(sites: &mut SiteSet, slot: Slot, test: bool) -> Result<(), NoMemory>
    ensures { OnOk result (HasAdded sites.old sites.new (IsTested slot test)) }
{
    if !test {
        return Ok(());
    }
    match slot {
        Slot::Virt(site) => sites.add(site),
        Slot::Plain | Slot::Unusable => Ok(()),
    }
}

// Whether a virtual object that a slot holds is not of a class or below it.
fn fails_cast(tree: &Tree, flat: &Flat, slot: Slot, class: &Text) -> bool
    ensures { (links : Links) (site : ℕ)
        → AreLinksOf (headers_of tree.now) links
        → slot ≡ Slot.Virt site
        → result ≡ not (is_site_below (scope_of tree.now links flat.now) site class.now) }
{
    match slot {
        Slot::Virt(site) => !is_site_below(tree, flat, site, class),
        Slot::Plain | Slot::Unusable => false,
    }
}

/// Whether the objects of a site are of a class or one below it, by the site's number. False, where there is no such site.
pub fn is_site_below(tree: &Tree, flat: &Flat, site: u16, class: &Text) -> bool
    ensures { (links : Links)
        → AreLinksOf (headers_of tree.now) links
        → result ≡ is_site_below (scope_of tree.now links flat.now) site class.now }
{
    match flat.sites().get(usize::from(site)) {
        Some(one) => is_sub(tree, &one.class, class),
        None => false,
    }
}

// Whether the monitor of the virtual object that a slot holds is entered so often.
fn is_at_depth(state: &VState, slot: Slot, depth: u16) -> bool
    ensures { (site : ℕ)
        → slot ≡ Slot.Virt site
        → IsTrue result ↔ (depth_of state.now site ≡ Some depth) }
{
    match slot {
        Slot::Virt(site) => state.depth(site) == Some(depth),
        Slot::Plain | Slot::Unusable => false,
    }
}

// Whether the virtual object that a slot holds must be made before it is put into what another one holds: that was made, or is
// the object itself or reached from it over fields.
fn cannot_be_put(alloc: Global, state: &VState, slot: Slot, into: Slot) -> Result<bool, NoMemory>
    ensures { IfOk result (λ cannot. (site : ℕ)
        → slot ≡ Slot.Virt site
        → IsTrue cannot ↔ CannotBePut state.now site into) }
{
    match into {
        Slot::Virt(to) => match slot {
            Slot::Virt(from) => reaches(alloc, state, from, to),
            Slot::Plain | Slot::Unusable => Ok(false),
        },
        Slot::Plain | Slot::Unusable => Ok(true),
    }
}

// Whether a site is another one, or its object reaches that of the other one over fields.
fn reaches(alloc: Global, state: &VState, from: u16, to: u16) -> Result<bool, NoMemory>
    ensures { IfOk result
        (λ reached. IsTrue reached ↔ ((from ≡ to) ⊎ IsPath state.now.objects from to)) }
{
    let mut sites = SiteSet::new(alloc);
    sites.add(from)?;
    let reached = closure(alloc, state, &sites)?;
    Ok(reached.has(to))
}
