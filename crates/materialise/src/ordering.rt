//! The order in which objects are made.
ghost use Rattle.std.specs.Prelude.{◌≡◌, ◌&&◌, not, IfOk};
ghost use Rattle.std.specs.List.{list_any};
ghost use Rattle.making_code.specs.MakeOrder.{IsMakeOrder, left_of, names_one};
ghost use Rattle.materialise.specs.Inner.OrderWords.{IsNext, is_pending};
ghost use Rattle.virtual_state.specs.Sites.{has};

use class_model::{ListOf, NoMemory};
use std::alloc::Global;
use virtual_state::{SiteSet, Slot, VState};

/// The numbers of sites.
pub type SiteList16 = ListOf<u16>;

/// The order in which the objects of these sites are made: each behind those of the sites that its fields name. Of the sites
/// that may come next the least comes first.
///
/// # Errors
/// `NoMemory`, where memory runs out.
pub fn make_order(alloc: Global, state: &VState, sites: &SiteSet) -> Result<SiteList16, NoMemory>
    ensures { IfOk result (IsMakeOrder state.now.objects sites.now) }
{
    state.is_state();
    let mut made = SiteSet::new(alloc);
    let mut order = ListOf::new(alloc);
    while let Some(site) = next_site(state, sites, &made) {
        made.add(site)?;
        order.push(site)?;
    }
    Ok(order)
}

// The site whose object comes next.
fn next_site(state: &VState, sites: &SiteSet, made: &SiteSet) -> Option<u16>
    ensures { IsNext state.now.objects (left_of sites.now made.now) result }
{
    for site in sites.as_slice() {
        if !made.has(*site) && is_ready(state, sites, made, *site) {
            return Some(*site);
        }
    }
    None
}

// Whether no field of a site's object names a site whose object is still to be made.
fn is_ready(state: &VState, sites: &SiteSet, made: &SiteSet, site: u16) -> bool
    ensures { result ≡ not (names_one state.now.objects (left_of sites.now made.now) site) }
{
    match state.object(site) {
        Some(object) => !name_pending(sites, made, object.fields.as_slice()),
        None => true,
    }
}

// Whether one of these slots names a site whose object is still to be made.
fn name_pending(sites: &SiteSet, made: &SiteSet, slots: &[Slot]) -> bool
    ensures { result ≡ list_any (is_pending sites.now made.now) slots.now }
{
    slots.iter().any(|slot| is_pending(sites, made, *slot))
}

// Whether a slot names a site whose object is still to be made.
fn is_pending(sites: &SiteSet, made: &SiteSet, slot: Slot) -> bool
    ensures { result ≡ is_pending sites.now made.now slot }
{
    match slot {
        Slot::Virt(site) => !made.has(site) && sites.has(site),
        Slot::Plain | Slot::Unusable => false,
    }
}
