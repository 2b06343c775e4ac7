//! Closed sets of sites.
ghost use Rattle.std.specs.Prelude.{◌≡◌, ℕ, IfOk};
ghost use Rattle.virtual_state.specs.Sites.{has, IsClosure};

use crate::marks::MarkedSites;
use crate::sites::SiteSet;
use crate::spread::spread;
use crate::state::VState;
use class_model::NoMemory;
use std::alloc::Global;

/// The least closed set that has these sites: they, and what their objects reach over fields. The time is proportional to the
/// fields of the objects of the set, but for putting the set in order.
pub fn closure(alloc: Global, state: &VState, sites: &SiteSet) -> Result<SiteSet, NoMemory>
    ensures { IfOk result (λ closed. IsClosure sites.now state.now.objects closed) }
{
    let mut reached = MarkedSites::new(alloc);
    reached.mark_all(sites.as_slice())?;
    spread(&mut reached, state.objects(), state.objects())?;
    let closed = in_order(alloc, &reached)?;
    Ok(closed)
}

// The set of the marked sites.
fn in_order(alloc: Global, marked: &MarkedSites) -> Result<SiteSet, NoMemory>
    ensures { IfOk result (λ set. (site : ℕ) → has set site ≡ has marked.now site) }
{
    let mut set = SiteSet::new(alloc);
    for at in 0..marked.len() {
        set.add(marked.get(at))?;
    }
    Ok(set)
}
