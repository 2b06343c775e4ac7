//! The sites by which states differ.
ghost use Rattle.std.specs.Prelude.{◌≡◌, ◌||◌, ℕ, IfOk, OnOk};
ghost use Rattle.std.specs.Option.{option_copied};
ghost use Rattle.virtual_state.specs.Inner.Comparing.{is_lost};
ghost use Rattle.virtual_state.specs.Sites.{differing as differing_sites, has};

use crate::shared::SharedObject;
use crate::sites::SiteSet;
use crate::state::VState;
use class_model::NoMemory;
use std::alloc::Global;

/// The sites of a state that another one does not have. Where the state is below the other one, they are the closed set
/// without which it is the other one.
pub fn differing(alloc: Global, state: &VState, other: &VState) -> Result<SiteSet, NoMemory>
    ensures { IfOk result
        (λ sites. (site : ℕ) → has sites site ≡ has (differing_sites state.now other.now) site) }
{
    let mut sites = SiteSet::new(alloc);
    let objects = state.objects();
    for site in 0..objects.end() {
        add_lost(&mut sites, objects.get(site), other)?;
    }
    Ok(sites)
}

// Adds the site of an object, if another state does not have it.
fn add_lost(
    sites: &mut SiteSet,
    object: Option<&SharedObject>,
    other: &VState,
) -> Result<(), NoMemory>
    ensures { OnOk result
        ((site : ℕ)
        → has sites.new site
        ≡ (has sites.old site
        || is_lost other.now.objects (option_copied object.entry) site)) }
{
    let Some(object) = object else {
        return Ok(());
    };
    let site = object.get().site;
    if other.present(site) {
        return Ok(());
    }
    sites.add(site)
}
