//! Sets of sites.
ghost use Rattle.std.specs.Prelude.{◌≡◌, ◌||◌, ◌==◌, ℕ, [], length, slice_get, OnOk, OnErr};
ghost use Rattle.virtual_state.specs.Inner.Places.{IsPlaceOf};
ghost use Rattle.virtual_state.specs.Sites.{has};
ghost use Rattle.virtual_state.specs.States.{IsIncreasing};

use class_model::NoMemory;
use std::alloc::Global;
use std::marker::Model;

/// A set of allocation sites. Contracts see the list of their numbers, which increases.
#[derive(Drop)]
pub struct SiteSet {
    sites: Vec<u16>,
}

impl Model for SiteSet {
    ghost use Rattle.std.specs.Prelude.{List, ℕ};
    ghost use Rattle.virtual_state.specs.States.{IsIncreasing};

    ghost Value = { List ℕ };

    ghost view = { λ set. set.sites.items };

    ghost invariant = { λ set. IsIncreasing set.sites.items };
}

impl SiteSet {
    /// No site.
    pub fn new(alloc: Global) -> Self
        ensures { result ≡ [] }
    {
        SiteSet {
            sites: Vec::new(alloc),
        }
    }

    /// Adds a site, if it isn't there. Where memory runs out, the set stays as it was.
    pub fn add(&mut self, site: u16) -> Result<(), NoMemory>
        ensures ok { OnOk result
            ((one : ℕ) → has self.new one ≡ (has self.old one || site == one)) }
        ensures err { OnErr result (self.new ≡ self.old) }
        ensures order { IsIncreasing self.new }
    {
        match place_of(self.sites.as_slice(), site) {
            Ok(_) => Ok(()),
            Err(at) => {
                self.sites.insert(at, site)?;
                Ok(())
            }
        }
    }

    /// Whether it has a site.
    pub fn has(&self, site: u16) -> bool
        ensures { result ≡ has self.now site }
    {
        place_of(self.sites.as_slice(), site).is_ok()
    }

    /// How many sites it has.
    pub fn len(&self) -> usize
        ensures { result ≡ length self.now }
    {
        self.sites.len()
    }

    /// Whether it has no site.
    pub fn is_empty(&self) -> bool
        ensures { result ≡ (length self.now == 0) }
    {
        self.sites.is_empty()
    }

    /// The site at an index, counted from 0, by increasing number.
    pub fn get(&self, at: usize) -> Option<u16>
        ensures { result ≡ slice_get self.now at }
    {
        self.sites.get(at).copied()
    }

    /// The sites, by increasing number.
    pub fn as_slice(&self) -> &[u16]
        ensures sites { result.now ≡ self.now }
        ensures order { IsIncreasing self.now }
    {
        self.sites.as_slice()
    }
}

// Where a site stands among sites by increasing number, or where it would be put.
fn place_of(sites: &[u16], site: u16) -> Result<usize, usize>
    requires { IsIncreasing sites.now }
    ensures { IsPlaceOf sites.now site result }
{
    sites.binary_search(&site)
}
