//! Which objects of sites written code makes.
ghost use Rattle.std.specs.Prelude.{◌≡◌, IfOk, OnOk};
ghost use Rattle.class_rewrite.specs.Inner.MadeSites.{AreMadeBy, IsNoted, classes_of, edges_behind, made_on, made_there, made_to};
ghost use Rattle.class_rewrite.specs.Inner.Meanings.{IsMeant, Meaning};
ghost use Rattle.class_rewrite.specs.Inner.WrittenCodes.{IsMade};
ghost use Rattle.plan_flow.specs.Plans.{planned};

use class_model::{ListOf, NoMemory, TextList};
use code_drafts::Setting;
use flow_code::{Flat, SiteList};
use plan_flow::{Plan, effect_grows};
use std::alloc::Global;
use virtual_state::SiteSet;

/// How many objects of sites written code makes, and the classes of these sites.
pub(crate) struct MadeSites {
    pub(crate) count: u32,
    pub(crate) names: TextList,
}

// Written out: a derived drop would be spelled out, field by field, in each function that drops one, and be proved there.
impl Drop for MadeSites {
    fn drop(self) {
        let MadeSites { count: _, names: _ } = self;
    }
}

impl MadeSites {
    /// How many objects, and the classes.
    pub(crate) fn into_parts(self) -> (u32, TextList)
        ensures count { result.0 ≡ self.count }
        ensures names { result.1 ≡ self.names }
    {
        let MadeSites { count, names } = self;
        (count, names)
    }
}

// The sites of which objects are made, and how many objects.
struct Making {
    count: u32,
    sites: SiteSet,
}

impl Drop for Making {
    fn drop(self) {
        let Making { count: _, sites: _ } = self;
    }
}

/// What the code makes that is written by a plan: how many objects of sites, and the classes of these sites.
///
/// # Errors
/// `NoMemory`, where memory runs out.
pub(crate) fn made_sites(alloc: Global, setting: &Setting<'_>) -> Result<MadeSites, NoMemory>
    ensures { IfOk result (λ made. (m : Meaning)
        → IsMeant setting.now m
        → IsMade setting.now m made.count made.names) }
{
    effect_grows();
    made_by(alloc, setting.flat(), setting.plan())
}

// What a plan of a flat code makes.
fn made_by(alloc: Global, flat: &Flat, plan: &Plan) -> Result<MadeSites, NoMemory>
    ensures { IfOk result (AreMadeBy flat.now plan.now) }
{
    let mut making = Making {
        count: 0,
        sites: SiteSet::new(alloc),
    };
    note_points(plan, flat.len(), &mut making)?;
    let names = names_of(alloc, flat.sites(), making.sites.as_slice())?;
    Ok(MadeSites {
        count: making.count,
        names,
    })
}

// Notes what is made at so many points and on their edges.
fn note_points(plan: &Plan, count: usize, making: &mut Making) -> Result<(), NoMemory>
    ensures { OnOk result (IsNoted making.old (made_to count plan.now) making.new) }
{
    for at in 0..count {
        note_point(plan, at, making)?;
    }
    Ok(())
}

// Notes what is made at a point and on its edges.
fn note_point(plan: &Plan, at: usize, making: &mut Making) -> Result<(), NoMemory>
    ensures { OnOk result (IsNoted making.old (made_there (planned plan.now at)) making.new) }
{
    if let Some(sites) = plan.made_at(at) {
        note_sites(sites.as_slice(), making)?;
    }
    note_edges(plan, at, making)
}

// Notes what is made on the edges of a point.
fn note_edges(plan: &Plan, at: usize, making: &mut Making) -> Result<(), NoMemory>
    ensures { OnOk result
        (IsNoted making.old (made_on (edges_behind (planned plan.now at))) making.new) }
{
    for number in 0..usize::MAX {
        let Some(edge) = plan.edge(at, number) else {
            return Ok(());
        };
        note_sites(edge.made.as_slice(), making)?;
    }
    // no memory holds so many edges
    Err(NoMemory)
}

// Notes sites, an object of each of which is made.
fn note_sites(sites: &[u16], making: &mut Making) -> Result<(), NoMemory>
    ensures { OnOk result (IsNoted making.old sites.now making.new) }
{
    for site in sites {
        making.sites.add(*site)?;
        making.count = making.count.saturating_add(1);
    }
    Ok(())
}

// The classes of sites, by their numbers.
fn names_of(alloc: Global, sites: &SiteList, numbers: &[u16]) -> Result<TextList, NoMemory>
    ensures { IfOk result (λ names. names ≡ classes_of sites.now numbers.now) }
{
    let mut names = ListOf::new(alloc);
    for number in numbers {
        if let Some(site) = sites.get(usize::from(*number)) {
            names.push(site.class.copy()?)?;
        }
    }
    Ok(names)
}
