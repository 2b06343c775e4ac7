//! The flat code of a host with its callees, unless it is kept.
ghost use Rattle.std.specs.Prelude.{◌≡◌, ◌≤◌};
ghost use Rattle.inline_expand.specs.Inner.Measures.{IsMeasure};
ghost use Rattle.inline_expand.specs.Inner.WholeCodes.{AnswersWhole, IsWholeCode, whole_of};

use crate::candidates::Candidates;
use crate::expanded::fields::with_fields;
use crate::expanded::hosts::{host_points, host_sites};
use crate::expanded::measures::{Measure, measure_of};
use crate::expanded::wide::is_wide;
use crate::expansions::HostBodies;
use class_tree::Tree;
use flow_code::{Flat, KeptFault, Reason};
use std::alloc::Global;

/// The most points of flat code.
pub(crate) const MOST_POINTS: u16 = 8_000;

/// The flat code of a host with its callees, unless it is too long, has no site, or has more sites, fields, local units or stack
/// than written code may have. Its points are made only where they are not too many and there is a site.
///
/// # Errors
/// `Kept`, with the first of the reasons `Expanded`, `NoSite` and `Wide` that holds; `NoMemory`, where memory runs out.
pub(crate) fn flat_of(
    alloc: Global,
    candidates: &mut Candidates<'_>,
    tree: &Tree,
    bodies: &HostBodies<'_>,
) -> Result<Flat, KeptFault>
    requires classes { candidates.old ≡ tree.now }
    requires whole { IsWholeCode tree.now bodies.now }
    ensures answers { AnswersWhole (whole_of bodies.now) result }
    ensures classes { candidates.new ≡ candidates.old }
{
    let measure = measure_of(alloc, bodies.callees.as_slice(), &bodies.body)?;
    if measure.points > MOST_POINTS {
        return Err(KeptFault::Kept(Reason::Expanded));
    }
    flat_by(alloc, candidates, tree, bodies, &measure)
}

// The flat code of a host whose points are few.
fn flat_by(
    alloc: Global,
    candidates: &mut Candidates<'_>,
    tree: &Tree,
    bodies: &HostBodies<'_>,
    measure: &Measure,
) -> Result<Flat, KeptFault>
    requires classes { candidates.old ≡ tree.now }
    requires whole { IsWholeCode tree.now bodies.now }
    requires measure { IsMeasure bodies.now.callees.items bodies.now.body measure.now }
    requires few { measure.now.points ≤ 8000 }
    ensures answers { AnswersWhole (whole_of bodies.now) result }
    ensures classes { candidates.new ≡ candidates.old }
{
    let host = &bodies.body;
    let callees = bodies.callees.as_slice();
    let news = host_sites(alloc, callees, host, measure)?;
    if news.is_empty() {
        return Err(KeptFault::Kept(Reason::NoSite));
    }
    // the greatest count stands for all from it on, and there is a site, whose object has a unit too
    let locals = host.host.max_locals().saturating_add(measure.units);
    if locals == u16::MAX {
        return Err(KeptFault::Kept(Reason::Wide));
    }
    let sites = with_fields(alloc, candidates, tree, news.as_slice())?;
    let points = host_points(alloc, callees, host, measure)?;
    let flat = Flat::of(host.at, locals, points, sites);
    if is_wide(&flat) {
        return Err(KeptFault::Kept(Reason::Wide));
    }
    Ok(flat)
}
