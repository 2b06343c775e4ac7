//! The points and the candidate sites of a host.
ghost use Rattle.std.specs.Prelude.{◌≡◌, ◌+◌, ◌≤◌, None, IfOk};
ghost use Rattle.std.specs.List.{AllByRecursion};
ghost use Rattle.class_tree.specs.Headers.{Headers};
ghost use Rattle.expanded_code.specs.Expanded.{host_setting, points_from, points_of, sites_from};
ghost use Rattle.inline_expand.specs.Inner.CalleePlaces.{HasPlace};
ghost use Rattle.inline_expand.specs.Inner.Measures.{IsMeasure, IsSmall, StandsFirst, host_expansion};
ghost use Rattle.inline_expand.specs.Inner.Settings.{setting_of};
ghost use Rattle.inline_expand.specs.Inner.SiteNumbers.{sites_by};
ghost use Rattle.inline_expand.specs.Inner.Steps.{IsBody, callees_of, coded_of};
ghost use Rattle.member_link.specs.Scope.{instructions};

use crate::expanded::measures::Measure;
use crate::expanded::points::push_method;
use crate::expanded::settings::Setting;
use crate::expanded::sites::{NewAt, Numbered, push_sites};
use crate::expansions::Body;
use class_model::{Frame, LocalTypeList, NoMemory, VType, VTypeList};
use flow_code::PointList;
use std::alloc::Global;

/// The points of a host, with those of its callees, which are among these bodies.
///
/// # Errors
/// `NoMemory`, where memory runs out.
pub(crate) fn host_points<'s, 't>(
    alloc: Global,
    bodies: &'s [Body<'t>],
    host: &'s Body<'t>,
    measure: &'s Measure,
) -> Result<PointList, NoMemory>
    requires bodies { AllByRecursion IsBody bodies.now }
    requires host { IsBody host.now }
    requires measure { IsMeasure bodies.now host.now measure.now }
    requires small { IsSmall bodies.now host.now }
    ensures { IfOk result (λ points. points
        ≡ points_from (host_setting (coded_of host.now) (host_expansion bodies.now host.now)) 0
        host.now.host.part.max_locals (instructions host.now.host) host.now.frames.now
        (host_expansion bodies.now host.now)) }
{
    let mut points = Vec::with_capacity(alloc, usize::from(measure.points))?;
    let setting = setting_by(alloc, bodies, host, measure)?;
    let pushed = push_method(
        alloc,
        &mut points,
        bodies,
        measure.layouts.as_slice(),
        &setting,
    );
    // let go by a call, so that its drop is proved once
    drop(setting);
    pushed?;
    Ok(PointList::from_vec(points))
}

/// The candidate sites of a host, with those of its callees.
///
/// # Errors
/// `NoMemory`, where memory runs out.
pub(crate) fn host_sites<'s, 't>(
    alloc: Global,
    bodies: &'s [Body<'t>],
    host: &'s Body<'t>,
    measure: &'s Measure,
) -> Result<Vec<NewAt>, NoMemory>
    requires bodies { AllByRecursion IsBody bodies.now }
    requires host { IsBody host.now }
    requires measure { IsMeasure bodies.now host.now measure.now }
    requires few { points_of None (instructions host.now.host)
        (host_expansion bodies.now host.now) ≤ 65535 }
    ensures { IfOk result (λ sites. (headers : Headers)
        → sites_by headers sites.items
        ≡ sites_from headers None 0 (instructions host.now.host)
        (host_expansion bodies.now host.now)) }
{
    let method = Numbered {
        body: host,
        starts: measure.starts.as_slice(),
        base: 0,
        is_callee: false,
    };
    let mut sites = Vec::new(alloc);
    push_sites(&mut sites, bodies, measure.layouts.as_slice(), &method)?;
    Ok(sites)
}

// A host in its place: its points are counted from 0, and its locals are the first units.
fn setting_by<'s, 't>(
    alloc: Global,
    bodies: &'s [Body<'t>],
    host: &'s Body<'t>,
    measure: &'s Measure,
) -> Result<Setting<'s, 't>, NoMemory>
    requires host { IsBody host.now }
    requires measure { IsMeasure bodies.now host.now measure.now }
    requires small { IsSmall bodies.now host.now }
    ensures place { IfOk result (HasPlace (callees_of bodies.now)) }
    ensures setting { IfOk result (λ setting. setting_of setting
        ≡ host_setting (coded_of host.now) (host_expansion bodies.now host.now)) }
    ensures stands { IfOk result (λ setting. StandsFirst host.now setting) }
{
    let mut locals = LocalTypeList::new(alloc);
    locals.fill(usize::from(host.host.max_locals() + measure.units));
    Ok(Setting {
        body: host,
        starts: measure.starts.as_slice(),
        base: 0,
        unit: 0,
        below: Frame {
            locals,
            stack: VTypeList::new(alloc),
        },
        this: VType::UninitThis,
        call: None,
    })
}
