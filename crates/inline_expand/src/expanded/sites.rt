//! The candidate sites of a method in its place.
ghost use Rattle.std.specs.Prelude.{◌≡◌, ◌+◌, ◌≤◌, ◌++◌, IfOk, OnOk};
ghost use Rattle.class_tree.specs.Headers.{Headers};
ghost use Rattle.expanded_code.specs.Expanded.{points_of_callee, sites_from};
ghost use Rattle.inline_expand.specs.Inner.CalleePlaces.{AreReady, callee_in};
ghost use Rattle.inline_expand.specs.Inner.Layouts.{IsLayout};
ghost use Rattle.inline_expand.specs.Inner.SiteNumbers.{HasNumbers, NumbersBehind, method_at, site_of, sites_by};
ghost use Rattle.inline_expand.specs.Inner.Steps.{IsBody, callees_of, expansion_by};
ghost use Rattle.member_link.specs.Scope.{instructions};

use crate::expanded::layouts::{Layout, points_before};
use crate::expanded::places::{Found, find};
use crate::expansions::{Body, Step};
use class_model::{NoMemory, Text};

/// A method with the number of its first own point and, counted from that, those of the first point of each of its
/// instructions.
#[derive(Clone, Copy)]
pub(crate) struct Numbered<'s, 't> {
    pub(crate) body: &'s Body<'t>,
    pub(crate) starts: &'s [u16],
    pub(crate) base: u16,
    pub(crate) is_callee: bool,
}

/// A candidate site: the number of its point, and the class of the object that it makes.
pub(crate) struct NewAt {
    pub(crate) at: u16,
    pub(crate) class: Text,
}

// Written out: a derived drop would be spelled out, field by field, in each function that drops one, and be proved there.
impl Drop for NewAt {
    fn drop(self) {
        let NewAt { at: _, class: _ } = self;
    }
}

/// Appends the candidate sites of a method in its place, with those of its callees, which are among these bodies.
///
/// # Errors
/// `NoMemory`, where memory runs out.
pub(crate) fn push_sites<'s, 't>(
    sites: &mut Vec<NewAt>,
    bodies: &'s [Body<'t>],
    layouts: &'s [Layout],
    method: &Numbered<'s, 't>,
) -> Result<(), NoMemory>
    requires ready { AreReady bodies.now layouts.now }
    requires numbers { HasNumbers (callees_of bodies.now) method.now }
    ensures { OnOk result ((headers : Headers)
        → sites_by headers sites.new.items
        ≡ sites_by headers sites.old.items
        ++ sites_from headers (method_at method.now) method.now.base
        (instructions method.now.body.now.host)
        (expansion_by (callees_of bodies.now) method.now.body.now.steps)) }
{
    let steps = method.body.steps.as_slice();
    for number in 0..steps.len() {
        let step = &steps[number];
        let start = method.base + method.starts[number];
        match find(bodies, layouts, step) {
            None => push_site(sites, step, start)?,
            Some(found) => {
                let inner = numbered_at(&found, start);
                push_sites(sites, found.bodies, found.layouts, &inner)?;
            }
        }
    }
    Ok(())
}

// Appends the site of an instruction that stays, if it is one.
fn push_site(sites: &mut Vec<NewAt>, step: &Step, at: u16) -> Result<(), NoMemory>
    ensures { OnOk result ((headers : Headers)
        → sites_by headers sites.new.items
        ≡ sites_by headers sites.old.items ++ site_of headers at step.now) }
{
    if let Step::Site(class) = step {
        let class = class.copy()?;
        sites.push(NewAt { at, class })?;
    }
    Ok(())
}

// A callee in place of a call, its points behind a number.
fn numbered_at<'s, 't>(found: &Found<'s, 't>, start: u16) -> Numbered<'s, 't>
    requires body { IsBody found.now.body.now }
    requires layout { IsLayout (callee_in found.now) found.now.layout.now }
    requires points { start
        + points_of_callee (callee_in found.now).coded (callee_in found.now).inner
        ≤ 65535 }
    ensures numbers { HasNumbers (callees_of found.now.bodies.now) result }
    ensures behind { NumbersBehind found.now start result }
{
    let layout = found.layout;
    Numbered {
        body: found.body,
        starts: layout.starts.as_slice(),
        base: start + points_before(&layout.shape),
        is_callee: true,
    }
}
