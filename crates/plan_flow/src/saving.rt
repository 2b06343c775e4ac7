//! Whether a plan saves something.
ghost use Rattle.std.specs.Prelude.{◌≡◌, ◌-◌, ◌↔◌, length, option_map, IsTrue};
ghost use Rattle.std.specs.List.{list_any};
ghost use Rattle.class_tree.specs.Headers.{Classes};
ghost use Rattle.flow_code.specs.FlatCode.{point_at};
ghost use Rattle.member_link.specs.Machine.Programs.{Links};
ghost use Rattle.plan_flow.specs.Gain.{Gains};
ghost use Rattle.plan_flow.specs.Inner.Gaining.{GainsAt, GainsBy, HasSite, IsLostOnEdge, is_behind as is_behind_edge, is_kept_virtual, is_normal, loses as loses_site};
ghost use Rattle.plan_flow.specs.PlanScope.{scope_of};
ghost use Rattle.plan_flow.specs.PlanSlots.{held as held_slot};
ghost use Rattle.plan_flow.specs.Plans.{IsValid, planned, state_left};
ghost use Rattle.virtual_state.specs.Sites.{IsSiteFrom};

use crate::edge::EdgeKind;
use crate::plan::{EdgePlan, EdgePlans, Plan, PointPlan};
use crate::slots::held;
use class_model::Instr;
use flow_code::{Flat, FlatInstr};
use virtual_state::Slot;

/// Whether a valid plan saves making an object or entering a monitor: at a point that is reached an object that is still
/// virtual is lost on an edge that no exception takes, or at a return, or its monitor is entered. It does not allocate.
pub fn gain(flat: &Flat, plan: &Plan) -> bool
    ensures { (classes : Classes) (links : Links)
        → IsValid (scope_of classes links flat.now) plan.now
        → (IsTrue result ↔ Gains (scope_of classes links flat.now) plan.now) }
{
    for at in 0..flat.len() {
        if gains_at(flat, plan, at) {
            return true;
        }
    }
    false
}

// Whether it does at a point.
fn gains_at(flat: &Flat, plan: &Plan, at: usize) -> bool
    ensures { IsTrue result
        ↔ GainsAt plan.now (planned plan.now at)
        (option_map (λ point. point.instr) (point_at flat.now at)) }
{
    let Some(point) = plan.point(at) else {
        return false;
    };
    let Some(instr) = flat.instr(at) else {
        return false;
    };
    if gains_by(instr, point) {
        true
    } else {
        loses_on_edge(plan, point)
    }
}

// Whether an instruction is a return where an object is virtual, or enters the monitor of one.
fn gains_by(instr: &FlatInstr, point: &PointPlan) -> bool
    ensures { IsTrue result ↔ GainsBy instr.now point.now }
{
    match instr {
        FlatInstr::Of { instr, .. } => match instr {
            Instr::Return(_) => has_site(point),
            Instr::Enter => enters_virtual(point),
            _ => false,
        },
        FlatInstr::NullTest(_) => false,
    }
}

// Whether an object is virtual when the instruction of a point is done.
fn has_site(point: &PointPlan) -> bool
    ensures { IsTrue result ↔ HasSite (state_left point.now) }
{
    site_left_from(point, 0).is_some()
}

// Whether the last place holds a virtual object when the instruction of a point is done.
fn enters_virtual(point: &PointPlan) -> bool
    ensures { result
        ≡ is_kept_virtual point.now.made
        (held_slot point.now.state (length point.now.state.slots - 1)) }
{
    let last = point.state.len().saturating_sub(1);
    match held(&point.state, last) {
        Slot::Virt(site) => !point.made.has(site),
        Slot::Plain | Slot::Unusable => false,
    }
}

// The lowest site from a number on whose object is virtual when the instruction of a point is done.
fn site_left_from(point: &PointPlan, first: usize) -> Option<u16>
    ensures { IsSiteFrom (state_left point.now).objects first result }
{
    let mut from = first;
    while let Some(site) = point.state.site_from(from) {
        if !point.made.has(site) {
            return Some(site);
        }
        from = usize::from(site) + 1;
    }
    None
}

// Whether an object that is virtual when the instruction of a point is done is lost on an edge that no exception takes.
fn loses_on_edge(plan: &Plan, point: &PointPlan) -> bool
    ensures { IsTrue result ↔ IsLostOnEdge plan.now point.now }
{
    let mut from = 0;
    while let Some(site) = site_left_from(point, from) {
        if is_lost(plan, &point.edges, site) {
            return true;
        }
        from = usize::from(site) + 1;
    }
    false
}

// Whether the object of a site is lost on one of these edges that no exception takes.
fn is_lost(plan: &Plan, edges: &EdgePlans, site: u16) -> bool
    ensures { result ≡ list_any (loses_site plan.now site) edges.now }
{
    is_lost_on(plan, edges.own(), site)
}

// The same of a list.
fn is_lost_on(plan: &Plan, edges: &[EdgePlan], site: u16) -> bool
    ensures { result ≡ list_any (loses_site plan.now site) edges.now }
{
    for edge in edges {
        if loses(plan, edge, site) {
            return true;
        }
    }
    false
}

// Whether no exception takes an edge, and the object of a site is not virtual behind it.
fn loses(plan: &Plan, edge: &EdgePlan, site: u16) -> bool
    ensures { result ≡ loses_site plan.now site edge.now }
{
    if is_normal(edge.by) {
        !is_behind(plan, edge, site)
    } else {
        false
    }
}

/// Whether no exception takes an edge.
pub(crate) fn is_normal(by: EdgeKind) -> bool
    ensures { result ≡ is_normal by }
{
    match by {
        EdgeKind::Next | EdgeKind::Jump(_) => true,
        EdgeKind::Handler(_) => false,
    }
}

// Whether the object of a site is virtual behind an edge: it is made there, or virtual at the target.
fn is_behind(plan: &Plan, edge: &EdgePlan, site: u16) -> bool
    ensures { result ≡ is_behind_edge plan.now site edge.now }
{
    if edge.made.has(site) {
        return true;
    }
    match plan.state(edge.to) {
        Some(state) => state.present(site),
        None => false,
    }
}
