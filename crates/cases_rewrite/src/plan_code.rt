//! Flat code of which plans can be made.
ghost use Rattle.std.specs.Prelude.{◌≡◌, ◌<◌, ◌^◌, IfSome, IsFalse, IsTrue, length};
ghost use Rattle.std.specs.List.{AllByRecursion};
ghost use Rattle.cases_rewrite.specs.Inner.Flows.{FlowOn};
ghost use Rattle.class_model.specs.Instructions.{targets};
ghost use Rattle.member_link.specs.Bodies.{falls_through};
ghost use Rattle.plan_flow.specs.Narrow.{IsNarrowPoint};
ghost use Rattle.plan_flow.specs.PlanTable.{falls_on, targets_at};

use crate::flat_of;
use class_model::{Instr, MethodAt, NoMemory};
use class_tree::Tree;
use flow_code::{Flat, FlatInstr, Point, PointList, SiteList};
use plan_flow::{EdgeList, Plan, effect, gain, least_plan, must};
use std::alloc::Global;
use std::marker::Model;
use virtual_state::{SiteSet, VState, closure, without};

/// Flat code that control does not leave, of at most 65,536 sites.
#[derive(Drop)]
pub struct PlanCode {
    flat: Flat,
}

impl Model for PlanCode {
    ghost use Rattle.flow_code.specs.FlatCode.{FlatCode};
    ghost use Rattle.plan_flow.specs.Narrow.{IsNarrow};
    ghost use Rattle.plan_flow.specs.Plans.{FlowsInside};

    ghost Value = { FlatCode };

    ghost view = { λ code. code.flat };

    ghost invariant = { λ code. IsNarrow code.flat × FlowsInside code.flat };
}

impl PlanCode {
    /// The flat code of these points and sites, of the kinds of instructions that `flat_of` knows, if it is as `Flat::of` and plans ask.
    pub fn of(host: MethodAt, locals: u16, points: PointList, sites: SiteList) -> Option<PlanCode>
        ensures { IfSome result (λ code.
            code ≡ record { host = host; locals = locals; points = points; sites = sites }) }
    {
        if points.is_empty() || sites.len() > 65_536 {
            return None;
        }
        if are_narrow(points.as_slice()) && flow_on(points.as_slice()) {
            let flat = flat_of(host, locals, points, sites)?;
            Some(PlanCode { flat })
        } else {
            None
        }
    }

    /// How many points it has.
    pub fn len(&self) -> usize
        ensures { result ≡ length self.now.points }
    {
        self.flat.len()
    }

    /// The flat code.
    pub fn flat(&self) -> &Flat
        ensures { result.now ≡ self.now }
    {
        &self.flat
    }

    /// The sites whose objects a point asks to be made.
    pub fn must(
        &self,
        alloc: Global,
        tree: &Tree,
        at: usize,
        state: &VState,
    ) -> Result<SiteSet, NoMemory> {
        must(alloc, tree, &self.flat, at, state)
    }

    /// The edges from a point, if it asks for no object.
    pub fn effect(
        &self,
        alloc: Global,
        tree: &Tree,
        at: usize,
        state: &VState,
    ) -> Result<Option<EdgeList>, NoMemory> {
        let asked = must(alloc, tree, &self.flat, at, state)?;
        if asked.is_empty() {
            Ok(Some(effect(alloc, tree, &self.flat, at, state)?))
        } else {
            Ok(None)
        }
    }

    /// Its least plan.
    pub fn least_plan(&self, alloc: Global, tree: &Tree) -> Result<Plan, NoMemory> {
        least_plan(alloc, tree, &self.flat)
    }

    /// Whether a plan of it saves something.
    pub fn gain(&self, plan: &Plan) -> bool {
        gain(&self.flat, plan)
    }
}

/// The state without some sites and those that their objects reach.
pub fn without_sites(alloc: Global, state: &VState, sites: &SiteSet) -> Result<VState, NoMemory> {
    let closed = closure(alloc, state, sites)?;
    without(alloc, state, &closed)
}

fn are_narrow(points: &[Point]) -> bool
    ensures { IsTrue result → AllByRecursion IsNarrowPoint points.now }
{
    match points {
        [] => true,
        [first, others @ ..] => is_narrow(first) && are_narrow(others),
    }
}

fn is_narrow(point: &Point) -> bool
    ensures { IsTrue result → IsNarrowPoint point.now }
{
    point.typed.locals.len() <= 65_536
        && point.handlers.len() <= 65_536
        && has_few_targets(&point.instr)
}

fn has_few_targets(instr: &FlatInstr) -> bool
    ensures { IsTrue result → length (targets_at instr.now) < 2 ^ 32 }
{
    match instr {
        FlatInstr::Of { instr, .. } => !is_switch(instr),
        FlatInstr::NullTest(_) => true,
    }
}

fn is_switch(instr: &Instr) -> bool
    ensures { IsFalse result → length (targets instr.now) < 2 ^ 32 }
{
    matches!(instr, Instr::Table { .. } | Instr::Lookup { .. })
}

// Whether there is a point behind each from which control falls through.
fn flow_on(points: &[Point]) -> bool
    ensures { IsTrue result → FlowOn points.now }
{
    match points {
        [] => true,
        [first, others @ ..] => {
            if others.is_empty() && falls_on(&first.instr) {
                false
            } else {
                flow_on(others)
            }
        }
    }
}

// Whether control falls through an instruction.
fn falls_on(instr: &FlatInstr) -> bool
    ensures { result ≡ falls_on instr.now }
{
    match instr {
        FlatInstr::Of { instr, .. } => falls_through(instr),
        FlatInstr::NullTest(_) => true,
    }
}

fn falls_through(instr: &Instr) -> bool
    ensures { result ≡ falls_through instr.now }
{
    !matches!(
        instr,
        Instr::Goto(_)
            | Instr::Table { .. }
            | Instr::Lookup { .. }
            | Instr::Return(_)
            | Instr::Throw
    )
}
