//! Where the points and the local units of callees are, counted from their first.
ghost use Rattle.std.specs.Prelude.{◌≡◌, ◌+◌, List, length, map, Option, IfOk, option_map};
ghost use Rattle.std.specs.List.{AllByRecursion};
ghost use Rattle.std.specs.Option.{option_copied};
ghost use Rattle.expanded_code.specs.Expanded.{own_points, points_before, units_in};
ghost use Rattle.inline_expand.specs.Inner.Layouts.{AreLayouts, IsLayout, IsShape, capped, replacing, return_width, starts_from, step_points};
ghost use Rattle.inline_expand.specs.Inner.Steps.{Callee, IsBody, callee_by, callees_of, expansion_by};
ghost use Rattle.member_link.specs.Scope.{Scope, instructions};

use crate::expanded::shapes::{Shape, shape_of};
use crate::expansions::{Body, Step};
use class_model::{Instr, NoMemory};
use std::alloc::Global;

/// How a method stands in place of a call: its shape; the number of the first point of each of its instructions and of what is
/// behind them, counted from that of the first; how many points stand in place of the call; and how many local units it and its own callees
/// have. What is more than a `u16` counts stands as its greatest.
pub(crate) struct Layout {
    pub(crate) shape: Shape,
    pub(crate) starts: Vec<u16>,
    pub(crate) points: u16,
    pub(crate) units: u16,
}

// Written out: a derived drop would be spelled out, field by field, in each function that drops one, and be proved there.
impl Drop for Layout {
    fn drop(self) {
        let Layout {
            shape: _,
            starts: _,
            points: _,
            units: _,
        } = self;
    }
}

/// The layouts of bodies, each with callees among those before it.
///
/// # Errors
/// `NoMemory`, where memory runs out.
pub(crate) fn layouts_of(alloc: Global, bodies: &[Body<'_>]) -> Result<Vec<Layout>, NoMemory>
    requires { AllByRecursion IsBody bodies.now }
    ensures { IfOk result (λ layouts. AreLayouts (callees_of bodies.now) layouts.items) }
{
    let mut layouts = Vec::with_capacity(alloc, bodies.len())?;
    for body in bodies {
        let layout = layout_of(alloc, layouts.as_slice(), body)?;
        layouts.push(layout)?;
    }
    Ok(layouts)
}

// The layout of a method whose callees have these.
fn layout_of(alloc: Global, layouts: &[Layout], body: &Body<'_>) -> Result<Layout, NoMemory>
    requires { IsBody body.now }
    ensures { IfOk result (λ layout. (callees : List Callee)
        → AreLayouts callees layouts.now
        → IsLayout (callee_by callees body.now) layout) }
{
    let shape = shape_of(alloc, &body.host)?;
    let starts = starts_of(alloc, layouts, body, Some(shape.narrowed.len() + 1))?;
    let own = starts[body.host.instrs().len()];
    let points = points_before(&shape).saturating_add(own);
    let inner = units_of(layouts, body.steps.as_slice());
    let units = body.host.max_locals().saturating_add(inner);
    Ok(Layout {
        shape,
        starts,
        points,
        units,
    })
}

/// How many points stand before a callee's own: a store for each argument, and a test of the receiver.
pub(crate) fn points_before(shape: &Shape) -> u16
    ensures { (s : Scope) → IsShape s shape.now → result ≡ capped (points_before s) }
{
    let stores = u16::try_from(shape.parameters.len()).unwrap_or(u16::MAX);
    stores.saturating_add(u16::from(shape.tests_receiver))
}

/// The number of the first point of each instruction, and of what is behind them, counted from that of the first. A return of a
/// callee takes so many points; the host's stays one.
///
/// # Errors
/// `NoMemory`, where memory runs out.
pub(crate) fn starts_of(
    alloc: Global,
    layouts: &[Layout],
    body: &Body<'_>,
    returns: Option<u16>,
) -> Result<Vec<u16>, NoMemory>
    requires { length body.now.steps ≡ length (instructions body.now.host) }
    ensures len { IfOk result
        (λ starts. length starts.items ≡ length (instructions body.now.host) + 1) }
    ensures numbers { IfOk result (λ starts. (callees : List Callee) (callee : Option Scope)
        → AreLayouts callees layouts.now
        → returns ≡ option_map return_width callee
        → starts.items
        ≡ map capped
        (starts_from callee 0 (instructions body.now.host) (expansion_by callees body.now.steps))) }
{
    let instrs = body.host.instrs();
    let steps = body.steps.as_slice();
    let mut starts = Vec::with_capacity(alloc, instrs.len())?;
    let mut number: u16 = 0;
    for at in 0..instrs.len() {
        starts.push(number)?;
        number = number.saturating_add(step_points(
            layouts,
            &steps[at],
            returns,
            &instrs[at].instr,
        ));
    }
    starts.push(number)?;
    Ok(starts)
}

// How many points stand in the place of an instruction.
fn step_points(layouts: &[Layout], step: &Step, returns: Option<u16>, instr: &Instr) -> u16
    ensures { (callees : List Callee) (callee : Option Scope)
        → AreLayouts callees layouts.now
        → returns ≡ option_map return_width callee
        → result ≡ capped (step_points callees callee instr.now step.now) }
{
    match replacing(layouts, step) {
        Some(layout) => layout.points,
        None => own_points(returns, instr),
    }
}

// The layout of the callee that stands in place of a call, if one does.
fn replacing<'l>(layouts: &'l [Layout], step: &Step) -> Option<&'l Layout>
    ensures { option_copied result ≡ replacing layouts.now step.now }
{
    match step {
        Step::Replaced(number) => layouts.get(*number),
        Step::Stays | Step::Site(_) => None,
    }
}

// How many points an instruction takes that stays.
fn own_points(returns: Option<u16>, instr: &Instr) -> u16
    ensures { (callee : Option Scope)
        → returns ≡ option_map return_width callee
        → result ≡ capped (own_points callee instr.now) }
{
    match (returns, instr) {
        (Some(points), Instr::Return(_)) => points,
        _ => 1,
    }
}

/// How many local units the callees of a method have, by its steps.
pub(crate) fn units_of(layouts: &[Layout], steps: &[Step]) -> u16
    ensures { (callees : List Callee)
        → AreLayouts callees layouts.now
        → result ≡ capped (units_in (expansion_by callees steps.now)) }
{
    let mut units: u16 = 0;
    for step in steps {
        if let Some(layout) = replacing(layouts, step) {
            units = units.saturating_add(layout.units);
        }
    }
    units
}
