//! The edges that control may take from a point in a state.
ghost use Rattle.std.specs.Prelude.{◌≡◌, ◌<◌, ◌-◌, ◌^◌, ◌∷◌, [], Some, length, slice_get, option_map, IfOk, OnOk};
ghost use Rattle.std.specs.Option.{option_copied};
ghost use Rattle.class_model.specs.Instructions.{targets};
ghost use Rattle.class_model.specs.declared.frame.Frame.{Frame};
ghost use Rattle.flow_code.specs.FlatCode.{point_at};
ghost use Rattle.flow_code.specs.declared.point.Point.{Point};
ghost use Rattle.member_link.specs.Bodies.{falls_through};
ghost use Rattle.plan_flow.specs.Inner.EdgeViews.{IsOpened, row_edge};
ghost use Rattle.plan_flow.specs.Inner.RowViews.{guard_of, plan_row};
ghost use Rattle.plan_flow.specs.Inner.Sharing.{caught_edges, edges_by, target_edges, thrown_to};
ghost use Rattle.plan_flow.specs.Narrow.{IsNarrow};
ghost use Rattle.plan_flow.specs.PlanRows.{PlanRow};
ghost use Rattle.plan_flow.specs.PlanSlots as slots;
ghost use Rattle.plan_flow.specs.PlanTable as tables;
ghost use Rattle.plan_flow.specs.PlanTable.{handler_edges, jump_edges, next_edges, targets_at, thrown_edges};

use crate::edge::EdgeKind;
use crate::rows::{Guard, Row};
use crate::slots::{held, is_plain, may_be_same, may_differ};
use class_model::{Instr, NoMemory};
use flow_code::{Flat, FlatHandler, FlatInstr};
use std::alloc::Global;
use virtual_state::VState;

/// An edge of a point, and the states in which control may take it.
#[derive(Clone, Copy)]
pub(crate) struct GuardedEdge {
    pub by: EdgeKind,
    pub to: usize,
    pub guard: Guard,
}

/// The edges that control may take from a point in a state: the one to the next point, then those to the targets, a switch's
/// default first, then those to the handlers, or, where points are shared, one to each of these, as if by handler 0.
///
/// # Errors
/// `NoMemory`, where memory runs out.
pub(crate) fn open_edges(
    alloc: Global,
    flat: &Flat,
    at: usize,
    instr: &FlatInstr,
    row: &Row,
    shared: Option<&[usize]>,
    state: &VState,
) -> Result<Vec<GuardedEdge>, NoMemory>
    requires narrow { IsNarrow flat.now }
    requires instr { option_map (λ point. point.instr) (point_at flat.now at) ≡ Some instr.now }
    ensures { IfOk result (λ edges. (types : Frame) (point : Point)
        → point_at flat.now at ≡ Some point
        → point.instr ≡ instr.now
        → IsOpened state.now [] edges.items
        (edges_by (option_copied shared.entry) at point (plan_row types row.now))) }
{
    let _end = flat.len();
    let mut edges = Vec::new(alloc);
    let Some(handlers) = flat.handlers(at) else {
        return Ok(edges);
    };
    push_next(&mut edges, at, instr, row.next, state)?;
    push_jumps(&mut edges, instr, row.jump, state)?;
    push_caught(&mut edges, handlers.as_slice(), shared, row.throws, state)?;
    Ok(edges)
}

// Adds the edges to handlers, or to the points that are shared.
fn push_caught(
    edges: &mut Vec<GuardedEdge>,
    handlers: &[FlatHandler],
    shared: Option<&[usize]>,
    throws: Option<Guard>,
    state: &VState,
) -> Result<(), NoMemory>
    requires { length handlers.now < 2 ^ 32 }
    ensures { OnOk result
        (IsOpened state.now edges.old.items edges.new.items
        (caught_edges (option_copied shared.entry) (option_map guard_of throws) handlers.now)) }
{
    match shared {
        Some(targets) => Ok(push_thrown_to(edges, targets, throws, state)?),
        None => Ok(push_thrown(edges, handlers, throws, state)?),
    }
}

// Adds an edge to each of these points, if the instruction may throw.
fn push_thrown_to(
    edges: &mut Vec<GuardedEdge>,
    targets: &[usize],
    throws: Option<Guard>,
    state: &VState,
) -> Result<(), NoMemory>
    ensures { OnOk result
        (IsOpened state.now edges.old.items edges.new.items
        (thrown_to (option_map guard_of throws) targets.now)) }
{
    match throws {
        Some(guard) => Ok(push_targets(edges, targets, guard, state)?),
        None => Ok(()),
    }
}

// Adds an edge to each of these points.
fn push_targets(
    edges: &mut Vec<GuardedEdge>,
    targets: &[usize],
    guard: Guard,
    state: &VState,
) -> Result<(), NoMemory>
    ensures { OnOk result
        (IsOpened state.now edges.old.items edges.new.items
        (target_edges (guard_of guard) targets.now)) }
{
    for to in targets {
        let edge = GuardedEdge {
            by: EdgeKind::Handler(0),
            to: *to,
            guard,
        };
        push_open(edges, edge, state)?;
    }
    Ok(())
}

// Adds the edges to handlers, if the instruction may throw.
fn push_thrown(
    edges: &mut Vec<GuardedEdge>,
    handlers: &[FlatHandler],
    throws: Option<Guard>,
    state: &VState,
) -> Result<(), NoMemory>
    requires { length handlers.now < 2 ^ 32 }
    ensures { OnOk result
        (IsOpened state.now edges.old.items edges.new.items
        (thrown_edges (option_map guard_of throws) handlers.now)) }
{
    match throws {
        Some(guard) => Ok(push_handlers(edges, handlers, guard, state)?),
        None => Ok(()),
    }
}

/// The edge at an index, if there is one.
pub(crate) fn edge_at(edges: &[GuardedEdge], at: usize) -> Option<GuardedEdge>
    ensures { result ≡ slice_get edges.now at }
{
    edges.get(at).copied()
}

// Adds the edge to the next point, if control may fall through.
fn push_next(
    edges: &mut Vec<GuardedEdge>,
    at: usize,
    instr: &FlatInstr,
    guard: Guard,
    state: &VState,
) -> Result<(), NoMemory>
    requires { at < 2 ^ 64 - 1 }
    ensures { OnOk result ((row : PlanRow)
        → row.next ≡ guard_of guard
        → IsOpened state.now edges.old.items edges.new.items
        (next_edges at row (tables.falls_on instr.now))) }
{
    if !falls_on(instr) {
        return Ok(());
    }
    push_open(
        edges,
        GuardedEdge {
            by: EdgeKind::Next,
            to: at + 1,
            guard,
        },
        state,
    )
}

// Adds the edges to the targets.
fn push_jumps(
    edges: &mut Vec<GuardedEdge>,
    instr: &FlatInstr,
    guard: Guard,
    state: &VState,
) -> Result<(), NoMemory>
    requires { length (targets_at instr.now) < 2 ^ 32 }
    ensures { OnOk result ((row : PlanRow)
        → row.jump ≡ guard_of guard
        → IsOpened state.now edges.old.items edges.new.items
        (jump_edges row 0 (targets_at instr.now))) }
{
    let mut number = 0;
    while let Some(to) = target(instr, number) {
        let edge = GuardedEdge {
            by: EdgeKind::Jump(number),
            to: to as usize,
            guard,
        };
        push_open(edges, edge, state)?;
        number += 1;
    }
    Ok(())
}

// Adds the edges to handlers.
fn push_handlers(
    edges: &mut Vec<GuardedEdge>,
    handlers: &[FlatHandler],
    guard: Guard,
    state: &VState,
) -> Result<(), NoMemory>
    requires { length handlers.now < 2 ^ 32 }
    ensures { OnOk result
        (IsOpened state.now edges.old.items edges.new.items
        (handler_edges (guard_of guard) 0 handlers.now)) }
{
    let mut number = 0;
    for handler in handlers {
        let edge = GuardedEdge {
            by: EdgeKind::Handler(number),
            to: handler.to,
            guard,
        };
        push_open(edges, edge, state)?;
        number += 1;
    }
    Ok(())
}

// Adds an edge, if control may take it.
fn push_open(
    edges: &mut Vec<GuardedEdge>,
    edge: GuardedEdge,
    state: &VState,
) -> Result<(), NoMemory>
    ensures { OnOk result
        (IsOpened state.now edges.old.items edges.new.items (row_edge edge ∷ [])) }
{
    if is_open(state, edge.guard) {
        edges.push(edge)?;
    }
    Ok(())
}

// Whether control may take an edge in a state.
fn is_open(state: &VState, guard: Guard) -> bool
    ensures { result ≡ slots.is_open state.now (guard_of guard) }
{
    match guard {
        Guard::Always => true,
        Guard::Plain(place) => is_plain(held(state, place)),
        Guard::Same(one, other) => may_be_same(held(state, one), held(state, other)),
        Guard::Different(one, other) => may_differ(held(state, one), held(state, other)),
    }
}

// Whether control may fall through to the next point.
fn falls_on(instr: &FlatInstr) -> bool
    ensures { result ≡ tables.falls_on instr.now }
{
    match instr {
        FlatInstr::Of { instr, .. } => falls_through(instr),
        FlatInstr::NullTest(_) => true,
    }
}

// Whether control may fall through to the next instruction.
fn falls_through(instr: &Instr) -> bool
    ensures { result ≡ falls_through instr.now }
{
    !matches!(
        instr,
        Instr::Goto(_)
            | Instr::Table { .. }
            | Instr::Lookup { .. }
            | Instr::Return(_)
            | Instr::Throw
    )
}

/// The jump target of an instruction of a number, counted from 0, if there is one; of a switch the default is the first.
pub fn target(instr: &FlatInstr, number: u32) -> Option<u32>
    ensures { result ≡ slice_get (targets_at instr.now) number }
{
    match instr {
        FlatInstr::Of { instr, .. } => target_of(instr, number as usize),
        FlatInstr::NullTest(_) => None,
    }
}

// The same of an instruction.
fn target_of(instr: &Instr, number: usize) -> Option<u32>
    ensures { result ≡ slice_get (targets instr.now) number }
{
    match instr {
        Instr::If(_, to) | Instr::If2(_, to) | Instr::IfSame(_, to) | Instr::IfNull(_, to) => {
            only(*to, number)
        }
        Instr::Goto(to) => only(*to, number),
        Instr::Table { other, targets, .. } => {
            if number == 0 {
                Some(*other)
            } else {
                targets.get(number - 1).copied()
            }
        }
        Instr::Lookup { other, pairs } => {
            if number == 0 {
                Some(*other)
            } else {
                Some(pairs.get(number - 1)?.to)
            }
        }
        _ => None,
    }
}

// The only target.
fn only(to: u32, number: usize) -> Option<u32>
    ensures { result ≡ slice_get (to ∷ []) number }
{
    if number == 0 { Some(to) } else { None }
}
