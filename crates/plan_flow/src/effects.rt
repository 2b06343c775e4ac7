//! What an instruction leaves, edge by edge, in a state in which it asks for no object.
ghost use Rattle.std.specs.Prelude.{◌≡◌, [], Some, IfOk, IfSome, map, option_map};
ghost use Rattle.std.specs.Option.{option_copied, option_map_or};
ghost use Rattle.class_tree.specs.Headers.{headers_of};
ghost use Rattle.flow_code.specs.FlatCode.{point_at};
ghost use Rattle.flow_code.specs.declared.point.Point.{Point};
ghost use Rattle.member_link.specs.Machine.Links.{AreLinksOf};
ghost use Rattle.member_link.specs.Machine.Programs.{Links};
ghost use Rattle.plan_flow.specs.Effect.{AreEdges, IsEffect, IsStateBehind};
ghost use Rattle.plan_flow.specs.Inner.Doing.{HaveStates, IsRowOf, MayBeDone};
ghost use Rattle.plan_flow.specs.Inner.EdgeViews.{IsAlikeIn, row_edge};
ghost use Rattle.plan_flow.specs.Inner.Sharing.{open_by, targets_in};
ghost use Rattle.plan_flow.specs.Must.{IsMust};
ghost use Rattle.plan_flow.specs.Narrow.{HasFewLocals, IsNarrow};
ghost use Rattle.plan_flow.specs.PlanScope.{scope_of};

use crate::changes::front_objects;
use crate::edge::{Edge, EdgeList};
use crate::edge_states::state_behind;
use crate::edges::{GuardedEdge, edge_at, open_edges};
use crate::fronts::{locals_behind, stored_by};
use crate::handler_targets::HandlerTargets;
use crate::rows::Row;
use crate::saving::is_normal;
use crate::sources::edge_stack;
use crate::table::row_at;
use class_model::{Frame, LocalTypeList, NoMemory, VTypeList};
use class_tree::Tree;
use flow_code::{Flat, FlatInstr};
use member_link::a_tree_has_links;
use std::alloc::Global;
use std::collections::BTreeMap;
use virtual_state::VState;

/// The edges that control may take from a point in a state in which its instruction asks for no object, with the states behind
/// them: the edge to the next point, then those to the targets, a switch's default first, then those to the handlers. None,
/// where there is no such point.
///
/// # Errors
/// `NoMemory`, where memory runs out.
pub fn effect(
    alloc: Global,
    tree: &Tree,
    flat: &Flat,
    at: usize,
    state: &VState,
) -> Result<EdgeList, NoMemory>
    requires narrow { IsNarrow flat.now }
    requires asks_none { (links : Links)
        → AreLinksOf (headers_of tree.now) links
        → IsMust (scope_of tree.now links flat.now) at state.now [] }
    ensures { IfOk result (λ edges. (links : Links)
        → AreLinksOf (headers_of tree.now) links
        → IsEffect (scope_of tree.now links flat.now) at state.now edges) }
{
    let Some(instr) = flat.instr(at) else {
        return Ok(EdgeList::new(alloc));
    };
    let Some(types) = flat.typed(at) else {
        return Ok(EdgeList::new(alloc));
    };
    let edges = edges_from(alloc, tree, flat, at, types, instr, None, state)?;
    Ok(edges)
}

/// The same edges, where those to handlers that lead to one point are one, as if by handler 0: the state behind all of them is
/// the same. Its cost does not grow with the handlers, only with the points to which they lead.
///
/// # Errors
/// `NoMemory`, where memory runs out.
pub(crate) fn shared_effect(
    alloc: Global,
    tree: &Tree,
    flat: &Flat,
    targets: &HandlerTargets,
    at: usize,
    state: &VState,
) -> Result<EdgeList, NoMemory>
    requires narrow { IsNarrow flat.now }
    requires asks_none { (links : Links)
        → AreLinksOf (headers_of tree.now) links
        → IsMust (scope_of tree.now links flat.now) at state.now [] }
    ensures { IfOk result (λ edges. (links : Links) (point : Point)
        → AreLinksOf (headers_of tree.now) links
        → point_at flat.now at ≡ Some point
        → AreEdges (scope_of tree.now links flat.now) point at state.now
        (open_by (scope_of tree.now links flat.now) at point state.now
        (Some (targets_in targets.now at))) edges) }
{
    let Some(instr) = flat.instr(at) else {
        return Ok(EdgeList::new(alloc));
    };
    let Some(types) = flat.typed(at) else {
        return Ok(EdgeList::new(alloc));
    };
    let shared = targets.at(at);
    let edges = edges_from(alloc, tree, flat, at, types, instr, Some(shared), state)?;
    Ok(edges)
}

// The edges from a point, where those to handlers may be shared.
fn edges_from(
    alloc: Global,
    tree: &Tree,
    flat: &Flat,
    at: usize,
    types: &Frame,
    instr: &FlatInstr,
    shared: Option<&[usize]>,
    state: &VState,
) -> Result<EdgeList, NoMemory>
    requires narrow { IsNarrow flat.now }
    requires types { option_map (λ point. point.typed) (point_at flat.now at) ≡ Some types.now }
    requires instr { option_map (λ point. point.instr) (point_at flat.now at) ≡ Some instr.now }
    requires asks_none { (links : Links)
        → AreLinksOf (headers_of tree.now) links
        → IsMust (scope_of tree.now links flat.now) at state.now [] }
    ensures { IfOk result (λ edges. (links : Links) (point : Point)
        → AreLinksOf (headers_of tree.now) links
        → point_at flat.now at ≡ Some point
        → AreEdges (scope_of tree.now links flat.now) point at state.now
        (open_by (scope_of tree.now links flat.now) at point state.now
        (option_copied shared.entry)) edges) }
{
    a_tree_has_links(tree);
    let row = row_at(tree, flat, at, types, instr)?;
    let edges = edges_by(alloc, tree, flat, at, types, instr, &row, shared, state);
    // let go by a call, so that its drop is proved once
    drop(row);
    edges
}

// The edges from a point whose instruction has this row.
fn edges_by(
    alloc: Global,
    tree: &Tree,
    flat: &Flat,
    at: usize,
    types: &Frame,
    instr: &FlatInstr,
    row: &Row,
    shared: Option<&[usize]>,
    state: &VState,
) -> Result<EdgeList, NoMemory>
    requires narrow { IsNarrow flat.now }
    requires types { HasFewLocals types.now }
    requires instr { option_map (λ point. point.instr) (point_at flat.now at) ≡ Some instr.now }
    requires done { MayBeDone tree.now flat.now at types.now row.now state.now }
    ensures { IfOk result (λ edges. (links : Links) (point : Point)
        → point_at flat.now at ≡ Some point
        → IsRowOf (scope_of tree.now links flat.now) at point types.now row.now
        → AreEdges (scope_of tree.now links flat.now) point at state.now
        (open_by (scope_of tree.now links flat.now) at point state.now
        (option_copied shared.entry)) edges) }
{
    let taken = open_edges(alloc, flat, at, instr, row, shared, state)?;
    let edges = edges_over(alloc, tree, flat, at, types, row, taken.as_slice(), state)?;
    Ok(edges)
}

// These edges, with the states behind them. Edges to handlers that lead to one point share theirs.
fn edges_over(
    alloc: Global,
    tree: &Tree,
    flat: &Flat,
    at: usize,
    types: &Frame,
    row: &Row,
    taken: &[GuardedEdge],
    state: &VState,
) -> Result<EdgeList, NoMemory>
    requires narrow { IsNarrow flat.now }
    requires types { HasFewLocals types.now }
    requires done { MayBeDone tree.now flat.now at types.now row.now state.now }
    ensures { IfOk result (λ edges. (links : Links) (point : Point)
        → IsRowOf (scope_of tree.now links flat.now) at point types.now row.now
        → AreEdges (scope_of tree.now links flat.now) point at state.now
        (map row_edge taken.now) edges) }
{
    let mut edges = EdgeList::new(alloc);
    let mut caught = BTreeMap::new(alloc);
    let mut number = 0;
    while let Some(edge) = edge_at(taken, number) {
        let done = edges.as_slice();
        let behind = state_by(
            alloc, tree, flat, at, types, row, done, &caught, edge, state,
        )?;
        note(&mut caught, edge, number)?;
        let made = Edge {
            to: edge.to,
            by: edge.by,
            state: behind,
        };
        edges.push(made)?;
        number += 1;
    }
    Ok(edges)
}

// The state behind an edge: that behind an edge by a handler to the same point, if one is noted among these.
fn state_by(
    alloc: Global,
    tree: &Tree,
    flat: &Flat,
    at: usize,
    types: &Frame,
    row: &Row,
    done: &[Edge],
    caught: &BTreeMap<usize, usize>,
    edge: GuardedEdge,
    state: &VState,
) -> Result<VState, NoMemory>
    requires narrow { IsNarrow flat.now }
    requires types { HasFewLocals types.now }
    requires done { MayBeDone tree.now flat.now at types.now row.now state.now }
    requires edges { HaveStates tree.now flat.now at types.now row.now state.now done.now }
    ensures { IfOk result (λ behind. (links : Links) (point : Point)
        → IsRowOf (scope_of tree.now links flat.now) at point types.now row.now
        → IsStateBehind (scope_of tree.now links flat.now) point at state.now (row_edge edge)
        behind) }
{
    match alike(done, caught, edge) {
        Some(other) => {
            let same = other.state.copy()?;
            Ok(same)
        }
        None => {
            let behind = state_over(alloc, tree, flat, at, types, row, edge, state)?;
            Ok(behind)
        }
    }
}

// Notes the number of an edge, if it is the first by a handler to its target.
fn note(
    caught: &mut BTreeMap<usize, usize>,
    edge: GuardedEdge,
    number: usize,
) -> Result<(), NoMemory> {
    if is_normal(edge.by) {
        return Ok(());
    }
    if caught.get(&edge.to).is_some() {
        return Ok(());
    }
    caught.insert(edge.to, number)?;
    Ok(())
}

// The edge by a handler to the same point, if one is noted among edges and this one is by a handler.
fn alike<'e>(
    edges: &'e [Edge],
    caught: &BTreeMap<usize, usize>,
    edge: GuardedEdge,
) -> Option<&'e Edge>
    ensures { IfSome result (λ other. IsAlikeIn edges.now edge other.now) }
{
    if is_normal(edge.by) {
        return None;
    }
    let number = *caught.get(&edge.to)?;
    let other = edges.get(number)?;
    if other.to == edge.to && !is_normal(other.by) {
        Some(other)
    } else {
        None
    }
}

// The state behind an edge.
fn state_over(
    alloc: Global,
    tree: &Tree,
    flat: &Flat,
    at: usize,
    types: &Frame,
    row: &Row,
    edge: GuardedEdge,
    state: &VState,
) -> Result<VState, NoMemory>
    requires narrow { IsNarrow flat.now }
    requires types { HasFewLocals types.now }
    requires done { MayBeDone tree.now flat.now at types.now row.now state.now }
    ensures { IfOk result (λ behind. (links : Links) (point : Point)
        → IsRowOf (scope_of tree.now links flat.now) at point types.now row.now
        → IsStateBehind (scope_of tree.now links flat.now) point at state.now (row_edge edge)
        behind) }
{
    state.is_state();
    let front = front_objects(alloc, tree, flat, state, &row.change, edge.by)?;
    let stack = edge_stack(alloc, tree, flat, state, types, row, edge.by)?;
    let nothing = Frame {
        locals: LocalTypeList::new(alloc),
        stack: VTypeList::new(alloc),
    };
    let target = frame_or(flat.typed(edge.to), &nothing);
    let stored = stored_by(row.stored, edge.by);
    let locals = locals_behind(alloc, state, types, stored, &target.locals)?;
    let behind = state_behind(
        alloc,
        state,
        locals,
        stack.as_slice(),
        front,
        target.stack.as_slice(),
    )?;
    Ok(behind)
}

// A frame, or another where there is none.
fn frame_or<'a>(types: Option<&'a Frame>, other: &'a Frame) -> &'a Frame
    ensures { result.now ≡ option_map_or (λ types. types) (option_copied types.entry) other.now }
{
    match types {
        Some(types) => types,
        None => other,
    }
}
