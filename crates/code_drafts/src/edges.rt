//! The edges of a point.
ghost use Rattle.std.specs.Prelude.{◌≡◌, IfOk, option_map};
ghost use Rattle.std.specs.List.{find};
ghost use Rattle.std.specs.Option.{option_copied};
ghost use Rattle.code_drafts.specs.LedEdges.{AreEffects, AreLed, IsStateOn};
ghost use Rattle.code_drafts.specs.Writable.{IsLeftAt, IsWritable};
ghost use Rattle.plan_flow.specs.Written.Routes.{is_kind};

use crate::setting::Setting;
use class_model::NoMemory;
use member_link::a_tree_has_links;
use plan_flow::{Edge, EdgeKind, EdgeList, effect};
use std::alloc::Global;
use virtual_state::VState;

/// The state behind the edge of a kind, if control may take one. The state is the one in which the point's instruction is written.
///
/// # Errors
/// `NoMemory`, where memory runs out.
pub fn state_on(
    alloc: Global,
    setting: &Setting<'_>,
    at: usize,
    state: &VState,
    by: EdgeKind,
) -> Result<Option<VState>, NoMemory>
    requires can { IsWritable setting.now }
    requires state { IsLeftAt setting.now at state.now }
    ensures { IfOk result (IsStateOn setting.now at by) }
{
    let edges = effect_at(alloc, setting, at, state)?;
    edges_are_led(setting, at, edges.as_slice());
    let behind = copied_state(edge_of_kind(edges.as_slice(), by));
    // let go by a call, so that its drop is proved once
    drop(edges);
    behind
}

// A copy of the state of an edge.
fn copied_state(edge: Option<&Edge>) -> Result<Option<VState>, NoMemory>
    ensures { IfOk result (λ state.
        state ≡ option_map (λ edge. edge.state) (option_copied edge.entry)) }
{
    match edge {
        Some(edge) => Ok(Some(edge.state.copy()?)),
        None => Ok(None),
    }
}

// The first edge of a kind.
fn edge_of_kind(edges: &[Edge], by: EdgeKind) -> Option<&Edge>
    ensures { option_copied result ≡ find (λ edge. is_kind edge.by by) edges.now }
{
    edges.iter().find(|edge| is_of_kind(edge.by, by))
}

// Whether a kind is another one.
fn is_of_kind(one: EdgeKind, other: EdgeKind) -> bool
    ensures { result ≡ is_kind one other }
{
    match one {
        EdgeKind::Next => matches!(other, EdgeKind::Next),
        EdgeKind::Jump(number) => match other {
            EdgeKind::Jump(also) => number == also,
            EdgeKind::Next | EdgeKind::Handler(_) => false,
        },
        EdgeKind::Handler(number) => match other {
            EdgeKind::Handler(also) => number == also,
            EdgeKind::Next | EdgeKind::Jump(_) => false,
        },
    }
}

/// What the instruction of a point leaves, edge by edge, in the state in which it is written.
///
/// # Errors
/// `NoMemory`, where memory runs out.
pub fn effect_at(
    alloc: Global,
    setting: &Setting<'_>,
    at: usize,
    state: &VState,
) -> Result<EdgeList, NoMemory>
    requires can { IsWritable setting.now }
    requires state { IsLeftAt setting.now at state.now }
    ensures { IfOk result (AreEffects setting.now at) }
{
    effect(alloc, setting.tree, setting.flat, at, state)
}

/// The edges of a point's effect are those of its plan and of its route, and objects can be made on them.
pub fn edges_are_led(setting: &Setting<'_>, at: usize, edges: &[Edge])
    requires can { IsWritable setting.now }
    requires edges { AreEffects setting.now at edges.now }
    ensures { AreLed setting.now at edges.now }
{
    a_tree_has_links(setting.tree);
}
