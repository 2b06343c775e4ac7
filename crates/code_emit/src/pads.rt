//! Pads: the make code on jump edges and on handler edges.
ghost use Rattle.std.specs.Prelude.{◌≡◌, false, slice_get, OnOk, Some};
ghost use Rattle.std.specs.Option.{option_copied};
ghost use Rattle.std.specs.Result.{IsErrOf};
ghost use Rattle.code_drafts.specs.LedEdges.{AreLed};
ghost use Rattle.code_drafts.specs.Writable.{IsLeftAt, IsWritable};
ghost use Rattle.code_emit.specs.Inner.PadBlocks.{MakesNone, block_for, edge_pads, pad_of, pads_at};
ghost use Rattle.code_emit.specs.Inner.ReachedPoints.{AreBlocksFull, IsBlockFull, WritesAt, WritesEdge};
ghost use Rattle.flow_code.specs.declared.reason.Reason.{Reason};
ghost use Rattle.plan_flow.specs.PlanScope.{PlanScope};
ghost use Rattle.plan_flow.specs.Written.Routes.{RouteEdge};
ghost use Rattle.pool_edit.specs.Edits.{Continues};

use crate::blocks::write_make_block;
use crate::drafts::Drafts;
use code_drafts::{BlockKind, Setting, edges_are_led, effect_at, is_decided};
use flow_code::KeptFault;
use plan_flow::{Edge, EdgeKind, Plan};
use pool_edit::{PoolEdit, an_edit_goes_back_to_what_it_was};
use std::alloc::Global;
use virtual_state::VState;

/// Which pads are written: those of jump edges, or those of handler edges.
#[derive(Clone, Copy)]
pub(crate) enum Pads {
    Jump,
    Handler,
}

/// Writes the pads of a point that is reached, by the state in which its instruction is written.
///
/// # Errors
/// `Kept(PoolFull)`, exactly where a constant does not fit; `NoMemory`, where memory runs out. Constants may have been added then.
pub(crate) fn write_pads(
    alloc: Global,
    setting: &Setting<'_>,
    of: Pads,
    at: usize,
    state: &VState,
    pool: &mut PoolEdit,
    drafts: &mut Drafts,
) -> Result<(), KeptFault>
    requires can { IsWritable setting.now }
    requires left { IsLeftAt setting.now at state.now }
    ensures ok { OnOk result
        (WritesAt setting.now at (pads_at of) pool.old pool.new drafts.old drafts.new) }
    ensures full { (reason : Reason)
        → IsErrOf result (KeptFault.Kept reason)
        → AreBlocksFull setting.now at (pads_at of) pool.old reason }
    ensures more { Continues pool.old pool.new }
{
    an_edit_goes_back_to_what_it_was();
    if !may_make(setting.plan(), at) {
        return Ok(());
    }
    write_made_pads(alloc, setting, of, at, state, pool, drafts)
}

// Whether objects may be made on an edge of a point.
fn may_make(plan: &Plan, at: usize) -> bool
    ensures { result ≡ false → MakesNone plan.now at }
{
    for number in 0..usize::MAX {
        let Some(edge) = plan.edge(at, number) else {
            return false;
        };
        if !edge.made.is_empty() {
            return true;
        }
    }
    true
}

// The same, edge by edge.
fn write_made_pads(
    alloc: Global,
    setting: &Setting<'_>,
    of: Pads,
    at: usize,
    state: &VState,
    pool: &mut PoolEdit,
    drafts: &mut Drafts,
) -> Result<(), KeptFault>
    requires can { IsWritable setting.now }
    requires left { IsLeftAt setting.now at state.now }
    ensures ok { OnOk result
        (WritesAt setting.now at (pads_at of) pool.old pool.new drafts.old drafts.new) }
    ensures full { (reason : Reason)
        → IsErrOf result (KeptFault.Kept reason)
        → AreBlocksFull setting.now at (pads_at of) pool.old reason }
    ensures more { Continues pool.old pool.new }
{
    an_edit_goes_back_to_what_it_was();
    let edges = effect_at(alloc, setting, at, state)?;
    edges_are_led(setting, at, edges.as_slice());
    let decided = is_decided(setting.flat(), at, state);
    let written = write_edges(
        alloc,
        setting,
        of,
        at,
        decided,
        edges.as_slice(),
        pool,
        drafts,
    );
    // let go by a call, so that its drop is proved once
    drop(edges);
    written
}

// Writes the pads of the edges of a point, edge by edge.
fn write_edges(
    alloc: Global,
    setting: &Setting<'_>,
    of: Pads,
    at: usize,
    decided: bool,
    edges: &[Edge],
    pool: &mut PoolEdit,
    drafts: &mut Drafts,
) -> Result<(), KeptFault>
    requires can { IsWritable setting.now }
    requires led { AreLed setting.now at edges.now }
    ensures ok { OnOk result (WritesAt setting.now at (edge_pads of decided)
        pool.old pool.new drafts.old drafts.new) }
    ensures full { (reason : Reason)
        → IsErrOf result (KeptFault.Kept reason)
        → AreBlocksFull setting.now at (edge_pads of decided) pool.old reason }
    ensures more { Continues pool.old pool.new }
{
    an_edit_goes_back_to_what_it_was();
    for number in 0..edges.len() {
        write_edge(alloc, setting, of, at, decided, edges, number, pool, drafts)?;
    }
    Ok(())
}

// Writes the pad of the edge of a number, if objects are made on it.
fn write_edge(
    alloc: Global,
    setting: &Setting<'_>,
    of: Pads,
    at: usize,
    decided: bool,
    edges: &[Edge],
    number: usize,
    pool: &mut PoolEdit,
    drafts: &mut Drafts,
) -> Result<(), KeptFault>
    requires can { IsWritable setting.now }
    requires led { AreLed setting.now at edges.now }
    ensures ok { OnOk result (WritesEdge setting.now at number (pad_of of decided)
        pool.old pool.new drafts.old drafts.new) }
    ensures full { (reason : Reason)
        → IsErrOf result (KeptFault.Kept reason)
        → IsBlockFull setting.now at number (pad_of of decided) pool.old reason }
    ensures more { Continues pool.old pool.new }
{
    an_edit_goes_back_to_what_it_was();
    let Some(edge) = edge_at(edges, number) else {
        return Ok(());
    };
    let Some(kind) = pad_kind(of, at, decided, edge.by) else {
        return Ok(());
    };
    let Some(planned) = setting.plan().edge(at, number) else {
        return Ok(());
    };
    write_make_block(
        alloc,
        setting,
        kind,
        edge.to,
        &edge.state,
        planned.made,
        Some(edge.to),
        pool,
        drafts,
    )
}

// The edge of a number, if there is one.
fn edge_at(edges: &[Edge], number: usize) -> Option<&Edge>
    ensures { option_copied result ≡ slice_get edges.now number }
{
    edges.get(number)
}

// The pad of an edge of a kind, if it can have one of this sort.
fn pad_kind(of: Pads, at: usize, decided: bool, by: EdgeKind) -> Option<BlockKind>
    ensures { (s : PlanScope) (edge : RouteEdge)
        → edge.by ≡ by
        → pad_of of decided s at edge ≡ block_for s result edge }
{
    match of {
        Pads::Jump => match by {
            EdgeKind::Jump(number) => jump_pad(at, decided, number),
            EdgeKind::Next | EdgeKind::Handler(_) => None,
        },
        Pads::Handler => match by {
            EdgeKind::Handler(number) => Some(BlockKind::HandlerPad { at, number }),
            EdgeKind::Next | EdgeKind::Jump(_) => None,
        },
    }
}

// The pad of a jump edge: where the jump is decided, its make code belongs to the instruction.
fn jump_pad(at: usize, decided: bool, number: u32) -> Option<BlockKind>
    ensures { (s : PlanScope) (edge : RouteEdge)
        → edge.by ≡ EdgeKind.Jump number
        → pad_of Pads.Jump decided s at edge ≡ block_for s result edge }
{
    if decided {
        None
    } else {
        Some(BlockKind::JumpPad { at, number })
    }
}
