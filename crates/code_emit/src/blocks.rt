//! The blocks of a point: the make code before its instruction, the instruction, and the make code on its edge to the next point.
ghost use Rattle.std.specs.Prelude.{◌≡◌, OnOk, IfOk, Some};
ghost use Rattle.std.specs.Result.{IsErrOf};
ghost use Rattle.class_tree.specs.Headers.{headers_of};
ghost use Rattle.code_drafts.specs.Drafts.{kind_of};
ghost use Rattle.code_drafts.specs.Writable.{IsLeftAt, IsRouteAt, IsWritable};
ghost use Rattle.code_emit.specs.Inner.MadeBlocks.{IsFullBlock, WritesMade};
ghost use Rattle.code_emit.specs.Inner.PointBlocks.{IsLeftOrNone, before_blocks, own_blocks, onward_blocks};
ghost use Rattle.code_emit.specs.Inner.ReachedPoints.{AreBlocksFull, WritesAt};
ghost use Rattle.flow_code.specs.FlatCode.{point_at};
ghost use Rattle.flow_code.specs.declared.point.Point.{Point};
ghost use Rattle.flow_code.specs.declared.reason.Reason.{Reason};
ghost use Rattle.materialise.specs.MadeCode.{CanMake};
ghost use Rattle.member_link.specs.Machine.Links.{AreLinksOf};
ghost use Rattle.member_link.specs.Machine.Programs.{Links};
ghost use Rattle.plan_flow.specs.Written.Blocks.{leaves_to, point_blocks};
ghost use Rattle.plan_flow.specs.Written.Routes.{Route};
ghost use Rattle.pool_edit.specs.Edits.{Continues};

use crate::drafts::Drafts;
use crate::instructions::write_items;
use crate::making::write_made;
use class_model::NoMemory;
use code_drafts::{BlockKind, Setting, is_decided, state_on};
use flow_code::KeptFault;
use member_link::a_tree_has_links;
use plan_flow::EdgeKind;
use pool_edit::{PoolEdit, an_edit_goes_back_to_what_it_was};
use std::alloc::Global;
use virtual_state::{SiteSet, VState, without};

/// The state in which the instruction of a point is written. None: the point is not reached.
///
/// # Errors
/// `NoMemory`, where memory runs out.
pub(crate) fn left_at(
    alloc: Global,
    setting: &Setting<'_>,
    at: usize,
) -> Result<Option<VState>, NoMemory>
    requires { IsWritable setting.now }
    ensures { IfOk result (IsLeftOrNone setting.now at) }
{
    a_tree_has_links(setting.tree());
    let Some(made) = setting.plan().made_at(at) else {
        return Ok(None);
    };
    let Some(state) = setting.plan().state(at) else {
        return Ok(None);
    };
    let left = without(alloc, state, made)?;
    Ok(Some(left))
}

/// Writes a block of make code, if objects are made.
///
/// # Errors
/// `Kept(PoolFull)`, exactly where a constant does not fit; `NoMemory`, where memory runs out. Constants may have been added then.
pub(crate) fn write_make_block(
    alloc: Global,
    setting: &Setting<'_>,
    of: BlockKind,
    at: usize,
    state: &VState,
    made: &SiteSet,
    leaves: Option<usize>,
    pool: &mut PoolEdit,
    drafts: &mut Drafts,
) -> Result<(), KeptFault>
    requires can { IsWritable setting.now }
    requires make { CanMake setting.now.flat at state.now made.now }
    ensures ok { OnOk result (WritesMade setting.now (kind_of of) at state.now made.now leaves
        pool.old pool.new drafts.old drafts.new) }
    ensures full { (reason : Reason)
        → IsErrOf result (KeptFault.Kept reason)
        → IsFullBlock setting.now (kind_of of) at state.now made.now leaves pool.old reason }
    ensures more { Continues pool.old pool.new }
{
    an_edit_goes_back_to_what_it_was();
    if made.is_empty() {
        return Ok(());
    }
    let first = drafts.kept.len();
    write_made(alloc, setting, at, state, made, pool, &mut drafts.kept)?;
    let copy = state.copy()?;
    drafts.note(of, at, copy, first, leaves)?;
    Ok(())
}

/// Writes the blocks of a point that is reached, by the state in which its instruction is written.
///
/// # Errors
/// As `write_make_block`.
pub(crate) fn write_point(
    alloc: Global,
    setting: &Setting<'_>,
    at: usize,
    state: &VState,
    pool: &mut PoolEdit,
    drafts: &mut Drafts,
) -> Result<(), KeptFault>
    requires can { IsWritable setting.now }
    requires left { IsLeftAt setting.now at state.now }
    ensures ok { OnOk result
        (WritesAt setting.now at point_blocks pool.old pool.new drafts.old drafts.new) }
    ensures full { (reason : Reason)
        → IsErrOf result (KeptFault.Kept reason)
        → AreBlocksFull setting.now at point_blocks pool.old reason }
    ensures more { Continues pool.old pool.new }
{
    an_edit_goes_back_to_what_it_was();
    write_before(alloc, setting, at, pool, drafts)?;
    write_own(alloc, setting, at, state, pool, drafts)?;
    write_onwards(alloc, setting, at, state, pool, drafts)
}

// Writes the make code before the instruction of a point, if there is some.
fn write_before(
    alloc: Global,
    setting: &Setting<'_>,
    at: usize,
    pool: &mut PoolEdit,
    drafts: &mut Drafts,
) -> Result<(), KeptFault>
    requires { IsWritable setting.now }
    ensures ok { OnOk result
        (WritesAt setting.now at before_blocks pool.old pool.new drafts.old drafts.new) }
    ensures full { (reason : Reason)
        → IsErrOf result (KeptFault.Kept reason)
        → AreBlocksFull setting.now at before_blocks pool.old reason }
    ensures more { Continues pool.old pool.new }
{
    an_edit_goes_back_to_what_it_was();
    a_tree_has_links(setting.tree());
    let Some(made) = setting.plan().made_at(at) else {
        return Ok(());
    };
    let Some(state) = setting.plan().state(at) else {
        return Ok(());
    };
    write_make_block(
        alloc,
        setting,
        BlockKind::BeforePoint(at),
        at,
        state,
        made,
        None,
        pool,
        drafts,
    )
}

// Writes the block of the instruction of a point.
fn write_own(
    alloc: Global,
    setting: &Setting<'_>,
    at: usize,
    state: &VState,
    pool: &mut PoolEdit,
    drafts: &mut Drafts,
) -> Result<(), KeptFault>
    requires can { IsWritable setting.now }
    requires left { IsLeftAt setting.now at state.now }
    ensures ok { OnOk result
        (WritesAt setting.now at own_blocks pool.old pool.new drafts.old drafts.new) }
    ensures full { (reason : Reason)
        → IsErrOf result (KeptFault.Kept reason)
        → AreBlocksFull setting.now at own_blocks pool.old reason }
    ensures more { Continues pool.old pool.new }
{
    an_edit_goes_back_to_what_it_was();
    let first = drafts.kept.len();
    write_items(alloc, setting, at, state, pool, &mut drafts.kept)?;
    let leaves = leaves_to(setting, at, state);
    let copy = state.copy()?;
    drafts.note(BlockKind::OfPoint(at), at, copy, first, leaves)?;
    Ok(())
}

// The point to which the instruction of a point goes, if it goes nowhere else.
fn leaves_to(setting: &Setting<'_>, at: usize, state: &VState) -> Option<usize>
    requires can { IsWritable setting.now }
    requires left { IsLeftAt setting.now at state.now }
    ensures { (links : Links) (point : Point) (route : Route)
        → AreLinksOf (headers_of setting.now.classes) links
        → point_at setting.now.flat at ≡ Some point
        → IsRouteAt setting.now links at route
        → result ≡ leaves_to point route }
{
    if !is_decided(setting.flat(), at, state) {
        return None;
    }
    match setting.plan().edge_by(at, EdgeKind::Jump(0)) {
        Some(edge) => Some(edge.to),
        None => None,
    }
}

// Writes the make code on the edge of a point to the next one, if there is some.
fn write_onwards(
    alloc: Global,
    setting: &Setting<'_>,
    at: usize,
    state: &VState,
    pool: &mut PoolEdit,
    drafts: &mut Drafts,
) -> Result<(), KeptFault>
    requires can { IsWritable setting.now }
    requires left { IsLeftAt setting.now at state.now }
    ensures ok { OnOk result
        (WritesAt setting.now at onward_blocks pool.old pool.new drafts.old drafts.new) }
    ensures full { (reason : Reason)
        → IsErrOf result (KeptFault.Kept reason)
        → AreBlocksFull setting.now at onward_blocks pool.old reason }
    ensures more { Continues pool.old pool.new }
{
    an_edit_goes_back_to_what_it_was();
    let Some(edge) = setting.plan().edge_by(at, EdgeKind::Next) else {
        return Ok(());
    };
    if edge.made.is_empty() {
        return Ok(());
    }
    let Some(behind) = state_on(alloc, setting, at, state, EdgeKind::Next)? else {
        return Ok(());
    };
    let written = write_make_block(
        alloc,
        setting,
        BlockKind::OnNextEdge(at),
        edge.to,
        &behind,
        edge.made,
        None,
        pool,
        drafts,
    );
    // let go by a call, so that its drop is proved once
    drop(behind);
    written
}
