//! The blocks of all points, pass by pass.
ghost use Rattle.std.specs.Prelude.{◌≡◌, ◌≢◌, None, OnOk};
ghost use Rattle.std.specs.Result.{IsErrOf};
ghost use Rattle.code_drafts.specs.Writable.{IsLeftAt, IsWritable};
ghost use Rattle.code_emit.specs.Inner.PassBlocks.{AreAllFull, IsUntouched, WritesAll, all_blocks, blocks_at, pass_blocks};
ghost use Rattle.code_emit.specs.Inner.ReachedPoints.{AreBlocksFull, WritesAt};
ghost use Rattle.flow_code.specs.declared.reason.Reason.{Reason};
ghost use Rattle.plan_flow.specs.Plans.{planned};
ghost use Rattle.pool_edit.specs.Edits.{Continues};

use crate::blocks::{left_at, write_point};
use crate::drafts::Drafts;
use crate::pads::{Pads, write_pads};
use code_drafts::Setting;
use flow_code::KeptFault;
use pool_edit::{PoolEdit, an_edit_goes_back_to_what_it_was};
use std::alloc::Global;
use virtual_state::VState;

/// What is written of each point, one pass behind the other: the point itself, the pads of its jump edges, and those of its handler
/// edges.
#[derive(Clone, Copy)]
pub(crate) enum Pass {
    Points,
    JumpPads,
    HandlerPads,
}

/// Writes all blocks of a plan, in order.
///
/// # Errors
/// `Kept(PoolFull)`, exactly where a constant does not fit; `NoMemory`, where memory runs out. Constants may have been added then.
pub(crate) fn write_blocks(
    alloc: Global,
    setting: &Setting<'_>,
    pool: &mut PoolEdit,
    drafts: &mut Drafts,
) -> Result<(), KeptFault>
    requires { IsWritable setting.now }
    ensures ok { OnOk result
        (WritesAll setting.now all_blocks pool.old pool.new drafts.old drafts.new) }
    ensures full { (reason : Reason)
        → IsErrOf result (KeptFault.Kept reason)
        → AreAllFull setting.now all_blocks pool.old reason }
    ensures more { Continues pool.old pool.new }
{
    an_edit_goes_back_to_what_it_was();
    write_pass(alloc, setting, Pass::Points, pool, drafts)?;
    write_pass(alloc, setting, Pass::JumpPads, pool, drafts)?;
    write_pass(alloc, setting, Pass::HandlerPads, pool, drafts)
}

// Writes what a pass writes of all points, in order.
fn write_pass(
    alloc: Global,
    setting: &Setting<'_>,
    pass: Pass,
    pool: &mut PoolEdit,
    drafts: &mut Drafts,
) -> Result<(), KeptFault>
    requires { IsWritable setting.now }
    ensures ok { OnOk result
        (WritesAll setting.now (pass_blocks pass) pool.old pool.new drafts.old drafts.new) }
    ensures full { (reason : Reason)
        → IsErrOf result (KeptFault.Kept reason)
        → AreAllFull setting.now (pass_blocks pass) pool.old reason }
    ensures more { Continues pool.old pool.new }
{
    an_edit_goes_back_to_what_it_was();
    for at in 0..setting.flat().len() {
        write_at(alloc, setting, pass, at, pool, drafts)?;
    }
    Ok(())
}

// Writes what a pass writes of a point, if it is reached.
fn write_at(
    alloc: Global,
    setting: &Setting<'_>,
    pass: Pass,
    at: usize,
    pool: &mut PoolEdit,
    drafts: &mut Drafts,
) -> Result<(), KeptFault>
    requires { IsWritable setting.now }
    ensures ok { OnOk result
        (WritesAt setting.now at (blocks_at pass) pool.old pool.new drafts.old drafts.new) }
    ensures unreached { OnOk result (planned setting.now.plan at ≡ None
        → IsUntouched pool.old pool.new drafts.old drafts.new) }
    ensures full { (reason : Reason)
        → IsErrOf result (KeptFault.Kept reason)
        → AreBlocksFull setting.now at (blocks_at pass) pool.old reason }
    ensures reached { (reason : Reason)
        → IsErrOf result (KeptFault.Kept reason)
        → planned setting.now.plan at ≢ None }
    ensures more { Continues pool.old pool.new }
{
    an_edit_goes_back_to_what_it_was();
    let Some(state) = left_at(alloc, setting, at)? else {
        return Ok(());
    };
    let written = write_reached(alloc, setting, pass, at, &state, pool, drafts);
    // let go by a call, so that its drop is proved once
    drop(state);
    written
}

// Writes what a pass writes of a point that is reached, by the state in which its instruction is written.
fn write_reached(
    alloc: Global,
    setting: &Setting<'_>,
    pass: Pass,
    at: usize,
    state: &VState,
    pool: &mut PoolEdit,
    drafts: &mut Drafts,
) -> Result<(), KeptFault>
    requires can { IsWritable setting.now }
    requires left { IsLeftAt setting.now at state.now }
    ensures ok { OnOk result
        (WritesAt setting.now at (blocks_at pass) pool.old pool.new drafts.old drafts.new) }
    ensures full { (reason : Reason)
        → IsErrOf result (KeptFault.Kept reason)
        → AreBlocksFull setting.now at (blocks_at pass) pool.old reason }
    ensures more { Continues pool.old pool.new }
{
    an_edit_goes_back_to_what_it_was();
    match pass {
        Pass::Points => write_point(alloc, setting, at, state, pool, drafts),
        Pass::JumpPads => write_pads(alloc, setting, Pads::Jump, at, state, pool, drafts),
        Pass::HandlerPads => write_pads(alloc, setting, Pads::Handler, at, state, pool, drafts),
    }
}
