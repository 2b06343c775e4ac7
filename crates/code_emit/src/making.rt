//! Make code, as items.
ghost use Rattle.std.specs.Prelude.{OnOk};
ghost use Rattle.std.specs.Result.{IsErrOf};
ghost use Rattle.code_drafts.specs.Writable.{IsLeftAt, IsWritable, making_on};
ghost use Rattle.code_emit.specs.Inner.ReachedPoints.{AreFullAt, EmitsAt};
ghost use Rattle.code_emit.specs.Inner.MadeItems.{EmitsMaking, IsFullMaking, PutsInstrs};
ghost use Rattle.flow_code.specs.declared.reason.Reason.{Reason};
ghost use Rattle.materialise.specs.MadeCode.{CanMake};
ghost use Rattle.plan_flow.specs.Written.Routes.{edge_by};
ghost use Rattle.pool_edit.specs.Edits.{Continues};

use class_model::{ListOf, NoMemory};
use code_drafts::{DraftItem, KeptItems, Setting, state_on};
use flow_code::KeptFault;
use materialise::{InstrList, write_make_code};
use plan_flow::EdgeKind;
use pool_edit::{PoolEdit, an_edit_goes_back_to_what_it_was};
use std::alloc::Global;
use virtual_state::{SiteSet, VState};

/// Writes the make code of a set of sites, in a state at a point or on an edge to it.
///
/// # Errors
/// `Kept(PoolFull)`, exactly where a constant does not fit; `NoMemory`, where memory runs out. Constants may have been added then.
pub(crate) fn write_made(
    alloc: Global,
    setting: &Setting<'_>,
    at: usize,
    state: &VState,
    made: &SiteSet,
    pool: &mut PoolEdit,
    kept: &mut KeptItems,
) -> Result<(), KeptFault>
    requires can { IsWritable setting.now }
    requires make { CanMake setting.now.flat at state.now made.now }
    ensures ok { OnOk result (EmitsMaking setting.now at state.now made.now
        pool.old pool.new kept.old kept.new) }
    ensures full { (reason : Reason)
        → IsErrOf result (KeptFault.Kept reason)
        → IsFullMaking setting.now at state.now made.now pool.old reason }
    ensures more { Continues pool.old pool.new }
{
    an_edit_goes_back_to_what_it_was();
    let instrs = write_make_code(
        alloc,
        setting.constructors(),
        setting.units(),
        at,
        state,
        made,
        pool,
    )?;
    put_instrs(alloc, instrs, kept)?;
    Ok(())
}

// Appends instructions that do not jump and that no handler catches.
fn put_instrs(alloc: Global, instrs: InstrList, kept: &mut KeptItems) -> Result<(), NoMemory>
    ensures { OnOk result (PutsInstrs instrs kept.old kept.new) }
{
    let count = instrs.len();
    let mut left = instrs.into_vec().into_iter();
    for _ in 0..count {
        let Some(instr) = left.next() else {
            return Ok(());
        };
        kept.push(DraftItem {
            instr,
            targets: ListOf::new(alloc),
            catches: ListOf::new(alloc),
        })?;
    }
    Ok(())
}

/// Writes the make code on the edge of a kind of a point, if there is such an edge. The state is the one in which the point's
/// instruction is written.
///
/// # Errors
/// As `write_made`.
pub(crate) fn write_made_on(
    alloc: Global,
    setting: &Setting<'_>,
    at: usize,
    state: &VState,
    by: EdgeKind,
    pool: &mut PoolEdit,
    kept: &mut KeptItems,
) -> Result<(), KeptFault>
    requires can { IsWritable setting.now }
    requires left { IsLeftAt setting.now at state.now }
    ensures ok { OnOk result (EmitsAt setting.now at
        (λ s at point route. making_on s (edge_by route by))
        pool.old pool.new kept.old kept.new) }
    ensures full { (reason : Reason)
        → IsErrOf result (KeptFault.Kept reason)
        → AreFullAt setting.now at
        (λ s at point route. making_on s (edge_by route by)) pool.old reason }
    ensures more { Continues pool.old pool.new }
{
    an_edit_goes_back_to_what_it_was();
    let Some(edge) = setting.plan().edge_by(at, by) else {
        return Ok(());
    };
    if edge.made.is_empty() {
        return Ok(());
    }
    let Some(behind) = state_on(alloc, setting, at, state, by)? else {
        return Ok(());
    };
    let written = write_made(alloc, setting, edge.to, &behind, edge.made, pool, kept);
    // let go by a call, so that its drop is proved once
    drop(behind);
    written
}
