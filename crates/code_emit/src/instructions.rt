//! The items of a point's instruction.
ghost use Rattle.std.specs.Prelude.{◌≡◌, OnOk, Some};
ghost use Rattle.std.specs.Result.{IsErrOf};
ghost use Rattle.code_drafts.specs.Writable.{IsLeftAt, IsWritable};
ghost use Rattle.code_emit.specs.Inner.ReachedPoints.{AreFullAt, EmitsAt, own_items, rest_of};
ghost use Rattle.flow_code.specs.FlatCode.{point_at};
ghost use Rattle.flow_code.specs.declared.point.FlatInstr.TheVariants as instrs;
ghost use Rattle.flow_code.specs.declared.point.Point.{Point};
ghost use Rattle.flow_code.specs.declared.reason.Reason.{Reason};
ghost use Rattle.pool_edit.specs.Edits.{Continues};

use crate::making::write_made_on;
use class_model::Instr;
use code_drafts::{
    KeptItems, Setting, Template, template_of, write_as_it_is, write_left, write_test,
};
use flow_code::{FlatInstr, KeptFault};
use plan_flow::EdgeKind;
use pool_edit::{PoolEdit, an_edit_goes_back_to_what_it_was};
use std::alloc::Global;
use virtual_state::VState;

/// Writes the instruction of a point, in the state that is left once the objects of the point are made.
///
/// # Errors
/// `Kept(PoolFull)`, exactly where a constant does not fit; `NoMemory`, where memory runs out. Constants may have been added then.
pub(crate) fn write_items(
    alloc: Global,
    setting: &Setting<'_>,
    at: usize,
    state: &VState,
    pool: &mut PoolEdit,
    kept: &mut KeptItems,
) -> Result<(), KeptFault>
    requires can { IsWritable setting.now }
    requires left { IsLeftAt setting.now at state.now }
    ensures ok { OnOk result
        (EmitsAt setting.now at own_items pool.old pool.new kept.old kept.new) }
    ensures full { (reason : Reason)
        → IsErrOf result (KeptFault.Kept reason)
        → AreFullAt setting.now at own_items pool.old reason }
    ensures more { Continues pool.old pool.new }
{
    an_edit_goes_back_to_what_it_was();
    let Some(instr) = setting.flat().instr(at) else {
        return Ok(());
    };
    match instr {
        FlatInstr::Of { class, instr } => {
            write_instr(alloc, setting, at, state, *class, instr, pool, kept)
        }
        FlatInstr::NullTest(local) => write_test(alloc, setting, at, state, *local, pool, kept),
    }
}

// Writes the instruction of a class at a point.
fn write_instr(
    alloc: Global,
    setting: &Setting<'_>,
    at: usize,
    state: &VState,
    class: usize,
    instr: &Instr,
    pool: &mut PoolEdit,
    kept: &mut KeptItems,
) -> Result<(), KeptFault>
    requires can { IsWritable setting.now }
    requires left { IsLeftAt setting.now at state.now }
    requires instr { (point : Point)
        → point_at setting.now.flat at ≡ Some point
        → point.instr ≡ instrs.Of class instr.now }
    ensures ok { OnOk result
        (EmitsAt setting.now at own_items pool.old pool.new kept.old kept.new) }
    ensures full { (reason : Reason)
        → IsErrOf result (KeptFault.Kept reason)
        → AreFullAt setting.now at own_items pool.old reason }
    ensures more { Continues pool.old pool.new }
{
    an_edit_goes_back_to_what_it_was();
    let Some(types) = setting.flat().typed(at) else {
        return Ok(());
    };
    let template = template_of(setting, at, types, state, class, instr)?;
    write_left(alloc, setting.units(), types, state, template, kept)?;
    write_rest(
        alloc, setting, at, state, class, instr, template, pool, kept,
    )
}

// Writes what a template leaves to the pool: the instruction as it is, or the make code on the edge to its target.
fn write_rest(
    alloc: Global,
    setting: &Setting<'_>,
    at: usize,
    state: &VState,
    class: usize,
    instr: &Instr,
    template: Template,
    pool: &mut PoolEdit,
    kept: &mut KeptItems,
) -> Result<(), KeptFault>
    requires can { IsWritable setting.now }
    requires left { IsLeftAt setting.now at state.now }
    ensures ok { OnOk result (EmitsAt setting.now at
        (λ s at point route. rest_of s at point route class instr.now template)
        pool.old pool.new kept.old kept.new) }
    ensures full { (reason : Reason)
        → IsErrOf result (KeptFault.Kept reason)
        → AreFullAt setting.now at
        (λ s at point route. rest_of s at point route class instr.now template) pool.old reason }
    ensures more { Continues pool.old pool.new }
{
    an_edit_goes_back_to_what_it_was();
    match template {
        Template::AsItIs => write_as_it_is(alloc, setting, at, class, instr, pool, kept),
        Template::Jump(_) => {
            write_made_on(alloc, setting, at, state, EdgeKind::Jump(0), pool, kept)
        }
        Template::Nothing
        | Template::Clear(_)
        | Template::Load(_, _)
        | Template::Store(_, _)
        | Template::Answer(_)
        | Template::Pop(_)
        | Template::Move(_) => Ok(()),
    }
}
