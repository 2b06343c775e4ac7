//! The written list of a plan.
ghost use Rattle.std.specs.Prelude.{◌≡◌, ◌≤◌, ℕ, List, map, IfOk, OnErr};
ghost use Rattle.std.specs.Result.{IsErrOf};
ghost use Rattle.class_model.specs.Pool.{Constants};
ghost use Rattle.class_tree.specs.Headers.{Name};
ghost use Rattle.code_drafts.specs.Drafts.{AreDrafted, all_items, meaning, meant};
ghost use Rattle.code_emit.specs.EmittedCode.{CanEmit, IsEmittedFor, IsKeptAs, StartsBlocks};
ghost use Rattle.code_emit.specs.Inner.NumberedBlocks.{ArePlaced, AreTooLong};
ghost use Rattle.flow_code.specs.WrittenUnits.{written_units};
ghost use Rattle.flow_code.specs.declared.reason.Reason.{Reason};
ghost use Rattle.plan_flow.specs.PlanScope.{PlanScope};
ghost use Rattle.plan_flow.specs.Written.Blocks.{Block};
ghost use Rattle.pool_edit.specs.Edits.{Continues};
ghost use Rattle.written_frames.specs.FewLocals.{HasFewLocals};

use crate::drafts::Drafts;
use crate::passes::write_blocks;
use class_tree::Tree;
use code_drafts::{
    DraftBlock, DraftItem, Setting, block_starts, items_of_a_plan_are_emitted_code, number_items,
};
use code_layout::{EmitItemList, Emitted};
use field_constructors::Constructors;
use flow_code::{Flat, KeptFault, Reason};
use materialise::Units;
use member_link::a_tree_has_links;
use plan_flow::Plan;
use pool_edit::{PoolEdit, an_edit_goes_back_to_what_it_was};
use std::alloc::Global;
use written_frames::BlockStartList;

/// Written code: its items, and where its blocks start.
pub struct WrittenCode {
    pub emitted: Emitted,
    pub starts: BlockStartList,
}

// Written out: a derived drop would be spelled out, field by field, in each function that drops one, and be proved there.
impl Drop for WrittenCode {
    fn drop(self) {
        let WrittenCode {
            emitted: _,
            starts: _,
        } = self;
    }
}

impl WrittenCode {
    /// The items, and where blocks start.
    pub fn into_parts(self) -> (Emitted, BlockStartList)
        ensures emitted { result.0 ≡ self.emitted }
        ensures starts { result.1 ≡ self.starts }
    {
        let WrittenCode { emitted, starts } = self;
        (emitted, starts)
    }
}

/// The code that is written of a flat code by a plan, with indices of the host's pool, over which the edit must be. An instruction of
/// the host's own class keeps its index; what else it needs is added, instruction by instruction.
///
/// It makes what is found once of the folder's classes and of the flat code: for several methods use `write_code`.
///
/// # Errors
/// `Kept(PoolFull)`, exactly where a constant does not fit into the pool; `Kept(Long)`, exactly where all fit and there are more items
/// than a code has bytes or more handlers than an exception table has entries; `NoMemory`, where memory runs out. After an error the
/// edit is as before.
pub fn emit(
    alloc: Global,
    tree: &Tree,
    flat: &Flat,
    plan: &Plan,
    pool: &mut PoolEdit,
) -> Result<Emitted, KeptFault>
    requires { CanEmit tree.now flat.now plan.now }
    ensures ok { IfOk result (IsEmittedFor tree.now flat.now plan.now pool.old pool.new) }
    ensures kept { (reason : Reason)
        → IsErrOf result (KeptFault.Kept reason)
        → IsKeptAs tree.now flat.now plan.now pool.old reason }
    ensures err { OnErr result (pool.new ≡ pool.old) }
    ensures more { Continues pool.old pool.new }
{
    an_edit_goes_back_to_what_it_was();
    let constructors = Constructors::new(alloc, tree)?;
    let units = Units::new(alloc, flat)?;
    let setting = Setting::new(tree, flat, plan, &constructors, &units);
    let code = write_code(alloc, &setting, pool)?;
    let (emitted, _starts) = code.into_parts();
    Ok(emitted)
}

/// The same, by what is found once of the folder's classes and of the flat code, and where the blocks start.
///
/// # Errors
/// As `emit`.
pub fn write_code(
    alloc: Global,
    setting: &Setting<'_>,
    pool: &mut PoolEdit,
) -> Result<WrittenCode, KeptFault>
    requires { CanEmit setting.now.classes setting.now.flat setting.now.plan }
    ensures ok { IfOk result (λ code.
        IsEmittedFor setting.now.classes setting.now.flat setting.now.plan
        pool.old pool.new code.emitted) }
    ensures starts { IfOk result (λ code.
        StartsBlocks setting.now.classes setting.now.flat setting.now.plan code.starts) }
    ensures kept { (reason : Reason)
        → IsErrOf result (KeptFault.Kept reason)
        → IsKeptAs setting.now.classes setting.now.flat setting.now.plan pool.old reason }
    ensures err { OnErr result (pool.new ≡ pool.old) }
    ensures more { Continues pool.old pool.new }
{
    an_edit_goes_back_to_what_it_was();
    let count = pool.count();
    match written(alloc, setting, pool) {
        Ok(code) => Ok(code),
        Err(fault) => {
            pool.back(count);
            Err(fault)
        }
    }
}

// The same, but that after an error constants may be left in the pool.
fn written(
    alloc: Global,
    setting: &Setting<'_>,
    pool: &mut PoolEdit,
) -> Result<WrittenCode, KeptFault>
    requires { CanEmit setting.now.classes setting.now.flat setting.now.plan }
    ensures ok { IfOk result (λ code.
        IsEmittedFor setting.now.classes setting.now.flat setting.now.plan
        pool.old pool.new code.emitted) }
    ensures starts { IfOk result (λ code.
        StartsBlocks setting.now.classes setting.now.flat setting.now.plan code.starts) }
    ensures kept { (reason : Reason)
        → IsErrOf result (KeptFault.Kept reason)
        → IsKeptAs setting.now.classes setting.now.flat setting.now.plan pool.old reason }
    ensures more { Continues pool.old pool.new }
{
    an_edit_goes_back_to_what_it_was();
    items_of_a_plan_are_emitted_code();
    a_tree_has_links(setting.tree());
    let mut drafts = Drafts::new(alloc);
    write_blocks(alloc, setting, pool, &mut drafts)?;
    let (kept, blocks) = drafts.into_parts();
    let Some(items) = kept.into_items() else {
        return Err(KeptFault::Kept(Reason::Long));
    };
    let (items, starts) = number_blocks(alloc, setting.flat(), blocks, items)?;
    Ok(WrittenCode {
        emitted: Emitted::of(items),
        starts,
    })
}

// Numbers the items of all blocks, with where these start.
fn number_blocks(
    alloc: Global,
    flat: &Flat,
    blocks: Vec<DraftBlock>,
    items: Vec<DraftItem>,
) -> Result<(EmitItemList, BlockStartList), KeptFault>
    requires units { written_units flat.now ≤ 65535 }
    requires few { (at : ℕ) → HasFewLocals flat.now at }
    ensures ok { IfOk result (λ parts.
        (s : PlanScope) (constructor : Name → List ℕ) (pool : Constants) (bs : List Block)
        → s.flat ≡ flat.now
        → AreDrafted bs blocks.items
        → map meaning items.items ≡ map (meant s constructor pool) (all_items bs)
        → ArePlaced s constructor pool bs parts.0 parts.1) }
    ensures long { (reason : Reason)
        (s : PlanScope) (constructor : Name → List ℕ) (pool : Constants) (bs : List Block)
        → IsErrOf result (KeptFault.Kept reason)
        → s.flat ≡ flat.now
        → AreDrafted bs blocks.items
        → map meaning items.items ≡ map (meant s constructor pool) (all_items bs)
        → AreTooLong s bs reason }
{
    let Some(numbered) = number_items(alloc, flat, blocks.as_slice(), items)? else {
        return Err(KeptFault::Kept(Reason::Long));
    };
    let (items, firsts) = numbered.into_parts();
    let starts = block_starts(alloc, blocks, firsts.as_slice())?;
    Ok((items, starts))
}
