//! The items of an instruction, by the template that its operands choose.
ghost use Rattle.std.specs.Prelude.{◌≡◌, ◌∷◌, [], ℕ, List, OnOk, Some};
ghost use Rattle.std.specs.Result.{IsErrOf};
ghost use Rattle.class_tree.specs.Headers.{Name};
ghost use Rattle.code_drafts.specs.Emits.{Emits};
ghost use Rattle.code_drafts.specs.Puts.{Puts, PutsItems};
ghost use Rattle.code_drafts.specs.TemplateWords.{left_of, pop_if};
ghost use Rattle.code_drafts.specs.Writable.{AreMeant, IsRouteAt, IsWritable, scope};
ghost use Rattle.code_drafts.specs.Inner.WrittenWords.{ahead_item, null_jump};
ghost use Rattle.flow_code.specs.FlatCode.{FlatCode, point_at};
ghost use Rattle.flow_code.specs.declared.point.FlatInstr.TheVariants as instrs;
ghost use Rattle.flow_code.specs.declared.point.Point.{Point};
ghost use Rattle.flow_code.specs.declared.reason.Reason.{Reason};
ghost use Rattle.materialise.specs.Growing.{IsFull};
ghost use Rattle.member_link.specs.Machine.Programs.{Links};
ghost use Rattle.plan_flow.specs.Written.Routes.{Route};
ghost use Rattle.plan_flow.specs.Written.Templates.{as_it_is, items_at, null_test};
ghost use Rattle.plan_flow.specs.Written.WrittenConstants.{code_needs};
ghost use Rattle.pool_edit.specs.Edits.{Continues};

use crate::carried::{draft_as_it_is, written_catches};
use crate::draft::{DraftItem, Target};
use crate::field_locals::{clear_fields, load_field, store_field};
use crate::kept::KeptItems;
use crate::putting::put;
use crate::setting::Setting;
use crate::stack_cells::{pop_entries, put_shuffle, write_shuffle};
use crate::template::Template;
use class_model::opcodes::{IFNONNULL, POP};
use class_model::{Frame, Imm, Instr, Kind, ListOf, NoMemory};
use flow_code::KeptFault;
use materialise::Units;
use plan_flow::held;
use pool_edit::{PoolEdit, an_edit_goes_back_to_what_it_was};
use std::alloc::Global;
use virtual_state::{Slot, VState};

/// Writes what a template leaves of an instruction, but for make code.
///
/// # Errors
/// `NoMemory`, where memory runs out.
pub fn write_left(
    alloc: Global,
    units: &Units<'_>,
    types: &Frame,
    state: &VState,
    template: Template,
    kept: &mut KeptItems,
) -> Result<(), NoMemory>
    ensures { OnOk result
        (Puts units.now (left_of units.now types.now state.now template) kept.old kept.new) }
{
    match template {
        Template::Clear(site) => clear_fields(alloc, units, site, kept),
        Template::Load(site, number) => load_field(alloc, units, site, number, kept),
        Template::Store(site, number) => store_field(alloc, units, site, number, kept),
        Template::Answer(holds) => put(alloc, Instr::Const(Imm::Int(i32::from(holds))), kept),
        Template::Pop(count) => pop_entries(alloc, types, state, count, kept),
        Template::Move(opcode) => write_shuffle(alloc, types, state, opcode, kept),
        Template::Jump(pops) => pop_if(alloc, pops, kept),
        Template::AsItIs | Template::Nothing => Ok(()),
    }
}

// Pops one unit, or none.
fn pop_if(alloc: Global, pops: bool, kept: &mut KeptItems) -> Result<(), NoMemory>
    ensures { OnOk result ((flat : FlatCode) → Puts flat (pop_if pops) kept.old kept.new) }
{
    if pops {
        put_shuffle(alloc, Some(POP), kept)
    } else {
        Ok(())
    }
}

/// Writes an instruction of a class as it is.
///
/// # Errors
/// `Kept(PoolFull)`, exactly where a constant does not fit; `NoMemory`, where memory runs out. Constants may have been added then.
pub fn write_as_it_is(
    alloc: Global,
    setting: &Setting<'_>,
    at: usize,
    class: usize,
    instr: &Instr,
    pool: &mut PoolEdit,
    kept: &mut KeptItems,
) -> Result<(), KeptFault>
    requires { IsWritable setting.now }
    ensures ok { OnOk result ((links : Links) (constructor : Name → List ℕ) (point : Point)
        (route : Route)
        → AreMeant setting.now links constructor
        → point_at setting.now.flat at ≡ Some point
        → IsRouteAt setting.now links at route
        → Emits (scope setting.now links) constructor pool.old
        (as_it_is at point route class instr.now) pool.new kept.old kept.new) }
    ensures full { (reason : Reason) (links : Links) (constructor : Name → List ℕ)
        (point : Point) (route : Route)
        → IsErrOf result (KeptFault.Kept reason)
        → AreMeant setting.now links constructor
        → point_at setting.now.flat at ≡ Some point
        → IsRouteAt setting.now links at route
        → IsFull pool.old
        (code_needs (scope setting.now links) constructor
        (as_it_is at point route class instr.now)) reason }
    ensures more { Continues pool.old pool.new }
{
    an_edit_goes_back_to_what_it_was();
    let draft = draft_as_it_is(alloc, setting, at, class, instr, pool)?;
    kept.push(draft)?;
    Ok(())
}

// ---- tests for null

/// Writes a test for null of a local unit: nothing, where it holds a virtual object.
///
/// # Errors
/// `Kept(PoolFull)`, exactly where a constant does not fit; `NoMemory`, where memory runs out. Constants may have been added then.
pub fn write_test(
    alloc: Global,
    setting: &Setting<'_>,
    at: usize,
    state: &VState,
    local: u16,
    pool: &mut PoolEdit,
    kept: &mut KeptItems,
) -> Result<(), KeptFault>
    requires { IsWritable setting.now }
    ensures ok { OnOk result ((links : Links) (constructor : Name → List ℕ) (point : Point)
        (route : Route)
        → AreMeant setting.now links constructor
        → point_at setting.now.flat at ≡ Some point
        → point.instr ≡ instrs.NullTest local
        → IsRouteAt setting.now links at route
        → Emits (scope setting.now links) constructor pool.old
        (items_at (scope setting.now links) at point state.now route)
        pool.new kept.old kept.new) }
    ensures full { (reason : Reason) (links : Links) (constructor : Name → List ℕ)
        (point : Point) (route : Route)
        → IsErrOf result (KeptFault.Kept reason)
        → AreMeant setting.now links constructor
        → point_at setting.now.flat at ≡ Some point
        → point.instr ≡ instrs.NullTest local
        → IsRouteAt setting.now links at route
        → IsFull pool.old
        (code_needs (scope setting.now links) constructor
        (items_at (scope setting.now links) at point state.now route)) reason }
    ensures more { Continues pool.old pool.new }
{
    an_edit_goes_back_to_what_it_was();
    match held(state, usize::from(local)) {
        Slot::Virt(_) => Ok(()),
        Slot::Plain => write_null_test(alloc, setting, at, local, pool, kept),
        Slot::Unusable => write_null_test(alloc, setting, at, local, pool, kept),
    }
}

// Writes a test for null of a local unit that holds no virtual object.
fn write_null_test(
    alloc: Global,
    setting: &Setting<'_>,
    at: usize,
    local: u16,
    pool: &mut PoolEdit,
    kept: &mut KeptItems,
) -> Result<(), KeptFault>
    requires { IsWritable setting.now }
    ensures ok { OnOk result ((links : Links) (constructor : Name → List ℕ) (point : Point)
        (route : Route)
        → AreMeant setting.now links constructor
        → point_at setting.now.flat at ≡ Some point
        → IsRouteAt setting.now links at route
        → Emits (scope setting.now links) constructor pool.old
        (null_test at point route local) pool.new kept.old kept.new) }
    ensures full { (reason : Reason) (links : Links) (constructor : Name → List ℕ)
        (point : Point) (route : Route)
        → IsErrOf result (KeptFault.Kept reason)
        → AreMeant setting.now links constructor
        → point_at setting.now.flat at ≡ Some point
        → IsRouteAt setting.now links at route
        → IsFull pool.old
        (code_needs (scope setting.now links) constructor
        (null_test at point route local)) reason }
    ensures more { Continues pool.old pool.new }
{
    an_edit_goes_back_to_what_it_was();
    put_null_jump(alloc, local, kept)?;
    let catches = written_catches(alloc, setting, at, pool)?;
    kept.push(DraftItem {
        instr: Instr::Throw,
        targets: ListOf::new(alloc),
        catches,
    })?;
    Ok(())
}

// Writes a test for null up to its throw.
fn put_null_jump(alloc: Global, local: u16, kept: &mut KeptItems) -> Result<(), NoMemory>
    ensures { OnOk result ((flat : FlatCode)
        → PutsItems flat (null_jump local) kept.old kept.new) }
{
    put(alloc, Instr::Load(Kind::Ref, local), kept)?;
    put_ahead(alloc, Instr::IfNull(IFNONNULL, 0), 3, kept)?;
    put(alloc, Instr::Const(Imm::Null), kept)?;
    Ok(())
}

// Appends a jump to the item so many behind it.
fn put_ahead(alloc: Global, instr: Instr, count: u16, kept: &mut KeptItems) -> Result<(), NoMemory>
    ensures { OnOk result ((flat : FlatCode)
        → PutsItems flat (ahead_item instr count ∷ []) kept.old kept.new) }
{
    let mut targets = ListOf::new(alloc);
    targets.push(Target::Ahead(count))?;
    kept.push(DraftItem {
        instr,
        targets,
        catches: ListOf::new(alloc),
    })?;
    Ok(())
}
