//! What places hold behind an edge, before it is known which of them are unusable there.
ghost use Rattle.std.specs.Prelude.{◌≡◌, ◌++◌, ◌∷◌, [], ℕ, Option, Some, length, IfOk, OnOk};
ghost use Rattle.member_link.specs.Machine.Layouts.{capped};
ghost use Rattle.member_link.specs.Machine.Programs.{Links};
ghost use Rattle.plan_flow.specs.Inner.RowViews.{change_of, given_by, plan_row, source_of};
ghost use Rattle.plan_flow.specs.Narrow.{HasFewLocals};
ghost use Rattle.plan_flow.specs.PlanRows.{Change as RowChange};
ghost use Rattle.plan_flow.specs.PlanScope.{PlanScope, scope_of};
ghost use Rattle.plan_flow.specs.PlanSlots as slots;
ghost use Rattle.plan_flow.specs.PlanTable.{picked_operands};

use crate::edge::EdgeKind;
use crate::fields::field_number;
use crate::rows::{Change, Gives, Row, Source, operand};
use crate::shuffles::Form;
use crate::slots::{held, push_held};
use class_model::{Frame, NoMemory};
use class_tree::Tree;
use flow_code::Flat;
use member_link::Reference;
use std::alloc::Global;
use virtual_state::{Slot, VObject, VState};

/// What the stack entries hold.
///
/// # Errors
/// `NoMemory`, where memory runs out.
pub(crate) fn edge_stack(
    alloc: Global,
    tree: &Tree,
    flat: &Flat,
    state: &VState,
    types: &Frame,
    row: &Row,
    by: EdgeKind,
) -> Result<Vec<Slot>, NoMemory>
    requires { HasFewLocals types.now }
    ensures { IfOk result (λ list. (links : Links) → list.items
        ≡ slots.slots_from (scope_of tree.now links flat.now) state.now (change_of row.now.change)
        (slots.edge_stack (plan_row types.now row.now) by)) }
{
    match by {
        EdgeKind::Next => Ok(pushed_stack(alloc, tree, flat, state, types, row)?),
        EdgeKind::Jump(_) => Ok(pushed_stack(alloc, tree, flat, state, types, row)?),
        EdgeKind::Handler(_) => Ok(thrown_stack(alloc)?),
    }
}

// What was thrown.
fn thrown_stack(alloc: Global) -> Result<Vec<Slot>, NoMemory>
    ensures { IfOk result (λ list. list.items ≡ Slot.Plain ∷ []) }
{
    let mut list = Vec::new(alloc);
    list.push(Slot::Plain)?;
    Ok(list)
}

// The entries that stay, and above them what the instruction pushes.
fn pushed_stack(
    alloc: Global,
    tree: &Tree,
    flat: &Flat,
    state: &VState,
    types: &Frame,
    row: &Row,
) -> Result<Vec<Slot>, NoMemory>
    requires { HasFewLocals types.now }
    ensures { IfOk result (λ list. (links : Links) → list.items
        ≡ slots.slots_from (scope_of tree.now links flat.now) state.now (change_of row.now.change)
        (plan_row types.now row.now).stack) }
{
    let mut list = Vec::new(alloc);
    push_held(&mut list, state, types.locals.len(), row.kept)?;
    push_given(&mut list, tree, flat, state, types, row)?;
    Ok(list)
}

// Appends what an instruction pushes.
fn push_given(
    list: &mut Vec<Slot>,
    tree: &Tree,
    flat: &Flat,
    state: &VState,
    types: &Frame,
    row: &Row,
) -> Result<(), NoMemory>
    requires { HasFewLocals types.now }
    ensures { OnOk result ((links : Links) → list.new.items
        ≡ list.old.items
        ++ slots.slots_from (scope_of tree.now links flat.now) state.now
        (change_of row.now.change) (given_by types.now row.now.gives)) }
{
    match &row.gives {
        Gives::Nothing => Ok(()),
        Gives::One(source) => {
            list.push(slot_from(tree, flat, state, &row.change, source))?;
            Ok(())
        }
        Gives::Operands(form) => Ok(push_operands(list, state, types, *form)?),
    }
}

// Appends the operands that a form gives.
fn push_operands(
    list: &mut Vec<Slot>,
    state: &VState,
    types: &Frame,
    form: Form,
) -> Result<(), NoMemory>
    requires { HasFewLocals types.now }
    ensures { OnOk result ((s : PlanScope) (by : RowChange) → list.new.items
        ≡ list.old.items
        ++ slots.slots_from s state.now by
        (picked_operands types.now (length form.takes.now) form.gives.now)) }
{
    let takes = form.takes.len();
    for number in form.gives {
        let from_top = takes.saturating_sub(*number).saturating_sub(1);
        list.push(held(state, operand(types, from_top)))?;
    }
    Ok(())
}

// What a source is, in a state and behind a change.
fn slot_from(tree: &Tree, flat: &Flat, state: &VState, change: &Change, source: &Source) -> Slot
    ensures { (links : Links) → result
        ≡ slots.slot_from (scope_of tree.now links flat.now) state.now (change_of change.now)
        (source_of source.now) }
{
    match source {
        Source::Plain => Slot::Plain,
        Source::Place(place) => held(state, *place),
        Source::Field { place, field } => {
            field_of_slot(tree, flat, state, held(state, *place), field)
        }
        Source::New => slot_of_new(change),
    }
}

// The virtual object that a change makes.
fn slot_of_new(change: &Change) -> Slot
    ensures { result ≡ slots.slot_of_new (change_of change.now) }
{
    match change {
        Change::New(site) => Slot::Virt(*site),
        Change::Nothing => Slot::Plain,
        Change::Put { .. } => Slot::Plain,
        Change::Enter(_) => Slot::Plain,
        Change::Leave(_) => Slot::Plain,
    }
}

// What a field of what a slot holds, holds.
fn field_of_slot(tree: &Tree, flat: &Flat, state: &VState, slot: Slot, field: &Reference) -> Slot
    ensures { (links : Links) → result
        ≡ slots.field_of_slot (scope_of tree.now links flat.now) state.now slot field.now }
{
    let Slot::Virt(site) = slot else {
        return Slot::Plain;
    };
    match state.object(site) {
        Some(object) => field_in(object.as_ref(), field_number(tree, flat, site, field)),
        None => Slot::Plain,
    }
}

// What a field of an object holds, by its number.
fn field_in(object: &VObject, number: Option<usize>) -> Slot
    ensures { (exact : Option ℕ)
        → number ≡ capped usize.MAX exact
        → result ≡ slots.field_in (Some object.now) exact }
{
    let Some(number) = number else {
        return Slot::Plain;
    };
    match object.fields.as_slice().get(number) {
        Some(Slot::Virt(site)) => Slot::Virt(*site),
        Some(Slot::Plain) | Some(Slot::Unusable) | None => Slot::Plain,
    }
}
