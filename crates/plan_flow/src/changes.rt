//! What becomes of virtual objects.
ghost use Rattle.std.specs.Prelude.{◌≡◌, ◌+◌, ◌-◌, ◌∷◌, [], ℕ, Option, Some, IfOk};
ghost use Rattle.class_tree.specs.Headers.{Classes};
ghost use Rattle.member_link.specs.Machine.Layouts.{capped};
ghost use Rattle.member_link.specs.Machine.Programs.{Links};
ghost use Rattle.plan_flow.specs.Inner.Doing.{IsNotFull, front_objects};
ghost use Rattle.plan_flow.specs.Inner.RowViews.{change_of};
ghost use Rattle.plan_flow.specs.PlanRows.{enter_monitor, new_object};
ghost use Rattle.plan_flow.specs.PlanScope.{field_count as count_of_fields, scope_of};
ghost use Rattle.plan_flow.specs.PlanSlots as slots;
ghost use Rattle.virtual_state.specs.States.{State};

use crate::edge::EdgeKind;
use crate::edge_states::blank_object;
use crate::fields::field_number;
use crate::rows::Change;
use crate::slots::held;
use class_model::{ListOf, NoMemory};
use class_tree::Tree;
use flow_code::Flat;
use member_link::Reference;
use std::alloc::Global;
use virtual_state::{Slot, VObject, VObjectList, VState};

/// The objects that are new behind an edge, or that take the place of those of their sites: a handler begins with the objects
/// before the instruction.
///
/// # Errors
/// `NoMemory`, where memory runs out.
pub(crate) fn front_objects(
    alloc: Global,
    tree: &Tree,
    flat: &Flat,
    state: &VState,
    change: &Change,
    by: EdgeKind,
) -> Result<VObjectList, NoMemory>
    requires { IsNotFull state.now (change_of change.now) }
    ensures { IfOk result (λ front. (links : Links) → front
        ≡ front_objects (scope_of tree.now links flat.now) state.now (change_of change.now) by) }
{
    match by {
        EdgeKind::Handler(_) => Ok(ListOf::new(alloc)),
        EdgeKind::Next | EdgeKind::Jump(_) => changed(alloc, tree, flat, state, change),
    }
}

// The objects that a change makes, or that take the place of those of their sites.
fn changed(
    alloc: Global,
    tree: &Tree,
    flat: &Flat,
    state: &VState,
    change: &Change,
) -> Result<VObjectList, NoMemory>
    requires { IsNotFull state.now (change_of change.now) }
    ensures { IfOk result (λ front. (links : Links) → front
        ≡ slots.changed (scope_of tree.now links flat.now) state.now (change_of change.now)) }
{
    match change {
        Change::Nothing => Ok(ListOf::new(alloc)),
        Change::New(site) => Ok(new_object(alloc, flat, *site)?),
        Change::Put {
            place,
            field,
            value,
        } => put_into(
            alloc,
            tree,
            flat,
            state,
            held(state, *place),
            field,
            held(state, *value),
        ),
        Change::Enter(place) => entered(alloc, state, *place),
        Change::Leave(place) => left(alloc, state, *place),
    }
}

// A new object of a site.
fn new_object(alloc: Global, flat: &Flat, site: u16) -> Result<VObjectList, NoMemory>
    ensures { IfOk result (λ front. (classes : Classes) (links : Links) (state : State) → front
        ≡ slots.changed (scope_of classes links flat.now) state (new_object site)) }
{
    let object = blank_object(alloc, site, field_count(flat, site))?;
    let list = only(alloc, object)?;
    Ok(list)
}

// How many fields an object of a site has.
fn field_count(flat: &Flat, site: u16) -> usize
    ensures { (classes : Classes) (links : Links)
        → result ≡ count_of_fields (scope_of classes links flat.now) site }
{
    match flat.sites().get(usize::from(site)) {
        Some(one) => one.fields.len(),
        None => 0,
    }
}

// The object that a slot holds, with another value of a field.
fn put_into(
    alloc: Global,
    tree: &Tree,
    flat: &Flat,
    state: &VState,
    slot: Slot,
    field: &Reference,
    value: Slot,
) -> Result<VObjectList, NoMemory>
    ensures { IfOk result (λ front. (links : Links) → front
        ≡ slots.put_in (scope_of tree.now links flat.now) state.now slot field.now value) }
{
    let Slot::Virt(site) = slot else {
        return Ok(ListOf::new(alloc));
    };
    match state.object(site) {
        Some(object) => {
            let number = field_number(tree, flat, site, field);
            with_field(alloc, object.as_ref(), number, value)
        }
        None => Ok(ListOf::new(alloc)),
    }
}

// An object with another value of a field, by the field's number.
fn with_field(
    alloc: Global,
    object: &VObject,
    number: Option<usize>,
    value: Slot,
) -> Result<VObjectList, NoMemory>
    ensures { IfOk result (λ front. (exact : Option ℕ)
        → number ≡ capped usize.MAX exact
        → front ≡ slots.with_field (Some object.now) exact value) }
{
    let Some(number) = number else {
        return Ok(ListOf::new(alloc));
    };
    let mut fields = Vec::from_slice(alloc, object.fields.as_slice())?;
    if number < fields.len() {
        fields[number] = value;
    }
    let changed = VObject {
        site: object.site,
        fields: ListOf::from_vec(fields),
        depth: object.depth,
    };
    only(alloc, changed)
}

// The object that a place holds, whose monitor is entered once more.
fn entered(alloc: Global, state: &VState, place: usize) -> Result<VObjectList, NoMemory>
    requires { IsNotFull state.now (enter_monitor place) }
    ensures { IfOk result (λ front. front
        ≡ slots.at_depth state.now (slots.held state.now place) (λ depth. depth + 1)) }
{
    let Slot::Virt(site) = held(state, place) else {
        return Ok(ListOf::new(alloc));
    };
    match state.object(site) {
        Some(object) => with_depth(alloc, object.as_ref(), object.depth.saturating_add(1)),
        None => Ok(ListOf::new(alloc)),
    }
}

// The object that a place holds, whose monitor is left once.
fn left(alloc: Global, state: &VState, place: usize) -> Result<VObjectList, NoMemory>
    ensures { IfOk result (λ front. front
        ≡ slots.at_depth state.now (slots.held state.now place) (λ depth. depth - 1)) }
{
    let Slot::Virt(site) = held(state, place) else {
        return Ok(ListOf::new(alloc));
    };
    match state.object(site) {
        Some(object) => with_depth(alloc, object.as_ref(), object.depth.saturating_sub(1)),
        None => Ok(ListOf::new(alloc)),
    }
}

// An object at another depth.
fn with_depth(alloc: Global, object: &VObject, depth: u16) -> Result<VObjectList, NoMemory>
    ensures { IfOk result (λ front. front
        ≡ record object.now { depth = depth } ∷ []) }
{
    let fields = Vec::from_slice(alloc, object.fields.as_slice())?;
    let changed = VObject {
        site: object.site,
        fields: ListOf::from_vec(fields),
        depth,
    };
    only(alloc, changed)
}

// One object.
fn only(alloc: Global, object: VObject) -> Result<VObjectList, NoMemory>
    ensures { IfOk result (λ list. list ≡ object ∷ []) }
{
    let mut list = ListOf::new(alloc);
    list.push(object)?;
    Ok(list)
}
