//! Instructions of a class of the folder as they are carried into the host: with their constants, targets and handlers.
ghost use Rattle.std.specs.Prelude.{◌≡◌, ◌<◌, ◌^◌, ℕ, List, [], Some, IfOk, OnOk, length, map, slice_get};
ghost use Rattle.std.specs.Option.{option_copied};
ghost use Rattle.std.specs.Result.{IsErrOf};
ghost use Rattle.class_tree.specs.Headers.{Name, headers_of};
ghost use Rattle.code_drafts.specs.Inner.CarriedWords.{Catches, IsCarried, IsCatchIndex, IsDraft, all_catch_needs, carried_item, catch_on};
ghost use Rattle.code_drafts.specs.Drafts.{target_of};
ghost use Rattle.code_drafts.specs.Writable.{IsRouteAt, IsWritable, scope};
ghost use Rattle.flow_code.specs.FlatCode.{point_at};
ghost use Rattle.flow_code.specs.declared.point.Point.{Point};
ghost use Rattle.flow_code.specs.declared.reason.Reason.{Reason};
ghost use Rattle.making_code.specs.Items.{to_point};
ghost use Rattle.materialise.specs.Growing.{Grows, IsFull};
ghost use Rattle.materialise.specs.Indices.{IsIndexOfLast};
ghost use Rattle.member_link.specs.Machine.Links.{AreLinksOf};
ghost use Rattle.member_link.specs.Machine.Programs.{Links};
ghost use Rattle.plan_flow.specs.PlanScope.{pool_of};
ghost use Rattle.plan_flow.specs.PlanTable.{targets_at};
ghost use Rattle.plan_flow.specs.Written.Routes.{Route, edge_by};
ghost use Rattle.plan_flow.specs.Written.Templates.{catches_at, catches_from, jump_target, jump_targets, to_or_pad};
ghost use Rattle.plan_flow.specs.Written.WrittenConstants.{carried_needs, catch_needs, item_needs, named_index as index_named, needs_of_index, with_index as with_other_index};
ghost use Rattle.plan_flow.specs.declared.edge.EdgeKind.TheVariants as edges;
ghost use Rattle.pool_edit.specs.Edits.{Continues};

use crate::draft::{DraftCatch, DraftItem, Target};
use crate::setting::Setting;
use class_model::{Instr, ListOf, NoMemory, Text};
use flow_code::{FlatHandler, FlatInstr, KeptFault};
use materialise::{add_class, add_meant};
use plan_flow::{EdgeKind, target};
use pool_edit::{PoolEdit, an_edit_goes_back_to_what_it_was};
use std::alloc::Global;
use virtual_state::SiteSet;

/// The item of an instruction of a class. What it needs is added to the pool.
///
/// # Errors
/// `Kept(PoolFull)`, exactly where a constant does not fit; `NoMemory`, where memory runs out. Constants may have been added then.
pub(crate) fn draft_as_it_is(
    alloc: Global,
    setting: &Setting<'_>,
    at: usize,
    class: usize,
    instr: &Instr,
    pool: &mut PoolEdit,
) -> Result<DraftItem, KeptFault>
    requires { IsWritable setting.now }
    ensures ok { IfOk result (λ draft. (links : Links) (constructor : Name → List ℕ) (point : Point)
        (route : Route)
        → AreLinksOf (headers_of setting.now.classes) links
        → point_at setting.now.flat at ≡ Some point
        → IsRouteAt setting.now links at route
        → IsDraft (scope setting.now links) constructor pool.old pool.new
        (carried_item at point route class instr.now) draft) }
    ensures full { (reason : Reason) (links : Links) (constructor : Name → List ℕ) (point : Point)
        (route : Route)
        → IsErrOf result (KeptFault.Kept reason)
        → AreLinksOf (headers_of setting.now.classes) links
        → point_at setting.now.flat at ≡ Some point
        → IsRouteAt setting.now links at route
        → IsFull pool.old
        (item_needs (scope setting.now links) constructor
        (carried_item at point route class instr.now)) reason }
    ensures more { Continues pool.old pool.new }
{
    an_edit_goes_back_to_what_it_was();
    let targets = written_targets(alloc, setting, at)?;
    let one = carried_instr(alloc, setting, class, instr, pool)?;
    let catches = written_catches(alloc, setting, at, pool)?;
    Ok(DraftItem {
        instr: one,
        targets,
        catches,
    })
}

// ---- constants

// An instruction of a class with the index that its constant has in the host. What it needs is added to the pool.
fn carried_instr(
    alloc: Global,
    setting: &Setting<'_>,
    class: usize,
    instr: &Instr,
    pool: &mut PoolEdit,
) -> Result<Instr, KeptFault>
    ensures ok { OnOk result ((links : Links)
        → Grows pool.old (carried_needs (scope setting.now links) class instr.now) pool.new) }
    ensures instr { IfOk result (λ one. (links : Links)
        → IsCarried (scope setting.now links) pool.new class instr.now one) }
    ensures full { (reason : Reason) (links : Links)
        → IsErrOf result (KeptFault.Kept reason)
        → IsFull pool.old (carried_needs (scope setting.now links) class instr.now) reason }
    ensures more { Continues pool.old pool.new }
{
    an_edit_goes_back_to_what_it_was();
    if class == setting.flat.host().class {
        return Ok(instr.copy(alloc)?);
    }
    let index = index_in_host(setting, class, named_index(instr), pool)?;
    Ok(with_index(alloc, instr, index)?)
}

// The index in the host of what an index of a class names, or 0 where that is nothing.
fn index_in_host(
    setting: &Setting<'_>,
    class: usize,
    named: Option<u16>,
    pool: &mut PoolEdit,
) -> Result<u16, KeptFault>
    ensures ok { OnOk result ((links : Links) → Grows pool.old
        (needs_of_index (pool_of (scope setting.now links) class) named) pool.new) }
    ensures index { IfOk result (λ index. (links : Links) → IsIndexOfLast pool.new
        (needs_of_index (pool_of (scope setting.now links) class) named) index) }
    ensures full { (reason : Reason) (links : Links)
        → IsErrOf result (KeptFault.Kept reason)
        → IsFull pool.old (needs_of_index (pool_of (scope setting.now links) class) named) reason }
    ensures more { Continues pool.old pool.new }
{
    an_edit_goes_back_to_what_it_was();
    let Some(index) = named else {
        return Ok(0);
    };
    match setting.tree.folder().get(class) {
        Some(file) => add_meant(pool, &file.pool, index),
        None => Ok(0),
    }
}

// The index of the constant that an instruction names, if it names one.
fn named_index(instr: &Instr) -> Option<u16>
    ensures { result ≡ index_named instr.now }
{
    match instr {
        Instr::Ldc(index) => Some(*index),
        Instr::Ldc2(index) => Some(*index),
        Instr::GetStatic(index) => Some(*index),
        Instr::PutStatic(index) => Some(*index),
        Instr::GetField(index) => Some(*index),
        Instr::PutField(index) => Some(*index),
        Instr::Invoke(_, index, _) => Some(*index),
        Instr::Dynamic(index) => Some(*index),
        Instr::New(index) => Some(*index),
        Instr::NewRefArray(index) => Some(*index),
        Instr::NewMulti(index, _) => Some(*index),
        Instr::Cast(index) => Some(*index),
        Instr::InstanceOf(index) => Some(*index),
        _ => None,
    }
}

// The instruction with another index.
fn with_index(alloc: Global, instr: &Instr, index: u16) -> Result<Instr, NoMemory>
    ensures { IfOk result (λ one. one ≡ with_other_index index instr.now) }
{
    Ok(match instr {
        Instr::Ldc(_) => Instr::Ldc(index),
        Instr::Ldc2(_) => Instr::Ldc2(index),
        Instr::GetStatic(_) => Instr::GetStatic(index),
        Instr::PutStatic(_) => Instr::PutStatic(index),
        Instr::GetField(_) => Instr::GetField(index),
        Instr::PutField(_) => Instr::PutField(index),
        Instr::Invoke(opcode, _, count) => Instr::Invoke(*opcode, index, *count),
        Instr::Dynamic(_) => Instr::Dynamic(index),
        Instr::New(_) => Instr::New(index),
        Instr::NewRefArray(_) => Instr::NewRefArray(index),
        Instr::NewMulti(_, dimensions) => Instr::NewMulti(index, *dimensions),
        Instr::Cast(_) => Instr::Cast(index),
        Instr::InstanceOf(_) => Instr::InstanceOf(index),
        _ => instr.copy(alloc)?,
    })
}

// ---- targets

// Where the instruction of a point jumps, in the order of its targets.
fn written_targets(
    alloc: Global,
    setting: &Setting<'_>,
    at: usize,
) -> Result<ListOf<Target>, NoMemory>
    requires { IsWritable setting.now }
    ensures { IfOk result (λ list. (links : Links) (point : Point) (route : Route)
        → AreLinksOf (headers_of setting.now.classes) links
        → point_at setting.now.flat at ≡ Some point
        → IsRouteAt setting.now links at route
        → map target_of list ≡ jump_targets at route 0 (targets_at point.instr)) }
{
    match setting.flat.instr(at) {
        Some(instr) => targets_of(alloc, setting, at, instr),
        None => Ok(ListOf::new(alloc)),
    }
}

// The same, by the instruction of the point.
fn targets_of(
    alloc: Global,
    setting: &Setting<'_>,
    at: usize,
    instr: &FlatInstr,
) -> Result<ListOf<Target>, NoMemory>
    requires writable { IsWritable setting.now }
    requires few { length (targets_at instr.now) < 2 ^ 32 }
    ensures { IfOk result (λ list. (links : Links) (route : Route)
        → AreLinksOf (headers_of setting.now.classes) links
        → IsRouteAt setting.now links at route
        → map target_of list ≡ jump_targets at route 0 (targets_at instr.now)) }
{
    let mut list = ListOf::new(alloc);
    let mut number = 0;
    while let Some(to) = target(instr, number) {
        list.push(target_behind(setting, at, number, to as usize))?;
        number += 1;
    }
    Ok(list)
}

// Where the jump to a target leads: to a pad, if an object is made on the edge.
fn target_behind(setting: &Setting<'_>, at: usize, number: u32, to: usize) -> Target
    requires { IsWritable setting.now }
    ensures { (links : Links) (route : Route)
        → AreLinksOf (headers_of setting.now.classes) links
        → IsRouteAt setting.now links at route
        → target_of result ≡ jump_target at route number to }
{
    match setting.plan.edge_by(at, EdgeKind::Jump(number)) {
        Some(edge) => point_or_pad(edge.made, edge.to, Target::JumpPad { at, number }),
        None => Target::Point(to),
    }
}

// The pad of an edge to a point, if an object is made on it, else the point.
fn point_or_pad(made: &SiteSet, to: usize, pad: Target) -> Target
    ensures { target_of result ≡ to_or_pad made.now (to_point to) (target_of pad) }
{
    if made.is_empty() {
        Target::Point(to)
    } else {
        pad
    }
}

// ---- handlers

/// The handlers of what the instruction of a point throws. The classes that they catch are added to the pool.
///
/// # Errors
/// As `draft_as_it_is`.
pub(crate) fn written_catches(
    alloc: Global,
    setting: &Setting<'_>,
    at: usize,
    pool: &mut PoolEdit,
) -> Result<ListOf<DraftCatch>, KeptFault>
    requires { IsWritable setting.now }
    ensures ok { IfOk result (λ list. (links : Links) (point : Point) (route : Route)
        → AreLinksOf (headers_of setting.now.classes) links
        → point_at setting.now.flat at ≡ Some point
        → IsRouteAt setting.now links at route
        → Catches (catches_at at point route) pool.old [] pool.new list) }
    ensures full { (reason : Reason) (links : Links) (point : Point) (route : Route)
        → IsErrOf result (KeptFault.Kept reason)
        → AreLinksOf (headers_of setting.now.classes) links
        → point_at setting.now.flat at ≡ Some point
        → IsRouteAt setting.now links at route
        → IsFull pool.old (all_catch_needs (catches_at at point route)) reason }
    ensures more { Continues pool.old pool.new }
{
    an_edit_goes_back_to_what_it_was();
    match setting.flat.handlers(at) {
        Some(handlers) => catches_of(alloc, setting, at, handlers.as_slice(), pool),
        None => Ok(ListOf::new(alloc)),
    }
}

// The same, by the handlers of the point.
fn catches_of(
    alloc: Global,
    setting: &Setting<'_>,
    at: usize,
    handlers: &[FlatHandler],
    pool: &mut PoolEdit,
) -> Result<ListOf<DraftCatch>, KeptFault>
    requires writable { IsWritable setting.now }
    requires few { length handlers.now < 2 ^ 32 }
    ensures ok { IfOk result (λ list. (links : Links) (route : Route)
        → AreLinksOf (headers_of setting.now.classes) links
        → IsRouteAt setting.now links at route
        → Catches (catches_from at route 0 handlers.now) pool.old [] pool.new list) }
    ensures full { (reason : Reason) (links : Links) (route : Route)
        → IsErrOf result (KeptFault.Kept reason)
        → AreLinksOf (headers_of setting.now.classes) links
        → IsRouteAt setting.now links at route
        → IsFull pool.old (all_catch_needs (catches_from at route 0 handlers.now)) reason }
    ensures more { Continues pool.old pool.new }
{
    an_edit_goes_back_to_what_it_was();
    let mut list = ListOf::new(alloc);
    let mut number = 0;
    while let Some(handler) = handler_at(handlers, number) {
        push_catch(setting, at, number, handler, &mut list, pool)?;
        number += 1;
    }
    Ok(list)
}

// The handler of a number, if there is one.
fn handler_at(handlers: &[FlatHandler], number: u32) -> Option<&FlatHandler>
    ensures { option_copied result ≡ slice_get handlers.now number }
{
    handlers.get(number as usize)
}

// Appends the handler of a number, if an edge leads to it.
fn push_catch(
    setting: &Setting<'_>,
    at: usize,
    number: u32,
    handler: &FlatHandler,
    list: &mut ListOf<DraftCatch>,
    pool: &mut PoolEdit,
) -> Result<(), KeptFault>
    requires { IsWritable setting.now }
    ensures ok { OnOk result ((links : Links) (route : Route)
        → AreLinksOf (headers_of setting.now.classes) links
        → IsRouteAt setting.now links at route
        → Catches (catch_on at number handler.now (edge_by route (edges.Handler number)))
        pool.old list.old pool.new list.new) }
    ensures full { (reason : Reason) (links : Links) (route : Route)
        → IsErrOf result (KeptFault.Kept reason)
        → AreLinksOf (headers_of setting.now.classes) links
        → IsRouteAt setting.now links at route
        → IsFull pool.old (all_catch_needs (catch_on at number handler.now
        (edge_by route (edges.Handler number)))) reason }
    ensures more { Continues pool.old pool.new }
{
    an_edit_goes_back_to_what_it_was();
    let Some(edge) = setting.plan.edge_by(at, EdgeKind::Handler(number)) else {
        return Ok(());
    };
    let class = caught_index(&handler.catch_class, pool)?;
    let to = point_or_pad(edge.made, edge.to, Target::HandlerPad { at, number });
    list.push(DraftCatch { to, class })?;
    Ok(())
}

// The index of the class that a handler catches, which is added to the pool; 0, if it catches everything.
fn caught_index(class: &Option<Text>, pool: &mut PoolEdit) -> Result<u16, KeptFault>
    ensures ok { OnOk result (Grows pool.old (catch_needs class.now) pool.new) }
    ensures index { IfOk result (IsCatchIndex pool.new class.now) }
    ensures full { (reason : Reason)
        → IsErrOf result (KeptFault.Kept reason)
        → IsFull pool.old (catch_needs class.now) reason }
    ensures more { Continues pool.old pool.new }
{
    an_edit_goes_back_to_what_it_was();
    match class {
        Some(name) => add_class(pool, name),
        None => Ok(0),
    }
}
