//! The points to which handlers lead, each once.
ghost use Rattle.std.specs.Prelude.{◌≡◌, Some, IsTrue, IfOk, IfSome, slice_get};
ghost use Rattle.std.specs.Option.{option_copied};
ghost use Rattle.plan_flow.specs.Inner.Sharing.{AreTargets, AreTargetsOf, AreTargetsUpTo, handlers_in, points_of, targets_in};

use class_model::NoMemory;
use flow_code::{Flat, FlatHandler};
use std::alloc::Global;
use std::collections::BTreeSet;
use std::marker::Model;
use std::rc::Rc;

/// The points to which the handlers of a point lead, each once. Contracts see the list. A copy shares it.
#[derive(Drop)]
pub(crate) struct TargetList {
    targets: Rc<Vec<usize>>,
}

impl Model for TargetList {
    ghost use Rattle.std.specs.Prelude.{List, ℕ};

    ghost Value = { List ℕ };

    ghost view = { λ list. list.targets.value.items };
}

impl TargetList {
    // These points.
    fn of(alloc: Global, targets: Vec<usize>) -> Result<Self, NoMemory>
        ensures { IfOk result (λ list. list ≡ targets.items) }
    {
        let targets = Rc::new(alloc, targets)?;
        Ok(TargetList { targets })
    }

    // The same list, which is shared.
    fn share(&self) -> Result<Self, NoMemory>
        ensures { IfOk result (λ list. list ≡ self.now) }
    {
        let targets = self.targets.clone()?;
        Ok(TargetList { targets })
    }

    // The points, in order.
    fn as_slice(&self) -> &[usize]
        ensures { result.now ≡ self.now }
    {
        self.targets.as_slice()
    }
}

/// The points to which the handlers of each point of flat code lead, each once, by increasing number. They are found once for
/// neighbouring points whose handlers are the same.
#[derive(Drop)]
pub(crate) struct HandlerTargets {
    points: Vec<TargetList>,
}

impl Model for HandlerTargets {
    ghost use Rattle.std.specs.Prelude.{List, ℕ};

    ghost Value = { List (List ℕ) };

    ghost view = { λ table. table.points.items };
}

impl HandlerTargets {
    /// Those of flat code.
    ///
    /// # Errors
    /// `NoMemory`, where memory runs out.
    pub(crate) fn of(alloc: Global, flat: &Flat) -> Result<Self, NoMemory>
        ensures { IfOk result (λ table. AreTargets flat.now table) }
    {
        let mut points = Vec::with_capacity(alloc, flat.len())?;
        for at in 0..flat.len() {
            let targets = targets_at(alloc, flat, at, points.as_slice())?;
            points.push(targets)?;
        }
        Ok(HandlerTargets { points })
    }

    /// Those of a point.
    pub(crate) fn at(&self, at: usize) -> &[usize]
        ensures { result.now ≡ targets_in self.now at }
    {
        match self.points.get(at) {
            Some(targets) => targets.as_slice(),
            None => &[],
        }
    }
}

// Those of a point behind points of which these are known.
fn targets_at(
    alloc: Global,
    flat: &Flat,
    at: usize,
    known: &[TargetList],
) -> Result<TargetList, NoMemory>
    requires { AreTargetsUpTo flat.now known.now at }
    ensures { IfOk result (λ targets. AreTargetsOf (handlers_in flat.now at) targets) }
{
    if let Some(targets) = targets_before(flat, at, known) {
        let shared = targets.share()?;
        return Ok(shared);
    }
    let handlers = handlers_at(flat, at);
    let targets = targets_of(alloc, handlers)?;
    let list = TargetList::of(alloc, targets)?;
    Ok(list)
}

// Those of the point before, if the handlers of both lead to the same points.
fn targets_before<'k>(flat: &Flat, at: usize, known: &'k [TargetList]) -> Option<&'k TargetList>
    requires { AreTargetsUpTo flat.now known.now at }
    ensures { IfSome result (λ targets. AreTargetsOf (handlers_in flat.now at) targets.now) }
{
    if at == 0 {
        return None;
    }
    let before = at - 1;
    let Some(targets) = known_at(known, before) else {
        return None;
    };
    if lead_alike(handlers_at(flat, at), handlers_at(flat, before)) {
        Some(targets)
    } else {
        None
    }
}

// Those of a point of which they are known.
fn known_at(known: &[TargetList], at: usize) -> Option<&TargetList>
    ensures { option_copied result ≡ slice_get known.now at }
{
    known.get(at)
}

// The handlers of a point, or none where there is no such point.
fn handlers_at(flat: &Flat, at: usize) -> &[FlatHandler]
    ensures { result.now ≡ handlers_in flat.now at }
{
    match flat.handlers(at) {
        Some(handlers) => handlers.as_slice(),
        None => &[],
    }
}

// Whether handlers lead to the same points, one by one.
fn lead_alike(handlers: &[FlatHandler], others: &[FlatHandler]) -> bool
    ensures { IsTrue result → points_of handlers.now ≡ points_of others.now }
{
    if handlers.len() != others.len() {
        return false;
    }
    let mut number = 0;
    while let Some(to) = target_of(handlers, number) {
        if !leads_to(others, number, to) {
            return false;
        }
        number += 1;
    }
    true
}

// The point to which the handler of a number leads, if there is one.
fn target_of(handlers: &[FlatHandler], number: usize) -> Option<usize>
    ensures { result ≡ slice_get (points_of handlers.now) number }
{
    match handlers.get(number) {
        Some(handler) => Some(handler.to),
        None => None,
    }
}

// Whether the handler of a number leads to a point.
fn leads_to(handlers: &[FlatHandler], number: usize, to: usize) -> bool
    ensures { IsTrue result → slice_get (points_of handlers.now) number ≡ Some to }
{
    match target_of(handlers, number) {
        Some(other) => other == to,
        None => false,
    }
}

// The points to which handlers lead, each once, by increasing number.
fn targets_of(alloc: Global, handlers: &[FlatHandler]) -> Result<Vec<usize>, NoMemory>
    ensures { IfOk result (λ targets. AreTargetsOf handlers.now targets.items) }
{
    let mut seen = BTreeSet::new(alloc);
    let mut number = 0;
    while let Some(to) = target_of(handlers, number) {
        seen.insert(to)?;
        number += 1;
    }
    let targets = listed(alloc, &seen)?;
    Ok(targets)
}

// The points of a set, by increasing number.
fn listed(alloc: Global, seen: &BTreeSet<usize>) -> Result<Vec<usize>, NoMemory>
    ensures { IfOk result (λ targets. targets.items ≡ seen.now.keys) }
{
    let mut targets = Vec::new(alloc);
    for to in seen.iter() {
        targets.push(*to)?;
    }
    Ok(targets)
}
