//! How deep the initialisers go that an initialiser calls on its own uninitialised object.
ghost use Rattle.std.specs.Prelude.{◌≡◌, ◌↔◌, IfOk, OnOk, IsTrue};
ghost use Rattle.inline_expand.specs.Inner.Chains.{AreReady, IsNeeded, IsNoneOf, IsShallow, NoneIsOneOf};
ghost use Rattle.inline_expand.specs.Inner.MethodSets.{AddsAll};
ghost use Rattle.inline_expand.specs.Inner.Ready.{IsReady};
ghost use Rattle.inline_expand.specs.Inner.ReadyCallees.{IsHostClass};
ghost use Rattle.inline_expand.specs.Inner.Stacks.{IsAmong};

use crate::method_set::MethodSet;
use crate::ready::{HostClass, needs};
use class_model::{MethodAt, NoMemory};
use std::alloc::Global;

/// Whether a method that is ready, and all that it needs, come in so many steps, and none of them is one of some others. It goes
/// step by step, and looks at a method once in a step.
///
/// # Errors
/// `NoMemory`, where memory runs out.
pub(crate) fn is_shallow(
    alloc: Global,
    host: HostClass<'_>,
    outer: &[MethodAt],
    steps: usize,
    root: MethodAt,
) -> Result<bool, NoMemory>
    requires class { IsHostClass host }
    requires ready { IsReady host.tree.now host.typed.now host.number root }
    ensures { IfOk result (λ yes. IsTrue yes
        ↔ IsShallow host.entry.tree.now host.entry.typed.now outer.now steps root) }
{
    let mut level = MethodSet::of(alloc, root)?;
    let mut left = steps;
    while left > 0 {
        if level.is_empty() {
            return Ok(true);
        }
        if !none_is_one_of(level.list(), outer) {
            return Ok(false);
        }
        level = needed(alloc, host, level.list())?;
        left -= 1;
    }
    Ok(level.is_empty())
}

// The methods that some methods need, each once.
fn needed(alloc: Global, host: HostClass<'_>, methods: &[MethodAt]) -> Result<MethodSet, NoMemory>
    requires class { IsHostClass host }
    requires ready { AreReady host.tree.now host.typed.now host.number methods.now }
    ensures { IfOk result (IsNeeded host.entry.tree.now host.entry.typed.now methods.now) }
{
    let mut all = MethodSet::new(alloc);
    for at in methods {
        let Some(needs) = needs(alloc, host, *at)? else {
            unreachable!()
        };
        all.add_all(needs.as_slice())?;
    }
    Ok(all)
}

// Whether none of some methods is one of others.
fn none_is_one_of(methods: &[MethodAt], others: &[MethodAt]) -> bool
    ensures { IsTrue result ↔ NoneIsOneOf others.now methods.now }
{
    for at in methods {
        if !is_none_of(others, *at) {
            return false;
        }
    }
    true
}

/// Whether a method is none of some others.
pub(crate) fn is_none_of(others: &[MethodAt], at: MethodAt) -> bool
    ensures { IsTrue result ↔ IsNoneOf others.now at }
{
    for other in others {
        if *other == at {
            return false;
        }
    }
    true
}
