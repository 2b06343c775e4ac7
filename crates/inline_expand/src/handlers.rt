//! The handlers of points.
ghost use Rattle.std.specs.Prelude.{◌≡◌, ◌++◌, [], if◌then◌else◌, option_to_list, IfOk, OnOk};
ghost use Rattle.std.specs.List.{AllByRecursion};
ghost use Rattle.inline_expand.specs.Inner.Hosts.{CoversAlike};
ghost use Rattle.inline_expand.specs.Inner.Numbers.{AreAround, handler_for, handlers_for};
ghost use Rattle.member_link.specs.Machine.Codes.{covers};
ghost use Rattle.inline_expand.specs.declared.numbers.Numbers.{Numbers};

use crate::numbers::Numbers;
use class_model::{Handler, NoMemory, Text};
use flow_code::{FlatHandler, FlatHandlerList};
use std::alloc::Global;

/// The handlers around each instruction from one offset to before another, in bytes.
#[derive(Drop)]
pub(crate) struct Around {
    pub(crate) from: u32,
    pub(crate) until: u32,
    pub(crate) handlers: FlatHandlerList,
}

impl Around {
    /// Those around no instruction.
    pub(crate) fn none(alloc: Global) -> Around
        ensures around { (numbers : Numbers) → AreAround numbers result }
        ensures none { result.until ≡ 0 }
    {
        Around {
            from: 0,
            until: 0,
            handlers: FlatHandlerList::new(alloc),
        }
    }

    /// Those around the instruction at an offset, and around all behind it up to where a range starts
    /// or ends: these, where the instruction is among theirs.
    ///
    /// # Errors
    /// `NoMemory`, where memory runs out.
    pub(crate) fn moved(
        self,
        alloc: Global,
        numbers: &Numbers<'_, '_>,
        at: u32,
    ) -> Result<Around, NoMemory>
        requires { AreAround numbers.now self }
        ensures around { IfOk result (AreAround numbers.now) }
        ensures at { IfOk result (λ around. around.handlers ≡ handlers_for numbers.now at) }
    {
        if self.from <= at && at < self.until {
            return Ok(self);
        }
        handlers_from(alloc, numbers, at)
    }
}

// The handlers around an offset, and around all behind it up to where a range starts or ends.
fn handlers_from(alloc: Global, numbers: &Numbers<'_, '_>, at: u32) -> Result<Around, NoMemory>
    ensures around { IfOk result (AreAround numbers.now) }
    ensures at { IfOk result (λ around. around.handlers ≡ handlers_for numbers.now at) }
{
    Ok(Around {
        from: at,
        until: next_bound(numbers.host.handlers(), at),
        handlers: handlers_at(alloc, numbers, at)?,
    })
}

// The handlers around an offset, in table order.
fn handlers_at(
    alloc: Global,
    numbers: &Numbers<'_, '_>,
    at: u32,
) -> Result<FlatHandlerList, NoMemory>
    ensures { IfOk result (λ list. list ≡ handlers_for numbers.now at) }
{
    let mut list = FlatHandlerList::new(alloc);
    for handler in numbers.host.handlers() {
        add(&mut list, handler_around(numbers, handler, at)?)?;
    }
    Ok(list)
}

// Appends a handler, if there is one.
fn add(list: &mut FlatHandlerList, handler: Option<FlatHandler>) -> Result<(), NoMemory>
    ensures { OnOk result (list.new ≡ list.old ++ option_to_list handler) }
{
    match handler {
        Some(handler) => list.push(handler),
        None => Ok(()),
    }
}

// A handler, if its range has an offset and it catches anything.
fn handler_around(
    numbers: &Numbers<'_, '_>,
    handler: &Handler,
    at: u32,
) -> Result<Option<FlatHandler>, NoMemory>
    ensures { IfOk result (λ found. option_to_list found
        ≡ (if covers handler.now at then handler_for numbers.now handler.now else [])) }
{
    if u32::from(handler.start) <= at && at < u32::from(handler.end) {
        handler_of(numbers, handler)
    } else {
        Ok(None)
    }
}

// A handler, if it catches anything: it begins at the number of the instruction at its offset.
fn handler_of(numbers: &Numbers<'_, '_>, handler: &Handler) -> Result<Option<FlatHandler>, NoMemory>
    ensures { IfOk result (λ found. option_to_list found ≡ handler_for numbers.now handler.now) }
{
    let to = numbers.number(u32::from(handler.at)) as usize;
    if handler.catch_type == 0 {
        return Ok(Some(FlatHandler {
            to,
            catch_class: None,
        }));
    }
    match numbers.host.pool().class_name(handler.catch_type) {
        Some(name) => Ok(Some(FlatHandler {
            to,
            catch_class: Some(name.copy()?),
        })),
        None => Ok(None),
    }
}

// An offset up to which the range of each handler has what it has at this one.
fn next_bound(handlers: &[Handler], at: u32) -> u32
    ensures { AllByRecursion (CoversAlike at result) handlers.now }
{
    let mut next = u32::MAX;
    for handler in handlers {
        next = next.min(bound_behind(handler, at));
    }
    next
}

// The bound of a range behind an offset.
fn bound_behind(handler: &Handler, at: u32) -> u32
    ensures { CoversAlike at result handler.now }
{
    if at < u32::from(handler.start) {
        u32::from(handler.start)
    } else if at < u32::from(handler.end) {
        u32::from(handler.end)
    } else {
        u32::MAX
    }
}
