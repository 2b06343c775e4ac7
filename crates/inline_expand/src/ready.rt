//! Which methods may stand in the code of a host. An instance initialiser calls one of its own class or of its superclass on
//! its own uninitialised object, and so on upwards: it may stand there with all of these.
ghost use Rattle.std.specs.Prelude.{◌≡◌, ◌↔◌, IfOk, OnOk, IsTrue};
ghost use Rattle.std.specs.Option.{option_map};
ghost use Rattle.inline_expand.specs.Inner.Coded.{Stands};
ghost use Rattle.inline_expand.specs.Inner.Ready.{IsReady};
ghost use Rattle.inline_expand.specs.Inner.ReadyCallees.{AddsOwn, CallsThese, IsHostClass};
ghost use Rattle.inline_expand.specs.Inner.Walks.{AreRight, GoesOn, HasNeeds};

use crate::called_methods::find_callee;
use crate::coded::CodedMethod;
use crate::folder_methods::FolderMethods;
use crate::initialised::calls_on_this;
use crate::known_frames::KnownFrames;
use crate::standing::{a_method_of_a_tree_was_read, may_stand_in};
use crate::verdicts::Verdicts;
use crate::visits::{Stack, Visit};
use class_model::{ClassFile, MethodAt, NoMemory};
use class_tree::Tree;
use std::alloc::Global;

/// The class of a host, by its number in the folder, with the folder and its frames.
#[derive(Clone, Copy)]
pub(crate) struct HostClass<'a> {
    pub(crate) tree: &'a Tree,
    pub(crate) methods: &'a FolderMethods<'a>,
    pub(crate) typed: &'a KnownFrames<'a>,
    pub(crate) number: usize,
    pub(crate) class: &'a ClassFile,
}

/// Whether a method may stand in a host's code, an initialiser with all that it calls on its own uninitialised object. What
/// is found of a method on the way is kept among the verdicts, so that each method is looked at once.
///
/// # Errors
/// `NoMemory`, where memory runs out.
pub(crate) fn is_ready(
    alloc: Global,
    host: HostClass<'_>,
    verdicts: &mut Verdicts,
    root: MethodAt,
) -> Result<bool, NoMemory>
    requires class { IsHostClass host }
    requires right { AreRight host.tree.now host.typed.now host.number verdicts.old }
    ensures ready { IfOk result (λ yes. IsTrue yes
        ↔ IsReady host.entry.tree.now host.entry.typed.now host.entry.number root) }
    ensures right { OnOk result
        (AreRight host.entry.tree.now host.entry.typed.now host.entry.number verdicts.new) }
{
    let mut stack = Stack::of(alloc, root)?;
    while let Some(at) = next(verdicts, &mut stack)? {
        if verdicts.of(at).is_some() {
            return Ok(false);
        }
        let Some(needs) = needs(alloc, host, at)? else {
            return Ok(false);
        };
        verdicts.judge(at, false)?;
        stack.enter(at, needs.as_slice())?;
    }
    Ok(true)
}

// The next method to look at. A method that is left is ready, since all that it needs was found to be.
fn next(verdicts: &mut Verdicts, stack: &mut Stack) -> Result<Option<MethodAt>, NoMemory>
    ensures { IfOk result (GoesOn verdicts.old stack.old verdicts.new stack.new) }
{
    while let Some(visit) = stack.pop() {
        match visit {
            Visit::Leave(at) => verdicts.judge(at, true)?,
            Visit::Enter(at) => {
                if !verdicts.has_ready(at) {
                    return Ok(Some(at));
                }
            }
        }
    }
    Ok(None)
}

/// The methods that an initialiser calls on its own uninitialised object, if it may stand in a host's code; none where it may not,
/// or one of these calls can't be replaced. Another method calls no such method.
///
/// # Errors
/// `NoMemory`, where memory runs out.
pub(crate) fn needs(
    alloc: Global,
    host: HostClass<'_>,
    at: MethodAt,
) -> Result<Option<Vec<MethodAt>>, NoMemory>
    requires { IsHostClass host }
    ensures { IfOk result (λ needs.
        HasNeeds host.entry.tree.now host.entry.typed.now host.entry.number at
        (option_map (λ list. list.items) needs)) }
{
    a_method_of_a_tree_was_read(host.tree);
    let Some(method) = CodedMethod::short_at(alloc, host.tree, host.typed, at)? else {
        return Ok(None);
    };
    match may_stand_in(alloc, host.tree, host.class, host.typed, &method) {
        Ok(true) => {}
        // let go by a call, so that its drop is proved once
        Ok(false) => {
            drop(method);
            return Ok(None);
        }
        Err(fault) => {
            drop(method);
            return Err(fault);
        }
    }
    let needs = own_callees(alloc, host, &method);
    drop(method);
    needs
}

// The methods that an initialiser calls on its own uninitialised object; none where one of these calls can't be replaced.
fn own_callees(
    alloc: Global,
    host: HostClass<'_>,
    method: &CodedMethod<'_>,
) -> Result<Option<Vec<MethodAt>>, NoMemory>
    requires class { IsHostClass host }
    requires stands { Stands host.tree.now host.typed.now method.now }
    ensures { IfOk result (λ callees.
        CallsThese host.entry.tree.now host.entry.typed.now method.now
        (option_map (λ list. list.items) callees)) }
{
    let instrs = method.host.instrs();
    let mut callees = Vec::new(alloc);
    for number in 0..instrs.len() {
        if !add_own_callee(alloc, host, method, instrs[number].at, &mut callees)? {
            return Ok(None);
        }
    }
    Ok(Some(callees))
}

// Appends the method that the call at an offset runs, if the method is an initialiser and the call is on its own uninitialised
// object. It answers whether there is no such call or it can be replaced.
fn add_own_callee(
    alloc: Global,
    host: HostClass<'_>,
    method: &CodedMethod<'_>,
    at: u32,
    callees: &mut Vec<MethodAt>,
) -> Result<bool, NoMemory>
    requires class { IsHostClass host }
    requires stands { Stands host.tree.now host.typed.now method.now }
    ensures { IfOk result (AddsOwn host.entry.tree.now host.entry.typed.now method.now at
        callees.old.items callees.new.items) }
{
    if !calls_on_this(method, at) {
        return Ok(true);
    }
    let Some(callee) = find_callee(alloc, host, method, at)? else {
        return Ok(false);
    };
    callees.push(callee.at)?;
    Ok(true)
}
