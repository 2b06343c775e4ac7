//! Calls in whose place the called method's code may stand.
ghost use Rattle.std.specs.Prelude.{◌≡◌, IfOk, IfSome, IfNone, OnOk};
ghost use Rattle.class_model.specs.declared.class_file.MethodAt.{MethodAt as Method};
ghost use Rattle.expanded_code.specs.Callees.{IsCallee};
ghost use Rattle.inline_expand.specs.Inner.Coded.{Stands};
ghost use Rattle.inline_expand.specs.Inner.ReadyCallees.{IsCalleeFound, IsHostClass};
ghost use Rattle.inline_expand.specs.Inner.Walks.{AreRight};

use crate::called_methods::find_callee;
use crate::calls::a_call_runs_one_method;
use crate::coded::CodedMethod;
use crate::folder_methods::FolderMethods;
use crate::known_frames::KnownFrames;
use crate::ready::{HostClass, is_ready};
use crate::verdicts::Verdicts;
use class_model::{MethodAt, NoMemory};
use class_tree::{Tree, a_tree_is_a_hierarchy};
use std::alloc::Global;
use type_rules::TypedFolder;

/// The callee of the call at an offset, in bytes, of a method: the method of the folder whose code may stand in place of the
/// call, in a host of the class of a number. None exactly where it has no callee. It is this project's profile.
///
/// # Errors
/// `NoMemory`, where memory runs out.
pub fn callee(
    alloc: Global,
    tree: &Tree,
    typed: &TypedFolder,
    host: usize,
    from: MethodAt,
    at: u32,
) -> Result<Option<MethodAt>, NoMemory>
    ensures some { IfOk result (λ found.
        IfSome found (IsCallee tree.now typed.now host from at)) }
    ensures none { IfOk result (λ found.
        IfNone found ((callee : Method) → ¬ IsCallee tree.now typed.now host from at callee)) }
{
    let Some(class) = tree.folder().get(host) else {
        return Ok(None);
    };
    let methods = FolderMethods::of(alloc, tree)?;
    let known = match KnownFrames::new(alloc, tree, typed) {
        Ok(known) => known,
        // let go by a call, so that its drop is proved once
        Err(fault) => {
            drop(methods);
            return Err(fault);
        }
    };
    let host = HostClass {
        tree,
        methods: &methods,
        typed: &known,
        number: host,
        class,
    };
    let found = callee_at(alloc, host, from, at);
    drop(known);
    drop(methods);
    found
}

// The callee of the call at an offset of a method.
fn callee_at(
    alloc: Global,
    host: HostClass<'_>,
    from: MethodAt,
    at: u32,
) -> Result<Option<MethodAt>, NoMemory>
    requires { IsHostClass host }
    ensures some { IfOk result (λ found. IfSome found
        (IsCallee host.entry.tree.now host.entry.typed.now host.entry.number from at)) }
    ensures none { IfOk result (λ found. IfNone found ((callee : Method)
        → ¬ IsCallee host.entry.tree.now host.entry.typed.now host.entry.number from at callee)) }
{
    let Some(caller) = CodedMethod::at(alloc, host.tree, host.typed, from)? else {
        return Ok(None);
    };
    let found = ready_at(alloc, host, &caller, at);
    // let go by a call, so that its drop is proved once
    drop(caller);
    found
}

// The callee of the call at an offset, where nothing is known of methods yet.
fn ready_at(
    alloc: Global,
    host: HostClass<'_>,
    caller: &CodedMethod<'_>,
    at: u32,
) -> Result<Option<MethodAt>, NoMemory>
    requires class { IsHostClass host }
    requires caller { Stands host.tree.now host.typed.now caller.now }
    ensures some { IfOk result (λ found. IfSome found
        (IsCallee host.entry.tree.now host.entry.typed.now host.entry.number caller.now.at at)) }
    ensures none { IfOk result (λ found. IfNone found ((callee : Method)
        → ¬ IsCallee host.entry.tree.now host.entry.typed.now host.entry.number caller.now.at at
        callee)) }
{
    let mut verdicts = Verdicts::new(alloc);
    let found = find_ready(alloc, host, &mut verdicts, caller, at);
    drop(verdicts);
    match found? {
        Some(callee) => {
            let at = callee.at;
            drop(callee);
            Ok(Some(at))
        }
        None => Ok(None),
    }
}

/// The callee of the call at an offset, with its code and frames. What is found of methods on the way is kept among the verdicts.
///
/// # Errors
/// `NoMemory`, where memory runs out.
pub(crate) fn find_ready<'a>(
    alloc: Global,
    host: HostClass<'a>,
    verdicts: &mut Verdicts,
    caller: &CodedMethod<'_>,
    at: u32,
) -> Result<Option<CodedMethod<'a>>, NoMemory>
    requires class { IsHostClass host }
    requires right { AreRight host.tree.now host.typed.now host.number verdicts.old }
    requires caller { Stands host.tree.now host.typed.now caller.now }
    ensures callee { IfOk result (IsCalleeFound host.entry.tree.now host.entry.typed.now
        host.entry.number caller.now.at at) }
    ensures right { OnOk result
        (AreRight host.entry.tree.now host.entry.typed.now host.entry.number verdicts.new) }
{
    a_tree_is_a_hierarchy(host.tree);
    a_call_runs_one_method();
    let Some(callee) = find_callee(alloc, host, caller, at)? else {
        return Ok(None);
    };
    match is_ready(alloc, host, verdicts, callee.at) {
        Ok(true) => Ok(Some(callee)),
        Ok(false) => {
            drop(callee);
            Ok(None)
        }
        Err(fault) => {
            drop(callee);
            Err(fault)
        }
    }
}
