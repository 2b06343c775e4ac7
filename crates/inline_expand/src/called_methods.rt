//! Methods that may be called where they stand, by what is declared of their results.
ghost use Rattle.std.specs.Prelude.{◌≡◌, ◌↔◌, IfOk, IsTrue, Some};
ghost use Rattle.class_model.specs.declared.frame.Frame.{Frame};
ghost use Rattle.class_tree.specs.Headers.{headers_of};
ghost use Rattle.code_bytes.specs.Codes.{IsReadMethod};
ghost use Rattle.expanded_code.specs.Callees.{ResultSaysAtMost, frame_behind};
ghost use Rattle.inline_expand.specs.Inner.Calls.{DecidesCall};
ghost use Rattle.inline_expand.specs.Inner.Coded.{Stands};
ghost use Rattle.inline_expand.specs.Inner.ReadyCallees.{FindsCallee, IsHostClass};
ghost use Rattle.member_link.specs.Scope.{own_descriptor};
ghost use Rattle.member_link.specs.Signatures.{result_of};

use crate::calls::{a_call_runs_one_method, called};
use crate::coded::CodedMethod;
use crate::host::Host;
use crate::ready::HostClass;
use crate::standing::{a_method_of_a_tree_was_read, result_says_at_most};
use class_model::{MethodAt, NoMemory};
use class_tree::{Tree, a_tree_is_a_hierarchy};
use std::alloc::Global;

/// The method that the call at an offset runs, if its code is as short as a callee's and the frame behind the call says no
/// more of the result than it declares.
///
/// # Errors
/// `NoMemory`, where memory runs out.
pub(crate) fn find_callee<'a>(
    alloc: Global,
    host: HostClass<'a>,
    caller: &CodedMethod<'_>,
    at: u32,
) -> Result<Option<CodedMethod<'a>>, NoMemory>
    requires class { IsHostClass host }
    requires stands { Stands host.tree.now host.typed.now caller.now }
    ensures { IfOk result (FindsCallee host.entry.tree.now host.entry.typed.now caller.now.at at) }
{
    a_tree_is_a_hierarchy(host.tree);
    a_call_runs_one_method();
    a_method_of_a_tree_was_read(host.tree);
    let Some(callee) = called_of(alloc, host, &caller.host, at)? else {
        return Ok(None);
    };
    let Some(callee) = CodedMethod::short_at(alloc, host.tree, host.typed, callee)? else {
        return Ok(None);
    };
    match says_at_most(alloc, host.tree, caller, at, &callee.host) {
        Ok(true) => Ok(Some(callee)),
        // let go by a call, so that its drop is proved once
        Ok(false) => {
            drop(callee);
            Ok(None)
        }
        Err(fault) => {
            drop(callee);
            Err(fault)
        }
    }
}

// The method that the call at an offset runs.
fn called_of(
    alloc: Global,
    host: HostClass<'_>,
    from: &Host<'_>,
    at: u32,
) -> Result<Option<MethodAt>, NoMemory>
    requires { IsHostClass host }
    ensures { IfOk result (DecidesCall host.entry.tree.now from.now at) }
{
    called(alloc, host.methods, from, at)
}

// Whether the frame behind the call at an offset, if there is one, says no more of the callee's result than it declares.
fn says_at_most(
    alloc: Global,
    tree: &Tree,
    caller: &CodedMethod<'_>,
    at: u32,
    callee: &Host<'_>,
) -> Result<bool, NoMemory>
    requires { IsReadMethod callee.now.class.pool callee.now.method }
    ensures { IfOk result (λ says. IsTrue says
        ↔ ((behind : Frame)
        → frame_behind caller.now.host caller.now.frames.now at ≡ Some behind
        → ResultSaysAtMost (headers_of tree.now) (result_of (own_descriptor callee.now)) behind)) }
{
    match caller.frame_behind(at) {
        Some(behind) => Ok(result_says_at_most(alloc, tree, callee, behind)?),
        None => Ok(true),
    }
}
