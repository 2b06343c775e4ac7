//! Where a method stands in the code of a host, and which calls of initialisers are replaced there.
ghost use Rattle.std.specs.Prelude.{◌≡◌, ◌↔◌, IfOk, OnOk, IsTrue};
ghost use Rattle.expanded_code.specs.Sites.{Constructs, MayFollow};
ghost use Rattle.inline_expand.specs.Inner.Coded.{Stands};
ghost use Rattle.inline_expand.specs.Inner.Places.{IsPlace, chain_of, host_of};
ghost use Rattle.inline_expand.specs.Inner.Walks.{AreRight};

use crate::callees::find_ready;
use crate::calls::a_call_runs_one_method;
use crate::coded::CodedMethod;
use crate::ready::HostClass;
use crate::shallow::{is_none_of, is_shallow};
use crate::verdicts::Verdicts;
use class_model::{MethodAt, NoMemory};
use class_tree::a_tree_is_a_hierarchy;
use std::alloc::Global;

// A host, and behind it the most callees of a chain.
const MOST_METHODS: usize = 7;

/// Where a method stands: in the code of a host, behind a chain of callees.
#[derive(Clone, Copy)]
pub(crate) struct Place<'t, 'l> {
    /// The class of the host.
    pub(crate) class: HostClass<'t>,
    /// The host, and behind it the chain, the innermost callee first.
    pub(crate) line: &'l [MethodAt],
}

/// Whether a callee may follow the chain of a place.
pub(crate) fn may_follow(place: Place<'_, '_>, callee: MethodAt) -> bool
    requires { IsPlace place }
    ensures { IsTrue result
        ↔ MayFollow (host_of place.entry.line.now) (chain_of place.entry.line.now) callee }
{
    place.line.len() < MOST_METHODS && is_none_of(place.line, callee)
}

/// Whether the call of an instance initialiser at an offset of a method is replaced in a place with all that the initialiser calls
/// on its own uninitialised object.
///
/// # Errors
/// `NoMemory`, where memory runs out.
pub(crate) fn constructs_at(
    alloc: Global,
    place: Place<'_, '_>,
    verdicts: &mut Verdicts,
    method: &CodedMethod<'_>,
    at: u32,
) -> Result<bool, NoMemory>
    requires place { IsPlace place }
    requires right { AreRight place.class.tree.now place.class.typed.now place.class.number
        verdicts.old }
    requires method { Stands place.class.tree.now place.class.typed.now method.now }
    ensures constructs { IfOk result (λ yes. IsTrue yes
        ↔ Constructs place.entry.class.tree.now place.entry.class.typed.now
        (host_of place.entry.line.now) (chain_of place.entry.line.now) method.now.at at) }
    ensures right { OnOk result (AreRight place.entry.class.tree.now place.entry.class.typed.now
        place.entry.class.number verdicts.new) }
{
    a_tree_is_a_hierarchy(place.class.tree);
    a_call_runs_one_method();
    let Some(callee) = find_ready(alloc, place.class, verdicts, method, at)? else {
        return Ok(false);
    };
    let steps = MOST_METHODS - place.line.len();
    let shallow = is_shallow(alloc, place.class, place.line, steps, callee.at);
    // let go by a call, so that its drop is proved once
    drop(callee);
    Ok(shallow?)
}
