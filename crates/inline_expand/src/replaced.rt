//! Which calls of a method are replaced by their callees.
ghost use Rattle.std.specs.Prelude.{◌≡◌, ◌↔◌, IfOk, OnOk, IsTrue, length};
ghost use Rattle.inline_expand.specs.Inner.Coded.{Stands};
ghost use Rattle.inline_expand.specs.Inner.Places.{IsPlace, chain_of, host_of};
ghost use Rattle.inline_expand.specs.Inner.Replacements.{InitialisesKept, IsReplacementFound};
ghost use Rattle.inline_expand.specs.Inner.SiteTables.{AreSites};
ghost use Rattle.inline_expand.specs.Inner.Walks.{AreRight};
ghost use Rattle.member_link.specs.Scope.{instructions};

use crate::callees::find_ready;
use crate::coded::CodedMethod;
use crate::initialised::{Object, initialisation_at};
use crate::places::{Place, constructs_at, may_follow};
use crate::sites::site_at;
use crate::verdicts::Verdicts;
use class_model::{NoMemory, Text};
use std::alloc::Global;

/// The callee that replaces the call at an offset of a method in a place, by the table of the method's sites.
///
/// # Errors
/// `NoMemory`, where memory runs out.
pub(crate) fn replaced_at<'t>(
    alloc: Global,
    place: Place<'t, '_>,
    verdicts: &mut Verdicts,
    method: &CodedMethod<'_>,
    sites: &[Option<Text>],
    at: u32,
) -> Result<Option<CodedMethod<'t>>, NoMemory>
    requires place { IsPlace place }
    requires right { AreRight place.class.tree.now place.class.typed.now place.class.number
        verdicts.old }
    requires method { Stands place.class.tree.now place.class.typed.now method.now }
    requires sites { AreSites place.class.tree.now place.class.typed.now
        (host_of place.line.now) (chain_of place.line.now) method.now
        (length (instructions method.now.host)) sites.now }
    ensures callee { IfOk result (IsReplacementFound place.entry.class.tree.now
        place.entry.class.typed.now (host_of place.entry.line.now) (chain_of place.entry.line.now)
        method.now.at at) }
    ensures right { OnOk result (AreRight place.entry.class.tree.now place.entry.class.typed.now
        place.entry.class.number verdicts.new) }
{
    let Some(callee) = find_ready(alloc, place.class, verdicts, method, at)? else {
        return Ok(None);
    };
    if !may_follow(place, callee.at) {
        // let go by a call, so that its drop is proved once
        drop(callee);
        return Ok(None);
    }
    match initialises_kept(alloc, place, verdicts, method, sites, at) {
        Ok(true) => Ok(Some(callee)),
        Ok(false) => {
            drop(callee);
            Ok(None)
        }
        Err(fault) => {
            drop(callee);
            Err(fault)
        }
    }
}

// Whether the object on which an initialiser is called at an offset, if one is, may be kept in locals: that of a site, or that of a method
// that is an initialiser itself, with all that the called one calls on it.
fn initialises_kept(
    alloc: Global,
    place: Place<'_, '_>,
    verdicts: &mut Verdicts,
    method: &CodedMethod<'_>,
    sites: &[Option<Text>],
    at: u32,
) -> Result<bool, NoMemory>
    requires place { IsPlace place }
    requires right { AreRight place.class.tree.now place.class.typed.now place.class.number
        verdicts.old }
    requires method { Stands place.class.tree.now place.class.typed.now method.now }
    requires sites { AreSites place.class.tree.now place.class.typed.now
        (host_of place.line.now) (chain_of place.line.now) method.now
        (length (instructions method.now.host)) sites.now }
    ensures kept { IfOk result (λ yes. IsTrue yes
        ↔ InitialisesKept place.entry.class.tree.now place.entry.class.typed.now
        (host_of place.entry.line.now) (chain_of place.entry.line.now) method.now at) }
    ensures right { OnOk result (AreRight place.entry.class.tree.now place.entry.class.typed.now
        place.entry.class.number verdicts.new) }
{
    let Some(call) = initialisation_at(method, at) else {
        return Ok(true);
    };
    match call.object {
        Object::New(new) => Ok(site_at(place, method, sites, new).is_some()),
        Object::This => {
            if !method.host.is_initialiser() {
                return Ok(false);
            }
            let is_kept = constructs_at(alloc, place, verdicts, method, at)?;
            Ok(is_kept)
        }
    }
}
