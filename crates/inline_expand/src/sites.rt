//! Which objects of a method may be kept in local variables: the candidate sites.
ghost use Rattle.std.specs.Prelude.{◌≡◌, IfOk, OnOk, length, slice_get};
ghost use Rattle.std.specs.Option.{option_copied};
ghost use Rattle.inline_expand.specs.Inner.Coded.{Stands};
ghost use Rattle.inline_expand.specs.Inner.Places.{IsPlace, chain_of, host_of};
ghost use Rattle.inline_expand.specs.Inner.SiteTables.{AreCandidates, AreSites, IsCandidateOf, IsNewInitialised, IsSiteFound, SpoilsAt, class_made, joined, new_of};
ghost use Rattle.inline_expand.specs.Inner.Walks.{AreRight};
ghost use Rattle.member_link.specs.Scope.{instructions};

use crate::candidates::Candidates;
use crate::coded::CodedMethod;
use crate::initialised::{Object, initialisation_at};
use crate::places::{Place, constructs_at};
use crate::verdicts::Verdicts;
use class_model::{Instr, NoMemory, Text};
use std::alloc::Global;

/// The candidate sites of a method in a place: for each instruction the class of the object that it makes, if it is one.
///
/// # Errors
/// `NoMemory`, where memory runs out.
pub(crate) fn sites_of(
    alloc: Global,
    candidates: &mut Candidates<'_>,
    place: Place<'_, '_>,
    verdicts: &mut Verdicts,
    method: &CodedMethod<'_>,
) -> Result<Vec<Option<Text>>, NoMemory>
    requires place { IsPlace place }
    requires classes { candidates.old ≡ place.class.tree.now }
    requires right { AreRight place.class.tree.now place.class.typed.now place.class.number
        verdicts.old }
    requires method { Stands place.class.tree.now place.class.typed.now method.now }
    ensures sites { IfOk result (λ sites. AreSites place.entry.class.tree.now
        place.entry.class.typed.now (host_of place.entry.line.now) (chain_of place.entry.line.now)
        method.now (length (instructions method.now.host)) sites.items) }
    ensures right { OnOk result (AreRight place.entry.class.tree.now place.entry.class.typed.now
        place.entry.class.number verdicts.new) }
    ensures classes { candidates.new ≡ candidates.old }
{
    let instrs = method.host.instrs();
    let mut sites = candidates_of(alloc, candidates, method)?;
    for number in 0..instrs.len() {
        spoil(
            alloc,
            place,
            verdicts,
            method,
            instrs[number].at,
            &mut sites,
        )?;
    }
    Ok(sites)
}

// For each instruction the class of the object that it makes, if that is a candidate.
fn candidates_of(
    alloc: Global,
    candidates: &mut Candidates<'_>,
    method: &CodedMethod<'_>,
) -> Result<Vec<Option<Text>>, NoMemory>
    ensures found { IfOk result (λ classes. AreCandidates candidates.old method.now.host
        (length (instructions method.now.host)) classes.items) }
    ensures classes { candidates.new ≡ candidates.old }
{
    let instrs = method.host.instrs();
    let mut classes = Vec::with_capacity(alloc, instrs.len())?;
    for number in 0..instrs.len() {
        classes.push(candidate_of(alloc, candidates, method, &instrs[number].instr)?)?;
    }
    Ok(classes)
}

// The class of the object that an instruction makes, if that is a candidate.
fn candidate_of(
    alloc: Global,
    candidates: &mut Candidates<'_>,
    method: &CodedMethod<'_>,
    instr: &Instr,
) -> Result<Option<Text>, NoMemory>
    ensures found { IfOk result
        (IsCandidateOf candidates.old (class_made method.now.host instr.now)) }
    ensures classes { candidates.new ≡ candidates.old }
{
    let Some(class) = class_made(method, instr) else {
        return Ok(None);
    };
    if candidates.is_candidate(alloc, class)? {
        Ok(Some(class.copy()?))
    } else {
        Ok(None)
    }
}

// The class of the object that an instruction makes, if it is a `new`.
fn class_made<'a>(method: &CodedMethod<'a>, instr: &Instr) -> Option<&'a Text>
    ensures { option_copied result ≡ class_made method.now.host instr.now }
{
    match instr {
        Instr::New(index) => method.host.pool().class_name(*index),
        _ => None,
    }
}

// Takes a site away if the call at an offset is of an initialiser on its object and is not replaced.
fn spoil(
    alloc: Global,
    place: Place<'_, '_>,
    verdicts: &mut Verdicts,
    method: &CodedMethod<'_>,
    at: u32,
    sites: &mut Vec<Option<Text>>,
) -> Result<(), NoMemory>
    requires place { IsPlace place }
    requires right { AreRight place.class.tree.now place.class.typed.now place.class.number
        verdicts.old }
    requires method { Stands place.class.tree.now place.class.typed.now method.now }
    requires long { length sites.old.items ≡ length (instructions method.now.host) }
    ensures sites { OnOk result (SpoilsAt place.entry.class.tree.now place.entry.class.typed.now
        (host_of place.entry.line.now) (chain_of place.entry.line.now) method.now at sites.old.items
        sites.new.items) }
    ensures right { OnOk result (AreRight place.entry.class.tree.now place.entry.class.typed.now
        place.entry.class.number verdicts.new) }
{
    let Some(new) = new_initialised_at(method, at) else {
        return Ok(());
    };
    let number = method.host.number(new) as usize;
    if entry(sites.as_slice(), number).is_none() {
        return Ok(());
    }
    if constructs_at(alloc, place, verdicts, method, at)? {
        return Ok(());
    }
    sites[number] = None;
    Ok(())
}

// The offset of the `new` of the object that an initialiser is called on at an offset.
fn new_initialised_at(method: &CodedMethod<'_>, at: u32) -> Option<u32>
    ensures { IsNewInitialised method.now at result }
{
    match initialisation_at(method, at) {
        Some(call) => new_of(call.object),
        None => None,
    }
}

// The offset of the `new` of an object, if it is not the one of the initialiser itself.
fn new_of(object: Object) -> Option<u32>
    ensures { result ≡ new_of object }
{
    match object {
        Object::New(new) => Some(new),
        Object::This => None,
    }
}

// The class of the site of an instruction, if the table has one.
fn entry(sites: &[Option<Text>], number: usize) -> Option<&Text>
    ensures { option_copied result ≡ joined (slice_get sites.now number) }
{
    match sites.get(number) {
        Some(site) => site.as_ref(),
        None => None,
    }
}

/// The class of the candidate site at an offset, by the table of a method's sites.
pub(crate) fn site_at<'s>(
    place: Place<'_, '_>,
    method: &CodedMethod<'_>,
    sites: &'s [Option<Text>],
    at: u32,
) -> Option<&'s Text>
    requires sites { AreSites place.class.tree.now place.class.typed.now
        (host_of place.line.now) (chain_of place.line.now) method.now
        (length (instructions method.now.host)) sites.now }
    requires method { Stands place.class.tree.now place.class.typed.now method.now }
    ensures { IsSiteFound place.entry.class.tree.now place.entry.class.typed.now
        (host_of place.entry.line.now) (chain_of place.entry.line.now) method.now.at at
        (option_copied result) }
{
    entry(sites, method.host.number(at) as usize)
}
