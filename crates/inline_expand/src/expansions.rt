//! What becomes of each instruction where callees stand in place of their calls.
ghost use Rattle.std.specs.Prelude.{◌≡◌, ◌∷◌, ◌≤◌, IfOk, OnOk, length, slice_get, Some};
ghost use Rattle.expanded_code.specs.Sites.{IsReplaced};
ghost use Rattle.inline_expand.specs.Inner.Coded.{Stands};
ghost use Rattle.inline_expand.specs.Inner.Growths.{HasGrown, IsExpansionFound, IsStepFound, AreStepsFound, MayGrow, IsBodyFound};
ghost use Rattle.inline_expand.specs.Inner.Places.{IsPlace, chain_of, host_of};
ghost use Rattle.inline_expand.specs.Inner.SiteTables.{AreSites};
ghost use Rattle.inline_expand.specs.Inner.Walks.{AreRight};
ghost use Rattle.member_link.specs.Scope.{instructions};

use crate::calls::a_call_runs_one_method;
use crate::candidates::Candidates;
use crate::coded::CodedMethod;
use crate::folder_methods::FolderMethods;
use crate::host::Host;
use crate::known_frames::KnownFrames;
use crate::places::Place;
use crate::ready::HostClass;
use crate::replaced::replaced_at;
use crate::sites::{site_at, sites_of};
use crate::verdicts::Verdicts;
use class_model::{Frame, ListOf, MethodAt, NoMemory, Placed, Text};
use class_tree::{Tree, a_tree_is_a_hierarchy};
use std::alloc::Global;
use std::mem;

/// What becomes of an instruction.
pub(crate) enum Step {
    /// It stays as it is.
    Stays,
    /// It makes an object of this class, which may be kept in locals.
    Site(Text),
    /// The callee's body of this number stands in its place.
    Replaced(usize),
}

// Written out: a derived drop would be spelled out, field by field, in each function that drops one, and be proved there.
impl Drop for Step {
    fn drop(self) {
        match self {
            Step::Stays => {}
            Step::Site(_) => {}
            Step::Replaced(_) => {}
        }
    }
}

/// A method in flat code, with the frames that type it and a step for each of its instructions. Steps name bodies
/// that stand before it.
pub(crate) struct Body<'t> {
    pub(crate) at: MethodAt,
    pub(crate) host: Host<'t>,
    pub(crate) frames: &'t [Frame],
    pub(crate) steps: ListOf<Step>,
}

// Written out: a derived drop would be spelled out, field by field, in each function that drops one, and be proved there.
impl Drop for Body<'_> {
    fn drop(self) {
        let Body {
            at: _,
            host: _,
            frames: _,
            steps: _,
        } = self;
    }
}

/// What becomes of the instructions of a host: its body, and those of the callees in it, each behind those of its own callees.
pub(crate) struct HostBodies<'t> {
    pub(crate) body: Body<'t>,
    pub(crate) callees: Vec<Body<'t>>,
}

// Written out: a derived drop would be spelled out, field by field, in each function that drops one, and be proved there.
impl Drop for HostBodies<'_> {
    fn drop(self) {
        let HostBodies {
            body: _,
            callees: _,
        } = self;
    }
}

/// What was made so far: verdicts, bodies, and how many steps more there may be that leave an instruction in its place.
#[derive(Drop)]
pub(crate) struct Growth<'t> {
    pub(crate) verdicts: Verdicts,
    pub(crate) bodies: Vec<Body<'t>>,
    pub(crate) left: usize,
}

/// What becomes of the instructions of a host; none where there are more than so many points in any case: it ends as soon as
/// this is known. What is found of methods is kept among the verdicts, which are of hosts of the same class.
///
/// # Errors
/// `NoMemory`, where memory runs out.
pub(crate) fn expansion_of<'t>(
    alloc: Global,
    candidates: &mut Candidates<'_>,
    verdicts: &mut Verdicts,
    methods: &'t FolderMethods<'t>,
    tree: &'t Tree,
    typed: &'t KnownFrames<'t>,
    host: CodedMethod<'t>,
    most: usize,
) -> Result<Option<HostBodies<'t>>, NoMemory>
    requires classes { candidates.old ≡ tree.now }
    requires methods { methods.now ≡ tree.now }
    requires right { AreRight tree.now typed.now host.at.class verdicts.old }
    requires host { Stands tree.now typed.now host }
    ensures expansion { IfOk result (IsExpansionFound tree.now typed.now host.entry most) }
    ensures right { AreRight tree.now typed.now host.entry.at.class verdicts.new }
    ensures classes { candidates.new ≡ candidates.old }
{
    let Some(class) = tree.folder().get(host.at.class) else {
        unreachable!()
    };
    let class = HostClass {
        tree,
        methods,
        typed,
        number: host.at.class,
        class,
    };
    let line = match vec![in alloc; host.at] {
        Ok(line) => line,
        // let go by a call, so that its drop is proved once
        Err(_) => {
            drop(host);
            return Err(NoMemory);
        }
    };
    let place = Place {
        class,
        line: line.as_slice(),
    };
    let mut growth = Growth {
        verdicts: mem::replace(verdicts, Verdicts::new(alloc)),
        bodies: Vec::new(alloc),
        left: most,
    };
    let found = match steps_of(alloc, candidates, place, &host, &mut growth) {
        Ok(found) => found,
        Err(fault) => {
            drop(growth);
            drop(host);
            return Err(fault);
        }
    };
    let Growth {
        verdicts: grown,
        bodies: callees,
        ..
    } = growth;
    drop(mem::replace(verdicts, grown));
    match found {
        Some(steps) => Ok(Some(HostBodies {
            body: body_of(host, steps),
            callees,
        })),
        None => {
            drop(host);
            Ok(None)
        }
    }
}

// The body of a method with these steps.
fn body_of(method: CodedMethod<'_>, steps: ListOf<Step>) -> Body<'_>
    ensures at { result.at ≡ method.entry.at }
    ensures host { result.host ≡ method.entry.host }
    ensures frames { result.frames.now ≡ method.entry.frames.now }
    ensures steps { result.steps ≡ steps }
{
    let CodedMethod { at, host, frames } = method;
    Body {
        at,
        host,
        frames,
        steps,
    }
}

// The steps of a method in a place.
#[cycle(expansion)]
fn steps_of<'t>(
    alloc: Global,
    candidates: &mut Candidates<'_>,
    place: Place<'t, '_>,
    method: &CodedMethod<'_>,
    growth: &mut Growth<'t>,
) -> Result<Option<ListOf<Step>>, NoMemory>
    requires place { IsPlace place }
    requires classes { candidates.old ≡ place.class.tree.now }
    requires growth { MayGrow place.class growth.old }
    requires method { Stands place.class.tree.now place.class.typed.now method.now }
    ensures steps { IfOk result (AreStepsFound place.entry.class.tree.now
        place.entry.class.typed.now (host_of place.entry.line.now) (chain_of place.entry.line.now)
        method.now growth.old growth.new) }
    ensures growth { OnOk result (HasGrown place.entry.class growth.old growth.new) }
    ensures classes { candidates.new ≡ candidates.old }
{
    a_tree_is_a_hierarchy(place.class.tree);
    a_call_runs_one_method();
    let instrs = method.host.instrs();
    let sites = sites_of(alloc, candidates, place, &mut growth.verdicts, method)?;
    let mut steps = ListOf::new(alloc);
    for number in 0..instrs.len() {
        let placed = &instrs[number];
        let found = step_at(
            alloc,
            candidates,
            place,
            method,
            sites.as_slice(),
            placed,
            growth,
        )?;
        let Some(step) = found else {
            return Ok(None);
        };
        steps.push(step)?;
    }
    Ok(Some(steps))
}

// What becomes of an instruction of a method in a place, by the table of the method's sites.
#[cycle(expansion)]
fn step_at<'t>(
    alloc: Global,
    candidates: &mut Candidates<'_>,
    place: Place<'t, '_>,
    method: &CodedMethod<'_>,
    sites: &[Option<Text>],
    placed: &Placed,
    growth: &mut Growth<'t>,
) -> Result<Option<Step>, NoMemory>
    requires place { IsPlace place }
    requires classes { candidates.old ≡ place.class.tree.now }
    requires growth { MayGrow place.class growth.old }
    requires method { Stands place.class.tree.now place.class.typed.now method.now }
    requires sites { AreSites place.class.tree.now place.class.typed.now
        (host_of place.line.now) (chain_of place.line.now) method.now
        (length (instructions method.now.host)) sites.now }
    ensures step { IfOk result (IsStepFound place.entry.class.tree.now
        place.entry.class.typed.now (host_of place.entry.line.now) (chain_of place.entry.line.now)
        method.now.at placed.now growth.old growth.new) }
    ensures growth { OnOk result (HasGrown place.entry.class growth.old growth.new) }
    ensures classes { candidates.new ≡ candidates.old }
{
    a_tree_is_a_hierarchy(place.class.tree);
    a_call_runs_one_method();
    let found = replaced_at(alloc, place, &mut growth.verdicts, method, sites, placed.at)?;
    if let Some(callee) = found {
        let step = replace(alloc, candidates, place, callee, growth)?;
        return Ok(step);
    }
    if growth.left == 0 {
        return Ok(None);
    }
    growth.left -= 1;
    match site_at(place, method, sites, placed.at) {
        Some(class) => Ok(Some(Step::Site(class.copy()?))),
        None => Ok(Some(Step::Stays)),
    }
}

// Makes the body of a callee that replaces a call in a place.
#[cycle(expansion)]
fn replace<'t>(
    alloc: Global,
    candidates: &mut Candidates<'_>,
    place: Place<'t, '_>,
    callee: CodedMethod<'t>,
    growth: &mut Growth<'t>,
) -> Result<Option<Step>, NoMemory>
    requires place { IsPlace place }
    requires classes { candidates.old ≡ place.class.tree.now }
    requires growth { MayGrow place.class growth.old }
    requires callee { Stands place.class.tree.now place.class.typed.now callee }
    requires short { length place.line.now ≤ 6 }
    ensures step { IfOk result (IsBodyFound place.entry.class.tree.now place.entry.class.typed.now
        (host_of place.entry.line.now) (chain_of place.entry.line.now) callee.entry growth.old growth.new) }
    ensures growth { OnOk result (HasGrown place.entry.class growth.old growth.new) }
    ensures classes { candidates.new ≡ candidates.old }
{
    let line = line_behind(alloc, place.line, callee.at)?;
    let inner = Place {
        class: place.class,
        line: line.as_slice(),
    };
    let Some(steps) = steps_of(alloc, candidates, inner, &callee, growth)? else {
        return Ok(None);
    };
    let number = growth.bodies.as_slice().len();
    growth.bodies.push(body_of(callee, steps))?;
    Ok(Some(Step::Replaced(number)))
}

// The host and its chain, with a callee in front of the chain.
fn line_behind(
    alloc: Global,
    line: &[MethodAt],
    callee: MethodAt,
) -> Result<Vec<MethodAt>, NoMemory>
    requires { 1 ≤ length line.now }
    ensures { IfOk result (λ inner. inner.items ≡ host_of line.now ∷ callee ∷ chain_of line.now) }
{
    let Some((host, chain)) = line.split_first() else {
        unreachable!()
    };
    let mut inner = Vec::new(alloc);
    inner.push(*host)?;
    inner.push(callee)?;
    inner.extend_from_slice(chain)?;
    Ok(inner)
}
