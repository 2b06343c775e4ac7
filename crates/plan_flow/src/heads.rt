//! The heads of the blocks of flat code.
ghost use Rattle.std.specs.Prelude.{◌≡◌, ◌<◌, ◌-◌, ◌^◌, ◌||◌, ◌∷◌, [], IfOk, length, if◌then◌else◌};
ghost use Rattle.flow_code.specs.FlatCode.{point_at};
ghost use Rattle.flow_code.specs.declared.point.Point.{Point};
ghost use Rattle.plan_flow.specs.Inner.Blocks.{AreHeads, AreMarked, IsMarkedBy, has_some, may_throw as throws_by_its_form, throws_by_form as form_throws};
ghost use Rattle.plan_flow.specs.Inner.Sharing.{AreTargets};
ghost use Rattle.plan_flow.specs.Narrow.{IsNarrow};
ghost use Rattle.plan_flow.specs.PlanTable.{targets_at};

use crate::edges::target;
use crate::handler_targets::HandlerTargets;
use class_model::{Instr, NoMemory};
use flow_code::{Flat, FlatInstr};
use std::alloc::Global;

/// Marks of the heads of all blocks, one for each point.
///
/// # Errors
/// `NoMemory`, where memory runs out.
pub(crate) fn heads_of(
    alloc: Global,
    flat: &Flat,
    targets: &HandlerTargets,
) -> Result<Vec<bool>, NoMemory>
    requires narrow { IsNarrow flat.now }
    requires targets { AreTargets flat.now targets.now }
    ensures { IfOk result (λ heads. AreHeads flat.now heads.items) }
{
    let mut heads = Vec::new(alloc);
    heads.resize(flat.len(), false)?;
    mark(&mut heads, 0);
    for at in 0..flat.len() {
        mark_by(&mut heads, flat, targets, at);
    }
    Ok(heads)
}

// Marks the heads that a point makes.
fn mark_by(heads: &mut Vec<bool>, flat: &Flat, targets: &HandlerTargets, at: usize)
    requires narrow { IsNarrow flat.now }
    requires targets { AreTargets flat.now targets.now }
    requires inside { at < 2 ^ 64 - 1 }
    ensures { (point : Point)
        → point_at flat.now at ≡ Some point
        → IsMarkedBy at point heads.old.items heads.new.items }
{
    let Some(instr) = flat.instr(at) else {
        return;
    };
    let caught = caught_by(instr, targets.at(at));
    mark_targets(heads, instr);
    mark_all(heads, caught);
    if branches(instr, caught) {
        mark(heads, at + 1);
    }
}

// The points to which an instruction has edges by handlers that lead to these.
fn caught_by<'t>(instr: &FlatInstr, targets: &'t [usize]) -> &'t [usize]
    ensures { result.now ≡ (if throws_by_its_form instr.now then targets.now else []) }
{
    if may_throw(instr) { targets } else { &[] }
}

// Whether an instruction has an edge to a target or to one of these points.
fn branches(instr: &FlatInstr, caught: &[usize]) -> bool
    ensures { result ≡ (has_some (targets_at instr.now) || has_some caught.now) }
{
    target(instr, 0).is_some() || !caught.is_empty()
}

// Marks the targets of an instruction.
fn mark_targets(heads: &mut Vec<bool>, instr: &FlatInstr)
    requires { length (targets_at instr.now) < 2 ^ 32 }
    ensures { AreMarked heads.old.items heads.new.items (targets_at instr.now) }
{
    let mut number = 0;
    while let Some(to) = target(instr, number) {
        mark(heads, to as usize);
        number += 1;
    }
}

// Marks points.
fn mark_all(heads: &mut Vec<bool>, points: &[usize])
    ensures { AreMarked heads.old.items heads.new.items points.now }
{
    for to in points {
        mark(heads, *to);
    }
}

// Marks a point, if there is one of this number.
fn mark(heads: &mut Vec<bool>, at: usize)
    ensures { AreMarked heads.old.items heads.new.items (at ∷ []) }
{
    if at < heads.len() {
        heads[at] = true;
    }
}

// Whether an instruction may throw, by its form.
fn may_throw(instr: &FlatInstr) -> bool
    ensures { result ≡ throws_by_its_form instr.now }
{
    match instr {
        FlatInstr::Of { instr, .. } => throws_by_form(instr),
        FlatInstr::NullTest(_) => true,
    }
}

// The same of an instruction of a class.
fn throws_by_form(instr: &Instr) -> bool
    ensures { result ≡ form_throws instr.now }
{
    matches!(
        instr,
        Instr::ArrayLoad(_)
            | Instr::ArrayStore(_)
            | Instr::Divide(_)
            | Instr::PutStatic(_)
            | Instr::GetField(_)
            | Instr::PutField(_)
            | Instr::Invoke(..)
            | Instr::Dynamic(_)
            | Instr::NewArray(_)
            | Instr::NewRefArray(_)
            | Instr::NewMulti(..)
            | Instr::Length
            | Instr::Throw
            | Instr::Cast(_)
            | Instr::Enter
            | Instr::Leave
    )
}
