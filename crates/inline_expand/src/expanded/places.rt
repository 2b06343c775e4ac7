//! The places of callees.
ghost use Rattle.std.specs.Prelude.{◌≡◌, ℕ, None, length, IfOk, IfSome, IfNone};
ghost use Rattle.expanded_code.specs.Expanded.{Setting as Standing, callee_setting};
ghost use Rattle.inline_expand.specs.Inner.CalleePlaces.{CanEnter, HasPlace, IsFound, StandsFrom, callee_in};
ghost use Rattle.inline_expand.specs.Inner.Layouts.{replacing};
ghost use Rattle.inline_expand.specs.Inner.Settings.{IsSpot, setting_of};
ghost use Rattle.inline_expand.specs.Inner.Steps.{callees_of};
ghost use Rattle.member_link.specs.Rows.Operands.{lowest_of, under};

use crate::expanded::layouts::{Layout, points_before};
use crate::expanded::settings::{Call, Setting, Spot};
use crate::expansions::{Body, Step};
use class_model::{Frame, NoMemory, VType, VTypeList};
use std::alloc::Global;

/// The body of a callee and its layout, with those among which its own callees are.
#[derive(Clone, Copy)]
pub(crate) struct Found<'s, 't> {
    pub(crate) bodies: &'s [Body<'t>],
    pub(crate) layouts: &'s [Layout],
    pub(crate) body: &'s Body<'t>,
    pub(crate) layout: &'s Layout,
}

/// The callee that stands in place of an instruction, if one does.
pub(crate) fn find<'s, 't>(
    bodies: &'s [Body<'t>],
    layouts: &'s [Layout],
    step: &Step,
) -> Option<Found<'s, 't>>
    requires { length layouts.now ≡ length bodies.now }
    ensures some { IfSome result (IsFound bodies.now layouts.now step.now) }
    ensures none { IfNone result (replacing (callees_of bodies.now) step.now ≡ None) }
{
    let Step::Replaced(number) = step else {
        return None;
    };
    let at = *number;
    if at < bodies.len() {
        Some(Found {
            bodies: &bodies[..at],
            layouts: &layouts[..at],
            body: &bodies[at],
            layout: &layouts[at],
        })
    } else {
        None
    }
}

/// Where a callee stands in place of a call before which there is a frame: its points behind a number, its local units from one
/// on.
///
/// # Errors
/// `NoMemory`, where memory runs out.
pub(crate) fn enter<'s, 't>(
    alloc: Global,
    found: &Found<'s, 't>,
    spot: Spot<'_>,
    entry: &Frame,
    start: u16,
    unit: u16,
) -> Result<Setting<'s, 't>, NoMemory>
    requires { CanEnter found.now start unit }
    ensures place { IfOk result (HasPlace (callees_of found.now.bodies.now)) }
    ensures stands { IfOk result (StandsFrom found.now start unit) }
    ensures setting { IfOk result (λ place. (t : Standing) (at : ℕ)
        → IsSpot t at spot.entry
        → setting_of place
        ≡ callee_setting t at entry.now start unit (callee_in found.now).coded
        (callee_in found.now).inner) }
{
    let layout = found.layout;
    let stack = entry.stack.as_slice();
    let count = layout.shape.parameters.len();
    let handlers = spot.handlers.copy()?;
    let this = match lowest_of(stack, count) {
        Ok(this) => this,
        // let go by a call, so that its drop is proved once
        Err(fault) => {
            drop(handlers);
            return Err(fault);
        }
    };
    let below = match frame_under(alloc, entry, count) {
        Ok(below) => below,
        Err(fault) => {
            drop(handlers);
            drop(this);
            return Err(fault);
        }
    };
    Ok(Setting {
        body: found.body,
        starts: layout.starts.as_slice(),
        base: start + points_before(&layout.shape),
        unit,
        below,
        this,
        call: Some(Call {
            behind: start + layout.points,
            narrowed: layout.shape.narrowed,
            handlers,
        }),
    })
}

// A frame without the topmost entries of its stack, so many.
fn frame_under(alloc: Global, entry: &Frame, count: usize) -> Result<Frame, NoMemory>
    ensures { IfOk result
        (λ below. below ≡ record entry.now { stack = under count entry.now.stack }) }
{
    Ok(Frame {
        locals: entry.locals.copy(alloc)?,
        stack: under(alloc, entry.stack.as_slice(), count)?,
    })
}

// The lowest of the topmost entries of a stack, so many.
fn lowest_of(stack: &[VType], count: usize) -> Result<VType, NoMemory>
    ensures { IfOk result (λ lowest. lowest ≡ lowest_of count stack.now) }
{
    match stack.get(stack.len().saturating_sub(count)) {
        Some(lowest) => lowest.copy(),
        None => Ok(VType::Top),
    }
}

// The entries under the topmost, so many.
fn under(alloc: Global, stack: &[VType], count: usize) -> Result<VTypeList, NoMemory>
    ensures { IfOk result (λ below. below ≡ under count stack.now) }
{
    let mut below = Vec::new(alloc);
    for entry in &stack[..stack.len().saturating_sub(count)] {
        below.push(entry.copy()?)?;
    }
    Ok(VTypeList::from_vec(below))
}
