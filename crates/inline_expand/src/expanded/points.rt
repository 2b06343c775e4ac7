//! The points of a method in its place.
ghost use Rattle.std.specs.Prelude.{◌≡◌, ◌+◌, ◌≤◌, ◌++◌, ℕ, length, OnOk};
ghost use Rattle.expanded_code.specs.Expanded.{Setting as Standing, instr_points, points_from};
ghost use Rattle.inline_expand.specs.Inner.CalleePlaces.{AreReady, CanEnter, CanStay, HasPlace, callee_in, callee_points};
ghost use Rattle.inline_expand.specs.Inner.Settings.{IsSpot, own_point, setting_of};
ghost use Rattle.inline_expand.specs.Inner.Steps.{callees_of, expansion_by};
ghost use Rattle.member_link.specs.Scope.{instructions};

use crate::expanded::entries::push_entry;
use crate::expanded::frames::set_frame;
use crate::expanded::layouts::Layout;
use crate::expanded::places::{Found, enter, find};
use crate::expanded::returns::push_return;
use crate::expanded::settings::{Setting, Spot};
use crate::expansions::Body;
use crate::handlers::Around;
use class_model::{Frame, Instr, NoMemory, Placed};
use flow_code::Point;
use std::alloc::Global;

/// Appends the points of a method in its place, with those of its callees, which are among these bodies.
///
/// # Errors
/// `NoMemory`, where memory runs out.
#[cycle(method)]
pub(crate) fn push_method<'s, 't>(
    alloc: Global,
    points: &mut Vec<Point>,
    bodies: &'s [Body<'t>],
    layouts: &'s [Layout],
    setting: &Setting<'s, 't>,
) -> Result<(), NoMemory>
    requires ready { AreReady bodies.now layouts.now }
    requires place { HasPlace (callees_of bodies.now) setting.now }
    ensures { OnOk result (points.new.items
        ≡ points.old.items
        ++ points_from (setting_of setting.now) setting.now.base
        (setting.now.unit + setting.now.body.now.host.part.max_locals)
        (instructions setting.now.body.now.host)
        setting.now.body.now.frames.now
        (expansion_by (callees_of bodies.now) setting.now.body.now.steps)) }
{
    let body = setting.body;
    let instrs = body.host.instrs();
    let frames = body.frames;
    let steps = body.steps.as_slice();
    let mut around = Around::none(alloc);
    let mut unit = setting.unit + body.host.max_locals();
    for number in 0..instrs.len() {
        let placed = &instrs[number];
        let frame = &frames[number];
        around = setting.caught(alloc, around, placed.at)?;
        let spot = Spot {
            class: body.at.class,
            handlers: &around.handlers,
        };
        match find(bodies, layouts, &steps[number]) {
            None => push_own(alloc, points, setting, spot, placed, frame)?,
            Some(found) => {
                let entry = set_frame(alloc, setting, frame)?;
                let start = setting.base + setting.starts[number];
                push_callee(alloc, points, &found, spot, entry, start, unit)?;
                unit += found.layout.units;
            }
        }
    }
    Ok(())
}

// Appends the points in place of a call before which there is a frame: from a number and a local unit on.
#[cycle(method)]
fn push_callee<'s, 't>(
    alloc: Global,
    points: &mut Vec<Point>,
    found: &Found<'s, 't>,
    spot: Spot<'_>,
    entry: Frame,
    start: u16,
    unit: u16,
) -> Result<(), NoMemory>
    requires ready { AreReady found.now.bodies.now found.now.layouts.now }
    requires enter { CanEnter found.now start unit }
    ensures { OnOk result ((t : Standing) (at : ℕ)
        → IsSpot t at spot.entry
        → points.new.items
        ≡ points.old.items ++ callee_points t at entry start unit (callee_in found.now)) }
{
    let place = match enter(alloc, found, spot, &entry, start, unit) {
        Ok(place) => place,
        // let go by a call, so that its drop is proved once
        Err(fault) => {
            drop(entry);
            return Err(fault);
        }
    };
    match push_entry(alloc, points, spot, entry, &found.layout.shape, unit) {
        Ok(()) => {}
        Err(fault) => {
            drop(place);
            return Err(fault);
        }
    }
    let pushed = push_method(alloc, points, found.bodies, found.layouts, &place);
    drop(place);
    pushed
}

// Appends the points of an instruction that stays.
fn push_own(
    alloc: Global,
    points: &mut Vec<Point>,
    setting: &Setting<'_, '_>,
    spot: Spot<'_>,
    placed: &Placed,
    frame: &Frame,
) -> Result<(), NoMemory>
    requires stays { CanStay setting.now placed.now }
    requires long { length frame.now.locals ≡ setting.now.body.now.host.part.max_locals }
    ensures { OnOk result (IsSpot (setting_of setting.now) placed.now.at spot.entry
        → points.new.items
        ≡ points.old.items ++ instr_points (setting_of setting.now) placed.now frame.now) }
{
    let typed = set_frame(alloc, setting, frame)?;
    match &setting.call {
        None => push_set(alloc, points, setting, spot, placed, typed),
        Some(call) => match &placed.instr {
            Instr::Return(_) => {
                push_return(alloc, points, spot, typed, call.narrowed, call.behind)
            }
            _ => push_set(alloc, points, setting, spot, placed, typed),
        },
    }
}

// Appends an instruction with the frame before it, one point.
fn push_set(
    alloc: Global,
    points: &mut Vec<Point>,
    setting: &Setting<'_, '_>,
    spot: Spot<'_>,
    placed: &Placed,
    typed: Frame,
) -> Result<(), NoMemory>
    requires { CanStay setting.now placed.now }
    ensures { OnOk result (IsSpot (setting_of setting.now) placed.now.at spot.entry
        → points.new.items
        ≡ points.old.items ++ own_point (setting_of setting.now) placed.now typed) }
{
    match setting.instr(alloc, &placed.instr) {
        Ok(instr) => spot.push(points, instr, typed),
        Err(fault) => {
            drop(typed);
            Err(fault)
        }
    }
}
