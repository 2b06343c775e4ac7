//! What stands in place of a call before the callee's own instructions.
ghost use Rattle.std.specs.Prelude.{◌≡◌, ◌+◌, ◌≤◌, ◌++◌, ◌∷◌, [], ℕ, map, reverse, IfOk, OnOk};
ghost use Rattle.class_model.specs.declared.instr.Instr.TheVariants.{Store};
ghost use Rattle.expanded_code.specs.Expanded.{Setting, frame_behind_stores, frame_stored, point_in, points_of_entry, store_points};
ghost use Rattle.inline_expand.specs.Inner.Layouts.{AreWithin, IsShape, argument_from};
ghost use Rattle.inline_expand.specs.Inner.Settings.{IsSpot};
ghost use Rattle.member_link.specs.Scope.{Scope};

use crate::expanded::frames::stored;
use crate::expanded::settings::Spot;
use crate::expanded::shapes::{Parameter, Shape};
use class_model::{Frame, Instr, NoMemory};
use flow_code::Point;
use std::alloc::Global;

/// Appends the stores of a callee's arguments, the last first, and the test of its receiver. Its units begin at one.
///
/// # Errors
/// `NoMemory`, where memory runs out.
pub(crate) fn push_entry(
    alloc: Global,
    points: &mut Vec<Point>,
    spot: Spot<'_>,
    frame: Frame,
    shape: &Shape,
    unit: u16,
) -> Result<(), NoMemory>
    requires { AreWithin unit shape.now.parameters.items }
    ensures { OnOk result ((t : Setting) (at : ℕ) (s : Scope)
        → IsSpot t at spot.entry
        → IsShape s shape.now
        → points.new.items ≡ points.old.items ++ points_of_entry t at frame s unit) }
{
    let behind = push_stores(alloc, points, spot, frame, &shape.parameters, unit)?;
    if shape.tests_receiver {
        points.push(spot.null_test(unit, behind)?)?;
    } else {
        drop(behind);
    }
    Ok(())
}

// Appends the stores of arguments, the last first, and gives the frame behind them.
fn push_stores(
    alloc: Global,
    points: &mut Vec<Point>,
    spot: Spot<'_>,
    frame: Frame,
    parameters: &[Parameter],
    unit: u16,
) -> Result<Frame, NoMemory>
    requires { AreWithin unit parameters.now }
    ensures points { OnOk result ((t : Setting) (at : ℕ)
        → IsSpot t at spot.entry
        → points.new.items
        ≡ points.old.items
        ++ store_points t at frame (reverse (map (argument_from unit) parameters.now))) }
    ensures behind { IfOk result (λ behind. behind
        ≡ frame_behind_stores frame (reverse (map (argument_from unit) parameters.now))) }
{
    let mut frame = frame;
    let mut left = parameters.len();
    while left > 0 {
        left -= 1;
        let Some(parameter) = parameters.get(left) else {
            unreachable!()
        };
        frame = push_store(alloc, points, spot, frame, parameter, unit)?;
    }
    Ok(frame)
}

// Appends the store of an argument, and gives the frame behind it.
fn push_store(
    alloc: Global,
    points: &mut Vec<Point>,
    spot: Spot<'_>,
    frame: Frame,
    parameter: &Parameter,
    unit: u16,
) -> Result<Frame, NoMemory>
    requires { unit + parameter.now.unit ≤ 65535 }
    ensures point { OnOk result ((t : Setting) (at : ℕ)
        → IsSpot t at spot.entry
        → points.new.items
        ≡ points.old.items
        ++ point_in t at frame (Store parameter.now.kind (unit + parameter.now.unit)) ∷ []) }
    ensures behind { IfOk result
        (λ behind. behind ≡ frame_stored frame (argument_from unit parameter.now)) }
{
    let local = unit + parameter.unit;
    match spot.push_copy(alloc, points, Instr::Store(parameter.kind, local), &frame) {
        Ok(()) => stored(frame, local),
        // let go by a call, so that its drop is proved once
        Err(fault) => {
            drop(frame);
            Err(fault)
        }
    }
}
