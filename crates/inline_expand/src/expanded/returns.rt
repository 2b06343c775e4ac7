//! What stands in place of a callee's return.
ghost use Rattle.std.specs.Prelude.{◌≡◌, ◌++◌, ◌∷◌, [], ℕ, IfOk, OnOk};
ghost use Rattle.class_model.specs.declared.frame.VType.TheVariants.{Int};
ghost use Rattle.class_model.specs.declared.instr.Instr.TheVariants.{Goto, Pure};
ghost use Rattle.expanded_code.specs.Expanded.{Setting, point_in};
ghost use Rattle.inline_expand.specs.Inner.Layouts.{narrowing_of};
ghost use Rattle.inline_expand.specs.Inner.Settings.{IsSpot, narrowed_points};

use crate::expanded::settings::Spot;
use crate::expanded::shapes::Narrowed;
use class_model::opcodes::{I2B, I2C, I2S, IAND};
use class_model::{Frame, Imm, Instr, NoMemory, VType, VTypeList};
use flow_code::Point;
use std::alloc::Global;

/// Appends what narrows a result to the declared type, and a goto to the point behind the call.
///
/// # Errors
/// `NoMemory`, where memory runs out.
pub(crate) fn push_return(
    alloc: Global,
    points: &mut Vec<Point>,
    spot: Spot<'_>,
    typed: Frame,
    narrowed: Narrowed,
    behind: u16,
) -> Result<(), NoMemory>
    ensures { OnOk result ((t : Setting) (at : ℕ)
        → IsSpot t at spot.entry
        → points.new.items
        ≡ points.old.items
        ++ (narrowed_points t at typed narrowed ++ point_in t at typed (Goto behind) ∷ [])) }
{
    push_narrowed(alloc, points, spot, &typed, narrowed)?;
    spot.push(points, Instr::Goto(u32::from(behind)), typed)
}

// Appends what narrows a result.
fn push_narrowed(
    alloc: Global,
    points: &mut Vec<Point>,
    spot: Spot<'_>,
    typed: &Frame,
    narrowed: Narrowed,
) -> Result<(), NoMemory>
    ensures { OnOk result ((t : Setting) (at : ℕ)
        → IsSpot t at spot.entry
        → points.new.items ≡ points.old.items ++ narrowed_points t at typed.now narrowed) }
{
    match narrowed {
        Narrowed::Same => Ok(()),
        Narrowed::ToByte => push_pure(alloc, points, spot, typed, I2B),
        Narrowed::ToShort => push_pure(alloc, points, spot, typed, I2S),
        Narrowed::ToChar => push_pure(alloc, points, spot, typed, I2C),
        Narrowed::ToBool => push_mask(alloc, points, spot, typed),
    }
}

// Appends a conversion.
fn push_pure(
    alloc: Global,
    points: &mut Vec<Point>,
    spot: Spot<'_>,
    typed: &Frame,
    opcode: u8,
) -> Result<(), NoMemory>
    ensures { OnOk result ((t : Setting) (at : ℕ)
        → IsSpot t at spot.entry
        → points.new.items
        ≡ points.old.items ++ point_in t at typed.now (Pure opcode) ∷ []) }
{
    spot.push_copy(alloc, points, Instr::Pure(opcode), typed)
}

// Appends what keeps the lowest bit of an int.
fn push_mask(
    alloc: Global,
    points: &mut Vec<Point>,
    spot: Spot<'_>,
    typed: &Frame,
) -> Result<(), NoMemory>
    ensures { OnOk result ((t : Setting) (at : ℕ)
        → IsSpot t at spot.entry
        → points.new.items ≡ points.old.items ++ narrowed_points t at typed.now Narrowed.ToBool) }
{
    spot.push_copy(alloc, points, Instr::Const(Imm::Int(1)), typed)?;
    spot.push(points, Instr::Pure(IAND), with_int(alloc, typed)?)
}

// A frame with an int on top of its stack.
fn with_int(alloc: Global, typed: &Frame) -> Result<Frame, NoMemory>
    ensures { IfOk result
        (λ frame. frame ≡ record typed.now { stack = typed.now.stack ++ Int ∷ [] }) }
{
    let (locals, stack) = typed.copy(alloc)?.into_parts();
    let mut above = stack.into_vec();
    match above.push(VType::Int) {
        Ok(()) => Ok(Frame {
            locals,
            stack: VTypeList::from_vec(above),
        }),
        // let go by a call, so that its drop is proved once
        Err(_) => {
            drop(locals);
            Err(NoMemory)
        }
    }
}
