//! Instructions that go to their targets alone.
ghost use Rattle.std.specs.Prelude.{◌≡◌, Some};
ghost use Rattle.code_drafts.specs.Inner.DecidedWords.{decides};
ghost use Rattle.flow_code.specs.FlatCode.{point_at};
ghost use Rattle.flow_code.specs.declared.point.Point.{Point};
ghost use Rattle.plan_flow.specs.Narrow.{HasFewLocals, IsNarrow};
ghost use Rattle.plan_flow.specs.Written.Blocks.{is_decided, state_written};
ghost use Rattle.plan_flow.specs.Written.Routes.{Route};
ghost use Rattle.plan_flow.specs.Written.Templates.{is_virtual};

use class_model::{Frame, Instr};
use flow_code::{Flat, FlatInstr};
use plan_flow::{held, operand};
use virtual_state::{Slot, VState};

/// Whether the instruction of a point goes to its target, and on nowhere else, and its jump edge has no pad: a goto, or a
/// comparison that a virtual object decides. The state is the one in which it is written.
pub fn is_decided(flat: &Flat, at: usize, state: &VState) -> bool
    requires { IsNarrow flat.now }
    ensures { (point : Point) (route : Route)
        → point_at flat.now at ≡ Some point
        → state.now ≡ state_written route
        → result ≡ is_decided point route }
{
    let Some(instr) = flat.instr(at) else {
        return false;
    };
    let Some(types) = flat.typed(at) else {
        return false;
    };
    match instr {
        FlatInstr::Of { class: _, instr } => decides(types, state, instr),
        FlatInstr::NullTest(_) => false,
    }
}

// The same of an instruction of a class.
fn decides(types: &Frame, state: &VState, instr: &Instr) -> bool
    requires { HasFewLocals types.now }
    ensures { result ≡ decides types.now state.now instr.now }
{
    match instr {
        Instr::Goto(_) => true,
        Instr::IfNull(_, _) => is_virtual(held(state, operand(types, 0))),
        Instr::IfSame(_, _) => {
            is_virtual(held(state, operand(types, 0))) || is_virtual(held(state, operand(types, 1)))
        }
        _ => false,
    }
}

// Whether a slot holds a virtual object.
fn is_virtual(slot: Slot) -> bool
    ensures { result ≡ is_virtual slot }
{
    match slot {
        Slot::Virt(_) => true,
        Slot::Plain | Slot::Unusable => false,
    }
}
