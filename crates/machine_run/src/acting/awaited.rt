//! What an operation waits for while the library has its turn (this project's profile).
ghost use Rattle.std.specs.Prelude.{◌≡◌, is_some, option_map};
ghost use Rattle.std.specs.Option.{option_copied};
ghost use Rattle.class_model.specs.Descriptors.{type_of};
ghost use Rattle.member_link.specs.Machine.Acting.{pending_of};
ghost use Rattle.member_link.specs.Rows.ArithmeticRows.{float_operations, operation_in};
ghost use Rattle.member_link.specs.RunOps.{op_of};
ghost use Rattle.machine_run.specs.Inner.ActingWords.{awaited_type, computed_type, may_throw};

use class_model::opcodes::{
    D2F, D2I, D2L, DADD, DCMPG, DCMPL, DDIV, DMUL, DNEG, DREM, DSUB, F2D, F2I, F2L, FADD, FCMPG,
    FCMPL, FDIV, FMUL, FNEG, FREM, FSUB, I2D, I2F, L2D, L2F,
};
use member_link::{RunOp, result_text};

/// Whether an operation waits for the library. It does not allocate.
pub(crate) fn is_awaited(op: &RunOp) -> bool
    ensures { result ≡ is_some (pending_of (op_of op.now)) }
{
    match op {
        RunOp::CallStatic(_)
        | RunOp::CallVirtual(_)
        | RunOp::CallInterface(_)
        | RunOp::CallDynamic(_)
        | RunOp::GetStatic(_)
        | RunOp::GetField(_)
        | RunOp::PutStatic(_)
        | RunOp::PutField(_) => true,
        RunOp::CallSpecial(call) => call.from.is_some(),
        RunOp::Float(opcode) => computed_text(*opcode).is_some(),
        _ => false,
    }
}

/// Whether the library may throw in place of an answer. It does not allocate.
pub(crate) fn may_throw(op: &RunOp) -> bool
    ensures { result ≡ may_throw (pending_of (op_of op.now)) }
{
    match op {
        RunOp::CallStatic(_)
        | RunOp::CallVirtual(_)
        | RunOp::CallInterface(_)
        | RunOp::CallDynamic(_) => true,
        RunOp::CallSpecial(call) => call.from.is_some(),
        _ => false,
    }
}

/// The text of the type of the value for which an operation waits, if it waits for one. It does not allocate.
pub(crate) fn awaited_text(op: &RunOp) -> Option<&[u8]>
    ensures { option_map type_of (option_copied result) ≡ awaited_type (pending_of (op_of op.now)) }
{
    match op {
        RunOp::CallStatic(call) | RunOp::CallVirtual(call) | RunOp::CallInterface(call) => {
            result_text(call.named.desc.bytes())
        }
        RunOp::CallSpecial(call) => match &call.from {
            Some(_) => result_text(call.named.desc.bytes()),
            None => None,
        },
        RunOp::CallDynamic(call) => result_text(call.desc.bytes()),
        RunOp::GetStatic(field) | RunOp::GetField(field) => Some(field.named.desc.bytes()),
        RunOp::Float(opcode) => computed_text(*opcode),
        _ => None,
    }
}

// The text of the type of what arithmetic of float and double gives.
fn computed_text(opcode: u8) -> Option<&'static [u8]>
    ensures { option_map type_of (option_copied result)
        ≡ computed_type (operation_in float_operations opcode) }
{
    match opcode {
        FADD | FSUB | FMUL | FDIV | FREM | FNEG | I2F | L2F | D2F => Some(b"F"),
        DADD | DSUB | DMUL | DDIV | DREM | DNEG | I2D | L2D | F2D => Some(b"D"),
        FCMPL | FCMPG | DCMPL | DCMPG | F2I | D2I => Some(b"I"),
        F2L | D2L => Some(b"J"),
        _ => None,
    }
}
