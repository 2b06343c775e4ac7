//! The operands of arithmetic of float and double, with which the library computes (JVM Specification SE 8, 6.5).
ghost use Rattle.std.specs.Prelude.{◌≡◌, [], ◌∷◌, ◌&&◌};
ghost use Rattle.machine_values.specs.Values.{has_kind};
ghost use Rattle.member_link.specs.Machine.Work.{float_work, float_operands};
ghost use Rattle.member_link.specs.Rows.ArithmeticRows.{float_operations, operation_in};
ghost use Rattle.machine_step.specs.Inner.Results.{asked_if};

use class_model::Kind;
use class_model::opcodes::{
    D2F, D2I, D2L, DADD, DCMPG, DCMPL, DDIV, DMUL, DNEG, DREM, DSUB, F2D, F2I, F2L, FADD, FCMPG,
    FCMPL, FDIV, FMUL, FNEG, FREM, FSUB, I2D, I2F, L2D, L2F,
};
use machine_heap::has_kind;
use machine_values::Value;

/// How many operands arithmetic of float and double takes. Another opcode has none.
pub fn float_operands(opcode: u8) -> usize
    ensures { result ≡ float_operands (operation_in float_operations opcode) }
{
    match opcode {
        FADD | FSUB | FMUL | FDIV | FREM | FCMPL | FCMPG => 2,
        DADD | DSUB | DMUL | DDIV | DREM | DCMPL | DCMPG => 2,
        FNEG | DNEG | I2F | I2D | L2F | L2D => 1,
        F2I | F2L | F2D | D2I | D2L | D2F => 1,
        _ => 0,
    }
}

/// Whether operands are of the kinds of an operation of float and double, which the library is then asked to compute.
pub fn float_fits(opcode: u8, operands: &[Value]) -> bool
    ensures { asked_if result opcode operands.now
        ≡ float_work opcode (operation_in float_operations opcode) operands.now }
{
    if operands.len() == 1 {
        one_fits(opcode, &operands[0])
    } else if operands.len() == 2 {
        two_fit(opcode, &operands[0], &operands[1])
    } else {
        false
    }
}

/// Of one operand.
fn one_fits(opcode: u8, only: &Value) -> bool
    ensures { asked_if result opcode (only.now ∷ [])
        ≡ float_work opcode (operation_in float_operations opcode) (only.now ∷ []) }
{
    match opcode {
        FNEG | F2I | F2L | F2D => has_kind(Kind::Float, *only),
        DNEG | D2I | D2L | D2F => has_kind(Kind::Double, *only),
        I2F | I2D => has_kind(Kind::Int, *only),
        L2F | L2D => has_kind(Kind::Long, *only),
        _ => false,
    }
}

/// Of two operands.
fn two_fit(opcode: u8, one: &Value, other: &Value) -> bool
    ensures { asked_if result opcode (one.now ∷ other.now ∷ [])
        ≡ float_work opcode (operation_in float_operations opcode) (one.now ∷ other.now ∷ []) }
{
    match opcode {
        FADD | FSUB | FMUL | FDIV | FREM | FCMPL | FCMPG => both_are(Kind::Float, one, other),
        DADD | DSUB | DMUL | DDIV | DREM | DCMPL | DCMPG => both_are(Kind::Double, one, other),
        _ => false,
    }
}

/// Whether two values are of a kind.
fn both_are(kind: Kind, one: &Value, other: &Value) -> bool
    ensures { result ≡ (has_kind kind one.now && has_kind kind other.now) }
{
    has_kind(kind, *one) && has_kind(kind, *other)
}
