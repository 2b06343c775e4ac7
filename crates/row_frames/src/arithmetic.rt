//! Arithmetic, conversions and comparisons (JVM Specification SE 8, 6.5).
ghost use Rattle.std.specs.Prelude.{◌≡◌, [], ◌∷◌, IfOk};
ghost use Rattle.member_link.specs.Rows.ArithmeticRows.{pure_operations, divide_operations, float_operations, operation_in, operation_row};
ghost use Rattle.member_link.specs.Rows.Row.{row_frame};
ghost use Rattle.row_frames.specs.Inner.Stacks.{leaves};

use crate::step::Step;
use class_model::VType::{Double, Float, Int, Long};
use class_model::opcodes::{
    D2F, D2I, D2L, DADD, DCMPG, DCMPL, DDIV, DMUL, DNEG, DREM, DSUB, F2D, F2I, F2L, FADD, FCMPG,
    FCMPL, FDIV, FMUL, FNEG, FREM, FSUB, I2B, I2C, I2D, I2F, I2L, I2S, IADD, IAND, IDIV, IMUL,
    INEG, IOR, IREM, ISHL, ISHR, ISUB, IUSHR, IXOR, L2D, L2F, L2I, LADD, LAND, LCMP, LDIV, LMUL,
    LNEG, LOR, LREM, LSHL, LSHR, LSUB, LUSHR, LXOR,
};
use class_model::{Frame, NoMemory, VType};

/// Arithmetic of int and long that raises nothing.
pub(crate) fn pure(step: &Step<'_>, opcode: u8) -> Result<Option<Frame>, NoMemory>
    ensures { IfOk result (λ frame. frame
        ≡ row_frame step.now.before.now
        (operation_row step.now.before.now (operation_in pure_operations opcode))) }
{
    match opcode {
        IADD | ISUB | IMUL | ISHL | ISHR | IUSHR | IAND | IOR | IXOR => binary(step, Int),
        LADD | LSUB | LMUL | LAND | LOR | LXOR => binary(step, Long),
        LSHL | LSHR | LUSHR => binary(step, Long),
        INEG | I2B | I2C | I2S => unary(step, Int),
        LNEG => unary(step, Long),
        I2L => unary(step, Long),
        L2I => unary(step, Int),
        LCMP => binary(step, Int),
        _ => step.no_row(),
    }
}

/// A division or remainder of int or long.
pub(crate) fn divide(step: &Step<'_>, opcode: u8) -> Result<Option<Frame>, NoMemory>
    ensures { IfOk result (λ frame. frame
        ≡ row_frame step.now.before.now
        (operation_row step.now.before.now (operation_in divide_operations opcode))) }
{
    match opcode {
        IDIV | IREM => binary(step, Int),
        LDIV | LREM => binary(step, Long),
        _ => step.no_row(),
    }
}

/// An operation of float or double.
pub(crate) fn float(step: &Step<'_>, opcode: u8) -> Result<Option<Frame>, NoMemory>
    ensures { IfOk result (λ frame. frame
        ≡ row_frame step.now.before.now
        (operation_row step.now.before.now (operation_in float_operations opcode))) }
{
    match opcode {
        FADD | FSUB | FMUL | FDIV | FREM => binary(step, Float),
        DADD | DSUB | DMUL | DDIV | DREM => binary(step, Double),
        FNEG => unary(step, Float),
        DNEG => unary(step, Double),
        I2F => unary(step, Float),
        I2D => unary(step, Double),
        L2F => unary(step, Float),
        L2D => unary(step, Double),
        F2I => unary(step, Int),
        F2L => unary(step, Long),
        F2D => unary(step, Double),
        D2I => unary(step, Int),
        D2L => unary(step, Long),
        D2F => unary(step, Float),
        FCMPL | FCMPG => binary(step, Int),
        DCMPL | DCMPG => binary(step, Int),
        _ => step.no_row(),
    }
}

// An operation on a value.
fn unary(step: &Step<'_>, gives: VType) -> Result<Option<Frame>, NoMemory>
    ensures { IfOk result (λ frame. frame ≡ leaves step.now.before.now 1 (gives ∷ [])) }
{
    step.replaced(1, Some(gives))
}

// An operation on two values.
fn binary(step: &Step<'_>, gives: VType) -> Result<Option<Frame>, NoMemory>
    ensures { IfOk result (λ frame. frame ≡ leaves step.now.before.now 2 (gives ∷ [])) }
{
    step.replaced(2, Some(gives))
}
