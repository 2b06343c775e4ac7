//! The rules of arithmetic, conversions and comparisons (JVM Specification SE 8, 6.5).
ghost use Rattle.std.specs.Prelude.{◌≡◌, [], ◌∷◌};
ghost use Rattle.member_link.specs.Rows.ArithmeticRows.{pure_operations, divide_operations, float_operations, operation_in, operation_row, type_of_kind};
ghost use Rattle.member_link.specs.Rows.Operands.{of_kind};
ghost use Rattle.member_link.specs.Rows.Row.{plain};
ghost use Rattle.type_rules.specs.Rule.{RowRules};
ghost use Rattle.member_link.specs.Scope.{row_scope};

use crate::fault::RuleFault;
use crate::need::Need;
use crate::ruled::Ruled;
use crate::step::Step;
use class_model::Kind::{self, Double, Float, Int, Long};
use class_model::VType;
use class_model::opcodes::{
    D2F, D2I, D2L, DADD, DCMPG, DCMPL, DDIV, DMUL, DNEG, DREM, DSUB, F2D, F2I, F2L, FADD, FCMPG,
    FCMPL, FDIV, FMUL, FNEG, FREM, FSUB, I2B, I2C, I2D, I2F, I2L, I2S, IADD, IAND, IDIV, IMUL,
    INEG, IOR, IREM, ISHL, ISHR, ISUB, IUSHR, IXOR, L2D, L2F, L2I, LADD, LAND, LCMP, LDIV, LMUL,
    LNEG, LOR, LREM, LSHL, LSHR, LSUB, LUSHR, LXOR,
};

/// Arithmetic of int and long that raises nothing.
pub(crate) fn pure(step: &Step<'_>, opcode: u8) -> Result<Ruled, RuleFault>
    ensures { RowRules (row_scope step.now.rules.now) step.now.before.now
        (operation_row step.now.before.now (operation_in pure_operations opcode)) result }
{
    match opcode {
        IADD | ISUB | IMUL | ISHL | ISHR | IUSHR | IAND | IOR | IXOR => binary(step, Int, Int, Int),
        LADD | LSUB | LMUL | LAND | LOR | LXOR => binary(step, Long, Long, Long),
        LSHL | LSHR | LUSHR => binary(step, Long, Int, Long),
        INEG | I2B | I2C | I2S => unary(step, Int, Int),
        LNEG => unary(step, Long, Long),
        I2L => unary(step, Int, Long),
        L2I => unary(step, Long, Int),
        LCMP => binary(step, Long, Long, Int),
        _ => step.no_row(),
    }
}

/// A division or remainder of int or long.
pub(crate) fn divide(step: &Step<'_>, opcode: u8) -> Result<Ruled, RuleFault>
    ensures { RowRules (row_scope step.now.rules.now) step.now.before.now
        (operation_row step.now.before.now (operation_in divide_operations opcode)) result }
{
    match opcode {
        IDIV | IREM => binary(step, Int, Int, Int),
        LDIV | LREM => binary(step, Long, Long, Long),
        _ => step.no_row(),
    }
}

/// An operation of float or double.
pub(crate) fn float(step: &Step<'_>, opcode: u8) -> Result<Ruled, RuleFault>
    ensures { RowRules (row_scope step.now.rules.now) step.now.before.now
        (operation_row step.now.before.now (operation_in float_operations opcode)) result }
{
    match opcode {
        FADD | FSUB | FMUL | FDIV | FREM => binary(step, Float, Float, Float),
        DADD | DSUB | DMUL | DDIV | DREM => binary(step, Double, Double, Double),
        FNEG => unary(step, Float, Float),
        DNEG => unary(step, Double, Double),
        I2F => unary(step, Int, Float),
        I2D => unary(step, Int, Double),
        L2F => unary(step, Long, Float),
        L2D => unary(step, Long, Double),
        F2I => unary(step, Float, Int),
        F2L => unary(step, Float, Long),
        F2D => unary(step, Float, Double),
        D2I => unary(step, Double, Int),
        D2L => unary(step, Double, Long),
        D2F => unary(step, Double, Float),
        FCMPL | FCMPG => binary(step, Float, Float, Int),
        DCMPL | DCMPG => binary(step, Double, Double, Int),
        _ => step.no_row(),
    }
}

// An operation on a value of a kind, which gives one of a kind.
fn unary(step: &Step<'_>, takes: Kind, gives: Kind) -> Result<Ruled, RuleFault>
    ensures { RowRules (row_scope step.now.rules.now) step.now.before.now
        (plain step.now.before.now (of_kind takes ∷ []) (type_of_kind gives ∷ [])) result }
{
    step.plain(&[Need::OfKind(takes)], Some(type_of_kind(gives)))
}

// An operation on two values, the one of the second kind on top.
fn binary(step: &Step<'_>, first: Kind, second: Kind, gives: Kind) -> Result<Ruled, RuleFault>
    ensures { RowRules (row_scope step.now.rules.now) step.now.before.now
        (plain step.now.before.now (of_kind first ∷ of_kind second ∷ [])
        (type_of_kind gives ∷ [])) result }
{
    let needs = [Need::OfKind(first), Need::OfKind(second)];
    step.plain(&needs, Some(type_of_kind(gives)))
}

// The type of a value of a kind that is no reference.
fn type_of_kind(kind: Kind) -> VType
    ensures { result ≡ type_of_kind kind }
{
    match kind {
        Int => VType::Int,
        Long => VType::Long,
        Float => VType::Float,
        Double => VType::Double,
        Kind::Ref => VType::Top,
    }
}
