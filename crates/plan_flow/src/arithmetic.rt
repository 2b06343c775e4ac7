//! How many operands arithmetic, conversions and comparisons take (JVM Specification SE 8, 6.5).
ghost use Rattle.std.specs.Prelude.{◌≡◌};
ghost use Rattle.member_link.specs.Rows.ArithmeticRows.{pure_operations, divide_operations, float_operations, operation_in};
ghost use Rattle.plan_flow.specs.PlanTable.{operands_of};

use class_model::opcodes::{
    D2F, D2I, D2L, DADD, DCMPG, DCMPL, DDIV, DMUL, DNEG, DREM, DSUB, F2D, F2I, F2L, FADD, FCMPG,
    FCMPL, FDIV, FMUL, FNEG, FREM, FSUB, I2B, I2C, I2D, I2F, I2L, I2S, IADD, IAND, IDIV, IMUL,
    INEG, IOR, IREM, ISHL, ISHR, ISUB, IUSHR, IXOR, L2D, L2F, L2I, LADD, LAND, LCMP, LDIV, LMUL,
    LNEG, LOR, LREM, LSHL, LSHR, LSUB, LUSHR, LXOR,
};

/// Arithmetic of int and long that raises nothing. Another opcode has no operands.
pub(crate) fn pure_operands(opcode: u8) -> usize
    ensures { result ≡ operands_of (operation_in pure_operations opcode) }
{
    match opcode {
        IADD | ISUB | IMUL | ISHL | ISHR | IUSHR | IAND | IOR | IXOR => 2,
        LADD | LSUB | LMUL | LAND | LOR | LXOR | LSHL | LSHR | LUSHR | LCMP => 2,
        INEG | I2B | I2C | I2S | LNEG | I2L | L2I => 1,
        _ => 0,
    }
}

/// Divisions and remainders of int and long. Another opcode has no operands.
pub(crate) fn divide_operands(opcode: u8) -> usize
    ensures { result ≡ operands_of (operation_in divide_operations opcode) }
{
    match opcode {
        IDIV | IREM | LDIV | LREM => 2,
        _ => 0,
    }
}

/// Arithmetic of float and double. Another opcode has no operands.
pub(crate) fn float_operands(opcode: u8) -> usize
    ensures { result ≡ operands_of (operation_in float_operations opcode) }
{
    match opcode {
        FADD | FSUB | FMUL | FDIV | FREM | FCMPL | FCMPG => 2,
        DADD | DSUB | DMUL | DDIV | DREM | DCMPL | DCMPG => 2,
        FNEG | DNEG | I2F | I2D | L2F | L2D => 1,
        F2I | F2L | F2D | D2I | D2L | D2F => 1,
        _ => 0,
    }
}
