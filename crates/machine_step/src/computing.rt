//! Constants and arithmetic (JVM Specification SE 8, 2.11.3 and 6.5: ldc, iadd to dcmpg).
ghost use Rattle.std.specs.Prelude.{List, IfOk};
ghost use Rattle.machine_values.specs.declared.value.Value.{Value as Operand};
ghost use Rattle.member_link.specs.Machine.Arithmetic.{divide_meanings, meaning_in, pure_meanings};
ghost use Rattle.member_link.specs.Machine.Work.{arithmetic_work, division_work, float_work, push_constant_work};
ghost use Rattle.member_link.specs.Machine.Worlds.{Memory as State};
ghost use Rattle.member_link.specs.Rows.ArithmeticRows.{float_operations, operation_in};
ghost use Rattle.machine_step.specs.Completing.{Completes};

use crate::arithmetic::{Divided, divide, pure};
use crate::completed::{Asked, Completed};
use crate::floats::float_fits;
use crate::memory::Memory;
use class_model::NoMemory;
use machine_values::{Constant, Value};
use member_link::Throwable;

/// The reference of a constant.
///
/// # Errors
///
/// `NoMemory` where memory runs out.
pub(crate) fn push_constant(memory: &mut Memory, constant: &Constant) -> Result<Completed, NoMemory>
    ensures { IfOk result (λ completed. (operands : List Operand)
        → Completes memory.old memory.new operands completed
        (push_constant_work memory.old constant.now)) }
{
    let at = memory.constant(constant)?;
    Ok(Completed::Gives(Some(Value::Ref(at))))
}

/// Arithmetic of int and long that raises nothing. It does not allocate.
pub(crate) fn compute(opcode: u8, operands: &[Value]) -> Completed
    ensures { (memory : State) → Completes memory memory operands.now result
        (arithmetic_work memory (meaning_in pure_meanings opcode) operands.now) }
{
    match pure(opcode, operands) {
        Some(value) => Completed::Gives(Some(value)),
        None => Completed::Stuck,
    }
}

/// A division or remainder of ints or longs. It does not allocate.
pub(crate) fn compute_quotient(opcode: u8, operands: &[Value]) -> Completed
    ensures { (memory : State) → Completes memory memory operands.now result
        (division_work memory (meaning_in divide_meanings opcode) operands.now) }
{
    match divide(opcode, operands) {
        Divided::Gives(value) => Completed::Gives(Some(value)),
        Divided::ByZero => Completed::Raises(Throwable::Arithmetic),
        Divided::Stuck => Completed::Stuck,
    }
}

/// Arithmetic of float and double: the library computes. It does not allocate.
pub(crate) fn ask_float(opcode: u8, operands: &[Value]) -> Completed
    ensures { (memory : State) → Completes memory memory operands.now result
        (float_work opcode (operation_in float_operations opcode) operands.now) }
{
    if float_fits(opcode, operands) {
        Completed::Asks(Asked::Float(opcode))
    } else {
        Completed::Stuck
    }
}
