//! What each instruction does, as an operation (JVM Specification SE 8, 6.5).
ghost use Rattle.std.specs.Prelude.{IfOk};
ghost use Rattle.class_model.specs.Code.{OperandFits};
ghost use Rattle.member_link.specs.Machine.Codes.{instr_op};
ghost use Rattle.machine_code.specs.Inner.Translating.{IsOp, OpIsResolved, number_of, rows_in};

use crate::translating::constants::{constant_op, return_op, value_of_imm};
use crate::translating::forms::if_between;
use crate::translating::members::{
    call_op, dynamic_op, get_field, get_static, put_field, put_static,
};
use crate::translating::method_code::MethodCode;
use crate::translating::numbers::Numbers;
use crate::translating::objects::{
    check_cast, instance_of, new_array, new_multi, new_op, new_ref_array,
};
use crate::translating::switches::{lookup_op, table_op};
use class_model::opcodes::{
    IALOAD, IASTORE, IF_ACMPEQ, IF_ACMPNE, IF_ICMPEQ, IF_ICMPLE, IFEQ, IFLE, IFNONNULL, IFNULL,
    SALOAD, SASTORE,
};
use class_model::{Instr, NoMemory};
use member_link::RunOp;
use std::alloc::Global;

/// The operation that an instruction of a method is, with what it names resolved.
///
/// # Errors
/// `NoMemory`, where memory runs out.
pub(crate) fn instr_op(
    alloc: Global,
    code: &MethodCode<'_>,
    numbers: &Numbers<'_>,
    instr: &Instr,
) -> Result<RunOp, NoMemory>
    requires { OperandFits code.now.class.pool code.now.class.major code.now.part.max_locals
        instr.now }
    ensures is { IfOk result (IsOp code.now.classes (λ links.
        instr_op links (number_of numbers.now) (rows_in code.now) instr.now)) }
    ensures resolved { IfOk result (OpIsResolved code.now.classes) }
{
    match instr {
        Instr::Nop => Ok(RunOp::Nop),
        Instr::Const(imm) => Ok(RunOp::Push(value_of_imm(*imm))),
        Instr::Ldc(index) | Instr::Ldc2(index) => constant_op(code, *index),
        Instr::Load(kind, local) => Ok(RunOp::Load(*kind, *local)),
        Instr::Store(kind, local) => Ok(RunOp::Store(*kind, *local)),
        Instr::Iinc(local, by) => Ok(RunOp::Increment(*local, i32::from(*by))),
        Instr::ArrayLoad(opcode) => {
            let op = RunOp::LoadElement(*opcode);
            Ok(if_between(IALOAD, SALOAD, *opcode, op))
        }
        Instr::ArrayStore(opcode) => {
            let op = RunOp::StoreElement(*opcode);
            Ok(if_between(IASTORE, SASTORE, *opcode, op))
        }
        Instr::Shuffle(opcode) => Ok(RunOp::Shuffle(*opcode)),
        Instr::Pure(opcode) => Ok(RunOp::Pure(*opcode)),
        Instr::Divide(opcode) => Ok(RunOp::Divide(*opcode)),
        Instr::FloatAsk(opcode) => Ok(RunOp::Float(*opcode)),
        Instr::If(opcode, to) => {
            let op = RunOp::JumpInt(*opcode, numbers.of(*to));
            Ok(if_between(IFEQ, IFLE, *opcode, op))
        }
        Instr::If2(opcode, to) => {
            let op = RunOp::JumpInts(*opcode, numbers.of(*to));
            Ok(if_between(IF_ICMPEQ, IF_ICMPLE, *opcode, op))
        }
        Instr::IfSame(opcode, to) => {
            let op = RunOp::JumpReferences(*opcode, numbers.of(*to));
            Ok(if_between(IF_ACMPEQ, IF_ACMPNE, *opcode, op))
        }
        Instr::IfNull(opcode, to) => {
            let op = RunOp::JumpNull(*opcode, numbers.of(*to));
            Ok(if_between(IFNULL, IFNONNULL, *opcode, op))
        }
        Instr::Goto(to) => Ok(RunOp::Jump(numbers.of(*to))),
        Instr::Table {
            low,
            other,
            targets,
        } => table_op(alloc, numbers, *low, *other, targets),
        Instr::Lookup { other, pairs } => lookup_op(alloc, numbers, *other, pairs),
        Instr::Return(kind) => return_op(code, *kind),
        Instr::GetStatic(index) => get_static(alloc, code, *index),
        Instr::PutStatic(index) => put_static(alloc, code, *index),
        Instr::GetField(index) => get_field(alloc, code, *index),
        Instr::PutField(index) => put_field(alloc, code, *index),
        Instr::Invoke(opcode, index, _) => call_op(alloc, code, *opcode, *index),
        Instr::Dynamic(index) => dynamic_op(alloc, code, *index),
        Instr::New(index) => new_op(alloc, code, *index),
        Instr::NewArray(of) => new_array(alloc, *of),
        Instr::NewRefArray(index) => new_ref_array(alloc, code, *index),
        Instr::NewMulti(index, dimensions) => new_multi(code, *index, *dimensions),
        Instr::Length => Ok(RunOp::Length),
        Instr::Throw => Ok(RunOp::Throw),
        Instr::Cast(index) => check_cast(alloc, code, *index),
        Instr::InstanceOf(index) => instance_of(alloc, code, *index),
        Instr::Enter => Ok(RunOp::Enter),
        Instr::Leave => Ok(RunOp::Leave),
    }
}
