//! What operations do with their operands: all families in one table (JVM Specification SE 8, 6.5).
ghost use Rattle.std.specs.Prelude.{◌≡◌, length, IfOk};
ghost use Rattle.member_link.specs.Machine.Programs.{Program};
ghost use Rattle.member_link.specs.Machine.Work.{arity, work};
ghost use Rattle.machine_step.specs.Completing.{Completes};
ghost use Rattle.machine_step.specs.FewOperands.{HasFewOperands};
ghost use Rattle.member_link.specs.TreePrograms.{IsProgram};
ghost use Rattle.machine_step.specs.Room.{HasRoom};
ghost use Rattle.member_link.specs.RunOps.{HasParameters, IsResolved, op_of, special_op};

use crate::arithmetic::pure_operands;
use crate::arrays::{load_element, new_array};
use crate::calls::{call_dynamic, call_static};
use crate::completed::Completed;
use crate::computing::{ask_float, compute, compute_quotient, push_constant};
use crate::elements::{array_length, store_element};
use crate::fields::{get_field, get_static, put_field, put_static};
use crate::floats::float_operands;
use crate::memory::Memory;
use crate::nested_arrays::new_arrays;
use crate::objects::{check_cast, enter_monitor, instance_of, leave_monitor, new_object, throw};
use crate::receivers::{call_by_receiver, call_special};
use class_model::NoMemory;
use class_tree::Tree;
use machine_values::Value;
use member_link::{CallForm, CallOp, RunOp};
use std::alloc::Global;

/// How many operands an operation takes off the stack. It does not allocate.
pub fn arity(op: &RunOp) -> usize
    ensures operands { (P : Program) → IsResolved P op.now → result ≡ arity (op_of op.now) }
    ensures few { HasFewOperands op.now result }
{
    match op {
        RunOp::Pure(opcode) => pure_operands(*opcode),
        RunOp::Float(opcode) => float_operands(*opcode),
        RunOp::CallStatic(op) => op.parameters.len(),
        RunOp::CallVirtual(op) | RunOp::CallInterface(op) => op.parameters.len() + 1,
        RunOp::CallSpecial(op) => special_arity(op),
        RunOp::CallDynamic(op) => op.parameters.len(),
        RunOp::NewArrays(_, dimensions) => usize::from(*dimensions),
        RunOp::Throw
        | RunOp::PutStatic(_)
        | RunOp::GetField(_)
        | RunOp::NewArray(_)
        | RunOp::Length
        | RunOp::Cast(_)
        | RunOp::InstanceOf(_)
        | RunOp::Enter
        | RunOp::Leave => 1,
        RunOp::Divide(_) | RunOp::PutField(_) | RunOp::LoadElement(_) => 2,
        RunOp::StoreElement(_) => 3,
        _ => 0,
    }
}

// How many operands a special call takes, the receiver among them.
fn special_arity(op: &CallOp) -> usize
    ensures { HasParameters op.now → result ≡ arity (special_op op.now op.now.from) }
{
    match &op.from {
        Some(_) => op.parameters.len() + 1,
        None => 0,
    }
}

/// What an operation comes to with its operands, the topmost last. What it has answered last is remembered in it.
///
/// # Errors
///
/// `NoMemory` where memory runs out. The operation is then the same, and what it has resolved and remembered holds. The memory is as it was,
/// but that its heap may have arrays of a `multianewarray` to which nothing refers, and which are not counted.
pub fn work(
    alloc: Global,
    tree: &Tree,
    memory: &mut Memory,
    op: &mut RunOp,
    operands: &[Value],
) -> Result<Completed, NoMemory>
    requires room { HasRoom memory.old }
    requires few { HasFewOperands op.old (length operands.now) }
    ensures same { op_of op.new ≡ op_of op.old }
    ensures resolved { (P : Program) → IsProgram tree.now P → IsResolved P op.old
        → IsResolved P op.new }
    ensures completed { IfOk result (λ completed. (P : Program)
        → IsProgram tree.now P
        → IsResolved P op.old
        → Completes memory.old memory.new operands.now completed
        (work P memory.old (op_of op.old) operands.now)) }
{
    match op {
        RunOp::Push(value) => Ok(Completed::Gives(Some(*value))),
        RunOp::PushConstant(constant) => push_constant(memory, constant),
        RunOp::Pure(opcode) => Ok(compute(*opcode, operands)),
        RunOp::Divide(opcode) => Ok(compute_quotient(*opcode, operands)),
        RunOp::Float(opcode) => Ok(ask_float(*opcode, operands)),
        RunOp::Throw => throw(alloc, tree, memory, operands),
        RunOp::GetStatic(op) => get_static(memory, op),
        RunOp::PutStatic(op) => put_static(memory, op, operands),
        RunOp::GetField(op) => get_field(tree, memory, op, operands),
        RunOp::PutField(op) => put_field(tree, memory, op, operands),
        RunOp::CallStatic(op) => call_static(memory, op, operands),
        RunOp::CallVirtual(op) => {
            call_by_receiver(alloc, tree, memory, CallForm::Virtual, op, operands)
        }
        RunOp::CallInterface(op) => {
            call_by_receiver(alloc, tree, memory, CallForm::Interface, op, operands)
        }
        RunOp::CallSpecial(op) => call_special(tree, memory, op, operands),
        RunOp::CallDynamic(op) => call_dynamic(op, operands),
        RunOp::New(op) => new_object(alloc, memory, op),
        RunOp::NewArray(desc) => new_array(alloc, memory, desc, operands),
        RunOp::NewArrays(desc, _) => new_arrays(alloc, memory, desc, operands),
        RunOp::LoadElement(opcode) => Ok(load_element(memory, *opcode, operands)),
        RunOp::StoreElement(opcode) => Ok(store_element(tree, memory, *opcode, operands)),
        RunOp::Length => Ok(array_length(memory, operands)),
        RunOp::Cast(op) => Ok(check_cast(tree, memory, op, operands)),
        RunOp::InstanceOf(op) => Ok(instance_of(tree, memory, op, operands)),
        RunOp::Enter => enter_monitor(memory, operands),
        RunOp::Leave => Ok(leave_monitor(memory, operands)),
        _ => Ok(Completed::Stuck),
    }
}
