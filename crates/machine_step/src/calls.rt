//! Calls (JVM Specification SE 8, 6.5: invokestatic, invokedynamic).
ghost use Rattle.std.specs.Prelude.{◌≡◌, List, IfOk, Some, map, true};
ghost use Rattle.class_model.specs.Descriptors.{kind_of, parameters_of};
ghost use Rattle.machine_values.specs.Values.{have_kinds};
ghost use Rattle.machine_values.specs.declared.value.Value.{Value as Operand};
ghost use Rattle.member_link.specs.Machine.CallSteps.{call_dynamic_work, call_static_work};
ghost use Rattle.member_link.specs.Machine.Programs.{Program};
ghost use Rattle.member_link.specs.Machine.Worlds.{Memory as State};
ghost use Rattle.machine_step.specs.Completing.{Completes};
ghost use Rattle.member_link.specs.RunOps.{HasParameters, IsFoundStatic, IsStaticTarget, called};

use crate::completed::{Asked, Completed};
use crate::memory::Memory;
use crate::objects::unbegun;
use class_model::NoMemory;
use machine_heap::have_kinds;
use machine_values::Value;
use member_link::{CallOp, CallTarget, Callee, DynamicOp};

/// An `invokestatic`, behind the beginning of the class that declares the method if that is one of the folder.
///
/// # Errors
///
/// `NoMemory` where memory runs out.
pub(crate) fn call_static(
    memory: &Memory,
    op: &CallOp,
    operands: &[Value],
) -> Result<Completed, NoMemory>
    ensures { IfOk result (λ completed. (P : Program)
        → HasParameters op.now
        → IsFoundStatic P op.now op.now.found
        → Completes memory.now memory.now operands.now completed
        (call_static_work P memory.now op.now.named (P.links.method op.now.named)
        operands.now)) }
{
    match &op.found {
        Some(target) if target.is_static && takes(op, operands) => static_begun(memory, target),
        _ => Ok(Completed::Stuck),
    }
}

// Whether these are arguments of the method.
fn takes(op: &CallOp, values: &[Value]) -> bool
    ensures { HasParameters op.now
        → result ≡ have_kinds (parameters_of op.now.named.desc) values.now }
{
    have_kinds(&op.parameters, values)
}

// With its arguments.
fn static_begun(memory: &Memory, target: &CallTarget) -> Result<Completed, NoMemory>
    ensures { IfOk result (λ completed. (P : Program) (op : CallOp) (operands : List Operand)
        → IsStaticTarget P op target.now
        → have_kinds (parameters_of op.named.desc) operands ≡ true
        → target.now.is_static ≡ true
        → Completes memory.now memory.now operands completed
        (call_static_work P memory.now op.named (Some target.now.method) operands)) }
{
    if let Some(class) = unbegun(memory, target.home) {
        return Ok(Completed::Begins(class));
    }
    match &target.fixed {
        Some(callee) => comes_to(callee),
        None => Ok(Completed::Stuck),
    }
}

// What a call comes to that runs something.
pub(crate) fn comes_to(callee: &Callee) -> Result<Completed, NoMemory>
    ensures { IfOk result (λ completed. (memory : State) (operands : List Operand)
        → Completes memory memory operands completed (called memory callee.now operands)) }
{
    Ok(match callee {
        Callee::Runs(at) => Completed::Calls(*at),
        Callee::Asks(method) => Completed::Asks(Asked::Call(method.copy()?)),
        Callee::Raises(throwable) => Completed::Raises(*throwable),
        Callee::Nothing => Completed::Gives(None),
    })
}

/// An `invokedynamic`: the library is asked.
///
/// # Errors
///
/// `NoMemory` where memory runs out.
pub(crate) fn call_dynamic(op: &DynamicOp, operands: &[Value]) -> Result<Completed, NoMemory>
    ensures { IfOk result (λ completed. (memory : State)
        → map kind_of (parameters_of op.now.desc) ≡ op.now.parameters.items
        → Completes memory memory operands.now completed
        (call_dynamic_work op.now.class op.now.bootstrap op.now.name op.now.desc
        operands.now)) }
{
    if !have_kinds(&op.parameters, operands) {
        return Ok(Completed::Stuck);
    }
    Ok(Completed::Asks(Asked::Dynamic {
        class: op.class.copy()?,
        bootstrap: op.bootstrap,
        name: op.name.copy()?,
        desc: op.desc.copy()?,
    }))
}
