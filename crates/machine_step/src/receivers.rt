//! Calls of methods of objects (JVM Specification SE 8, 6.5: invokevirtual, invokeinterface, invokespecial).
ghost use Rattle.std.specs.Prelude.{◌≡◌, ◌||◌, ℕ, List, IfErr, IfOk, IfSome, Some, map, false, true};
ghost use Rattle.class_model.specs.Descriptors.{kind_of, parameters_of};
ghost use Rattle.class_tree.specs.Headers.{Name};
ghost use Rattle.machine_values.specs.declared.object.Shape.{Shape as ObjectShape};
ghost use Rattle.machine_values.specs.declared.object.Shape.TheVariants as shapes;
ghost use Rattle.machine_values.specs.declared.value.Value.{Value as Operand};
ghost use Rattle.member_link.specs.Machine.CallSteps.{call_special_work, if_conforms, special_on, with_receiver};
ghost use Rattle.member_link.specs.Machine.Completions.{Completion};
ghost use Rattle.member_link.specs.Machine.Programs.{Program};
ghost use Rattle.member_link.specs.Machine.Shapes.{class_of_shape, is_external};
ghost use Rattle.member_link.specs.Machine.Worlds.{Memory as State};
ghost use Rattle.member_link.specs.References.{Reference as Named};
ghost use Rattle.machine_step.specs.Completing.{Completes};
ghost use Rattle.machine_step.specs.Inner.Receivers.{IsByReceiver, by_shape, call_work, refused, takes_shape};
ghost use Rattle.member_link.specs.RunOps.{is_nothing};
ghost use Rattle.member_link.specs.TreePrograms.{IsProgram};
ghost use Rattle.member_link.specs.RunOps.{HasParameters, IsFoundByReceiver, IsFoundMethod, IsFoundSpecial, IsSeenCallee, RunsSpecial};

use crate::calls::comes_to;
use crate::completed::{Asked, Completed};
use crate::memory::Memory;
use crate::questions::shapes::{is_instance, shape_conforms};
use class_model::{Kind, NoMemory, Text};
use class_tree::Tree;
use machine_heap::have_kinds;
use machine_values::{Shape, Value};
use member_link::{
    CallForm, CallOp, CallTarget, Callee, Reference, SeenCallee, Throwable, callee_of, run_selected,
};
use std::alloc::Global;

/// An `invokevirtual` or `invokeinterface`. For a receiver of a class of the folder, what the call runs is remembered.
///
/// # Errors
///
/// `NoMemory` where memory runs out.
pub(crate) fn call_by_receiver(
    alloc: Global,
    tree: &Tree,
    memory: &Memory,
    form: CallForm,
    op: &mut CallOp,
    operands: &[Value],
) -> Result<Completed, NoMemory>
    ensures completed { IfOk result (λ completed. (P : Program)
        → IsProgram tree.now P
        → HasParameters op.old
        → IsFoundByReceiver P form op.old op.old.found
        → Completes memory.now memory.now operands.now completed
        (call_work P form memory.now op.old.named (P.links.method op.old.named)
        operands.now)) }
    ensures kept { (P : Program) → IsProgram tree.now P
        → IsFoundByReceiver P form op.old op.old.found
        → IsFoundByReceiver P form op.new op.new.found }
    ensures named { op.new.named ≡ op.old.named }
    ensures from { op.new.from ≡ op.old.from }
    ensures parameters { op.new.parameters ≡ op.old.parameters }
{
    let Some(target) = &mut op.found else {
        return Ok(Completed::Stuck);
    };
    if target.is_static {
        return Ok(Completed::Stuck);
    }
    match receiver_shape(memory, &op.parameters, operands) {
        Ok(shape) => on_shape(alloc, tree, form, &op.named, target, shape),
        Err(completed) => Ok(completed),
    }
}

// ---- the receiver

// The shape of the receiver, of operands that begin with one and then have these kinds; or what the call comes to where there is no such
// object.
fn receiver_shape<'a>(
    memory: &'a Memory,
    parameters: &[Kind],
    operands: &[Value],
) -> Result<&'a Shape, Completed>
    ensures shape { IfOk result (λ shape. (P : Program) (desc : List ℕ)
        (of_shape : ObjectShape → Completion)
        → map kind_of (parameters_of desc) ≡ parameters.now
        → with_receiver P memory.now desc of_shape operands.now ≡ of_shape shape.now) }
    ensures without { IfErr result (λ completed. (P : Program) (desc : List ℕ)
        (of_shape : ObjectShape → Completion)
        → map kind_of (parameters_of desc) ≡ parameters.now
        → Completes memory.now memory.now operands.now completed
        (with_receiver P memory.now desc of_shape operands.now)) }
{
    let Some((receiver, arguments)) = operands.split_first() else {
        return Err(Completed::Stuck);
    };
    if !have_kinds(parameters, arguments) {
        return Err(Completed::Stuck);
    }
    match receiver {
        Value::Null => Err(Completed::Raises(Throwable::NullPointer)),
        Value::Ref(at) => match memory.heap().object(*at) {
            Some(object) => Ok(&object.shape),
            None => Err(Completed::Stuck),
        },
        _ => Err(Completed::Stuck),
    }
}

// ---- selection by the receiver's class

// A call on an object of a shape.
fn on_shape(
    alloc: Global,
    tree: &Tree,
    form: CallForm,
    named: &Reference,
    target: &mut CallTarget,
    shape: &Shape,
) -> Result<Completed, NoMemory>
    ensures completed { IfOk result (λ completed. (P : Program) (memory : State)
        (operands : List Operand)
        → IsProgram tree.now P
        → IsByReceiver P form named.now target.old
        → Completes memory memory operands completed
        (by_shape P form named.now target.old.method operands shape.now)) }
    ensures seen { (P : Program) → IsProgram tree.now P → IsByReceiver P form named.now target.old
        → IfSome target.new.seen (IsSeenCallee P form named.now target.old.method) }
    ensures same { target.new ≡ record target.old { seen = target.new.seen } }
{
    if target.is_polymorphic {
        return on_asked(tree, form, named, target, shape);
    }
    match shape {
        Shape::Folder(class) => on_class(alloc, tree, form, named, target, *class),
        Shape::Array { desc, .. } => on_array(tree, form, named, target, shape, desc),
        Shape::External { .. } => on_asked(tree, form, named, target, shape),
    }
}

// On an object of a class of the folder, of a method that is not signature polymorphic.
fn on_class(
    alloc: Global,
    tree: &Tree,
    form: CallForm,
    named: &Reference,
    target: &mut CallTarget,
    class: usize,
) -> Result<Completed, NoMemory>
    ensures completed { IfOk result (λ completed. (P : Program) (memory : State)
        (operands : List Operand)
        → IsProgram tree.now P
        → IsByReceiver P form named.now target.old
        → target.old.is_polymorphic ≡ false
        → Completes memory memory operands completed
        (by_shape P form named.now target.old.method operands (shapes.Folder class))) }
    ensures seen { (P : Program) → IsProgram tree.now P → IsByReceiver P form named.now target.old
        → IfSome target.new.seen (IsSeenCallee P form named.now target.old.method) }
    ensures same { target.new ≡ record target.old { seen = target.new.seen } }
{
    if let Some(seen) = &target.seen
        && seen.class == class
    {
        return comes_to(&seen.callee);
    }
    on_unseen(alloc, tree, form, named, target, class)
}

// On an object of a class of the folder that is another than the last receiver's.
fn on_unseen(
    alloc: Global,
    tree: &Tree,
    form: CallForm,
    named: &Reference,
    target: &mut CallTarget,
    class: usize,
) -> Result<Completed, NoMemory>
    ensures completed { IfOk result (λ completed. (P : Program) (memory : State)
        (operands : List Operand)
        → IsProgram tree.now P
        → IsByReceiver P form named.now target.old
        → target.old.is_polymorphic ≡ false
        → Completes memory memory operands completed
        (by_shape P form named.now target.old.method operands (shapes.Folder class))) }
    ensures seen { (P : Program) → IsProgram tree.now P → IsByReceiver P form named.now target.old
        → IfSome target.new.seen (IsSeenCallee P form named.now target.old.method) }
    ensures same { target.new ≡ record target.old { seen = target.new.seen } }
{
    if !takes_shape(tree, form, &Shape::Folder(class), named) {
        return Ok(refused(form));
    }
    let callee = callee_of(alloc, tree, class, &target.method, form)?;
    let completed = comes_to(&callee)?;
    target.seen = Some(SeenCallee { class, callee });
    Ok(completed)
}

// On an array of this descriptor, of a method that is not signature polymorphic.
fn on_array(
    tree: &Tree,
    form: CallForm,
    named: &Reference,
    target: &CallTarget,
    shape: &Shape,
    desc: &Text,
) -> Result<Completed, NoMemory>
    ensures { IfOk result (λ completed. (P : Program) (memory : State) (operands : List Operand)
        → IsProgram tree.now P
        → IsByReceiver P form named.now target.now
        → target.now.is_polymorphic ≡ false
        → is_external shape.now ≡ false
        → class_of_shape P shape.now ≡ desc.now
        → Completes memory memory operands completed
        (by_shape P form named.now target.now.method operands shape.now)) }
{
    if !takes_shape(tree, form, shape, named) {
        return Ok(refused(form));
    }
    comes_to(&run_selected(tree, desc, &target.method, form)?)
}

// On an object of the library, or of a signature polymorphic method: the library is asked.
fn on_asked(
    tree: &Tree,
    form: CallForm,
    named: &Reference,
    target: &CallTarget,
    shape: &Shape,
) -> Result<Completed, NoMemory>
    ensures { IfOk result (λ completed. (P : Program) (memory : State) (operands : List Operand)
        → IsProgram tree.now P
        → IsByReceiver P form named.now target.now
        → (is_external shape.now || target.now.is_polymorphic) ≡ true
        → Completes memory memory operands completed
        (by_shape P form named.now target.now.method operands shape.now)) }
{
    if !takes_shape(tree, form, shape, named) {
        return Ok(refused(form));
    }
    Ok(Completed::Asks(Asked::Call(target.asked.copy()?)))
}

// Whether a call of a form takes an object of a shape as its receiver.
fn takes_shape(tree: &Tree, form: CallForm, shape: &Shape, named: &Reference) -> bool
    ensures { (P : Program) → IsProgram tree.now P
        → result ≡ takes_shape P form shape.now named.now.class }
{
    match form {
        CallForm::Interface => is_instance(tree, shape, named.class.bytes()),
        CallForm::Virtual | CallForm::Special => {
            shape_conforms(tree, shape, named.class.bytes())
        }
    }
}

// What a call of a form comes to that does not take its receiver.
fn refused(form: CallForm) -> Completed
    ensures { (memory : State) (operands : List Operand)
        → Completes memory memory operands result (refused form) }
{
    match form {
        CallForm::Interface => Completed::Raises(Throwable::IncompatibleChange),
        CallForm::Virtual | CallForm::Special => Completed::Stuck,
    }
}

// ---- special calls

/// An `invokespecial`.
///
/// # Errors
///
/// `NoMemory` where memory runs out.
pub(crate) fn call_special(
    tree: &Tree,
    memory: &Memory,
    op: &CallOp,
    operands: &[Value],
) -> Result<Completed, NoMemory>
    ensures { IfOk result (λ completed. (P : Program) (from : Name)
        → IsProgram tree.now P
        → HasParameters op.now
        → op.now.from ≡ Some from
        → IsFoundSpecial P op.now op.now.from op.now.found
        → Completes memory.now memory.now operands.now completed
        (call_special_work P memory.now op.now.named from operands.now)) }
{
    let Some(target) = &op.found else {
        return Ok(Completed::Stuck);
    };
    if target.is_static {
        return Ok(Completed::Stuck);
    }
    match receiver_shape(memory, &op.parameters, operands) {
        Ok(shape) => special_on(tree, &op.named, target, shape),
        Err(completed) => Ok(completed),
    }
}

// On an object of a shape.
fn special_on(
    tree: &Tree,
    named: &Reference,
    target: &CallTarget,
    shape: &Shape,
) -> Result<Completed, NoMemory>
    ensures { IfOk result (λ completed. (P : Program) (from : Name) (memory : State)
        (operands : List Operand)
        → IsProgram tree.now P
        → IsFoundMethod P named.now target.now
        → RunsSpecial P from target.now target.now.fixed
        → Completes memory memory operands completed
        (if_conforms P named.now
        (special_on P memory named.now from target.now.method operands) shape.now)) }
{
    if !takes_shape(tree, CallForm::Special, shape, named) {
        return Ok(Completed::Stuck);
    }
    match &target.fixed {
        Some(callee) => special_of(target, shape, callee),
        None => Ok(Completed::Stuck),
    }
}

// On an object that conforms.
fn special_of(target: &CallTarget, shape: &Shape, callee: &Callee) -> Result<Completed, NoMemory>
    ensures { IfOk result (λ completed. (P : Program) (named : Named) (from : Name)
        (memory : State) (operands : List Operand)
        → IsFoundMethod P named target.now
        → RunsSpecial P from target.now (Some callee.now)
        → Completes memory memory operands completed
        (special_on P memory named from target.now.method operands shape.now)) }
{
    if is_nothing(callee) {
        return Ok(Completed::Gives(None));
    }
    if is_asked(target, shape) {
        return Ok(Completed::Asks(Asked::Call(target.asked.copy()?)));
    }
    comes_to(callee)
}

// Whether a call does nothing.
fn is_nothing(callee: &Callee) -> bool
    ensures { result ≡ is_nothing callee.now }
{
    matches!(callee, Callee::Nothing)
}

// Whether the library is asked for a call on an object of a shape.
fn is_asked(target: &CallTarget, shape: &Shape) -> bool
    ensures { result ≡ (is_external shape.now || target.now.is_polymorphic) }
{
    matches!(shape, Shape::External { .. }) || target.is_polymorphic
}
