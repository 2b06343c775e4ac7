//! Instructions that read and store fields and call methods (JVM Specification SE 8, 6.5).
ghost use Rattle.std.specs.Prelude.{◌≡◌, IfOk, Some};
ghost use Rattle.std.specs.Option.{option_copied};
ghost use Rattle.class_model.specs.Header.{header_of};
ghost use Rattle.class_model.specs.Pool.{constant_at};
ghost use Rattle.class_model.specs.declared.pool.Const.TheVariants as consts;
ghost use Rattle.member_link.specs.Machine.Codes.{call_op, dynamic_op, initialises, referring, special_start};
ghost use Rattle.member_link.specs.Machine.Ops as ops;
ghost use Rattle.member_link.specs.Machine.Programs.{Program};
ghost use Rattle.member_link.specs.Signatures.{reference_of};
ghost use Rattle.machine_code.specs.Inner.Translating.{IsFieldIn, IsOp, OpIsResolved, is_class_above, name_or, rows_in};
ghost use Rattle.member_link.specs.TreePrograms.{IsProgram};

use crate::resolving::fields::resolve_field;
use crate::resolving::targets::{resolve_by_receiver, resolve_special, resolve_static};
use crate::translating::method_code::MethodCode;
use class_model::opcodes::{INVOKEINTERFACE, INVOKESPECIAL, INVOKESTATIC, INVOKEVIRTUAL};
use class_model::{ACC_INTERFACE, Const, Header, NoMemory, Text, has};
use member_link::{
    DynamicOp, FieldOp, Reference, RunOp, descriptor_at, header_named, is_type_below, name_at,
    parameter_kinds, reference_of,
};
use std::alloc::Global;

// ---- fields

/// A `getstatic`.
///
/// # Errors
/// `NoMemory`, where memory runs out.
pub(crate) fn get_static(
    alloc: Global,
    code: &MethodCode<'_>,
    index: u16,
) -> Result<RunOp, NoMemory>
    ensures is { IfOk result (IsOp code.now.classes (λ links.
        referring (rows_in code.now) index ops.get_static)) }
    ensures resolved { IfOk result (OpIsResolved code.now.classes) }
{
    match field_at(alloc, code, index, None)? {
        Some(op) => Ok(RunOp::GetStatic(op)),
        None => Ok(RunOp::Meaningless),
    }
}

/// A `putstatic`.
///
/// # Errors
/// `NoMemory`, where memory runs out.
pub(crate) fn put_static(
    alloc: Global,
    code: &MethodCode<'_>,
    index: u16,
) -> Result<RunOp, NoMemory>
    ensures is { IfOk result (IsOp code.now.classes (λ links.
        referring (rows_in code.now) index (λ r.
        ops.put_static r (initialises (rows_in code.now).is_clinit (rows_in code.now).own)))) }
    ensures resolved { IfOk result (OpIsResolved code.now.classes) }
{
    match field_at(alloc, code, index, initialises(code, code.is_clinit()))? {
        Some(op) => Ok(RunOp::PutStatic(op)),
        None => Ok(RunOp::Meaningless),
    }
}

/// A `getfield`.
///
/// # Errors
/// `NoMemory`, where memory runs out.
pub(crate) fn get_field(alloc: Global, code: &MethodCode<'_>, index: u16) -> Result<RunOp, NoMemory>
    ensures is { IfOk result (IsOp code.now.classes (λ links.
        referring (rows_in code.now) index ops.get_field)) }
    ensures resolved { IfOk result (OpIsResolved code.now.classes) }
{
    match field_at(alloc, code, index, None)? {
        Some(op) => Ok(RunOp::GetField(op)),
        None => Ok(RunOp::Meaningless),
    }
}

/// A `putfield`.
///
/// # Errors
/// `NoMemory`, where memory runs out.
pub(crate) fn put_field(alloc: Global, code: &MethodCode<'_>, index: u16) -> Result<RunOp, NoMemory>
    ensures is { IfOk result (IsOp code.now.classes (λ links.
        referring (rows_in code.now) index (λ r.
        ops.put_field r (initialises (rows_in code.now).is_init (rows_in code.now).own)))) }
    ensures resolved { IfOk result (OpIsResolved code.now.classes) }
{
    match field_at(alloc, code, index, initialises(code, code.is_init()))? {
        Some(op) => Ok(RunOp::PutField(op)),
        None => Ok(RunOp::Meaningless),
    }
}

// The field that the constant at an index names, resolved. `initialises` is the class whose initialiser the code is.
fn field_at(
    alloc: Global,
    code: &MethodCode<'_>,
    index: u16,
    initialises: Option<&Text>,
) -> Result<Option<Box<FieldOp>>, NoMemory>
    ensures { IfOk result (IsFieldIn code.now.classes
        (reference_of code.now.class.pool (constant_at code.now.class.pool index))
        (option_copied initialises.entry)) }
{
    match reference_of(code.pool(), index)? {
        Some(named) => {
            let op = resolve_field(code.tree(), named, copied(initialises)?)?;
            Ok(Some(Box::new(alloc, op)?))
        }
        None => Ok(None),
    }
}

// The same text, if there is one.
fn copied(text: Option<&Text>) -> Result<Option<Text>, NoMemory>
    ensures { IfOk result (λ copy. copy ≡ option_copied text.entry) }
{
    match text {
        Some(text) => Ok(Some(text.copy()?)),
        None => Ok(None),
    }
}

// The class whose initialiser the code is, if it is one.
fn initialises<'a>(code: &MethodCode<'a>, is_initialiser: bool) -> Option<&'a Text>
    ensures { option_copied result ≡ initialises is_initialiser (header_of code.now.class) }
{
    if is_initialiser {
        Some(code.own_name())
    } else {
        None
    }
}

// ---- calls

/// A call, by its opcode.
///
/// # Errors
/// `NoMemory`, where memory runs out.
pub(crate) fn call_op(
    alloc: Global,
    code: &MethodCode<'_>,
    opcode: u8,
    index: u16,
) -> Result<RunOp, NoMemory>
    ensures is { IfOk result (IsOp code.now.classes (λ links.
        referring (rows_in code.now) index (call_op links (rows_in code.now) opcode))) }
    ensures resolved { IfOk result (OpIsResolved code.now.classes) }
{
    match reference_of(code.pool(), index)? {
        Some(named) => call_of(alloc, code, opcode, named),
        None => Ok(RunOp::Meaningless),
    }
}

// A call of a method that is named.
fn call_of(
    alloc: Global,
    code: &MethodCode<'_>,
    opcode: u8,
    named: Reference,
) -> Result<RunOp, NoMemory>
    ensures is { IfOk result (IsOp code.now.classes (λ links.
        call_op links (rows_in code.now) opcode named)) }
    ensures resolved { IfOk result (OpIsResolved code.now.classes) }
{
    match opcode {
        INVOKEVIRTUAL => {
            let op = resolve_by_receiver(alloc, code.tree(), named)?;
            Ok(RunOp::CallVirtual(Box::new(alloc, op)?))
        }
        INVOKESPECIAL => call_special(alloc, code, named),
        INVOKESTATIC => {
            let op = resolve_static(alloc, code.tree(), named)?;
            Ok(RunOp::CallStatic(Box::new(alloc, op)?))
        }
        INVOKEINTERFACE => {
            let op = resolve_by_receiver(alloc, code.tree(), named)?;
            Ok(RunOp::CallInterface(Box::new(alloc, op)?))
        }
        _ => Ok(RunOp::Meaningless),
    }
}

// An `invokespecial` of a method that is named.
fn call_special(alloc: Global, code: &MethodCode<'_>, named: Reference) -> Result<RunOp, NoMemory>
    ensures is { IfOk result (IsOp code.now.classes (λ links.
        ops.call_special named (special_start links (rows_in code.now) named.class))) }
    ensures resolved { IfOk result (OpIsResolved code.now.classes) }
{
    let from = special_start(code, &named.class).copy()?;
    let op = resolve_special(alloc, code.tree(), named, from)?;
    Ok(RunOp::CallSpecial(Box::new(alloc, op)?))
}

// The class at which the selection of a special call starts (6.5.invokespecial).
fn special_start<'a>(code: &MethodCode<'a>, named: &'a Text) -> &'a Text
    ensures { (P : Program) → IsProgram code.now.classes P
        → result.now ≡ special_start P.links (rows_in code.now) named.now }
{
    match header_named(code.tree(), named.bytes()) {
        Some(header) => {
            if is_class_above(code, header, named) {
                superclass_or(code, named)
            } else {
                named
            }
        }
        None => named,
    }
}

// Whether a class, by its header, is none of the interfaces and strictly above the class of the code.
fn is_class_above(code: &MethodCode<'_>, header: &Header, named: &Text) -> bool
    ensures { (P : Program) → IsProgram code.now.classes P
        → result ≡ is_class_above P.links (header_of code.now.class).name header.now named.now }
{
    let own = code.own_name().bytes();
    let named = named.bytes();
    !has(header.flags, ACC_INTERFACE) && is_type_below(code.tree(), own, named) && own != named
}

// The superclass of the class of the code; where it has none, the named class.
fn superclass_or<'a>(code: &MethodCode<'a>, named: &'a Text) -> &'a Text
    ensures { result.now ≡ name_or named.now (header_of code.now.class).super_name }
{
    match code.own_superclass() {
        Some(name) => name,
        None => named,
    }
}

/// An `invokedynamic`.
///
/// # Errors
/// `NoMemory`, where memory runs out.
pub(crate) fn dynamic_op(
    alloc: Global,
    code: &MethodCode<'_>,
    index: u16,
) -> Result<RunOp, NoMemory>
    ensures is { IfOk result (IsOp code.now.classes (λ links.
        dynamic_op (rows_in code.now) (constant_at code.now.class.pool index))) }
    ensures resolved { IfOk result (OpIsResolved code.now.classes) }
{
    match code.pool().get(index) {
        Some(Const::InvokeDynamic(bootstrap, member)) => {
            dynamic_call(alloc, code, *bootstrap, *member)
        }
        _ => Ok(RunOp::Meaningless),
    }
}

// An `invokedynamic` by its bootstrap method, name and descriptor.
fn dynamic_call(
    alloc: Global,
    code: &MethodCode<'_>,
    bootstrap: u16,
    member: u16,
) -> Result<RunOp, NoMemory>
    ensures is { IfOk result (IsOp code.now.classes (λ links.
        dynamic_op (rows_in code.now) (Some (consts.InvokeDynamic bootstrap member)))) }
    ensures resolved { IfOk result (OpIsResolved code.now.classes) }
{
    let pool = code.pool();
    match (name_at(pool, member), descriptor_at(pool, member)) {
        (Some(name), Some(desc)) => {
            let op = DynamicOp {
                class: code.own_name().copy()?,
                bootstrap,
                name: name.copy()?,
                desc: desc.copy()?,
                parameters: parameter_kinds(alloc, desc)?,
            };
            Ok(RunOp::CallDynamic(Box::new(alloc, op)?))
        }
        _ => Ok(RunOp::Meaningless),
    }
}
