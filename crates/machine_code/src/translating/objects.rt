//! Instructions that make objects and arrays and test what objects are (JVM Specification SE 8, 6.5).
ghost use Rattle.std.specs.Prelude.{◌≡◌, ◌∷◌, IfOk, IfSome};
ghost use Rattle.class_model.specs.Characters.{left_bracket};
ghost use Rattle.class_model.specs.Code.{FitsArray};
ghost use Rattle.class_model.specs.Descriptors.{named_text};
ghost use Rattle.class_model.specs.PoolChecks.{class_at};
ghost use Rattle.class_tree.specs.Headers.{Classes};
ghost use Rattle.member_link.specs.Machine.Codes.{naming};
ghost use Rattle.member_link.specs.Machine.Ops as ops;
ghost use Rattle.member_link.specs.Rows.ArrayRows.{array_of, primitive_array};
ghost use Rattle.machine_code.specs.Inner.Translating.{IsOp, OpIsResolved};
ghost use Rattle.member_link.specs.RunOps.{op_of};

use crate::resolving::objects::resolve_new;
use crate::translating::method_code::MethodCode;
use class_model::array_codes::{
    T_BOOLEAN, T_BYTE, T_CHAR, T_DOUBLE, T_FLOAT, T_INT, T_LONG, T_SHORT,
};
use class_model::{NoMemory, Text};
use class_tree::is_array;
use member_link::{CastOp, RunOp};
use std::alloc::Global;

// ---- objects

/// A `new`.
///
/// # Errors
/// `NoMemory`, where memory runs out.
pub(crate) fn new_op(alloc: Global, code: &MethodCode<'_>, index: u16) -> Result<RunOp, NoMemory>
    ensures is { IfOk result (IsOp code.now.classes (λ links.
        naming (class_at code.now.class.pool index) ops.new_object)) }
    ensures resolved { IfOk result (OpIsResolved code.now.classes) }
{
    match code.pool().class_name(index) {
        Some(class) => {
            let op = resolve_new(alloc, code.tree(), class)?;
            Ok(RunOp::New(Box::new(alloc, op)?))
        }
        None => Ok(RunOp::Meaningless),
    }
}

/// A `checkcast`.
///
/// # Errors
/// `NoMemory`, where memory runs out.
pub(crate) fn check_cast(
    alloc: Global,
    code: &MethodCode<'_>,
    index: u16,
) -> Result<RunOp, NoMemory>
    ensures is { IfOk result (IsOp code.now.classes (λ links.
        naming (class_at code.now.class.pool index) ops.check_cast)) }
    ensures resolved { IfOk result (OpIsResolved code.now.classes) }
{
    match code.pool().class_name(index) {
        Some(name) => Ok(RunOp::Cast(Box::new(alloc, cast_to(name)?)?)),
        None => Ok(RunOp::Meaningless),
    }
}

/// An `instanceof`.
///
/// # Errors
/// `NoMemory`, where memory runs out.
pub(crate) fn instance_of(
    alloc: Global,
    code: &MethodCode<'_>,
    index: u16,
) -> Result<RunOp, NoMemory>
    ensures is { IfOk result (IsOp code.now.classes (λ links.
        naming (class_at code.now.class.pool index) ops.instance_of)) }
    ensures resolved { IfOk result (OpIsResolved code.now.classes) }
{
    match code.pool().class_name(index) {
        Some(name) => Ok(RunOp::InstanceOf(Box::new(alloc, cast_to(name)?)?)),
        None => Ok(RunOp::Meaningless),
    }
}

// A test of objects against a class or array; none has been tested yet.
fn cast_to(name: &Text) -> Result<CastOp, NoMemory>
    ensures { IfOk result (λ op. op ≡ record { name = name.now; seen = None }) }
{
    Ok(CastOp {
        name: name.copy()?,
        seen: None,
    })
}

// ---- arrays

/// A `newarray`, by the code of its type.
///
/// # Errors
/// `NoMemory`, where memory runs out.
pub(crate) fn new_array(alloc: Global, code: u8) -> Result<RunOp, NoMemory>
    ensures is { IfOk result (λ op. op_of op ≡ naming (primitive_array code) ops.new_array) }
    ensures resolved { IfOk result (λ op. (classes : Classes) → OpIsResolved classes op) }
{
    let desc = match code {
        T_BOOLEAN => Text::of_plain(alloc, b"[Z")?,
        T_CHAR => Text::of_plain(alloc, b"[C")?,
        T_FLOAT => Text::of_plain(alloc, b"[F")?,
        T_DOUBLE => Text::of_plain(alloc, b"[D")?,
        T_BYTE => Text::of_plain(alloc, b"[B")?,
        T_SHORT => Text::of_plain(alloc, b"[S")?,
        T_INT => Text::of_plain(alloc, b"[I")?,
        T_LONG => Text::of_plain(alloc, b"[J")?,
        _ => return Ok(RunOp::Meaningless),
    };
    Ok(RunOp::NewArray(desc))
}

/// An `anewarray`.
///
/// # Errors
/// `NoMemory`, where memory runs out.
pub(crate) fn new_ref_array(
    alloc: Global,
    code: &MethodCode<'_>,
    index: u16,
) -> Result<RunOp, NoMemory>
    requires { IfSome (class_at code.now.class.pool index) FitsArray }
    ensures is { IfOk result (IsOp code.now.classes (λ links.
        naming (array_of (class_at code.now.class.pool index)) ops.new_array)) }
    ensures resolved { IfOk result (OpIsResolved code.now.classes) }
{
    match code.pool().class_name(index) {
        Some(name) => Ok(RunOp::NewArray(array_of(alloc, name)?)),
        None => Ok(RunOp::Meaningless),
    }
}

// The array of a class or array.
fn array_of(alloc: Global, name: &Text) -> Result<Text, NoMemory>
    requires { FitsArray name.now }
    ensures { IfOk result (λ array. array ≡ left_bracket ∷ named_text name.now) }
{
    let array = array_bytes(alloc, name.bytes())?;
    Text::of_text(alloc, array.as_slice())
}

// The bytes of its descriptor.
fn array_bytes(alloc: Global, name: &[u8]) -> Result<Vec<u8>, NoMemory>
    ensures { IfOk result (λ array. array.items ≡ left_bracket ∷ named_text name.now) }
{
    let mut array = Vec::with_capacity(alloc, name.len() + 3)?;
    array.push(b'[')?;
    if is_array(name) {
        array.extend_from_slice(name)?;
        return Ok(array);
    }
    array.push(b'L')?;
    array.extend_from_slice(name)?;
    array.push(b';')?;
    Ok(array)
}

/// A `multianewarray`.
///
/// # Errors
/// `NoMemory`, where memory runs out.
pub(crate) fn new_multi(
    code: &MethodCode<'_>,
    index: u16,
    dimensions: u8,
) -> Result<RunOp, NoMemory>
    ensures is { IfOk result (IsOp code.now.classes (λ links.
        naming (class_at code.now.class.pool index) (λ name. ops.new_arrays name dimensions))) }
    ensures resolved { IfOk result (OpIsResolved code.now.classes) }
{
    match code.pool().class_name(index) {
        Some(name) => Ok(RunOp::NewArrays(name.copy()?, dimensions)),
        None => Ok(RunOp::Meaningless),
    }
}
