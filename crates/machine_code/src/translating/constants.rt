//! Instructions that push constants, and returns.
ghost use Rattle.std.specs.Prelude.{◌≡◌, Some, IfOk};
ghost use Rattle.class_model.specs.Pool.{constant_at};
ghost use Rattle.class_model.specs.PoolChecks.{utf8_at};
ghost use Rattle.member_link.specs.Machine.Codes.{constant_op, handle_of, return_op, same_kind, value_of_imm};
ghost use Rattle.member_link.specs.Scope.{own_descriptor};
ghost use Rattle.member_link.specs.Signatures.{result_of};
ghost use Rattle.member_link.specs.Machine.Programs.{Program};
ghost use Rattle.member_link.specs.RunOps.{IsResolved, op_of};
ghost use Rattle.machine_code.specs.Inner.Translating.{IsOp, OpIsResolved, scope_in};

use crate::translating::method_code::MethodCode;
use class_model::{Const, FieldType, Imm, Kind, NoMemory, Pool};
use machine_values::{Constant, Value};
use member_link::{RunOp, reference_of};

/// What an instruction that pushes a number or null by itself pushes.
pub(crate) fn value_of_imm(imm: Imm) -> Value
    ensures { result ≡ value_of_imm imm }
{
    match imm {
        Imm::Null => Value::Null,
        Imm::Int(number) => Value::Int(number),
        Imm::Long(number) => Value::Long(number),
        Imm::Float(bits) => Value::Float(bits),
        Imm::Double(bits) => Value::Double(bits),
    }
}

/// The constant at an index is pushed.
///
/// # Errors
/// `NoMemory`, where memory runs out.
pub(crate) fn constant_op(code: &MethodCode<'_>, index: u16) -> Result<RunOp, NoMemory>
    ensures is { IfOk result (IsOp code.now.classes (λ links.
        constant_op code.now.class.pool (constant_at code.now.class.pool index))) }
    ensures resolved { IfOk result (OpIsResolved code.now.classes) }
{
    let pool = code.pool();
    match pool.get(index) {
        Some(Const::Integer(number)) => Ok(RunOp::Push(Value::Int(*number))),
        Some(Const::Long(number)) => Ok(RunOp::Push(Value::Long(*number))),
        Some(Const::Float(bits)) => Ok(RunOp::Push(Value::Float(*bits))),
        Some(Const::Double(bits)) => Ok(RunOp::Push(Value::Double(*bits))),
        Some(Const::String(text)) => match pool.utf8(*text) {
            Some(text) => Ok(RunOp::PushConstant(Constant::Str(text.copy()?))),
            None => Ok(RunOp::Meaningless),
        },
        Some(Const::Class(name)) => match pool.utf8(*name) {
            Some(name) => Ok(RunOp::PushConstant(Constant::Class(name.copy()?))),
            None => Ok(RunOp::Meaningless),
        },
        Some(Const::MethodType(desc)) => match pool.utf8(*desc) {
            Some(desc) => Ok(RunOp::PushConstant(Constant::MethodType(desc.copy()?))),
            None => Ok(RunOp::Meaningless),
        },
        Some(Const::MethodHandle(kind, reference)) => {
            match handle_of(pool, *kind, *reference)? {
                Some(handle) => Ok(RunOp::PushConstant(handle)),
                None => Ok(RunOp::Meaningless),
            }
        }
        _ => Ok(RunOp::Meaningless),
    }
}

// The method handle of a kind, by what it refers to (4.4.8).
fn handle_of(pool: &Pool, kind: u8, index: u16) -> Result<Option<Constant>, NoMemory>
    ensures { IfOk result (λ handle. handle ≡ handle_of pool.now kind index) }
{
    match reference_of(pool, index)? {
        Some(member) => Ok(Some(Constant::Handle(kind, member.class, member.name, member.desc))),
        None => Ok(None),
    }
}

/// A return of a value of a kind, or of none.
///
/// # Errors
/// `NoMemory`, where memory runs out.
pub(crate) fn return_op(code: &MethodCode<'_>, kind: Option<Kind>) -> Result<RunOp, NoMemory>
    ensures is { IfOk result (IsOp code.now.classes (λ links.
        return_op (result_of (own_descriptor (scope_in code.now))) kind)) }
    ensures resolved { IfOk result (OpIsResolved code.now.classes) }
{
    match (code.result(), kind) {
        (None, None) => Ok(RunOp::ReturnNothing),
        (Some(type_), Some(kind)) => value_return(type_, kind),
        _ => Ok(RunOp::Meaningless),
    }
}

// A return of a value of a kind, by the type that is declared.
fn value_return(type_: &FieldType, kind: Kind) -> Result<RunOp, NoMemory>
    ensures is { IfOk result (λ op. op_of op ≡ return_op (Some type_.now) (Some kind)) }
    ensures resolved { IfOk result (λ op. (P : Program) → IsResolved P op) }
{
    if same_kind(type_.kind(), kind) {
        Ok(RunOp::ReturnValue(type_.copy()?))
    } else {
        Ok(RunOp::Meaningless)
    }
}

// Whether two kinds are one.
fn same_kind(one: Kind, other: Kind) -> bool
    ensures { result ≡ same_kind one other }
{
    match one {
        Kind::Int => matches!(other, Kind::Int),
        Kind::Long => matches!(other, Kind::Long),
        Kind::Float => matches!(other, Kind::Float),
        Kind::Double => matches!(other, Kind::Double),
        Kind::Ref => matches!(other, Kind::Ref),
    }
}
