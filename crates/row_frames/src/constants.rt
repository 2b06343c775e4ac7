//! Constants (JVM Specification SE 8, 6.5.ldc and the like).
ghost use Rattle.std.specs.Prelude.{◌≡◌, Some, IfOk};
ghost use Rattle.class_model.specs.Pool.{constant_at};
ghost use Rattle.member_link.specs.Rows.LocalRows.{const_row, imm_row, type_of_const, type_of_imm};
ghost use Rattle.member_link.specs.Rows.Row.{row_frame};

use crate::step::Step;
use class_model::{Const, Frame, Imm, NoMemory, Text, VType};
use class_tree::{METHOD_HANDLE, METHOD_TYPE};
use std::alloc::Global;

const CLASS: &[u8] = b"java/lang/Class";

const STRING: &[u8] = b"java/lang/String";

/// Pushes a number or null that the instruction has itself.
pub(crate) fn push_imm(step: &Step<'_>, imm: Imm) -> Result<Option<Frame>, NoMemory>
    ensures { IfOk result
        (λ frame. frame ≡ row_frame step.now.before.now (imm_row step.now.before.now imm)) }
{
    step.replaced(0, Some(type_of_imm(imm)))
}

/// Pushes a constant of the pool.
pub(crate) fn push_constant(step: &Step<'_>, index: u16) -> Result<Option<Frame>, NoMemory>
    ensures { IfOk result (λ frame. frame
        ≡ row_frame step.now.before.now
        (const_row step.now.before.now (constant_at step.now.pool.now index))) }
{
    match step.pool.get(index) {
        Some(constant) => push_type(step, constant),
        None => step.no_row(),
    }
}

// Pushes a constant that is there.
fn push_type(step: &Step<'_>, constant: &Const) -> Result<Option<Frame>, NoMemory>
    ensures { IfOk result (λ frame. frame
        ≡ row_frame step.now.before.now (const_row step.now.before.now (Some constant.now))) }
{
    match type_of_const(step.alloc, constant)? {
        Some(given) => step.replaced(0, Some(given)),
        None => step.no_row(),
    }
}

// The type of a number or null.
fn type_of_imm(imm: Imm) -> VType
    ensures { result ≡ type_of_imm imm }
{
    match imm {
        Imm::Null => VType::Null,
        Imm::Int(_) => VType::Int,
        Imm::Long(_) => VType::Long,
        Imm::Float(_) => VType::Float,
        Imm::Double(_) => VType::Double,
    }
}

// The type of a constant of the pool that is loaded, if it may be.
fn type_of_const(alloc: Global, constant: &Const) -> Result<Option<VType>, NoMemory>
    ensures { IfOk result (λ type. type ≡ type_of_const constant.now) }
{
    Ok(Some(match constant {
        Const::Integer(_) => VType::Int,
        Const::Float(_) => VType::Float,
        Const::Long(_) => VType::Long,
        Const::Double(_) => VType::Double,
        Const::String(_) => VType::Object(Text::of_plain(alloc, STRING)?),
        Const::Class(_) => VType::Object(Text::of_plain(alloc, CLASS)?),
        Const::MethodHandle(..) => VType::Object(Text::of_plain(alloc, METHOD_HANDLE)?),
        Const::MethodType(_) => VType::Object(Text::of_plain(alloc, METHOD_TYPE)?),
        _ => return Ok(None),
    }))
}
