//! The frame behind each instruction (JVM Specification SE 8, 4.10.1.9).
ghost use Rattle.std.specs.Prelude.{◌≡◌, [], ◌∷◌, IfOk};
ghost use Rattle.member_link.specs.RowScope.{RowScope};
ghost use Rattle.member_link.specs.Rows.Row.{row_frame};
ghost use Rattle.member_link.specs.Rows.Operands.{Need};
ghost use Rattle.member_link.specs.Rows.Table.{jump_row};
ghost use Rattle.row_frames.specs.Behind.{IsBehind};
ghost use Rattle.row_frames.specs.Inner.Scopes.{scope_with};

use crate::arithmetic::{divide, float, pure};
use crate::calls::{call, call_dynamic};
use crate::constants::{push_constant, push_imm};
use crate::fields::{get_field, get_static, put_field, put_static};
use crate::objects::{cast, new_object};
use crate::shuffles::shuffle;
use crate::step::Step;
use crate::{arrays, local_units};
use class_model::opcodes::{
    IF_ACMPEQ, IF_ACMPNE, IF_ICMPEQ, IF_ICMPLE, IFEQ, IFLE, IFNONNULL, IFNULL,
};
use class_model::{Frame, Instr, NoMemory, Pool, Text, VType};
use std::alloc::Global;

/// The frame behind the instruction of a number, whose constants are of this pool, in a class of this name: the frame with which control
/// falls through or jumps, `None` where it does neither. It has the types that the instruction's row has, also where the row's conditions
/// do not hold; nothing is said where a name that is cut from a descriptor or from that of an array is no text. Types that stay keep their
/// texts, and locals that stay are shared.
///
/// # Errors
/// `NoMemory`, where memory runs out.
pub fn frame_behind(
    alloc: Global,
    pool: &Pool,
    own: &Text,
    number: u32,
    instr: &Instr,
    before: &Frame,
) -> Result<Option<Frame>, NoMemory>
    ensures { IfOk result (λ frame. (s : RowScope)
        → s.pool ≡ pool.now
        → s.own.name ≡ own.now
        → IsBehind s before.now number instr.now frame) }
{
    let step = Step {
        alloc,
        pool,
        own,
        before,
    };
    behind(&step, number, instr)
}

// The frame behind an instruction.
fn behind(step: &Step<'_>, number: u32, instr: &Instr) -> Result<Option<Frame>, NoMemory>
    ensures { IfOk result (λ frame. (s : RowScope)
        → IsBehind (scope_with s step.now.pool.now step.now.own.now) step.now.before.now number
        instr.now frame) }
{
    match instr {
        Instr::Nop | Instr::Goto(_) | Instr::Iinc(_, _) => step.pops(0),
        Instr::Const(imm) => push_imm(step, *imm),
        Instr::Ldc(index) | Instr::Ldc2(index) => push_constant(step, *index),
        Instr::Load(kind, local) => local_units::load(step, *kind, *local),
        Instr::Store(kind, local) => local_units::store(step, *kind, *local),
        Instr::ArrayLoad(opcode) => arrays::load(step, *opcode),
        Instr::ArrayStore(opcode) => arrays::store(step, *opcode),
        Instr::Shuffle(opcode) => shuffle(step, *opcode),
        Instr::Pure(opcode) => pure(step, *opcode),
        Instr::Divide(opcode) => divide(step, *opcode),
        Instr::FloatAsk(opcode) => float(step, *opcode),
        Instr::If(opcode, _) => jump_by_one(step, IFEQ <= *opcode && *opcode <= IFLE),
        Instr::If2(opcode, _) => jump_by_two(step, IF_ICMPEQ <= *opcode && *opcode <= IF_ICMPLE),
        Instr::IfSame(opcode, _) => jump_by_two(step, IF_ACMPEQ <= *opcode && *opcode <= IF_ACMPNE),
        Instr::IfNull(opcode, _) => jump_by_one(step, IFNULL <= *opcode && *opcode <= IFNONNULL),
        Instr::Table { .. } | Instr::Lookup { .. } | Instr::Enter | Instr::Leave => step.pops(1),
        Instr::Return(None) | Instr::Throw => Ok(None),
        Instr::Return(Some(_)) => Ok(None),
        Instr::GetStatic(index) => get_static(step, *index),
        Instr::PutStatic(index) => put_static(step, *index),
        Instr::GetField(index) => get_field(step, *index),
        Instr::PutField(index) => put_field(step, *index),
        Instr::Invoke(opcode, index, _) => call(step, *opcode, *index),
        Instr::Dynamic(index) => call_dynamic(step, *index),
        Instr::New(_) => new_object(step, number),
        Instr::NewArray(code) => arrays::new_array(step, *code),
        Instr::NewRefArray(index) => arrays::new_ref_array(step, *index),
        Instr::NewMulti(index, dimensions) => arrays::new_multi(step, *index, *dimensions),
        Instr::Length | Instr::InstanceOf(_) => step.replaced(1, Some(VType::Int)),
        Instr::Cast(index) => cast(step, *index),
    }
}

// Jumps by an operand, by an opcode that is known or not.
fn jump_by_one(step: &Step<'_>, is_known: bool) -> Result<Option<Frame>, NoMemory>
    ensures { IfOk result (λ frame. (one : Need)
        → frame ≡ row_frame step.now.before.now
        (jump_row step.now.before.now is_known (one ∷ []))) }
{
    if is_known {
        step.pops(1)
    } else {
        step.no_row()
    }
}

// Jumps by two operands, by an opcode that is known or not.
fn jump_by_two(step: &Step<'_>, is_known: bool) -> Result<Option<Frame>, NoMemory>
    ensures { IfOk result (λ frame. (one other : Need)
        → frame ≡ row_frame step.now.before.now
        (jump_row step.now.before.now is_known (one ∷ other ∷ []))) }
{
    if is_known {
        step.pops(2)
    } else {
        step.no_row()
    }
}
