//! One instruction read from bytes (JVM Specification SE 8, 6.5).
ghost use Rattle.std.specs.Prelude.{◌≡◌, ◌<◌, ◌≤◌, length, Some, Err, IfOk};
ghost use Rattle.class_model.specs.Answers.{Gives};
ghost use Rattle.class_model.specs.Instructions.{instr_at, with_operands, wide_at, U1S1, ArrayCode as array_code_form, Dimensions as dimensions_form, U2U1Zero, U2ZeroZero};
ghost use Rattle.code_bytes.specs.Inner.Opcodes.{operands_of};
ghost use Rattle.class_model.specs.declared.instr.Instr.TheVariants.{Dynamic as dynamic_form, Invoke as invoke_form, Iinc as iinc_form};

use crate::layouts::{Layout, alone, layout_of, with_target, with_u1, with_u2};
use crate::source::Source;
use crate::switches::{lookup_switch, table_switch};
use class_model::array_codes::{T_BOOLEAN, T_LONG};
use class_model::opcodes::{ALOAD, ASTORE, IINC, ILOAD, ISTORE};
use class_model::{ClassFault, Imm, Instr};
use std::alloc::Global;

/// An instruction and its length in bytes.
pub(crate) type Form = (Instr, usize);

/// The instruction that begins these bytes.
pub(crate) fn instr_of(alloc: Global, source: &Source) -> Result<Form, ClassFault>
    requires { 0 < length source.now.bytes.now }
    ensures read { Gives (instr_at source.now.at source.now.bytes.now) result }
    ensures size { IfOk result (λ form. (1 ≤ form.1) × (form.1 ≤ length source.now.bytes.now)) }
{
    let opcode = source.bytes[0];
    match layout_of(opcode) {
        Some(layout) => with_layout(alloc, layout, opcode, source),
        None => Err(source.bad_opcode()),
    }
}

// The instruction of an opcode, whose operands have this layout.
fn with_layout(
    alloc: Global,
    layout: Layout,
    opcode: u8,
    source: &Source,
) -> Result<Form, ClassFault>
    ensures { Gives (with_operands source.now.at source.now.bytes.now
        (operands_of (Some layout) opcode)) result }
{
    match layout {
        Layout::Alone => Ok((alone(opcode), 1)),
        Layout::U1 => Ok((with_u1(opcode, u16::from(source.u1(1)?)), 2)),
        Layout::U2 => Ok((with_u2(opcode, source.u2(1)?), 3)),
        Layout::S1 => Ok((Instr::Const(Imm::Int(i32::from(source.s1(1)?))), 2)),
        Layout::S2 => Ok((Instr::Const(Imm::Int(i32::from(source.s2(1)?))), 3)),
        Layout::Jump2 => Ok((with_target(opcode, source.target2(1)?), 3)),
        Layout::Jump4 => Ok((Instr::Goto(source.target4(1)?), 5)),
        Layout::U1S1 => increment(source),
        Layout::ArrayCode => new_array(source),
        Layout::Dimensions => new_multi(source),
        Layout::U2U1Zero => interface_call(opcode, source),
        Layout::U2ZeroZero => dynamic_call(source),
        Layout::TableSwitch => table_switch(alloc, source),
        Layout::LookupSwitch => lookup_switch(alloc, source),
        Layout::Wide => wide(source),
    }
}

// iinc: a local and what is added to it (6.5.iinc).
fn increment(source: &Source) -> Result<Form, ClassFault>
    ensures { Gives (with_operands source.now.at source.now.bytes.now
        (Some (U1S1 iinc_form))) result }
{
    let local = source.u1(1)?;
    let by = source.s1(2)?;
    Ok((Instr::Iinc(u16::from(local), i16::from(by)), 3))
}

// newarray: the code of a primitive type (6.5.newarray).
fn new_array(source: &Source) -> Result<Form, ClassFault>
    ensures { Gives (with_operands source.now.at source.now.bytes.now
        (Some array_code_form)) result }
{
    match source.u1(1)? {
        code @ T_BOOLEAN..=T_LONG => Ok((Instr::NewArray(code), 2)),
        _ => Err(source.bad_operand()),
    }
}

// multianewarray: an array class, and at least one dimension (6.5.multianewarray).
fn new_multi(source: &Source) -> Result<Form, ClassFault>
    ensures { Gives (with_operands source.now.at source.now.bytes.now
        (Some dimensions_form)) result }
{
    let class = source.u2(1)?;
    match source.u1(3)? {
        0 => Err(source.bad_operand()),
        dimensions => Ok((Instr::NewMulti(class, dimensions), 4)),
    }
}

// invokeinterface: a method, a count and a byte that is zero (6.5.invokeinterface).
fn interface_call(opcode: u8, source: &Source) -> Result<Form, ClassFault>
    ensures { Gives (with_operands source.now.at source.now.bytes.now
        (Some (U2U1Zero (invoke_form opcode)))) result }
{
    let method = source.u2(1)?;
    let count = source.u1(3)?;
    if source.u1(4)? != 0 {
        return Err(source.bad_operand());
    }
    Ok((Instr::Invoke(opcode, method, count), 5))
}

// invokedynamic: a call site and two bytes that are zero (6.5.invokedynamic).
fn dynamic_call(source: &Source) -> Result<Form, ClassFault>
    ensures { Gives (with_operands source.now.at source.now.bytes.now
        (Some (U2ZeroZero dynamic_form))) result }
{
    let site = source.u2(1)?;
    if source.u2(3)? != 0 {
        return Err(source.bad_operand());
    }
    Ok((Instr::Dynamic(site), 5))
}

// wide: a load, a store or iinc with numbers of two bytes (6.5.wide).
fn wide(source: &Source) -> Result<Form, ClassFault>
    ensures { Gives (wide_at source.now.at source.now.bytes.now) result }
{
    let opcode = source.u1(1)?;
    match opcode {
        ILOAD..=ALOAD | ISTORE..=ASTORE => Ok((with_u1(opcode, source.u2(2)?), 4)),
        IINC => Ok((Instr::Iinc(source.u2(2)?, source.s2(4)?), 6)),
        _ => Err(source.bad_opcode()),
    }
}
