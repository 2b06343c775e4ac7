//! Writing an instruction.
ghost use Rattle.std.specs.Prelude.{◌≡◌, ◌+◌, ◌++◌, ◌<◌, ℕ, List, length, FitsSigned, IfOk, OnOk};
ghost use Rattle.std.specs.Int.{w16};
ghost use Rattle.class_model.specs.Cutting.{IsBytes};
ghost use Rattle.code_bytes.specs.Encoding.{HasSpelling, IsChosen, IsPushed};
ghost use Rattle.code_bytes.specs.Forms.{kind_index, pushed_bytes, int_bytes, ldc_bytes, local_bytes, iinc_bytes, jump_bytes, goto_bytes, return_bytes, invoke_bytes, instr_bytes};
ghost use Rattle.code_bytes.specs.Inner.FormBytes.{form_bytes, FitsCount, HasKeys};
ghost use Rattle.code_bytes.specs.Numbers.{HasNumbers};

use crate::forms::{Form, offset};
use class_model::opcodes::{
    ACONST_NULL, ANEWARRAY, ARRAYLENGTH, ATHROW, BIPUSH, CHECKCAST, DCONST_0, DCONST_1, FCONST_0,
    FCONST_1, FCONST_2, GETFIELD, GETSTATIC, GOTO, GOTO_W, IINC, ILOAD, ILOAD_0, INSTANCEOF,
    INVOKEDYNAMIC, INVOKEINTERFACE, IRETURN, ISTORE, ISTORE_0, LCONST_0, LDC, LDC_W, LDC2_W,
    MONITORENTER, MONITOREXIT, MULTIANEWARRAY, NEW, NEWARRAY, NOP, PUTFIELD, PUTSTATIC, RETURN,
    SIPUSH,
};
use class_model::{ByteList, Imm, Instr, Kind, ListOf, NoMemory};
use std::alloc::Global;

/// The shortest bytes that spell an instruction (JVM Specification SE 8, 6.5) at an offset of a code, in bytes. The pad bytes of
/// a switch are zero. The instruction has a spelling there: its opcode is of its form, its jumps reach their targets (by 16 bits
/// but for goto and switches), offsets are below 2^31, and a switch has 1 to 65,535 targets, whose keys increase.
///
/// # Errors
/// `NoMemory`, where memory runs out.
pub fn encode_one(alloc: Global, instr: &Instr, at: u32) -> Result<ByteList, NoMemory>
    requires { HasSpelling at instr.now }
    ensures chosen { IfOk result (IsChosen at instr.now) }
    ensures written { IfOk result (λ bytes. bytes ≡ instr_bytes at instr.now) }
{
    let mut bytes = Vec::new(alloc);
    encode_into(&mut bytes, instr, at)?;
    Ok(ListOf::from_vec(bytes))
}

/// Appends the bytes that `encode_one` gives of an instruction.
///
/// # Errors
/// `NoMemory`, where memory runs out.
pub fn encode_into(bytes: &mut Vec<u8>, instr: &Instr, at: u32) -> Result<(), NoMemory>
    requires { HasSpelling at instr.now }
    ensures chosen { OnOk result (IsChosen at instr.now (instr_bytes at instr.now)) }
    ensures written { OnOk result (bytes.new.items ≡ bytes.old.items ++ instr_bytes at instr.now) }
{
    let form = form_of(instr, at);
    bytes.reserve(form.len() as usize)?;
    form.push(bytes)?;
    Ok(())
}

/// How many bytes the shortest spelling of an instruction at an offset takes; it has one, as for `encode_one`.
pub fn code_len(instr: &Instr, at: u32) -> u32
    requires { HasSpelling at instr.now }
    ensures chosen { (bytes : List ℕ) × IsChosen at instr.now bytes × (result ≡ length bytes) }
    ensures written { result ≡ length (instr_bytes at instr.now) }
    ensures each { (bytes : List ℕ)
        → IsBytes bytes
        → IsChosen at instr.now bytes
        → result ≡ length bytes }
{
    form_of(instr, at).len()
}

// The shortest form of an instruction at an offset.
#[tactic(auto, unfolding(crate::specs::Forms::instr_bytes))]
fn form_of(instr: &Instr, at: u32) -> Form<'_>
    requires { HasSpelling at instr.now }
    ensures bytes { form_bytes result ≡ instr_bytes at instr.now }
    ensures fits { FitsCount result }
    ensures numbers { HasKeys result → HasNumbers instr.now }
{
    match instr {
        Instr::Nop => Form::Alone(NOP),
        Instr::Const(value) => pushed(*value),
        Instr::Ldc(index) => ldc(*index),
        Instr::Ldc2(index) => Form::U2(LDC2_W, *index),
        Instr::Load(kind, index) => local(ILOAD_0, ILOAD, *kind, *index),
        Instr::Store(kind, index) => local(ISTORE_0, ISTORE, *kind, *index),
        Instr::Iinc(index, number) => iinc(*index, *number),
        Instr::ArrayLoad(opcode)
        | Instr::ArrayStore(opcode)
        | Instr::Shuffle(opcode)
        | Instr::Pure(opcode)
        | Instr::Divide(opcode)
        | Instr::FloatAsk(opcode) => Form::Alone(*opcode),
        Instr::If(opcode, to)
        | Instr::If2(opcode, to)
        | Instr::IfSame(opcode, to)
        | Instr::IfNull(opcode, to) => jump(*opcode, at, *to),
        Instr::Goto(to) => goto(at, *to),
        Instr::Table {
            low,
            other,
            targets,
        } => Form::Table(at, *low, *other, targets.as_slice()),
        Instr::Lookup { other, pairs } => Form::Lookup(at, *other, pairs.as_slice()),
        Instr::Return(kind) => returned(*kind),
        Instr::GetStatic(field) => Form::U2(GETSTATIC, *field),
        Instr::PutStatic(field) => Form::U2(PUTSTATIC, *field),
        Instr::GetField(field) => Form::U2(GETFIELD, *field),
        Instr::PutField(field) => Form::U2(PUTFIELD, *field),
        Instr::Invoke(opcode, method, count) => invoke(*opcode, *method, *count),
        Instr::Dynamic(site) => Form::U2U1Zero(INVOKEDYNAMIC, *site, 0),
        Instr::New(class) => Form::U2(NEW, *class),
        Instr::NewArray(code) => Form::U1(NEWARRAY, *code),
        Instr::NewRefArray(class) => Form::U2(ANEWARRAY, *class),
        Instr::NewMulti(class, dimensions) => Form::U2U1(MULTIANEWARRAY, *class, *dimensions),
        Instr::Length => Form::Alone(ARRAYLENGTH),
        Instr::Throw => Form::Alone(ATHROW),
        Instr::Cast(class) => Form::U2(CHECKCAST, *class),
        Instr::InstanceOf(class) => Form::U2(INSTANCEOF, *class),
        Instr::Enter => Form::Alone(MONITORENTER),
        Instr::Leave => Form::Alone(MONITOREXIT),
    }
}

// A number or null that is pushed.
fn pushed<'a>(value: Imm) -> Form<'a>
    requires { IsPushed value }
    ensures bytes { form_bytes result ≡ pushed_bytes value }
    ensures fits { FitsCount result }
{
    match value {
        Imm::Null => Form::Alone(ACONST_NULL),
        Imm::Int(number) => pushed_int(number),
        Imm::Long(number) => Form::Alone(LCONST_0 + number as u8),
        Imm::Float(0) => Form::Alone(FCONST_0),
        Imm::Float(0x3F80_0000) => Form::Alone(FCONST_1),
        Imm::Float(_) => Form::Alone(FCONST_2),
        Imm::Double(0) => Form::Alone(DCONST_0),
        Imm::Double(_) => Form::Alone(DCONST_1),
    }
}

// An int of 16 bits that is pushed.
fn pushed_int<'a>(number: i32) -> Form<'a>
    requires { FitsSigned w16 number }
    ensures bytes { form_bytes result ≡ int_bytes number }
    ensures fits { FitsCount result }
{
    match number {
        -1..=5 => Form::Alone((number + 3) as u8),
        -128..=127 => Form::U1(BIPUSH, (number as i8).cast_unsigned()),
        _ => Form::U2(SIPUSH, (number as i16).cast_unsigned()),
    }
}

// A constant of one unit of the pool.
fn ldc<'a>(index: u16) -> Form<'a>
    ensures bytes { form_bytes result ≡ ldc_bytes index }
    ensures fits { FitsCount result }
{
    match u8::try_from(index) {
        Ok(index) => Form::U1(LDC, index),
        Err(_) => Form::U2(LDC_W, index),
    }
}

// A load or store of a kind, whose opcodes for ints these are: with the index inside, and before an index.
fn local<'a>(short: u8, general: u8, kind: Kind, index: u16) -> Form<'a>
    requires { short + 20 < 256 × general + 5 < 256 }
    ensures bytes { form_bytes result ≡ local_bytes short general kind index }
    ensures fits { FitsCount result }
{
    let kind = kind_index(kind);
    match u8::try_from(index) {
        Ok(index) if index < 4 => Form::Alone(short + 4 * kind + index),
        Ok(index) => Form::U1(general + kind, index),
        Err(_) => Form::WideU2(general + kind, index),
    }
}

// Where opcodes count a kind.
fn kind_index(kind: Kind) -> u8
    ensures value { result ≡ kind_index kind }
    ensures below { result < 5 }
{
    match kind {
        Kind::Int => 0,
        Kind::Long => 1,
        Kind::Float => 2,
        Kind::Double => 3,
        Kind::Ref => 4,
    }
}

// A number that is added to a local.
fn iinc<'a>(index: u16, number: i16) -> Form<'a>
    ensures bytes { form_bytes result ≡ iinc_bytes index number }
    ensures fits { FitsCount result }
{
    match (u8::try_from(index), i8::try_from(number)) {
        (Ok(index), Ok(number)) => Form::U1U1(IINC, index, number.cast_unsigned()),
        _ => Form::WideU2U2(IINC, index, number.cast_unsigned()),
    }
}

// A jump of 16 bits.
fn jump<'a>(opcode: u8, at: u32, to: u32) -> Form<'a>
    ensures bytes { form_bytes result ≡ jump_bytes opcode at to }
    ensures fits { FitsCount result }
{
    Form::U2(opcode, (offset(at, to) & 0xFFFF) as u16)
}

// A goto.
fn goto<'a>(at: u32, to: u32) -> Form<'a>
    ensures bytes { form_bytes result ≡ goto_bytes at to }
    ensures fits { FitsCount result }
{
    let offset = offset(at, to);
    match i16::try_from(offset.cast_signed()) {
        Ok(_) => jump(GOTO, at, to),
        Err(_) => Form::U4(GOTO_W, offset),
    }
}

// The return of a value, or of none.
fn returned<'a>(kind: Option<Kind>) -> Form<'a>
    ensures bytes { form_bytes result ≡ return_bytes kind }
    ensures fits { FitsCount result }
{
    match kind {
        Some(kind) => Form::Alone(IRETURN + kind_index(kind)),
        None => Form::Alone(RETURN),
    }
}

// A call, with the count of an interface's.
fn invoke<'a>(opcode: u8, method: u16, count: u8) -> Form<'a>
    ensures bytes { form_bytes result ≡ invoke_bytes opcode method count }
    ensures fits { FitsCount result }
{
    match opcode {
        INVOKEINTERFACE => Form::U2U1Zero(opcode, method, count),
        _ => Form::U2(opcode, method),
    }
}
