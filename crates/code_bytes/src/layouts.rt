//! The opcodes (JVM Specification SE 8, 6.5 and 7): what stands behind each, and the instruction of both.
ghost use Rattle.std.specs.Prelude.{◌≡◌, ◌<◌, ◌≤◌};
ghost use Rattle.class_model.specs.Instructions.{kind_at};
ghost use Rattle.code_bytes.specs.Inner.Opcodes.{layout_of, constant_of, arithmetic_of, alone_of, u1_of, u2_of, jump_of};

use class_model::opcodes::{
    ACONST_NULL, ALOAD, ALOAD_3, ANEWARRAY, ARETURN, ARRAYLENGTH, ASTORE, ASTORE_3, ATHROW, BIPUSH,
    CHECKCAST, DCMPG, DCONST_0, DCONST_1, FCONST_0, FCONST_1, FCONST_2, GETFIELD, GETSTATIC, GOTO,
    GOTO_W, I2B, I2L, IADD, IALOAD, IASTORE, ICONST_0, ICONST_5, ICONST_M1, IDIV, IF_ACMPEQ,
    IF_ACMPNE, IF_ICMPEQ, IF_ICMPLE, IFEQ, IFLE, IFNONNULL, IFNULL, IINC, ILOAD, ILOAD_0, IMUL,
    INEG, INSTANCEOF, INVOKEDYNAMIC, INVOKEINTERFACE, INVOKESTATIC, INVOKEVIRTUAL, IREM, IRETURN,
    ISHL, ISTORE, ISTORE_0, ISUB, L2I, LADD, LCMP, LCONST_0, LCONST_1, LDC, LDC_W, LDC2_W, LDIV,
    LMUL, LNEG, LOOKUPSWITCH, LREM, LSUB, LXOR, MONITORENTER, MONITOREXIT, MULTIANEWARRAY, NEW,
    NEWARRAY, NOP, POP, PUTFIELD, PUTSTATIC, RETURN, SALOAD, SASTORE, SIPUSH, SWAP, TABLESWITCH,
    WIDE,
};
use class_model::{Imm, Instr, Kind};

/// What stands behind an opcode: numbers of one, two or four bytes, unsigned (U) or signed (S), jump offsets,
/// and the operands of the longer forms.
#[derive(Clone, Copy)]
pub(crate) enum Layout {
    Alone,
    U1,
    U2,
    S1,
    S2,
    U1S1,
    /// The code of a primitive type that `newarray` makes arrays of.
    ArrayCode,
    /// A class and a number of dimensions.
    Dimensions,
    /// An index, a count and a byte that is zero.
    U2U1Zero,
    /// An index and two bytes that are zero.
    U2ZeroZero,
    Jump2,
    Jump4,
    TableSwitch,
    LookupSwitch,
    Wide,
}

/// What stands behind an opcode, if it has an instruction.
#[tactic(auto, unfolding(crate::specs::Inner::Opcodes::layout_of))]
pub(crate) fn layout_of(opcode: u8) -> Option<Layout>
    ensures { result ≡ layout_of opcode }
{
    let layout = match opcode {
        NOP..=DCONST_1
        | ILOAD_0..=SALOAD
        | ISTORE_0..=LXOR
        | I2L..=DCMPG
        | IRETURN..=RETURN
        | ARRAYLENGTH
        | ATHROW
        | MONITORENTER
        | MONITOREXIT => Layout::Alone,
        BIPUSH => Layout::S1,
        SIPUSH => Layout::S2,
        LDC | ILOAD..=ALOAD | ISTORE..=ASTORE => Layout::U1,
        LDC_W | LDC2_W | GETSTATIC..=INVOKESTATIC | NEW | ANEWARRAY | CHECKCAST | INSTANCEOF =>
            Layout::U2,
        IINC => Layout::U1S1,
        IFEQ..=GOTO | IFNULL | IFNONNULL => Layout::Jump2,
        TABLESWITCH => Layout::TableSwitch,
        LOOKUPSWITCH => Layout::LookupSwitch,
        INVOKEINTERFACE => Layout::U2U1Zero,
        INVOKEDYNAMIC => Layout::U2ZeroZero,
        NEWARRAY => Layout::ArrayCode,
        WIDE => Layout::Wide,
        MULTIANEWARRAY => Layout::Dimensions,
        GOTO_W => Layout::Jump4,
        _ => return None,
    };
    Some(layout)
}

/// The instruction of an opcode without operands.
pub(crate) fn alone(opcode: u8) -> Instr
    ensures { result ≡ alone_of opcode }
{
    match opcode {
        NOP => Instr::Nop,
        ACONST_NULL..=DCONST_1 => Instr::Const(constant(opcode)),
        ILOAD_0..=ALOAD_3 => Instr::Load(
            kind((opcode - ILOAD_0) / 4),
            u16::from((opcode - ILOAD_0) % 4),
        ),
        IALOAD..=SALOAD => Instr::ArrayLoad(opcode),
        ISTORE_0..=ASTORE_3 => Instr::Store(
            kind((opcode - ISTORE_0) / 4),
            u16::from((opcode - ISTORE_0) % 4),
        ),
        IASTORE..=SASTORE => Instr::ArrayStore(opcode),
        POP..=SWAP => Instr::Shuffle(opcode),
        IADD..=DCMPG => arithmetic(opcode),
        IRETURN..=ARETURN => Instr::Return(Some(kind(opcode - IRETURN))),
        RETURN => Instr::Return(None),
        ARRAYLENGTH => Instr::Length,
        ATHROW => Instr::Throw,
        MONITORENTER => Instr::Enter,
        _ => Instr::Leave,
    }
}

// What the opcodes from aconst_null to dconst_1 push: of floats and doubles the bits of 0, 1 and 2.
fn constant(opcode: u8) -> Imm
    ensures { result ≡ constant_of opcode }
{
    match opcode {
        ACONST_NULL => Imm::Null,
        ICONST_M1..=ICONST_5 => Imm::Int(i32::from(opcode) - i32::from(ICONST_0)),
        LCONST_0 | LCONST_1 => Imm::Long(i64::from(opcode) - i64::from(LCONST_0)),
        FCONST_0 => Imm::Float(0),
        FCONST_1 => Imm::Float(0x3F80_0000),
        FCONST_2 => Imm::Float(0x4000_0000),
        DCONST_0 => Imm::Double(0),
        _ => Imm::Double(0x3FF0_0000_0000_0000),
    }
}

// Arithmetic, conversions and comparisons, by what can become of them.
fn arithmetic(opcode: u8) -> Instr
    ensures { result ≡ arithmetic_of opcode }
{
    match opcode {
        IDIV | LDIV | IREM | LREM => Instr::Divide(opcode),
        IADD
        | LADD
        | ISUB
        | LSUB
        | IMUL
        | LMUL
        | INEG
        | LNEG
        | ISHL..=LXOR
        | I2L
        | L2I
        | I2B..=LCMP => Instr::Pure(opcode),
        _ => Instr::FloatAsk(opcode),
    }
}

/// The instruction of an opcode with an unsigned number of one byte, or of two behind a `wide`.
pub(crate) fn with_u1(opcode: u8, number: u16) -> Instr
    ensures { result ≡ u1_of opcode number }
{
    match opcode {
        ILOAD..=ALOAD => Instr::Load(kind(opcode - ILOAD), number),
        ISTORE..=ASTORE => Instr::Store(kind(opcode - ISTORE), number),
        _ => Instr::Ldc(number),
    }
}

/// The instruction of an opcode with an unsigned number of two bytes.
pub(crate) fn with_u2(opcode: u8, number: u16) -> Instr
    ensures { result ≡ u2_of opcode number }
{
    match opcode {
        LDC_W => Instr::Ldc(number),
        LDC2_W => Instr::Ldc2(number),
        GETSTATIC => Instr::GetStatic(number),
        PUTSTATIC => Instr::PutStatic(number),
        GETFIELD => Instr::GetField(number),
        PUTFIELD => Instr::PutField(number),
        INVOKEVIRTUAL..=INVOKESTATIC => Instr::Invoke(opcode, number, 0),
        NEW => Instr::New(number),
        ANEWARRAY => Instr::NewRefArray(number),
        CHECKCAST => Instr::Cast(number),
        _ => Instr::InstanceOf(number),
    }
}

/// The jump of an opcode to a target.
pub(crate) fn with_target(opcode: u8, to: u32) -> Instr
    ensures { result ≡ jump_of opcode to }
{
    match opcode {
        IFEQ..=IFLE => Instr::If(opcode, to),
        IF_ICMPEQ..=IF_ICMPLE => Instr::If2(opcode, to),
        IF_ACMPEQ | IF_ACMPNE => Instr::IfSame(opcode, to),
        GOTO => Instr::Goto(to),
        _ => Instr::IfNull(opcode, to),
    }
}

// Int, long, float, double and reference, as the opcodes of loads, stores and returns count them.
fn kind(number: u8) -> Kind
    ensures { result ≡ kind_at number }
{
    match number {
        0 => Kind::Int,
        1 => Kind::Long,
        2 => Kind::Float,
        3 => Kind::Double,
        _ => Kind::Ref,
    }
}
