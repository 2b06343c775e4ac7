//! Instructions as values (JVM Specification SE 8, 6.5).
use crate::descriptor::Kind;
use crate::list::ListOf;

/// A number or null that an instruction pushes by itself.
#[derive(Clone, Copy, PartialEq, Eq, Debug)]
pub enum Imm {
    Null,
    Int(i32),
    Long(i64),
    /// The bits of a float.
    Float(u32),
    /// The bits of a double.
    Double(u64),
}

/// A key of a `lookupswitch` and its target, as an offset from the code's start.
#[derive(Clone, Copy, PartialEq, Eq, Debug)]
pub struct Pair {
    pub key: i32,
    pub to: u32,
}

/// A list of jump targets, as offsets from the code's start.
pub type TargetList = ListOf<u32>;

/// A list of keys with their targets.
pub type PairList = ListOf<Pair>;

/// An instruction. The `u8` of a variant is its opcode, but for `NewArray`, `NewMulti` and the last of
/// `Invoke`; a `u16` is an index of the constant pool or a local unit; a jump target is an offset from the
/// code's start.
#[derive(Debug)]
pub enum Instr {
    Nop,
    Const(Imm),
    /// A constant of one unit of the pool.
    Ldc(u16),
    /// A long or double of the pool.
    Ldc2(u16),
    Load(Kind, u16),
    Store(Kind, u16),
    /// Adds a number to an int local.
    Iinc(u16, i16),
    ArrayLoad(u8),
    ArrayStore(u8),
    /// `pop` to `swap`.
    Shuffle(u8),
    /// Arithmetic of int and long that cannot fail.
    Pure(u8),
    /// `idiv`, `ldiv`, `irem`, `lrem`.
    Divide(u8),
    /// Arithmetic of float and double, conversions and comparisons.
    FloatAsk(u8),
    /// A test of an int against 0.
    If(u8, u32),
    /// A test of two ints.
    If2(u8, u32),
    /// A test of two references.
    IfSame(u8, u32),
    /// A test of a reference against null.
    IfNull(u8, u32),
    Goto(u32),
    /// `tableswitch`: the lowest key, the default target, and a target for each key from it on.
    Table {
        low: i32,
        other: u32,
        targets: TargetList,
    },
    /// `lookupswitch`: the default target, and keys with targets.
    Lookup {
        other: u32,
        pairs: PairList,
    },
    Return(Option<Kind>),
    GetStatic(u16),
    PutStatic(u16),
    GetField(u16),
    PutField(u16),
    /// A call: its opcode, the method, and the count of `invokeinterface`, else 0.
    Invoke(u8, u16, u8),
    /// `invokedynamic`.
    Dynamic(u16),
    New(u16),
    /// An array of a primitive type, by its code.
    NewArray(u8),
    NewRefArray(u16),
    /// `multianewarray`: the array class and the number of dimensions.
    NewMulti(u16, u8),
    /// `arraylength`.
    Length,
    /// `athrow`.
    Throw,
    /// `checkcast`.
    Cast(u16),
    InstanceOf(u16),
    /// `monitorenter`.
    Enter,
    /// `monitorexit`.
    Leave,
}

// Written out: a derived drop would be spelled out, field by field, in each function that drops one, and be proved there.
impl Drop for Instr {
    fn drop(self) {
        match self {
            Instr::Nop => {}
            Instr::Const(_) => {}
            Instr::Ldc(_) => {}
            Instr::Ldc2(_) => {}
            Instr::Load(_, _) => {}
            Instr::Store(_, _) => {}
            Instr::Iinc(_, _) => {}
            Instr::ArrayLoad(_) => {}
            Instr::ArrayStore(_) => {}
            Instr::Shuffle(_) => {}
            Instr::Pure(_) => {}
            Instr::Divide(_) => {}
            Instr::FloatAsk(_) => {}
            Instr::If(_, _) => {}
            Instr::If2(_, _) => {}
            Instr::IfSame(_, _) => {}
            Instr::IfNull(_, _) => {}
            Instr::Goto(_) => {}
            Instr::Table {
                low: _,
                other: _,
                targets: _,
            } => {}
            Instr::Lookup { other: _, pairs: _ } => {}
            Instr::Return(_) => {}
            Instr::GetStatic(_) => {}
            Instr::PutStatic(_) => {}
            Instr::GetField(_) => {}
            Instr::PutField(_) => {}
            Instr::Invoke(_, _, _) => {}
            Instr::Dynamic(_) => {}
            Instr::New(_) => {}
            Instr::NewArray(_) => {}
            Instr::NewRefArray(_) => {}
            Instr::NewMulti(_, _) => {}
            Instr::Length => {}
            Instr::Throw => {}
            Instr::Cast(_) => {}
            Instr::InstanceOf(_) => {}
            Instr::Enter => {}
            Instr::Leave => {}
        }
    }
}

/// An instruction in a code: its offset, and how many bytes it takes.
#[derive(Drop)]
pub struct Placed {
    pub at: u32,
    pub len: u32,
    pub instr: Instr,
}

/// A list of placed instructions.
pub type PlacedList = ListOf<Placed>;
