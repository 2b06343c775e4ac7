//! Why bytes are refused.
ghost use Rattle.std.specs.Prelude.{◌≡◌};
ghost use Rattle.class_model.specs.declared.fault.ClassFault.TheVariants.{NoMemory as no_memory};

use crate::memory::NoMemory;
use thiserror::Error;

/// The rules of the class file grammar (JVM Specification SE 8, 4.1 to 4.9).
#[derive(Clone, Copy, PartialEq, Eq, Debug)]
pub enum FileRule {
    /// An item needs more bytes than there are.
    Short,
    /// The first four bytes are not CAFEBABE.
    Magic,
    /// A tag of the pool is unknown or not of the version, the count is 0, or a long or double stands at
    /// the last index.
    Tag,
    /// A Utf8 constant is not modified UTF-8.
    Text,
    /// Bytes follow the last attribute.
    Extra,
    /// An index names no entry of the wanted kind.
    Index,
    /// A name is outside the grammar of names.
    Name,
    /// A descriptor is outside its grammar, or of the wrong sort.
    Descriptor,
    /// Flags exclude each other or do not fit the member.
    Flags,
    /// A member or an attribute stands twice.
    Twice,
    /// A method that is neither abstract nor native has no Code.
    NoCode,
    /// A method that is abstract or native has Code.
    HasCode,
    /// A ConstantValue names no constant of its field's type.
    Constant,
    /// The inside of an attribute does not end with its length.
    Attribute,
    /// A code is empty or longer than 65,535 bytes.
    CodeLength,
    /// There are fewer locals than the parameters take.
    Locals,
    /// An opcode has no instruction.
    Opcode,
    /// An instruction's operand is not allowed.
    Operand,
    /// A jump target is not the start of an instruction.
    Jump,
    /// An exception table entry's offsets do not fit the code.
    Range,
    /// A stack map frame's kind is reserved, or it chops more locals than there are.
    FrameKind,
    /// A verification type of a frame is unknown or names nothing of its kind.
    FrameType,
    /// A frame has more locals or stack than the code.
    FrameSize,
    /// A frame's offset is not the start of an instruction.
    FramePlace,
}

/// Why bytes are not read as a class file or a part of one.
#[derive(Clone, Copy, PartialEq, Eq, Debug, Error)]
pub enum ClassFault {
    /// They break a rule, at this place in bytes.
    #[error("malformed at {at}: {rule:?}")]
    Malformed { at: u64, rule: FileRule },
    /// Their version is outside the list.
    #[error("version {major}.{minor}")]
    Version { major: u16, minor: u16 },
    #[error("out of memory")]
    NoMemory,
}

impl From<NoMemory> for ClassFault {
    ghost from_gives = { λ _ fault. fault ≡ no_memory };

    fn from(_: NoMemory) -> Self {
        ClassFault::NoMemory
    }
}
