//! The names of the rules of the class file grammar, and what they ask in words.
ghost use Rattle.std.specs.Prelude.{◌≡◌};
ghost use Rattle.class_model.specs.RuleNames.{file_rule_name};

use crate::fault::FileRule;

impl FileRule {
    /// The name, as a refusal prints it.
    pub fn name(self) -> &'static str
        ensures { result.now ≡ file_rule_name self }
    {
        match self {
            FileRule::Short => "Short",
            FileRule::Magic => "Magic",
            FileRule::Tag => "Tag",
            FileRule::Text => "Text",
            FileRule::Extra => "Extra",
            FileRule::Index => "Index",
            FileRule::Name => "Name",
            FileRule::Descriptor => "Descriptor",
            FileRule::Flags => "Flags",
            FileRule::Twice => "Twice",
            FileRule::NoCode => "NoCode",
            FileRule::HasCode => "HasCode",
            FileRule::Constant => "Constant",
            FileRule::Attribute => "Attribute",
            FileRule::CodeLength => "CodeLength",
            FileRule::Locals => "Locals",
            FileRule::Opcode => "Opcode",
            FileRule::Operand => "Operand",
            FileRule::Jump => "Jump",
            FileRule::Range => "Range",
            FileRule::FrameKind => "FrameKind",
            FileRule::FrameType => "FrameType",
            FileRule::FrameSize => "FrameSize",
            FileRule::FramePlace => "FramePlace",
        }
    }

    /// What is wrong where the rule is broken, in words.
    pub fn text(self) -> &'static str {
        match self {
            FileRule::Short => "the file ends in the middle of an item: it was cut off",
            FileRule::Magic => "it does not begin with the bytes CAFEBABE: this is no class file",
            FileRule::Tag => {
                "the constant pool is not well formed: a constant has a tag that is unknown or too new for the version, the count is 0, or a long or double takes the last index"
            }
            FileRule::Text => "a Utf8 constant is not modified UTF-8",
            FileRule::Extra => "bytes follow the end of the class file",
            FileRule::Index => "an index names no constant of the kind that is needed there",
            FileRule::Name => "a name is not one that a class, field or method may have",
            FileRule::Descriptor => {
                "a descriptor is not well formed, or is one of a field where a method needs one, or the other way round"
            }
            FileRule::Flags => {
                "access flags exclude each other, or may not stand on this class, field or method"
            }
            FileRule::Twice => "a field, method or attribute of the same name stands there already",
            FileRule::NoCode => {
                "a method that is neither abstract nor native has no Code attribute"
            }
            FileRule::HasCode => "a method that is abstract or native has a Code attribute",
            FileRule::Constant => "a ConstantValue attribute names no constant of its field's type",
            FileRule::Attribute => "an attribute does not end where its length says",
            FileRule::CodeLength => "the code of a method is empty or longer than 65535 bytes",
            FileRule::Locals => "max_locals is too small for the parameters of the method",
            FileRule::Opcode => {
                "a byte where an instruction begins is no opcode that is supported; jsr and ret are not"
            }
            FileRule::Operand => {
                "an operand is not allowed: a local beyond max_locals, a constant that the instruction cannot take, or a count that does not fit"
            }
            FileRule::Jump => "a jump target is not the start of an instruction",
            FileRule::Range => {
                "an entry of the exception table has offsets that do not fit the code"
            }
            FileRule::FrameKind => {
                "a stack map frame is of a reserved kind, or chops more locals than there are"
            }
            FileRule::FrameType => {
                "a verification type of a stack map frame is unknown or names no class or instruction"
            }
            FileRule::FrameSize => {
                "a stack map frame has more locals than max_locals, or more stack than max_stack"
            }
            FileRule::FramePlace => {
                "the offset of a stack map frame is not the start of an instruction"
            }
        }
    }
}
