//! Mnemonics of instructions (JVM Specification SE 8, 6.5).
use class_model::mnemonic;
use class_model::opcodes::WIDE;

/// The mnemonic of the instruction at an offset of a code, and `?` where there is none; behind `wide` that of what it widens.
pub(crate) fn mnemonic_at(code: &[u8], at: usize) -> &'static str {
    let named = match code.get(at..) {
        Some([WIDE, widened, ..]) => mnemonic(*widened),
        Some([opcode, ..]) => mnemonic(*opcode),
        _ => None,
    };
    named.unwrap_or("?")
}
