//! The two forms of laid out code.

/// How instructions are spelled: each in its shortest spelling, with jumps of 16 bits; or the same, but for gotos, which have 32 bits.
#[derive(Clone, Copy)]
pub(crate) enum Form {
    Short,
    Wide,
}
