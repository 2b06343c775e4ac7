//! The bytes of a code and its exception table.
use class_model::{ByteList, HandlerList, ListOf};

/// A list of offsets of a code, in bytes.
pub type OffsetList = ListOf<u32>;

/// The bytes of a code, its exception table, and the offset in bytes at which each item starts.
#[derive(Drop)]
pub struct Laid {
    pub code: ByteList,
    pub handlers: HandlerList,
    pub starts: OffsetList,
}
