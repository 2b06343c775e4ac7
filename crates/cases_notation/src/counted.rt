//! Items behind their count.
use class_model::{NoMemory, push_u2};
use std::alloc::Global;

/// How many items there are, and their bytes.
#[derive(Drop)]
pub(crate) struct Counted {
    pub count: u16,
    pub bytes: Vec<u8>,
}

impl Counted {
    pub(crate) fn new(alloc: Global) -> Self {
        Counted {
            count: 0,
            bytes: Vec::new(alloc),
        }
    }

    /// Counts an item, and gives the bytes to which it is to be appended.
    pub(crate) fn one_more(&mut self) -> &mut Vec<u8> {
        self.count = self.count.wrapping_add(1);
        &mut self.bytes
    }

    /// Appends the count and the items.
    pub(crate) fn push_to(&self, out: &mut Vec<u8>) -> Result<(), NoMemory> {
        push_u2(out, self.count)?;
        out.extend_from_slice(&self.bytes)?;
        Ok(())
    }
}
