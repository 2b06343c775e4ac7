//! Where the blocks of written code start.
use class_model::ListOf;
use virtual_state::VState;

/// The start of a block of written code: the number of its first item, which of a block that writes nothing is that of the next one; the
/// point whose instruction it is, if it is one's; and the typed point and the state with which it begins.
pub struct BlockStart {
    pub item: u32,
    pub of: Option<usize>,
    pub at: usize,
    pub state: VState,
}

// Written out: a derived drop would be spelled out, field by field, in each function that drops one, and be proved there.
impl Drop for BlockStart {
    fn drop(self) {
        let BlockStart {
            item: _,
            of: _,
            at: _,
            state: _,
        } = self;
    }
}

/// A list of starts of blocks.
pub type BlockStartList = ListOf<BlockStart>;
