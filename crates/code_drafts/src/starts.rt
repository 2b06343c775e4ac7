//! Where the blocks of written code start, for the frames that are stated there.
ghost use Rattle.std.specs.Prelude.{◌≡◌, List, IfOk};
ghost use Rattle.written_frames.specs.BlockStarts.{block_starts, point_of};
ghost use Rattle.code_drafts.specs.Inner.DraftStarts.{draft_start, draft_starts};
ghost use Rattle.code_drafts.specs.Drafts.{AreDrafted, kind_of};
ghost use Rattle.code_drafts.specs.Numbering.{block_firsts};
ghost use Rattle.flow_code.specs.FlatCode.{FlatCode};
ghost use Rattle.plan_flow.specs.Written.Blocks.{Block};
ghost use Rattle.plan_flow.specs.Written.Finish.{finish};

use crate::draft::{BlockKind, DraftBlock};
use class_model::{ListOf, NoMemory};
use std::alloc::Global;
use written_frames::{BlockStart, BlockStartList};

/// The starts of blocks whose first items have these numbers.
///
/// # Errors
/// `NoMemory`, where memory runs out.
pub fn block_starts(
    alloc: Global,
    blocks: Vec<DraftBlock>,
    firsts: &[u16],
) -> Result<BlockStartList, NoMemory>
    ensures { IfOk result (λ starts. (flat : FlatCode) (bs : List Block)
        → AreDrafted bs blocks.items
        → firsts.now ≡ block_firsts 0 (finish flat bs)
        → starts ≡ block_starts 0 (finish flat bs)) }
{
    Ok(listed_starts(alloc, blocks, firsts)?)
}

// The starts of drafts.
fn listed_starts(
    alloc: Global,
    blocks: Vec<DraftBlock>,
    firsts: &[u16],
) -> Result<BlockStartList, NoMemory>
    ensures { IfOk result (λ starts. starts ≡ draft_starts blocks.items firsts.now) }
{
    let mut left = blocks.into_iter();
    let mut starts = ListOf::new(alloc);
    for first in firsts {
        let Some(block) = left.next() else {
            return Ok(starts);
        };
        starts.push(start_of(block, *first))?;
    }
    Ok(starts)
}

// The start of a block whose first item has this number.
fn start_of(block: DraftBlock, first: u16) -> BlockStart
    ensures { result ≡ draft_start block first }
{
    let DraftBlock {
        of,
        at,
        state,
        count: _,
        leaves: _,
    } = block;
    BlockStart {
        item: u32::from(first),
        of: point_of(of),
        at,
        state,
    }
}

// The point whose instruction a block is.
fn point_of(of: BlockKind) -> Option<usize>
    ensures { result ≡ point_of (kind_of of) }
{
    match of {
        BlockKind::OfPoint(at) => Some(at),
        _ => None,
    }
}
