//! What blocks end with.
ghost use Rattle.std.specs.Prelude.{◌≡◌, ◌≤◌, ◌<◌, ◌+◌, ℕ, drop, length, slice_get, Some, IfOk};
ghost use Rattle.code_drafts.specs.Drafts.{kind_of};
ghost use Rattle.code_drafts.specs.Inner.Ends.{draft_comes_to, draft_differ, draft_empty_end, draft_end, draft_ends, is_silent};
ghost use Rattle.flow_code.specs.WrittenUnits.{written_units};
ghost use Rattle.plan_flow.specs.Written.Finish.{begins_point};
ghost use Rattle.code_drafts.specs.declared.draft.DraftBlock.{DraftBlock as Draft};
ghost use Rattle.written_frames.specs.FewLocals.{HasFewLocals};

use crate::draft::{BlockKind, DraftBlock};
use class_model::NoMemory;
use flow_code::Flat;
use std::alloc::Global;
use written_frames::{FrameMaker, differ};

/// What a block ends with: nothing, a goto to a point, or a nop.
#[derive(Clone, Copy)]
pub(crate) enum DraftEnd {
    Nothing,
    Goto(usize),
    Nop,
}

/// What each block ends with, in order. What stands behind a block decides it, so the last one comes first.
///
/// # Errors
/// `NoMemory`, where memory runs out.
pub(crate) fn ends_of(
    alloc: Global,
    flat: &Flat,
    blocks: &[DraftBlock],
) -> Result<Vec<DraftEnd>, NoMemory>
    requires units { written_units flat.now ≤ 65535 }
    requires few { (at : ℕ) → HasFewLocals flat.now at }
    ensures { IfOk result (λ ends. ends.items ≡ draft_ends flat.now blocks.now) }
{
    let frames = FrameMaker::new(flat);
    let mut ends = vec![in alloc; DraftEnd::Nothing; blocks.len()]?;
    let mut at = blocks.len();
    while at > 0 {
        let end = end_of(alloc, &frames, blocks, at - 1, ends.as_slice())?;
        at -= 1;
        ends[at] = end;
    }
    Ok(ends)
}

// What a block ends with, by the ends of those behind it.
fn end_of(
    alloc: Global,
    frames: &FrameMaker<'_>,
    blocks: &[DraftBlock],
    at: usize,
    ends: &[DraftEnd],
) -> Result<DraftEnd, NoMemory>
    requires there { at < length blocks.now }
    requires as_many { length ends.now ≡ length blocks.now }
    requires few { (at : ℕ) → HasFewLocals frames.now at }
    ensures { IfOk result (λ end. (block : Draft)
        → slice_get blocks.now at ≡ Some block
        → end ≡ draft_end frames.now block (drop (at + 1) blocks.now) (drop (at + 1) ends.now)) }
{
    end_before(
        alloc,
        frames,
        &blocks[at],
        &blocks[at + 1..],
        &ends[at + 1..],
    )
}

// What a block ends with before these, which have these ends.
fn end_before(
    alloc: Global,
    frames: &FrameMaker<'_>,
    block: &DraftBlock,
    behind: &[DraftBlock],
    ends: &[DraftEnd],
) -> Result<DraftEnd, NoMemory>
    requires { (at : ℕ) → HasFewLocals frames.now at }
    ensures { IfOk result (λ end. end ≡ draft_end frames.now block.now behind.now ends.now) }
{
    if let Some(to) = block.leaves {
        if !comes_to(to, behind, ends) {
            return Ok(DraftEnd::Goto(to));
        }
    }
    if block.count == 0 {
        empty_end(alloc, frames, block, behind)
    } else {
        Ok(DraftEnd::Nothing)
    }
}

// Whether control comes to a point over blocks that write nothing.
fn comes_to(to: usize, blocks: &[DraftBlock], ends: &[DraftEnd]) -> bool
    ensures { result ≡ draft_comes_to to blocks.now ends.now }
{
    for (at, block) in blocks.iter().enumerate() {
        if begins_point(to, block.of) {
            return true;
        }
        if !is_silent(block.count, ends, at) {
            return false;
        }
    }
    false
}

// Whether a block is the first of a point, if that is no block of make code behind it.
fn begins_point(to: usize, of: BlockKind) -> bool
    ensures { result ≡ begins_point to (kind_of of) }
{
    match of {
        BlockKind::BeforePoint(at) | BlockKind::OfPoint(at) => at == to,
        _ => false,
    }
}

// Whether a block of so many items, with the end of this number, writes nothing.
fn is_silent(count: usize, ends: &[DraftEnd], at: usize) -> bool
    ensures { result ≡ is_silent count (drop at ends.now) }
{
    match ends.get(at) {
        Some(DraftEnd::Nothing) => count == 0,
        _ => false,
    }
}

// What a block that writes nothing ends with before these: a nop, if the frame of the next one says more than its own.
fn empty_end(
    alloc: Global,
    frames: &FrameMaker<'_>,
    block: &DraftBlock,
    behind: &[DraftBlock],
) -> Result<DraftEnd, NoMemory>
    requires { (at : ℕ) → HasFewLocals frames.now at }
    ensures { IfOk result (λ end. end ≡ draft_empty_end frames.now block.now behind.now) }
{
    let Some(next) = behind.first() else {
        return Ok(DraftEnd::Nothing);
    };
    if says_more(alloc, frames, block, next)? {
        Ok(DraftEnd::Nop)
    } else {
        Ok(DraftEnd::Nothing)
    }
}

// Whether the frame of a block says more of some place than that of the one before it.
fn says_more(
    alloc: Global,
    frames: &FrameMaker<'_>,
    block: &DraftBlock,
    next: &DraftBlock,
) -> Result<bool, NoMemory>
    requires { (at : ℕ) → HasFewLocals frames.now at }
    ensures { IfOk result (λ more. more ≡ draft_differ frames.now block.now next.now) }
{
    let one = frames.frame(alloc, block.at, &block.state)?;
    let later = frames.frame(alloc, next.at, &next.state)?;
    Ok(differ(&one, &later))
}
