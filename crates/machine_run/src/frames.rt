//! The frames of a run, the top one last in memory and first for contracts.
ghost use Rattle.std.specs.Prelude.{◌≡◌, ◌∷◌, [], length, IfSome, IfNone, OnOk, OnErr};

use class_model::NoMemory;
use machine_values::{RunFrame, RunFrameList};

/// Puts a frame on top.
///
/// # Errors
///
/// `NoMemory` where memory runs out; the frames stay as they were.
pub(crate) fn push_frame(frames: &mut RunFrameList, frame: RunFrame) -> Result<(), NoMemory>
    ensures ok { OnOk result (frames.new ≡ frame ∷ frames.old) }
    ensures err { OnErr result (frames.new ≡ frames.old) }
{
    frames.frames.push(frame)?;
    Ok(())
}

/// Takes the top frame off, if there is one. It does not allocate.
pub(crate) fn pop_frame(frames: &mut RunFrameList) -> Option<RunFrame>
    ensures some { IfSome result (λ frame. frames.old ≡ frame ∷ frames.new) }
    ensures none { IfNone result (frames.old ≡ []) }
    ensures same { IfNone result (frames.new ≡ []) }
{
    frames.frames.pop()
}

/// How many frames there are.
pub(crate) fn frame_count(frames: &RunFrameList) -> usize
    ensures { result ≡ length frames.now }
{
    frames.frames.len()
}
