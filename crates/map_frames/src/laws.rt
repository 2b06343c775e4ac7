//! Laws: functions that do nothing, whose contracts say what always holds.
ghost use Rattle.std.specs.Prelude.{◌≡◌, ℕ, List};
ghost use Rattle.class_model.specs.declared.frame.Frame.{Frame};
ghost use Rattle.class_model.specs.declared.frame.PlacedFrame.{PlacedFrame};
ghost use Rattle.map_frames.specs.Writing.{IsTable};
ghost use Rattle.map_frames.specs.declared.writing.NamedIndex.{NamedIndex};

/// The table that is written of frames is one: bytes that are it are what writing gives again.
pub fn one_written_table()
    ensures { (classes : List NamedIndex) (entry : Frame) (frames : List PlacedFrame)
        (one other : List ℕ)
        → IsTable classes entry frames one
        → IsTable classes entry frames other
        → one ≡ other }
{}
