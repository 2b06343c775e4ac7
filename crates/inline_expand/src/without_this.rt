//! Frames without an uninitialised this.
ghost use Rattle.std.specs.Prelude.{◌≡◌, ◌↔◌, IsTrue, Some};
ghost use Rattle.std.specs.Option.{option_copied};
ghost use Rattle.class_model.specs.declared.frame.VType.{VType};
ghost use Rattle.expanded_code.specs.Callees.{IsWithoutThis};
ghost use Rattle.inline_expand.specs.Inner.KnownFrames.{AreWithoutThis};
ghost use Rattle.member_link.specs.Rows.MemberRows.{NoUninitThis};

use class_model::{Frame, LocalTypeList, VType};

/// Whether no frame has an uninitialised this.
pub(crate) fn are_without_this(frames: &[Frame]) -> bool
    ensures { IsTrue result ↔ AreWithoutThis frames.now }
{
    for frame in frames {
        if !is_without_this(frame) {
            return false;
        }
    }
    true
}

// Whether a frame has no uninitialised this.
fn is_without_this(frame: &Frame) -> bool
    ensures { IsTrue result ↔ IsWithoutThis frame.now }
{
    are_locals_without(&frame.locals) && are_entries_without(frame.stack.as_slice())
}

// Whether no local is an uninitialised this. Those that are `Top` to the end are not walked.
fn are_locals_without(locals: &LocalTypeList) -> bool
    ensures { IsTrue result ↔ NoUninitThis locals.now }
{
    for at in 0..locals.listed() {
        if is_this(locals.get(at)) {
            return false;
        }
    }
    true
}

// Whether no entry of a stack is an uninitialised this.
fn are_entries_without(entries: &[VType]) -> bool
    ensures { IsTrue result ↔ NoUninitThis entries.now }
{
    entries
        .iter()
        .all(|entry| !matches!(entry, VType::UninitThis))
}

// Whether a type is an uninitialised this.
fn is_this(type_: Option<&VType>) -> bool
    ensures { IsTrue result ↔ (option_copied type_.entry ≡ Some VType.UninitThis) }
{
    matches!(type_, Some(VType::UninitThis))
}
