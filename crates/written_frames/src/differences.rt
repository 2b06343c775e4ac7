//! Whether frames differ.
ghost use Rattle.std.specs.Prelude.{◌≡◌};
ghost use Rattle.making_code.specs.StateFrames.{differ, differs_in};
ghost use Rattle.written_frames.specs.Inner.Differences.{is_lost};

use class_model::{Frame, LocalTypeList, VType};

/// Whether in some place a later frame has another type than one, and not `Top`.
pub fn differ(one: &Frame, later: &Frame) -> bool
    ensures { result ≡ differ one.now later.now }
{
    locals_differ(&one.locals, &later.locals)
        || types_differ(one.stack.as_slice(), later.stack.as_slice())
}

// The same of local units.
fn locals_differ(one: &LocalTypeList, later: &LocalTypeList) -> bool
    ensures { result ≡ differs_in one.now later.now }
{
    for at in 0..one.len().min(later.listed()) {
        let (Some(unit), Some(other)) = (one.get(at), later.get(at)) else {
            unreachable!()
        };
        if is_lost(unit, other) {
            return true;
        }
    }
    false
}

// The same of the types of stack entries.
fn types_differ(one: &[VType], later: &[VType]) -> bool
    ensures { result ≡ differs_in one.now later.now }
{
    for at in 0..one.len().min(later.len()) {
        if is_lost(&one[at], &later[at]) {
            return true;
        }
    }
    false
}

// Whether a later type is another one, and not `Top`.
fn is_lost(one: &VType, later: &VType) -> bool
    ensures { result ≡ is_lost one.now later.now }
{
    match later {
        VType::Top => false,
        _ => one != later,
    }
}
