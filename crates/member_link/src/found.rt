//! What look-up finds.
use class_tree::Place;

/// A field or method that is found: the place of its class, its number there, and its access flags. Which of the two it
/// is, the call that found it says.
#[derive(Clone, Copy, PartialEq, Eq, Debug)]
pub struct Found {
    pub place: Place,
    pub member: usize,
    pub flags: u16,
}
