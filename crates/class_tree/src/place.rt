//! Where a class stands.

/// The place of a class: its index in the folder or in the library, counted from 0.
#[derive(Clone, Copy, PartialEq, Eq, Debug)]
pub enum Place {
    Folder(usize),
    Library(usize),
}
