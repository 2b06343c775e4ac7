//! Where a file stands.

/// Of which folder of a command a file is: the input or the library.
#[derive(Clone, Copy, PartialEq, Eq)]
pub enum Side {
    Input,
    Library,
}

impl Side {
    /// Its word in the commands.
    pub fn word(self) -> &'static str {
        match self {
            Side::Input => "IN",
            Side::Library => "LIB",
        }
    }
}
