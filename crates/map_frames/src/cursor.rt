//! The content of a table, read from the front.
ghost use Rattle.std.specs.Prelude.{◌≡◌, ◌==◌, length};
ghost use Rattle.class_model.specs.Answers.{Takes};
ghost use Rattle.class_model.specs.Cutting.{uncut};
ghost use Rattle.class_model.specs.Frames.{table_u2_at};
ghost use Rattle.map_frames.specs.Inner.Steps.{byte_at};

use class_model::{ClassFault, FileRule};
use std::marker::Model;

/// What a table that ends too early, or too late, is refused with.
pub(crate) const MISSING: ClassFault = ClassFault::Malformed {
    at: 0,
    rule: FileRule::Attribute,
};

/// Bytes, and how many of them were read. Contracts see what is left, and its place.
#[derive(Drop)]
pub(crate) struct Cursor<'a> {
    bytes: &'a [u8],
    at: usize,
}

impl<'a> Model for Cursor<'a> {
    ghost use Rattle.std.specs.Prelude.{◌≤◌, length, drop};
    ghost use Rattle.class_model.specs.Cutting.{Rest};

    ghost Value = { Rest };

    ghost view = { λ cursor. record { at = cursor.at; bytes = drop cursor.at cursor.bytes.now } };

    ghost invariant = { λ cursor. cursor.at ≤ length cursor.bytes.now };
}

impl<'a> Cursor<'a> {
    /// At the first of these bytes.
    pub(crate) fn new(bytes: &'a [u8]) -> Self
        ensures { result ≡ uncut bytes.now }
    {
        Cursor { bytes, at: 0 }
    }

    /// How many bytes were read.
    pub(crate) fn place(&self) -> u64
        ensures { result ≡ self.now.at }
    {
        self.at as u64
    }

    /// Whether all bytes were read.
    pub(crate) fn is_at_end(&self) -> bool
        ensures { result ≡ (length self.now.bytes == 0) }
    {
        self.at == self.bytes.len()
    }

    /// A number of one byte.
    ///
    /// # Errors
    /// `Attribute` at 0 where it is missing.
    pub(crate) fn u1(&mut self) -> Result<u8, ClassFault>
        ensures { Takes (byte_at self.old) self.new result }
    {
        let Some([byte, ..]) = self.bytes.get(self.at..) else {
            return Err(MISSING);
        };
        self.at += 1;
        Ok(*byte)
    }

    /// A number of two bytes.
    ///
    /// # Errors
    /// As `u1`.
    pub(crate) fn u2(&mut self) -> Result<u16, ClassFault>
        ensures { Takes (table_u2_at self.old) self.new result }
    {
        let Some([high, low, ..]) = self.bytes.get(self.at..) else {
            return Err(MISSING);
        };
        self.at += 2;
        Ok(u16::from_be_bytes([*high, *low]))
    }
}
