//! The numbers of a class file, read and written (JVM Specification SE 8, chapter 4): unsigned and
//! big-endian.
ghost use Rattle.std.specs.Prelude.{◌≡◌, ◌++◌, ◌==◌, ◌+◌, ◌^◌, ◌<◌, drop, length, OnOk, OnErr, IfErr};
ghost use Rattle.std.specs.Int.{w64};
ghost use Rattle.class_model.specs.Answers.{Takes, TakesBytes};
ghost use Rattle.class_model.specs.Cutting.{bytes_at, number_at, u1_at, u2_at, u4_at};
ghost use Rattle.class_model.specs.Spelling.{u2, u4};

use crate::fault::{ClassFault, FileRule};
use crate::memory::NoMemory;
use std::marker::Model;

/// A place in the bytes of a class file, and the bytes from there on. Its readers move it behind what they
/// read, and leave it where it is with an error; their only error is `Malformed` with `Short` at its place.
#[derive(Drop)]
pub struct Cursor<'a> {
    rest: &'a [u8],
    at: u64,
}

impl<'a> Model for Cursor<'a> {
    ghost use Rattle.std.specs.Prelude.{◌+◌, ◌^◌, ◌<◌, length};
    ghost use Rattle.class_model.specs.Cutting.{Rest};

    ghost Value = { Rest };

    ghost view = { λ cursor. record { at = cursor.at; bytes = cursor.rest.now } };

    ghost invariant = { λ cursor. cursor.at + length cursor.rest.now < 2 ^ 64 };
}

impl<'a> Cursor<'a> {
    /// At a place of these bytes, counted from 0. Beyond their end no bytes are left.
    pub fn new(bytes: &'a [u8], at: usize) -> Self
        ensures { result ≡ record { at = at; bytes = drop at bytes.now } }
    {
        let rest = match bytes.get(at..) {
            Some(rest) => rest,
            None => &[],
        };
        Cursor {
            rest,
            at: at as u64,
        }
    }

    /// The place, in bytes from the first.
    pub fn at(&self) -> u64
        ensures place { result ≡ self.now.at }
        ensures within { self.now.at + length self.now.bytes < 2 ^ 64 }
    {
        self.at
    }

    /// Whether no bytes are left.
    pub fn is_empty(&self) -> bool
        ensures { result ≡ (length self.now.bytes == 0) }
    {
        self.rest.is_empty()
    }

    /// The bytes that are left.
    pub fn rest(&self) -> &'a [u8]
        ensures { result.now ≡ self.now.bytes }
    {
        self.rest
    }

    /// Reads so many bytes.
    pub fn bytes(&mut self, count: usize) -> Result<&'a [u8], ClassFault>
        ensures taken { TakesBytes (bytes_at count self.old) self.new result }
        ensures err { OnErr result (self.new ≡ self.old) }
        ensures short { IfErr result
            (λ fault. fault ≡ ClassFault.Malformed self.old.at FileRule.Short) }
    {
        if self.rest.len() < count {
            return Err(ClassFault::Malformed {
                at: self.at,
                rule: FileRule::Short,
            });
        }
        let (front, rest) = self.rest.split_at(count);
        self.rest = rest;
        self.at += count as u64;
        Ok(front)
    }

    /// Reads a number of one byte.
    pub fn u1(&mut self) -> Result<u8, ClassFault>
        ensures taken { Takes (u1_at self.old) self.new result }
        ensures err { OnErr result (self.new ≡ self.old) }
        ensures short { IfErr result
            (λ fault. fault ≡ ClassFault.Malformed self.old.at FileRule.Short) }
    {
        let bytes = self.bytes(1)?;
        Ok(bytes[0])
    }

    /// Reads a number of two bytes.
    pub fn u2(&mut self) -> Result<u16, ClassFault>
        ensures taken { Takes (u2_at self.old) self.new result }
        ensures err { OnErr result (self.new ≡ self.old) }
        ensures short { IfErr result
            (λ fault. fault ≡ ClassFault.Malformed self.old.at FileRule.Short) }
    {
        let bytes = self.bytes(2)?;
        Ok(u16::from_be_bytes([bytes[0], bytes[1]]))
    }

    /// Reads a number of four bytes.
    pub fn u4(&mut self) -> Result<u32, ClassFault>
        ensures taken { Takes (u4_at self.old) self.new result }
        ensures err { OnErr result (self.new ≡ self.old) }
        ensures short { IfErr result
            (λ fault. fault ≡ ClassFault.Malformed self.old.at FileRule.Short) }
    {
        let bytes = self.bytes(4)?;
        Ok(u32::from_be_bytes([bytes[0], bytes[1], bytes[2], bytes[3]]))
    }

    /// Reads a number of eight bytes.
    pub fn eight_bytes(&mut self) -> Result<u64, ClassFault>
        ensures taken { Takes (number_at w64 self.old) self.new result }
        ensures err { OnErr result (self.new ≡ self.old) }
        ensures short { IfErr result
            (λ fault. fault ≡ ClassFault.Malformed self.old.at FileRule.Short) }
    {
        let bytes = self.bytes(8)?;
        Ok(u64::from_be_bytes([
            bytes[0], bytes[1], bytes[2], bytes[3], bytes[4], bytes[5], bytes[6], bytes[7],
        ]))
    }
}

/// Appends a number of two bytes. Where memory runs out, the bytes stay as they were.
pub fn push_u2(out: &mut Vec<u8>, number: u16) -> Result<(), NoMemory>
    ensures ok { OnOk result (out.new.items ≡ out.old.items ++ u2 number) }
    ensures err { OnErr result (out.new.items ≡ out.old.items) }
{
    out.extend_from_slice(&number.to_be_bytes())?;
    Ok(())
}

/// Appends a number of four bytes. Where memory runs out, the bytes stay as they were.
pub fn push_u4(out: &mut Vec<u8>, number: u32) -> Result<(), NoMemory>
    ensures ok { OnOk result (out.new.items ≡ out.old.items ++ u4 number) }
    ensures err { OnErr result (out.new.items ≡ out.old.items) }
{
    out.extend_from_slice(&number.to_be_bytes())?;
    Ok(())
}
