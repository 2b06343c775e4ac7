//! The bytes that an instruction is read from.
ghost use Rattle.std.specs.Prelude.{◌≡◌, ◌+◌, ◌*◌, ◌<◌, ◌≤◌, length, drop, Err, MatchResult};
ghost use Rattle.std.specs.Simd.{first_chunks};
ghost use Rattle.class_model.specs.Answers.{Gives};
ghost use Rattle.class_model.specs.Instructions.{u1_in, u2_in, u4_in, s1_in, s2_in, s4_in, target_of};
ghost use Rattle.class_model.specs.declared.fault.FileRule.TheVariants.{Opcode as opcode, Operand as operand};
ghost use Rattle.class_model.specs.declared.fault.ClassFault.TheVariants.{Malformed as malformed};
ghost use Rattle.code_bytes.specs.Inner.Operands.{before};

use class_model::{ClassFault, FileRule};

/// The bytes of a code from an instruction's opcode on, and the opcode's offset.
#[derive(Clone, Copy)]
pub(crate) struct Source<'a> {
    pub(crate) at: u32,
    pub(crate) bytes: &'a [u8],
}

impl Source<'_> {
    /// That an operand is missing or not allowed.
    pub(crate) fn bad_operand(&self) -> ClassFault
        ensures { result ≡ malformed self.now.at operand }
    {
        ClassFault::Malformed {
            at: u64::from(self.at),
            rule: FileRule::Operand,
        }
    }

    /// That an opcode has no instruction.
    pub(crate) fn bad_opcode(&self) -> ClassFault
        ensures { result ≡ malformed self.now.at opcode }
    {
        ClassFault::Malformed {
            at: u64::from(self.at),
            rule: FileRule::Opcode,
        }
    }

    /// The unsigned number of one byte at a place of the bytes.
    pub(crate) fn u1(&self, from: usize) -> Result<u8, ClassFault>
        ensures { Gives (before self.now.at self.now.bytes.now (from + 1)
            (u1_in self.now.bytes.now from)) result }
    {
        match self.bytes.get(from) {
            Some(byte) => Ok(*byte),
            None => Err(self.bad_operand()),
        }
    }

    /// The unsigned number of two bytes from a place of the bytes on.
    pub(crate) fn u2(&self, from: usize) -> Result<u16, ClassFault>
        ensures { Gives (before self.now.at self.now.bytes.now (from + 2)
            (u2_in self.now.bytes.now from)) result }
    {
        match self.bytes.get(from..) {
            Some([high, low, ..]) => Ok(u16::from_be_bytes([*high, *low])),
            _ => Err(self.bad_operand()),
        }
    }

    /// The unsigned number of four bytes from a place of the bytes on.
    pub(crate) fn u4(&self, from: usize) -> Result<u32, ClassFault>
        ensures { Gives (before self.now.at self.now.bytes.now (from + 4)
            (u4_in self.now.bytes.now from)) result }
    {
        match self.bytes.get(from..) {
            Some([a, b, c, d, ..]) => Ok(u32::from_be_bytes([*a, *b, *c, *d])),
            _ => Err(self.bad_operand()),
        }
    }

    /// The signed number of one byte at a place of the bytes.
    pub(crate) fn s1(&self, from: usize) -> Result<i8, ClassFault>
        ensures { Gives (before self.now.at self.now.bytes.now (from + 1)
            (s1_in self.now.bytes.now from)) result }
    {
        Ok(self.u1(from)?.cast_signed())
    }

    /// The signed number of two bytes from a place of the bytes on.
    pub(crate) fn s2(&self, from: usize) -> Result<i16, ClassFault>
        ensures { Gives (before self.now.at self.now.bytes.now (from + 2)
            (s2_in self.now.bytes.now from)) result }
    {
        Ok(self.u2(from)?.cast_signed())
    }

    /// The signed number of four bytes from a place of the bytes on.
    pub(crate) fn s4(&self, from: usize) -> Result<i32, ClassFault>
        ensures { Gives (before self.now.at self.now.bytes.now (from + 4)
            (s4_in self.now.bytes.now from)) result }
    {
        Ok(self.u4(from)?.cast_signed())
    }

    /// The target of a jump whose offset is a signed number of two bytes, in 32 bits: one before the code's
    /// start is then no offset of a code.
    pub(crate) fn target2(&self, from: usize) -> Result<u32, ClassFault>
        ensures { Gives (before self.now.at self.now.bytes.now (from + 2)
            (target_of self.now.at (s2_in self.now.bytes.now from))) result }
    {
        Ok(self.at.wrapping_add_signed(i32::from(self.s2(from)?)))
    }

    /// The target of a jump whose offset is a signed number of four bytes.
    pub(crate) fn target4(&self, from: usize) -> Result<u32, ClassFault>
        ensures { Gives (before self.now.at self.now.bytes.now (from + 4)
            (target_of self.now.at (s4_in self.now.bytes.now from))) result }
    {
        Ok(self.at.wrapping_add_signed(self.s4(from)?))
    }

    /// So many parts of N bytes each from a place of the bytes on.
    pub(crate) fn parts<const N: usize>(
        &self,
        from: usize,
        count: usize,
    ) -> Result<&[[u8; N]], ClassFault>
        requires { 0 < N }
        ensures { MatchResult result
            (λ parts. (from + N * count ≤ length self.now.bytes.now)
            × (parts.now ≡ first_chunks N count (drop from self.now.bytes.now)))
            (λ fault. (length self.now.bytes.now < from + N * count)
            × (fault ≡ malformed self.now.at operand)) }
    {
        let Some(rest) = self.bytes.get(from..) else {
            return Err(self.bad_operand());
        };
        let (parts, _) = rest.as_chunks::<N>();
        match parts.get(..count) {
            Some(parts) => Ok(parts),
            None => Err(self.bad_operand()),
        }
    }
}
