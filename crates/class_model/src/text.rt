//! Texts of the constant pool.
ghost use Rattle.std.specs.Prelude.{◌≡◌, ◌↔◌, ◌≤◌, ℕ, List, [], ◌∷◌, ◌++◌, ◌==◌, OnOk, IfOk, IfSome, IfNone, IsTrue};
ghost use Rattle.std.specs.Result.{IsErrOf};
ghost use Rattle.std.specs.Hash as fed;
ghost use Rattle.std.specs.Cmp.Rules.{comparing, hashing};
ghost use Rattle.std.specs.Cmp.Lexicographic.{pointwise};
ghost use Rattle.std.proofs.Common.{rules};
ghost use Rattle.class_model.specs.ModifiedUtf8.{IsText, IsModifiedUtf8, IsCodeUnit, unit_bytes, is_plain_text};
ghost use Rattle.class_model.specs.declared.text.TextFault.TheVariants.{NoMemory as no_memory};

use crate::memory::NoMemory;
use std::alloc::{AllocError, Global};
use std::hash::{Hash, Hasher};
use std::marker::Model;
use std::rc::RcSlice;

/// A text of at most 65,535 bytes in modified UTF-8 (JVM Specification SE 8, 4.4.7). Contracts see
/// the list of its bytes. The bytes are shared: a copy copies none of them.
#[derive(Debug)]
pub struct Text {
    bytes: RcSlice<u8>,
}

// Written out: a derived drop would be spelled out, field by field, in each function that drops one, and be proved there.
impl Drop for Text {
    fn drop(self) {
        let Text { bytes: _ } = self;
    }
}

impl PartialEq for Text {
    ghost eq = { pointwise ◌==◌ };

    ghost laws = { Prim.search (comparing, rules) };

    fn eq(&self, other: &Self) -> bool {
        self.bytes() == other.bytes()
    }
}

impl Eq for Text {
    ghost laws = { Prim.search (comparing, rules) };
}

impl Hash for Text {
    ghost hash_input = { fed.slice fed.u8 };

    ghost respects_eq = { Prim.search (hashing, rules) };

    fn hash<H: Hasher>(&self, state: &mut H) {
        self.bytes().hash(state);
    }
}

/// Why bytes are no text.
#[derive(Clone, Copy, PartialEq, Eq, Debug)]
pub enum TextFault {
    /// They are not modified UTF-8, or are more than 65,535.
    BadText,
    /// Memory ran out.
    NoMemory,
}

impl From<AllocError> for TextFault {
    ghost from_gives = { λ _ fault. fault ≡ no_memory };

    fn from(_: AllocError) -> Self {
        TextFault::NoMemory
    }
}

impl Model for Text {
    ghost use Rattle.std.specs.Prelude.{ℕ, List};
    ghost use Rattle.std.specs.Rc.{rc_slice_items};
    ghost use Rattle.class_model.specs.ModifiedUtf8.{IsText, IsModifiedUtf8, IsCodeUnit, unit_bytes};

    ghost Value = { List ℕ };

    ghost view = { λ text. rc_slice_items text.bytes };

    ghost invariant = { λ text. IsText (rc_slice_items text.bytes) };
}

impl Text {
    /// The text of these bytes, which it copies.
    pub fn of_bytes(alloc: Global, bytes: &[u8]) -> Result<Text, TextFault>
        ensures same { IfOk result (λ text. text ≡ bytes.now) }
        ensures text { OnOk result (IsText bytes.now) }
        ensures bad_text { IsErrOf result TextFault.BadText → ¬ IsText bytes.now }
    {
        if bytes.len() > MAX_LEN || !is_modified_utf8(bytes) {
            return Err(TextFault::BadText);
        }
        let bytes = RcSlice::from_slice(alloc, bytes)?;
        Ok(Text { bytes })
    }

    /// The text of bytes that are known to be one, which it copies.
    ///
    /// # Errors
    ///
    /// `NoMemory` where the copy can't be allocated.
    pub fn of_text(alloc: Global, bytes: &[u8]) -> Result<Text, NoMemory>
        requires { IsText bytes.now }
        ensures { IfOk result (λ text. text ≡ bytes.now) }
    {
        let bytes = RcSlice::from_slice(alloc, bytes)?;
        Ok(Text { bytes })
    }

    /// The text of at most 65,535 bytes from 1 to 7F, which it copies: each of them spells a code unit by itself (4.4.7).
    ///
    /// # Errors
    ///
    /// `NoMemory` where the copy can't be allocated.
    pub fn of_plain(alloc: Global, bytes: &[u8]) -> Result<Text, NoMemory>
        requires { IsTrue (is_plain_text bytes.now) }
        ensures { IfOk result (λ text. text ≡ bytes.now) }
    {
        Text::of_text(alloc, bytes)
    }

    /// The bytes of the text.
    pub fn bytes(&self) -> &[u8]
        ensures same { result.now ≡ self.now }
        ensures text { IsText self.now }
    {
        self.bytes.as_slice()
    }

    /// An equal text, which shares the bytes.
    pub fn copy(&self) -> Result<Text, NoMemory>
        ensures { IfOk result (λ copy. copy ≡ self.now) }
    {
        let bytes = self.bytes.clone()?;
        Ok(Text { bytes })
    }
}

const MAX_LEN: usize = 65_535;

/// Whether bytes are modified UTF-8 (JVM Specification SE 8, 4.4.7). It takes no memory.
pub fn is_modified_utf8(bytes: &[u8]) -> bool
    ensures { IsTrue result ↔ IsModifiedUtf8 bytes.now }
{
    let mut rest = bytes;
    while let Some(after) = after_unit(rest) {
        rest = after;
    }
    rest.is_empty()
}

// The bytes after the first code unit, if one is spelled there.
fn after_unit(bytes: &[u8]) -> Option<&[u8]>
    ensures some { IfSome result
        (λ rest. (unit : ℕ) × IsCodeUnit unit × (bytes.now ≡ unit_bytes unit ++ rest.now)) }
    ensures none { IfNone result
        ((unit : ℕ) (rest : List ℕ) → IsCodeUnit unit → bytes.now ≡ unit_bytes unit ++ rest → ⊥) }
{
    match bytes {
        [first, rest @ ..] if is_one_byte_unit(*first) => Some(rest),
        [first, second, rest @ ..] if is_two_byte_unit(*first, *second) => Some(rest),
        [first, second, third, rest @ ..] if is_three_byte_unit(*first, *second, *third) => {
            Some(rest)
        }
        _ => None,
    }
}

// Whether a byte spells a code unit: one from 1 to 7F.
fn is_one_byte_unit(byte: u8) -> bool
    ensures { IsTrue result ↔ ((unit : ℕ) × IsCodeUnit unit × (unit_bytes unit ≡ byte ∷ [])) }
{
    matches!(byte, 0x01..=0x7F)
}

// Whether two bytes spell a code unit: 0, or one from 80 to 7FF.
fn is_two_byte_unit(first: u8, second: u8) -> bool
    ensures { IsTrue result
        ↔ ((unit : ℕ) × IsCodeUnit unit × (unit_bytes unit ≡ first ∷ second ∷ [])) }
{
    match first {
        0xC0 => second == 0x80,
        0xC2..=0xDF => is_continuation(second),
        _ => false,
    }
}

// Whether three bytes spell a code unit: one from 800 on.
fn is_three_byte_unit(first: u8, second: u8, third: u8) -> bool
    ensures { IsTrue result
        ↔ ((unit : ℕ) × IsCodeUnit unit × (unit_bytes unit ≡ first ∷ second ∷ third ∷ [])) }
{
    match first {
        0xE0 => 0xA0 <= second && is_continuation(second) && is_continuation(third),
        0xE1..=0xEF => is_continuation(second) && is_continuation(third),
        _ => false,
    }
}

// Whether a byte is a second or third byte of a code unit: its two high bits are 10.
fn is_continuation(byte: u8) -> bool
    ensures { IsTrue result ↔ ((0x80 ≤ byte) × (byte ≤ 0xBF)) }
{
    matches!(byte, 0x80..=0xBF)
}
