//! Names and descriptors of scripts, which are spelled as they are printed.
ghost use Rattle.std.specs.Prelude.{◌≡◌, ◌≢◌, ◌↔◌, ◌<◌, ◌∷◌, [], ◌++◌, ℕ, List, IfOk, IfSome, IfNone, IsTrue};
ghost use Rattle.std.specs.List.{flat_map};
ghost use Rattle.class_model.specs.Cutting.{IsBytes};
ghost use Rattle.script_text.specs.PrintedTexts.{printed_byte, printed_text};
ghost use Rattle.script_text.specs.Scripts.{SpellsText};
ghost use Rattle.script_text.specs.Inner.Reading.{IsRead, PrintsBytes, PrintsText};

use crate::numbers::digit_of;
use crate::printed::is_plain_byte;
use class_model::{ByteList, ListOf, NoMemory, Text, TextFault};
use std::alloc::Global;

/// The text that a word prints.
pub(crate) fn text_of(alloc: Global, word: &[u8]) -> Result<Option<Text>, NoMemory>
    ensures { IfOk result (IsRead (λ text. SpellsText text word.now)) }
{
    let Some(bytes) = printed_by(alloc, word)? else {
        return Ok(None);
    };
    match Text::of_bytes(alloc, bytes.as_slice()) {
        Ok(text) => Ok(Some(text)),
        Err(TextFault::BadText) => Ok(None),
        Err(TextFault::NoMemory) => Err(NoMemory),
    }
}

/// The bytes that a word prints.
fn printed_by(alloc: Global, word: &[u8]) -> Result<Option<ByteList>, NoMemory>
    ensures { IfOk result (IsRead (PrintsText word.now)) }
{
    if word.is_empty() {
        return Ok(None);
    }
    let mut bytes = ListOf::new(alloc);
    if is_same(word, b"-") {
        return Ok(Some(bytes));
    }
    if is_same(word, b"%2d") {
        bytes.push(b'-')?;
        return Ok(Some(bytes));
    }
    bytes_of(alloc, word)
}

/// Whether two words are the same.
pub(crate) fn is_same(one: &[u8], other: &[u8]) -> bool
    ensures { IsTrue result ↔ (one.now ≡ other.now) }
{
    one == other
}

/// The bytes that a word prints one by one.
fn bytes_of(alloc: Global, word: &[u8]) -> Result<Option<ByteList>, NoMemory>
    ensures { IfOk result (IsRead (PrintsBytes word.now)) }
{
    let mut bytes = ListOf::new(alloc);
    let mut rest = word;
    while !rest.is_empty() {
        let Some((byte, after)) = byte_at(rest) else {
            return Ok(None);
        };
        bytes.push(byte)?;
        rest = after;
    }
    Ok(Some(bytes))
}

/// The byte that is printed at the front of a word, and what stands behind it.
fn byte_at(word: &[u8]) -> Option<(u8, &[u8])>
    ensures some { IfSome result (λ found. word.now ≡ printed_byte found.0 ++ found.1.now) }
    ensures small { IfSome result (λ found. found.0 < 256) }
    ensures none { IfNone result
        ((byte : ℕ) (rest : List ℕ) → byte < 256 → word.now ≢ printed_byte byte ++ rest) }
{
    match word {
        [b'%', high, low, rest @ ..] => {
            let byte = escaped(*high, *low)?;
            Some((byte, rest))
        }
        [byte, rest @ ..] if is_plain_byte(*byte) => Some((*byte, rest)),
        _ => None,
    }
}

/// The byte that two hexadecimal digits behind a `%` print.
fn escaped(high: u8, low: u8) -> Option<u8>
    ensures some { IfSome result (λ byte. printed_byte byte ≡ 37 ∷ high ∷ low ∷ []) }
    ensures none { IfNone result
        ((byte : ℕ) → byte < 256 → printed_byte byte ≢ 37 ∷ high ∷ low ∷ []) }
{
    let byte = digit_of(high)? * 16 + digit_of(low)?;
    if is_plain_byte(byte) {
        None
    } else {
        Some(byte)
    }
}
