//! The lines of a script and the words of a line.
ghost use Rattle.std.specs.Prelude.{◌≡◌, ◌≢◌, ◌<◌, ◌≤◌, ◌∷◌, [], length, IfOk, IfSome, IfNone};
ghost use Rattle.std.specs.Int.{w32};
ghost use Rattle.std.specs.Option.{option_copied};
ghost use Rattle.script_text.specs.Scripts.{Word, pieces, SpellsGiven, SpellsInteger, SpellsKnown, SpellsText};
ghost use Rattle.script_text.specs.Inner.Reading.{pieces_left, length_left, words_left, IsRead, Takes, TakesOne};

use crate::given::{given_of, known_of};
use crate::numbers::int_of;
use crate::texts::text_of;
use class_model::{NoMemory, Text};
use machine_values::Given;
use std::alloc::Global;

/// What is left of a line behind the words that were read. Nothing is left behind the last one.
pub(crate) type Words<'a> = Option<&'a [u8]>;

/// The bytes before the first of a mark, and those behind it, if there is one.
pub(crate) fn cut_at(mark: u8, bytes: &[u8]) -> (&[u8], Option<&[u8]>)
    ensures cut { pieces mark bytes.now
        ≡ result.0.now ∷ pieces_left mark (option_copied result.1) }
    ensures shorter { length_left (option_copied result.1) ≤ length bytes.now }
{
    for at in 0..bytes.len() {
        if bytes[at] == mark {
            return (&bytes[..at], Some(&bytes[at + 1..]));
        }
    }
    (bytes, None)
}

/// The next word, and what is left behind it.
pub(crate) fn next_word(words: Words<'_>) -> Option<(&[u8], Words<'_>)>
    ensures some { IfSome result (λ cut. words_left (option_copied words.entry)
        ≡ cut.0.now ∷ words_left (option_copied cut.1)) }
    ensures shorter { IfSome result (λ cut. length_left (option_copied cut.1)
        < length_left (option_copied words.entry)) }
    ensures none { IfNone result (words_left (option_copied words.entry) ≡ []) }
{
    match words {
        Some(rest) => Some(cut_at(b' ', rest)),
        None => None,
    }
}

/// The last word.
fn last_word(words: Words<'_>) -> Option<&[u8]>
    ensures some { IfSome result
        (λ word. words_left (option_copied words.entry) ≡ word.now ∷ []) }
    ensures none { IfNone result
        ((word : Word) → words_left (option_copied words.entry) ≢ word ∷ []) }
{
    let Some((word, rest)) = next_word(words) else {
        return None;
    };
    match rest {
        None => Some(word),
        Some(_) => None,
    }
}

/// The text that the next word spells, and what is left behind it.
pub(crate) fn next_text(
    alloc: Global,
    words: Words<'_>,
) -> Result<Option<(Text, Words<'_>)>, NoMemory>
    ensures { IfOk result (TakesOne SpellsText (words_left (option_copied words.entry))) }
{
    let Some((word, rest)) = next_word(words) else {
        return Ok(None);
    };
    match text_of(alloc, word)? {
        Some(text) => Ok(Some((text, rest))),
        None => Ok(None),
    }
}

/// The number of a known reference that the next word spells, and what is left behind it.
pub(crate) fn next_known(words: Words<'_>) -> Option<(u64, Words<'_>)>
    ensures { TakesOne SpellsKnown (words_left (option_copied words.entry)) result }
{
    let Some((word, rest)) = next_word(words) else {
        return None;
    };
    match known_of(word) {
        Some(number) => Some((number, rest)),
        None => None,
    }
}

/// The integer that the next word spells, and what is left behind it.
pub(crate) fn next_int(words: Words<'_>) -> Option<(i32, Words<'_>)>
    ensures { TakesOne (SpellsInteger w32) (words_left (option_copied words.entry)) result }
{
    let Some((word, rest)) = next_word(words) else {
        return None;
    };
    match int_of(word) {
        Some(number) => Some((number, rest)),
        None => None,
    }
}

/// The number of a known reference that the last word spells.
pub(crate) fn last_known(words: Words<'_>) -> Option<u64>
    ensures { IsRead
        (λ number. Takes SpellsKnown (words_left (option_copied words.entry)) number []) result }
{
    let Some(word) = last_word(words) else {
        return None;
    };
    known_of(word)
}

/// The integer that the last word spells.
pub(crate) fn last_int(words: Words<'_>) -> Option<i32>
    ensures { IsRead
        (λ number. Takes (SpellsInteger w32) (words_left (option_copied words.entry)) number [])
        result }
{
    let Some(word) = last_word(words) else {
        return None;
    };
    int_of(word)
}

/// The value that the last word spells.
pub(crate) fn last_given(words: Words<'_>) -> Option<Given>
    ensures { IsRead
        (λ value. Takes SpellsGiven (words_left (option_copied words.entry)) value []) result }
{
    let Some(word) = last_word(words) else {
        return None;
    };
    given_of(word)
}
