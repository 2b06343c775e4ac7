//! Lists of values and of names at the end of a line.
ghost use Rattle.std.specs.Prelude.{◌≡◌, IfOk};
ghost use Rattle.std.specs.Option.{option_copied};
ghost use Rattle.script_text.specs.Scripts.{SpellsEach, SpellsGiven, SpellsText};
ghost use Rattle.script_text.specs.Inner.Reading.{words_left, IsRead};

use crate::given::given_of;
use crate::texts::text_of;
use crate::words::{Words, next_word};
use class_model::{ListOf, NoMemory, TextList};
use machine_values::GivenList;
use std::alloc::Global;

/// The values that the words left spell.
pub(crate) fn givens_of(alloc: Global, words: Words<'_>) -> Result<Option<GivenList>, NoMemory>
    ensures { IfOk result (IsRead
        (λ values. SpellsEach SpellsGiven values (words_left (option_copied words.entry)))) }
{
    let mut values = ListOf::new(alloc);
    let mut left = words;
    while let Some((word, rest)) = next_word(left) {
        let Some(value) = given_of(word) else {
            return Ok(None);
        };
        values.push(value)?;
        left = rest;
    }
    Ok(Some(values))
}

/// The texts that the words left spell.
pub(crate) fn texts_of(alloc: Global, words: Words<'_>) -> Result<Option<TextList>, NoMemory>
    ensures { IfOk result (IsRead
        (λ texts. SpellsEach SpellsText texts (words_left (option_copied words.entry)))) }
{
    let mut texts = ListOf::new(alloc);
    let mut left = words;
    while let Some((word, rest)) = next_word(left) {
        let Some(text) = text_of(alloc, word)? else {
            return Ok(None);
        };
        texts.push(text)?;
        left = rest;
    }
    Ok(Some(texts))
}
