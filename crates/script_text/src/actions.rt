//! The actions of a script, each by the words of its line.
ghost use Rattle.std.specs.Prelude.{◌∷◌, codes, IfOk};
ghost use Rattle.std.specs.Option.{option_copied};
ghost use Rattle.script_text.specs.Scripts.{SpellsAction, words_of};
ghost use Rattle.script_text.specs.Inner.Reading.{words_left, IsRead};

use crate::lists::{givens_of, texts_of};
use crate::texts::is_same;
use crate::words::{
    Words, cut_at, last_given, last_int, last_known, next_int, next_known, next_text,
};
use class_model::NoMemory;
use machine_values::Action;
use std::alloc::Global;

/// The action that a line spells.
pub(crate) fn action_of(alloc: Global, line: &[u8]) -> Result<Option<Action>, NoMemory>
    ensures { IfOk result (IsRead (λ action. SpellsAction action (words_of line.now))) }
{
    let (head, words) = cut_at(b' ', line);
    if is_same(head, b"call") {
        return call_of(alloc, words);
    }
    if is_same(head, b"construct") {
        return construct_of(alloc, words);
    }
    if is_same(head, b"new") {
        return new_of(alloc, words);
    }
    if is_same(head, b"array") {
        return array_of(alloc, words);
    }
    if is_same(head, b"return") {
        return Ok(return_of(words));
    }
    if is_same(head, b"throw") {
        return Ok(throw_of(words));
    }
    if is_same(head, b"get") {
        return Ok(get_of(words));
    }
    if is_same(head, b"set") {
        return Ok(set_of(words));
    }
    if is_same(head, b"length") {
        return Ok(length_of(words));
    }
    if is_same(head, b"stop") {
        return Ok(stop_of(words));
    }
    Ok(None)
}

/// `call CLASS NAME DESC VALUES`, from behind its first word.
fn call_of(alloc: Global, words: Words<'_>) -> Result<Option<Action>, NoMemory>
    ensures { IfOk result (IsRead (λ action.
        SpellsAction action (codes "call" ∷ words_left (option_copied words.entry)))) }
{
    let Some((class, words)) = next_text(alloc, words)? else {
        return Ok(None);
    };
    let Some((name, words)) = next_text(alloc, words)? else {
        return Ok(None);
    };
    let Some((desc, words)) = next_text(alloc, words)? else {
        return Ok(None);
    };
    let Some(values) = givens_of(alloc, words)? else {
        return Ok(None);
    };
    Ok(Some(Action::Call {
        class,
        name,
        desc,
        values,
    }))
}

/// `construct CLASS DESC VALUES`, from behind its first word.
fn construct_of(alloc: Global, words: Words<'_>) -> Result<Option<Action>, NoMemory>
    ensures { IfOk result (IsRead (λ action.
        SpellsAction action (codes "construct" ∷ words_left (option_copied words.entry)))) }
{
    let Some((class, words)) = next_text(alloc, words)? else {
        return Ok(None);
    };
    let Some((desc, words)) = next_text(alloc, words)? else {
        return Ok(None);
    };
    let Some(values) = givens_of(alloc, words)? else {
        return Ok(None);
    };
    Ok(Some(Action::Construct {
        class,
        desc,
        values,
    }))
}

/// `new CLASS NAMES`, from behind its first word.
fn new_of(alloc: Global, words: Words<'_>) -> Result<Option<Action>, NoMemory>
    ensures { IfOk result (IsRead (λ action.
        SpellsAction action (codes "new" ∷ words_left (option_copied words.entry)))) }
{
    let Some((class, words)) = next_text(alloc, words)? else {
        return Ok(None);
    };
    let Some(also) = texts_of(alloc, words)? else {
        return Ok(None);
    };
    Ok(Some(Action::NewExternal { class, also }))
}

/// `array DESC LENGTH`, from behind its first word.
fn array_of(alloc: Global, words: Words<'_>) -> Result<Option<Action>, NoMemory>
    ensures { IfOk result (IsRead (λ action.
        SpellsAction action (codes "array" ∷ words_left (option_copied words.entry)))) }
{
    let Some((desc, words)) = next_text(alloc, words)? else {
        return Ok(None);
    };
    match last_int(words) {
        Some(length) => Ok(Some(Action::NewArray { desc, length })),
        None => Ok(None),
    }
}

/// `return` or `return VALUE`, from behind its first word.
fn return_of(words: Words<'_>) -> Option<Action>
    ensures { IsRead (λ action.
        SpellsAction action (codes "return" ∷ words_left (option_copied words.entry))) result }
{
    if words.is_none() {
        return Some(Action::Return(None));
    }
    match last_given(words) {
        Some(value) => Some(Action::Return(Some(value))),
        None => None,
    }
}

/// `throw r:K`, from behind its first word.
fn throw_of(words: Words<'_>) -> Option<Action>
    ensures { IsRead (λ action.
        SpellsAction action (codes "throw" ∷ words_left (option_copied words.entry))) result }
{
    match last_known(words) {
        Some(number) => Some(Action::Throw(number)),
        None => None,
    }
}

/// `get r:K INDEX`, from behind its first word.
fn get_of(words: Words<'_>) -> Option<Action>
    ensures { IsRead (λ action.
        SpellsAction action (codes "get" ∷ words_left (option_copied words.entry))) result }
{
    let Some((at, words)) = next_known(words) else {
        return None;
    };
    match last_int(words) {
        Some(index) => Some(Action::ArrayGet { at, index }),
        None => None,
    }
}

/// `set r:K INDEX VALUE`, from behind its first word.
fn set_of(words: Words<'_>) -> Option<Action>
    ensures { IsRead (λ action.
        SpellsAction action (codes "set" ∷ words_left (option_copied words.entry))) result }
{
    let Some((at, words)) = next_known(words) else {
        return None;
    };
    let Some((index, words)) = next_int(words) else {
        return None;
    };
    match last_given(words) {
        Some(value) => Some(Action::ArraySet { at, index, value }),
        None => None,
    }
}

/// `length r:K`, from behind its first word.
fn length_of(words: Words<'_>) -> Option<Action>
    ensures { IsRead (λ action.
        SpellsAction action (codes "length" ∷ words_left (option_copied words.entry))) result }
{
    match last_known(words) {
        Some(number) => Some(Action::ArrayLength(number)),
        None => None,
    }
}

/// `stop`, from behind its only word.
fn stop_of(words: Words<'_>) -> Option<Action>
    ensures { IsRead (λ action.
        SpellsAction action (codes "stop" ∷ words_left (option_copied words.entry))) result }
{
    match words {
        None => Some(Action::Stop),
        Some(_) => None,
    }
}
