//! Values of scripts.
ghost use Rattle.std.specs.Prelude.{◌≡◌, ◌≢◌, ◌∷◌, IfSome, IfNone};
ghost use Rattle.script_text.specs.Scripts.{Word, SpellsBits, SpellsGiven, SpellsKnown};
ghost use Rattle.script_text.specs.Inner.Reading.{IsRead};

use crate::numbers::{bits_of, int_of, long_of, number_of};
use crate::texts::is_same;
use machine_values::Given;

/// The value that a word spells.
pub(crate) fn given_of(word: &[u8]) -> Option<Given>
    ensures { IsRead (λ value. SpellsGiven value word.now) result }
{
    if let Some(number) = behind(word, b'i') {
        return int_given(number);
    }
    if let Some(number) = behind(word, b'l') {
        return long_given(number);
    }
    if let Some(bits) = behind(word, b'f') {
        return float_given(bits);
    }
    if let Some(bits) = behind(word, b'd') {
        return double_given(bits);
    }
    if let Some(number) = behind(word, b'r') {
        return known_given(number);
    }
    if is_same(word, b"null") {
        Some(Given::Null)
    } else {
        None
    }
}

/// What stands behind the letter of a kind and a colon.
fn behind(word: &[u8], kind: u8) -> Option<&[u8]>
    ensures some { IfSome result (λ rest. word.now ≡ kind ∷ 58 ∷ rest.now) }
    ensures none { IfNone result ((rest : Word) → word.now ≢ kind ∷ 58 ∷ rest) }
{
    match word {
        [first, b':', rest @ ..] if *first == kind => Some(rest),
        _ => None,
    }
}

/// The number of a known reference that a word spells.
pub(crate) fn known_of(word: &[u8]) -> Option<u64>
    ensures { IsRead (λ number. SpellsKnown number word.now) result }
{
    let Some(number) = behind(word, b'r') else {
        return None;
    };
    number_of(number)
}

/// The value of an int.
fn int_given(number: &[u8]) -> Option<Given>
    ensures { IsRead (λ value. SpellsGiven value (105 ∷ 58 ∷ number.now)) result }
{
    match int_of(number) {
        Some(number) => Some(Given::Int(number)),
        None => None,
    }
}

/// The value of a long.
fn long_given(number: &[u8]) -> Option<Given>
    ensures { IsRead (λ value. SpellsGiven value (108 ∷ 58 ∷ number.now)) result }
{
    match long_of(number) {
        Some(number) => Some(Given::Long(number)),
        None => None,
    }
}

/// The value of a float.
fn float_given(bits: &[u8]) -> Option<Given>
    ensures { IsRead (λ value. SpellsGiven value (102 ∷ 58 ∷ bits.now)) result }
{
    match float_of(bits) {
        Some(bits) => Some(Given::Float(bits)),
        None => None,
    }
}

/// The value of a double.
fn double_given(bits: &[u8]) -> Option<Given>
    ensures { IsRead (λ value. SpellsGiven value (100 ∷ 58 ∷ bits.now)) result }
{
    match double_of(bits) {
        Some(bits) => Some(Given::Double(bits)),
        None => None,
    }
}

/// The value of a known reference.
fn known_given(number: &[u8]) -> Option<Given>
    ensures { IsRead (λ value. SpellsGiven value (114 ∷ 58 ∷ number.now)) result }
{
    match number_of(number) {
        Some(number) => Some(Given::Known(number)),
        None => None,
    }
}

/// The bits of a float that a word spells.
fn float_of(word: &[u8]) -> Option<u32>
    ensures { IsRead (λ bits. SpellsBits 8 bits word.now) result }
{
    if word.len() != 8 {
        return None;
    }
    match bits_of(word) {
        Some(bits) => Some(bits as u32),
        None => None,
    }
}

/// The bits of a double that a word spells.
fn double_of(word: &[u8]) -> Option<u64>
    ensures { IsRead (λ bits. SpellsBits 16 bits word.now) result }
{
    if word.len() != 16 {
        return None;
    }
    match bits_of(word) {
        Some(bits) => Some(bits),
        None => None,
    }
}
