//! Numbers of scripts.
ghost use Rattle.std.specs.Prelude.{◌≡◌, ◌≢◌, ◌<◌, ◌≤◌, ◌∷◌, ◌++◌, ◌^◌, ℕ, ℤ, length, IfSome, IfNone, slice_index};
ghost use Rattle.std.specs.Int.{w32, w64};
ghost use Rattle.std.specs.Str.Parse.{IsNumeral};
ghost use Rattle.script_text.specs.PrintedTexts.{hex_digit, hex_text};
ghost use Rattle.script_text.specs.Scripts.{SpellsNumber, SpellsInteger, SpellsBits, without_minus};
ghost use Rattle.script_text.specs.Inner.Reading.{IsRead};

/// The number of 64 bits that a word spells in decimal.
pub(crate) fn number_of(word: &[u8]) -> Option<u64>
    ensures { IsRead (λ number. SpellsNumber number word.now) result }
{
    let text = unsigned_text(word)?;
    match text.parse::<u64>() {
        Ok(number) => Some(number),
        Err(_) => None,
    }
}

/// The integer of 32 bits that a word spells in decimal.
pub(crate) fn int_of(word: &[u8]) -> Option<i32>
    ensures { IsRead (λ number. SpellsInteger w32 number word.now) result }
{
    let text = unsigned_text(word)?;
    match text.parse::<i32>() {
        Ok(number) => Some(number),
        Err(_) => None,
    }
}

/// The integer of 64 bits that a word spells in decimal.
pub(crate) fn long_of(word: &[u8]) -> Option<i64>
    ensures { IsRead (λ number. SpellsInteger w64 number word.now) result }
{
    let text = unsigned_text(word)?;
    match text.parse::<i64>() {
        Ok(number) => Some(number),
        Err(_) => None,
    }
}

/// A word as text, where it does not begin with a plus sign.
fn unsigned_text(word: &[u8]) -> Option<&str>
    ensures same { IfSome result (λ text. text.now ≡ word.now) }
    ensures no_plus { IfSome result (λ text. slice_index word.now 0 ≢ 43) }
    ensures none { IfNone result (¬ IsNumeral 10 (without_minus word.now)) }
{
    match word {
        [b'+', ..] => None,
        _ => match str::from_utf8(word) {
            Ok(text) => Some(text),
            Err(_) => None,
        },
    }
}

/// The number that a word spells by a hexadecimal digit for each of its bytes.
pub(crate) fn bits_of(word: &[u8]) -> Option<u64>
    requires { length word.now ≤ 16 }
    ensures { IsRead (λ bits. SpellsBits (length word.now) bits word.now) result }
{
    match word {
        [] => Some(0),
        [front @ .., last] => {
            let high = bits_of(front)?;
            let digit = digit_of(*last)?;
            Some(high * 16 + u64::from(digit))
        }
    }
}

/// The value of a hexadecimal digit in lower case.
pub(crate) fn digit_of(byte: u8) -> Option<u8>
    ensures some { IfSome result (λ digit. (digit < 16) × (byte ≡ hex_digit digit)) }
    ensures none { IfNone result ((digit : ℕ) → digit < 16 → byte ≢ hex_digit digit) }
{
    match byte {
        b'0'..=b'9' => Some(byte - b'0'),
        b'a'..=b'f' => Some(byte - b'a' + 10),
        _ => None,
    }
}
