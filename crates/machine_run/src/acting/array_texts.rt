//! Texts of arrays that the library may make (JVM Specification SE 8, 4.3.2), without allocation.
ghost use Rattle.std.specs.Prelude.{◌≡◌, ◌==◌, codes, true};
ghost use Rattle.std.specs.List.{list_any};
ghost use Rattle.member_link.specs.Machine.Acting.{are_joined, is_array_descriptor, is_array_within, is_element};
ghost use Rattle.machine_run.specs.Inner.ArrayWords.{ends_class, may_stand};

use member_link::without_last;

/// Whether a text is that of an array type: one to 255 brackets, and a base type or a class behind them.
pub(crate) fn is_array_descriptor(text: &[u8]) -> bool
    ensures { result ≡ is_array_descriptor text.now }
{
    is_array_within(255, text)
}

// Of one to so many brackets.
fn is_array_within(dimensions: u8, text: &[u8]) -> bool
    ensures { result ≡ is_array_within dimensions text.now }
{
    let mut left = dimensions;
    let mut rest = text;
    while left > 0 {
        let Some((first, more)) = rest.split_first() else {
            return false;
        };
        if *first != b'[' {
            return false;
        }
        if is_element(more) {
            return true;
        }
        left -= 1;
        rest = more;
    }
    false
}

// Whether a text is a base type, or a class between L and a semicolon.
fn is_element(text: &[u8]) -> bool
    ensures { result ≡ is_element text.now }
{
    let Some((letter, rest)) = text.split_first() else {
        return false;
    };
    if rest.is_empty() {
        is_base_letter(*letter)
    } else {
        *letter == b'L' && (ends_class(rest) && are_joined(without_last(rest)))
    }
}

// Whether a letter is that of a base type.
fn is_base_letter(letter: u8) -> bool
    ensures { result ≡ list_any (λ other. other == letter) (codes "BCDFIJSZ") }
{
    matches!(
        letter,
        b'B' | b'C' | b'D' | b'F' | b'I' | b'J' | b'S' | b'Z'
    )
}

// Whether a text ends in a semicolon.
fn ends_class(text: &[u8]) -> bool
    ensures { result ≡ ends_class text.now }
{
    let mut rest = text;
    while let Some((byte, more)) = rest.split_first() {
        if more.is_empty() {
            return *byte == b';';
        }
        rest = more;
    }
    false
}

// Whether a text is names joined by slashes, none of which is empty.
fn are_joined(text: &[u8]) -> bool
    ensures { result ≡ are_joined true text.now }
{
    let mut begins = true;
    let mut rest = text;
    while let Some((byte, more)) = rest.split_first() {
        if !may_stand(begins, *byte) {
            return false;
        }
        begins = *byte == b'/';
        rest = more;
    }
    !begins
}

// Whether a byte may stand at the beginning of a name, or further on.
fn may_stand(begins: bool, byte: u8) -> bool
    ensures { result ≡ may_stand begins byte }
{
    if byte == b'/' {
        !begins
    } else {
        !matches!(byte, b'.' | b';' | b'[')
    }
}
