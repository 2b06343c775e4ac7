//! Texts and numbers as they are printed.
ghost use Rattle.std.specs.Prelude.{◌≡◌, ◌<◌, ◌++◌, decimal, IsTrue, OnOk};
ghost use Rattle.std.specs.Fmt.{signed_decimal};
ghost use Rattle.std.specs.List.{flat_map};
ghost use Rattle.script_text.specs.PrintedTexts.{hex_digit, hex_text, is_plain_byte, printed_byte, printed_text};

use class_model::NoMemory;
use std::alloc::Global;

/// Appends a text as it is printed: a visible ASCII byte other than `%` stands for itself, every other byte is `%` and two
/// hexadecimal digits, and the empty text is `-`.
///
/// # Errors
///
/// `NoMemory` where memory runs out.
pub fn push_text(line: &mut Vec<u8>, text: &[u8]) -> Result<(), NoMemory>
    ensures { OnOk result (line.new.items ≡ line.old.items ++ printed_text text.now) }
{
    match text {
        [] => line.push(b'-')?,
        [b'-'] => line.extend_from_slice(b"%2d")?,
        _ => push_bytes(line, text)?,
    }
    Ok(())
}

/// Appends bytes as they are printed.
fn push_bytes(line: &mut Vec<u8>, bytes: &[u8]) -> Result<(), NoMemory>
    ensures { OnOk result (line.new.items ≡ line.old.items ++ flat_map printed_byte bytes.now) }
{
    for byte in bytes {
        push_byte(line, *byte)?;
    }
    Ok(())
}

/// Appends a byte as it is printed.
fn push_byte(line: &mut Vec<u8>, byte: u8) -> Result<(), NoMemory>
    ensures { OnOk result (line.new.items ≡ line.old.items ++ printed_byte byte) }
{
    if is_plain_byte(byte) {
        line.push(byte)?;
    } else {
        line.extend_from_slice(&[b'%', hex_digit(byte / 16), hex_digit(byte % 16)])?;
    }
    Ok(())
}

/// Whether a byte stands for itself: a visible ASCII one other than `%`.
pub(crate) fn is_plain_byte(byte: u8) -> bool
    ensures { result ≡ is_plain_byte byte }
{
    byte.is_ascii_graphic() && byte != b'%'
}

/// Appends so many hexadecimal digits of a number, the highest first.
pub(crate) fn push_hex(line: &mut Vec<u8>, count: u8, number: u64) -> Result<(), NoMemory>
    ensures { OnOk result (line.new.items ≡ line.old.items ++ hex_text count number) }
{
    if count > 0 {
        push_hex(line, count - 1, number / 16)?;
        line.push(hex_digit((number % 16) as u8))?;
    }
    Ok(())
}

/// A hexadecimal digit in lower case.
pub(crate) fn hex_digit(digit: u8) -> u8
    requires { digit < 16 }
    ensures { result ≡ hex_digit digit }
{
    if digit < 10 {
        b'0' + digit
    } else {
        b'a' + (digit - 10)
    }
}

/// Appends a number in decimal.
pub(crate) fn push_decimal(alloc: Global, line: &mut Vec<u8>, number: u128) -> Result<(), NoMemory>
    ensures { OnOk result (line.new.items ≡ line.old.items ++ decimal number) }
{
    let text = format!(in alloc; "{number}")?;
    line.extend_from_slice(text.as_bytes())?;
    Ok(())
}

/// The same of a number of 64 bits.
pub(crate) fn push_number(alloc: Global, line: &mut Vec<u8>, number: u64) -> Result<(), NoMemory>
    ensures { OnOk result (line.new.items ≡ line.old.items ++ decimal number) }
{
    push_decimal(alloc, line, u128::from(number))
}

/// Appends an integer in decimal.
pub(crate) fn push_integer(alloc: Global, line: &mut Vec<u8>, number: i64) -> Result<(), NoMemory>
    ensures { OnOk result (line.new.items ≡ line.old.items ++ signed_decimal number) }
{
    let text = format!(in alloc; "{number}")?;
    line.extend_from_slice(text.as_bytes())?;
    Ok(())
}
