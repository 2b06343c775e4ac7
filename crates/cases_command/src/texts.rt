//! Texts with bytes that are written as hex digits.
use hex::decode;
use std::alloc::Global;

/// Appends the bytes of a text, in which a backslash stands before the two hex digits of a byte. None where other letters stand
/// there, or memory runs out.
pub(crate) fn push_text(alloc: Global, bytes: &mut Vec<u8>, text: &str) -> Option<()> {
    let mut parts = text.split('\\');
    let first = parts.next()?;
    bytes.extend_from_slice(first.as_bytes()).ok()?;
    for part in parts {
        let byte = decode(alloc, part.get(..2)?).ok()?;
        bytes.extend_from_slice(&byte).ok()?;
        bytes.extend_from_slice(part.get(2..)?.as_bytes()).ok()?;
    }
    Some(())
}

/// The root and the name of a file that a text names, with `/` between them. None where it names none, or memory runs out.
pub(crate) fn root_and_name(alloc: Global, text: &str) -> Option<(String, String)> {
    let mut bytes = Vec::new(alloc);
    push_text(alloc, &mut bytes, text)?;
    let (root, name) = str::from_utf8(&bytes).ok()?.split_once('/')?;
    let root = String::from_str(alloc, root).ok()?;
    Some((root, String::from_str(alloc, name).ok()?))
}

/// Bytes as a text, in which each that is no printable ASCII, and each backslash, is a backslash and two hex digits. None where
/// memory runs out.
pub(crate) fn shown(alloc: Global, bytes: &[u8]) -> Option<String> {
    let mut text = String::new(alloc);
    for byte in bytes {
        match *byte {
            b'\\' => text.push_str("\\5c").ok()?,
            b' '..=b'~' => text.push(char::from(*byte)).ok()?,
            _ => write!(text, "\\{byte:02x}").ok()?,
        }
    }
    Some(text)
}
