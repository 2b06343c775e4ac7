//! Contents of files, as cases write them.
use crate::texts::push_text;
use class_model::push_u2;
use hex::decode;
use std::alloc::Global;

/// Contents that have names.
#[derive(Drop)]
pub(crate) struct Contents {
    named: Vec<Named>,
}

// A content with its name.
#[derive(Drop)]
struct Named {
    name: String,
    bytes: Vec<u8>,
}

impl Contents {
    /// No content at all.
    pub(crate) fn empty(alloc: Global) -> Self {
        Contents {
            named: Vec::new(alloc),
        }
    }

    /// Names a content. None where memory runs out.
    pub(crate) fn add(&mut self, alloc: Global, name: &str, bytes: Vec<u8>) -> Option<()> {
        let name = String::from_str(alloc, name).ok()?;
        self.named.push(Named { name, bytes }).ok()
    }

    /// The name of a content, or `?` where it has none.
    pub(crate) fn name_of(&self, bytes: &[u8]) -> &str {
        for named in self.named.as_slice() {
            if named.bytes.as_slice() == bytes {
                return &named.name;
            }
        }
        "?"
    }

    // The content of a name.
    fn bytes_of(&self, name: &str) -> Option<&[u8]> {
        for named in self.named.as_slice() {
            if named.name.as_str() == name {
                return Some(named.bytes.as_slice());
            }
        }
        None
    }

    /// The bytes of a content. None where words write none, or memory runs out.
    pub(crate) fn written(&self, alloc: Global, content: &str) -> Option<Vec<u8>> {
        let mut bytes = Vec::new(alloc);
        for word in content.split(' ') {
            self.push_word(alloc, &mut bytes, word)?;
        }
        Some(bytes)
    }

    // Appends what a word writes, or changes what is there as it says.
    fn push_word(&self, alloc: Global, bytes: &mut Vec<u8>, word: &str) -> Option<()> {
        if let Some(text) = word.strip_prefix('"') {
            push_text(alloc, bytes, text)
        } else if let Some(text) = word.strip_prefix('\'') {
            push_constant(alloc, bytes, text)
        } else if let Some(name) = word.strip_prefix('=') {
            bytes.extend_from_slice(self.bytes_of(name)?).ok()
        } else if let Some(length) = word.strip_prefix("length:") {
            bytes.resize(length.parse::<usize>().ok()?, 0).ok()
        } else if let Some(change) = word.strip_prefix("byte:") {
            set_byte(alloc, bytes, change)
        } else {
            bytes.extend_from_slice(&decode(alloc, word).ok()?).ok()
        }
    }
}

// Appends the Utf8 constant of a text.
fn push_constant(alloc: Global, bytes: &mut Vec<u8>, text: &str) -> Option<()> {
    let mut constant = Vec::new(alloc);
    push_text(alloc, &mut constant, text)?;
    bytes.push(1).ok()?;
    push_u2(bytes, u16::try_from(constant.len()).ok()?).ok()?;
    bytes.extend_from_slice(&constant).ok()
}

// Sets the byte that a place and two hex digits say.
fn set_byte(alloc: Global, bytes: &mut Vec<u8>, change: &str) -> Option<()> {
    let (at, digits) = change.split_once(':')?;
    let byte = decode(alloc, digits).ok()?;
    *bytes.get_mut(at.parse::<usize>().ok()?)? = byte.first().copied()?;
    Some(())
}
