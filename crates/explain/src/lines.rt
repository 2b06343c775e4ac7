//! Lines of text that are written word by word.
use class_model::NoMemory;
use std::alloc::Global;

/// Lines that are written. Where memory runs out nothing more is written, and `finish` says so.
#[derive(Drop)]
pub(crate) struct Lines {
    text: String,
    is_cut: bool,
}

impl Lines {
    /// No line.
    pub(crate) fn new(alloc: Global) -> Self {
        Lines {
            text: String::new(alloc),
            is_cut: false,
        }
    }

    /// The lines.
    pub(crate) fn finish(self) -> Result<String, NoMemory> {
        if self.is_cut {
            Err(NoMemory)
        } else {
            Ok(self.text)
        }
    }

    /// Writes words as they stand.
    pub(crate) fn put(&mut self, words: &str) {
        if self.text.push_str(words).is_err() {
            self.is_cut = true;
        }
    }

    /// Writes a number in decimal.
    pub(crate) fn number(&mut self, number: u64) {
        if write!(self.text, "{number}").is_err() {
            self.is_cut = true;
        }
    }

    /// Writes a name: what is no text, or would control a terminal, as a replacement character.
    pub(crate) fn name(&mut self, name: &[u8]) {
        match str::from_utf8(name) {
            Ok(text) => {
                for letter in text.chars() {
                    self.letter(letter);
                }
            }
            Err(_) => {
                for byte in name {
                    self.byte(*byte);
                }
            }
        }
    }

    fn letter(&mut self, letter: char) {
        let shown = if letter.is_control() {
            '\u{fffd}'
        } else {
            letter
        };
        if self.text.push(shown).is_err() {
            self.is_cut = true;
        }
    }

    fn byte(&mut self, byte: u8) {
        if byte.is_ascii() {
            self.letter(char::from(byte));
        } else {
            self.letter('\u{fffd}');
        }
    }

    /// Writes a line of a file so that all of it is visible: a space at either end or beside another space, and each byte that is no visible
    /// ASCII character, by an escape.
    pub(crate) fn escaped(&mut self, line: &[u8]) {
        let mut is_edge = true;
        for (at, byte) in line.iter().enumerate() {
            let is_last = matches!(line.get(at.saturating_add(1)), None | Some(b' '));
            match *byte {
                b'\r' => self.put("\\r"),
                b'\t' => self.put("\\t"),
                b'\\' => self.put("\\\\"),
                b' ' if is_edge || is_last => self.put("\\x20"),
                b' '..=b'~' => self.byte(*byte),
                _ => self.hex(*byte),
            }
            is_edge = *byte == b' ';
        }
    }

    // Writes a byte by its number.
    fn hex(&mut self, byte: u8) {
        if write!(self.text, "\\x{byte:02x}").is_err() {
            self.is_cut = true;
        }
    }

    /// Writes a class, or a member of it: `A`, `A.m(I)V`, or `A.x of type I` for a field.
    pub(crate) fn member(&mut self, class: &[u8], name: &[u8], desc: &[u8]) {
        self.name(class);
        if !name.is_empty() {
            self.put(".");
            self.name(name);
            self.type_of(desc);
        }
    }

    /// Writes the descriptor behind the name of a field or method.
    pub(crate) fn type_of(&mut self, desc: &[u8]) {
        if !desc.starts_with(b"(") {
            self.put(" of type ");
        }
        self.name(desc);
    }
}
