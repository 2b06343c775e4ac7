//! The texts of a pool that is not checked yet (JVM Specification SE 8, 4.4.7): they are checked alone, and lent.
ghost use Rattle.std.specs.Prelude.{◌≡◌, ◌≢◌, ◌+◌, ◌^◌, ◌<◌, ◌≤◌, length, Err, IfSome, OnOk};
ghost use Rattle.std.specs.List.{flat_map};
ghost use Rattle.std.specs.Option.{option_copied};
ghost use Rattle.class_model.specs.Answers.{Answers};
ghost use Rattle.class_model.specs.PoolChecks.{utf8_at, class_at};
ghost use Rattle.class_model.specs.Spelling.{entry_bytes};
ghost use Rattle.class_model.specs.Header.{texts_checks};
ghost use Rattle.pool_bytes.specs.Inner.TextChecks.{text_checks};
ghost use Rattle.pool_bytes.specs.Texts.{HasTexts};

use crate::raw::{RawConst, RawPool};
use class_model::{ClassFault, FileRule, is_modified_utf8};

impl RawPool<'_> {
    /// Checks of the constants that the texts are modified UTF-8, and nothing else; the first constant stands at this
    /// place. It takes no memory.
    ///
    /// # Errors
    /// `Malformed` with `Text` at the tag of the first Utf8 constant that is not.
    pub fn check_texts(&self, at: u64) -> Result<(), ClassFault>
        requires { at + length (flat_map entry_bytes self.now) < 2 ^ 64 }
        ensures told { Answers (texts_checks at self.now) result }
        ensures texts { OnOk result (HasTexts self.now) }
        ensures memory { result ≢ Err ClassFault.NoMemory }
    {
        let mut place = at;
        for index in 1..self.count() {
            if let Some(constant) = self.get(index) {
                check_text(constant, place)?;
                place += constant.byte_len();
            }
        }
        Ok(())
    }

    /// The text of the Utf8 constant at an index, if one is there: of at most 65,535 bytes.
    pub fn text(&self, index: u16) -> Option<&[u8]>
        ensures text { option_copied result ≡ utf8_at self.now index }
        ensures len { IfSome result (λ text. length text.now ≤ 65535) }
    {
        self.get(index)?.text()
    }

    /// The text of the name of the class, or of the descriptor of the array, of the Class constant at an index, if one is
    /// there and names a Utf8 constant: of at most 65,535 bytes.
    pub fn class_text(&self, index: u16) -> Option<&[u8]>
        ensures text { option_copied result ≡ class_at self.now index }
        ensures len { IfSome result (λ text. length text.now ≤ 65535) }
    {
        let name = self.get(index)?.class_name()?;
        self.text(name)
    }
}

// Checks a constant whose tag stands at this place: a text is modified UTF-8.
fn check_text(constant: &RawConst<'_>, at: u64) -> Result<(), ClassFault>
    ensures told { Answers (text_checks at constant.now) result }
    ensures memory { result ≢ Err ClassFault.NoMemory }
{
    match constant.text() {
        Some(text) if !is_modified_utf8(text) => Err(ClassFault::Malformed {
            at,
            rule: FileRule::Text,
        }),
        _ => Ok(()),
    }
}
