//! Numbers of the texts of a pool: equal texts have one number, and each constant is read once, however many members
//! name it.
ghost use Rattle.std.specs.Prelude.{◌≡◌, None, Some, IfOk, IfSome};
ghost use Rattle.class_model.specs.PoolChecks.{utf8_at};
ghost use Rattle.class_bytes.specs.Inner.TextNumbers.{Grows, IsNewIn, IsNumber, IsNumberAt};

use class_model::{NoMemory, Pool};
use std::alloc::Global;
use std::collections::HashMap;
use std::marker::Model;

/// The numbers of texts of a pool, each an index at which its text stands. Contracts see the pool, and the number of each
/// text that has one.
#[derive(Drop)]
pub(crate) struct TextNumbers<'p> {
    pool: &'p Pool,
    numbers: HashMap<&'p [u8], u16>,
    // by index, as far as they were asked for
    known: Vec<Option<u16>>,
}

impl<'p> Model for TextNumbers<'p> {
    ghost use Rattle.class_bytes.specs.Inner.TextNumbers.{AreKnown, Numbers};

    ghost Value = { Numbers };

    ghost view = { λ all.
        record { pool = all.pool.now; entries = all.numbers.entries } };

    ghost invariant = { λ all.
        AreKnown (record { pool = all.pool.now; entries = all.numbers.entries }) all.known.items };
}

impl<'p> TextNumbers<'p> {
    /// Those of a pool of which no text has a number yet.
    pub(crate) fn new(alloc: Global, pool: &'p Pool) -> Result<Self, NoMemory>
        ensures { IfOk result (IsNewIn pool.now) }
    {
        let known = vec![in alloc; None; usize::from(pool.count())]?;
        Ok(TextNumbers {
            pool,
            numbers: HashMap::new(alloc),
            known,
        })
    }

    /// The number of the text at an index, if one is there: the one that it has, or a new one.
    pub(crate) fn number(&mut self, index: u16) -> Result<Option<u16>, NoMemory>
        ensures grows { IfOk result (λ number. Grows self.old self.new) }
        ensures number { IfOk result (IsNumber self.new index) }
    {
        if let Some(number) = self.known(index) {
            return Ok(Some(number));
        }
        let Some(text) = self.pool.utf8(index) else {
            return Ok(None);
        };
        let number = self.find_or_add(text.bytes(), index)?;
        self.keep(index, number);
        Ok(Some(number))
    }

    // What is known of the number of the text at an index.
    fn known(&self, index: u16) -> Option<u16>
        ensures { IfSome result (IsNumberAt self.now index) }
    {
        *self.known.get(usize::from(index))?
    }

    // The number of a text, which stands at this index.
    fn find_or_add(&mut self, text: &'p [u8], index: u16) -> Result<u16, NoMemory>
        requires { utf8_at self.old.pool index ≡ Some text.now }
        ensures grows { IfOk result (λ number. Grows self.old self.new) }
        ensures number { IfOk result (IsNumberAt self.new index) }
    {
        if let Some(number) = self.numbers.get(&text) {
            return Ok(*number);
        }
        self.numbers.insert(text, index)?;
        Ok(index)
    }

    // Keeps the number of the text at an index.
    fn keep(&mut self, index: u16, number: u16)
        requires { IsNumberAt self.old index number }
        ensures { self.new ≡ self.old }
    {
        let index = usize::from(index);
        if index < self.known.len() {
            self.known[index] = Some(number);
        }
    }
}
