//! A constant pool as it stands in bytes.
ghost use Rattle.std.specs.Prelude.{◌≡◌, ◌+◌, ◌≤◌, [], ◌∷◌, ◌++◌, length, Some, IfOk, OnOk, OnErr};
ghost use Rattle.std.specs.Option.{option_copied};
ghost use Rattle.class_model.specs.Pool.{constant_at, entries_of, IsPool};
ghost use Rattle.pool_bytes.specs.Inner.Raw.{constant_of, IsCounted};
ghost use Rattle.pool_bytes.specs.Texts.{HasText, HasTexts};

use class_model::{Const, NoMemory, Pool, Text};
use std::alloc::Global;
use std::marker::Model;

/// A constant as it stands in bytes: the text of a Utf8 constant is neither checked nor copied yet.
/// Contracts see the constant.
#[derive(Drop)]
pub(crate) struct RawConst<'a> {
    form: RawForm<'a>,
}

/// The bytes of a Utf8 constant's text, or another constant.
#[derive(Drop)]
pub(crate) enum RawForm<'a> {
    Text(&'a [u8]),
    Constant(Const),
}

impl<'a> Model for RawConst<'a> {
    ghost use Rattle.class_model.specs.declared.pool.Const.{Const};
    ghost use Rattle.pool_bytes.specs.Inner.Raw.{constant_of, IsCounted};

    ghost Value = { Const };

    ghost view = { λ constant. constant_of constant.form };

    ghost invariant = { λ constant. IsCounted constant.form };
}

impl<'a> RawConst<'a> {
    pub(crate) fn new(form: RawForm<'a>) -> Self
        requires { IsCounted form }
        ensures { result ≡ constant_of form.entry }
    {
        RawConst { form }
    }

    /// What it is: a text that is not checked yet, or another constant.
    pub(crate) fn form(&self) -> &RawForm<'a>
        ensures constant { constant_of result.now ≡ self.now }
        ensures counted { IsCounted result.now }
    {
        &self.form
    }

    /// How many indices it takes: a long or double takes two.
    pub(crate) fn units(&self) -> u16
        ensures { result ≡ length (entries_of self.now) }
    {
        match &self.form {
            RawForm::Text(_) => 1,
            RawForm::Constant(constant) => constant.units(),
        }
    }

    /// An equal constant that owns its text, which is copied.
    fn checked(&self, alloc: Global) -> Result<Const, NoMemory>
        requires { HasText (Some self.now) }
        ensures { IfOk result (λ constant. constant ≡ self.now) }
    {
        match &self.form {
            RawForm::Text(bytes) => Ok(Const::Utf8(Text::of_text(alloc, bytes)?)),
            RawForm::Constant(constant) => constant.copy(),
        }
    }
}

/// A constant pool that was cut out of bytes and is not checked yet. Contracts see the constants by
/// index, as those of a `Pool`.
#[derive(Drop)]
pub struct RawPool<'a> {
    // from index 1 on
    entries: Vec<Option<RawConst<'a>>>,
}

impl<'a> Model for RawPool<'a> {
    ghost use Rattle.std.specs.Prelude.{◌∷◌, None};
    ghost use Rattle.class_model.specs.Pool.{Constants, IsPool};

    ghost Value = { Constants };

    ghost view = { λ pool. None ∷ pool.entries.items };

    ghost invariant = { λ pool. IsPool (None ∷ pool.entries.items) };
}

impl<'a> RawPool<'a> {
    /// The pool of count 1, which has no constant.
    pub(crate) fn new(alloc: Global) -> Self
        ensures { result ≡ None ∷ [] }
    {
        RawPool {
            entries: Vec::new(alloc),
        }
    }

    /// What it allocates with.
    pub(crate) fn allocator(&self) -> Global {
        *self.entries.allocator()
    }

    /// Appends a constant, at one index or two. Where memory runs out, the pool stays as it was.
    pub(crate) fn push(&mut self, value: RawConst<'a>) -> Result<(), NoMemory>
        requires { length self.old + length (entries_of value) ≤ 65535 }
        ensures ok { OnOk result (self.new ≡ self.old ++ entries_of value.entry) }
        ensures err { OnErr result (self.new ≡ self.old) }
    {
        let is_wide = value.units() == 2;
        self.entries.reserve(2)?;
        self.entries.push(Some(value))?;
        if is_wide {
            self.entries.push(None)?;
        }
        Ok(())
    }

    /// The constant at an index, if one is there.
    pub(crate) fn get(&self, index: u16) -> Option<&RawConst<'a>>
        ensures constant { option_copied result ≡ constant_at self.now index }
        ensures pool { IsPool self.now }
    {
        let entries = self.entries.as_slice();
        if index == 0 {
            return None;
        }
        match entries.get(usize::from(index) - 1) {
            Some(entry) => entry.as_ref(),
            None => None,
        }
    }

    /// The pool of the same constants, where the texts are modified UTF-8. The texts are copied.
    ///
    /// # Errors
    /// `NoMemory`, where memory runs out.
    pub fn to_pool(&self, alloc: Global) -> Result<Pool, NoMemory>
        requires { HasTexts self.now }
        ensures { IfOk result (λ pool. pool ≡ self.now) }
    {
        let mut pool = Pool::new(alloc);
        while let Some(constant) = self.get(pool.count()) {
            pool.push(constant.checked(alloc)?)?;
        }
        Ok(pool)
    }

    /// The count that the bytes state: one more than the last index.
    pub(crate) fn count(&self) -> u16
        ensures count { result ≡ length self.now }
        ensures positive { 1 ≤ result }
        ensures pool { IsPool self.now }
    {
        (self.entries.len() + 1) as u16
    }
}
