//! Texts that many headers have, kept once.
ghost use Rattle.std.specs.Prelude.{◌≡◌, IfOk};
ghost use Rattle.std.specs.Option.{option_copied};

use class_model::{Header, ListOf, Member, MemberList, NoMemory, Text, TextList};
use std::alloc::Global;
use std::hash::{FoldHasher, Hasher};

/// Texts that were met, the last one for each part of their hashes: a text that is met again shares the bytes of the one
/// before. Nothing is proved of what is shared; every text stays equal to itself.
#[derive(Drop)]
pub(crate) struct SharedTexts {
    slots: Vec<Option<Text>>,
}

// How many of the highest bits of a hash lead to a slot.
const SLOT_BITS: u32 = 14;

impl SharedTexts {
    /// No text yet.
    pub(crate) fn new(alloc: Global) -> Result<Self, NoMemory> {
        let count = 1 << SLOT_BITS;
        let mut slots = Vec::with_capacity(alloc, count)?;
        for _ in 0..count {
            slots.push(None)?;
        }
        Ok(SharedTexts { slots })
    }

    /// An equal header, whose texts are shared with those of the headers before.
    pub(crate) fn header(&mut self, alloc: Global, header: &Header) -> Result<Header, NoMemory>
        ensures { IfOk result (λ shared. shared ≡ header.now) }
    {
        Ok(Header {
            name: self.text(&header.name)?,
            flags: header.flags,
            super_name: self.optional(header.super_name.as_ref())?,
            interfaces: self.texts(alloc, header.interfaces.as_slice())?,
            fields: self.members(alloc, header.fields.as_slice())?,
            methods: self.members(alloc, header.methods.as_slice())?,
        })
    }

    // An equal text, if there is one.
    fn optional(&mut self, text: Option<&Text>) -> Result<Option<Text>, NoMemory>
        ensures { IfOk result (λ shared. shared ≡ option_copied text.entry) }
    {
        match text {
            Some(text) => Ok(Some(self.text(text)?)),
            None => Ok(None),
        }
    }

    // An equal list of members.
    fn members(&mut self, alloc: Global, members: &[Member]) -> Result<MemberList, NoMemory>
        ensures { IfOk result (λ shared. shared ≡ members.now) }
    {
        let mut shared = Vec::with_capacity(alloc, members.len())?;
        for member in members {
            shared.push(Member {
                flags: member.flags,
                name: self.text(&member.name)?,
                desc: self.text(&member.desc)?,
            })?;
        }
        Ok(ListOf::from_vec(shared))
    }

    // An equal list of texts.
    fn texts(&mut self, alloc: Global, texts: &[Text]) -> Result<TextList, NoMemory>
        ensures { IfOk result (λ shared. shared ≡ texts.now) }
    {
        let mut shared = Vec::with_capacity(alloc, texts.len())?;
        for text in texts {
            shared.push(self.text(text)?)?;
        }
        Ok(ListOf::from_vec(shared))
    }

    // An equal text.
    fn text(&mut self, text: &Text) -> Result<Text, NoMemory>
        ensures { IfOk result (λ shared. shared ≡ text.now) }
    {
        let Some(slot) = self.slots.get_mut(slot_of(text.bytes())) else {
            return text.copy();
        };
        if let Some(held) = slot {
            if held.bytes() == text.bytes() {
                return held.copy();
            }
        }
        *slot = Some(text.copy()?);
        text.copy()
    }
}

// The number of the slot of a text.
fn slot_of(text: &[u8]) -> usize {
    let mut hasher = FoldHasher::default();
    hasher.write(text);
    (hasher.finish() >> (u64::BITS - SLOT_BITS)) as usize
}
