//! Guesses at the numbers of classes, by name.
use class_model::NoMemory;
use std::alloc::Global;
use std::hash::{FoldHasher, Hasher};

/// The numbers of classes in a table by a hash of their names. What it answers is a guess, of which nothing is proved:
/// whoever asks looks at the class of that number, and searches where it is another.
pub(crate) struct NameGuesses {
    // how many of the slots a hash leads to
    homes: usize,
    slots: Vec<Slot>,
}

// Written out: a derived drop would be spelled out, field by field, in each function that drops one, and be proved there.
impl Drop for NameGuesses {
    fn drop(self) {
        let NameGuesses { homes: _, slots: _ } = self;
    }
}

// The number of a class and a part of the hash of its name, or FREE.
#[derive(Clone, Copy)]
struct Slot {
    tag: u32,
    number: u32,
}

const FREE: u32 = u32::MAX;

// How many slots are looked at from the one on that a hash leads to.
const TRIES: usize = 8;

impl NameGuesses {
    /// No number yet, and room for those of so many classes.
    pub(crate) fn new(alloc: Global, count: usize) -> Result<Self, NoMemory> {
        let homes = count.saturating_mul(2);
        let free = Slot {
            tag: 0,
            number: FREE,
        };
        let slots = vec![in alloc; free; homes.saturating_add(TRIES)]?;
        Ok(NameGuesses { homes, slots })
    }

    /// Adds the number of the class of a name, where there is room near its hash.
    pub(crate) fn add(&mut self, name: &[u8], number: usize) {
        let Ok(number) = u32::try_from(number) else {
            return;
        };
        let (home, tag) = self.home(name);
        for step in 0..TRIES {
            if let Some(slot) = self.slots.get_mut(home.wrapping_add(step)) {
                if slot.number == FREE {
                    *slot = Slot { tag, number };
                    return;
                }
            }
        }
    }

    /// A guess at the number of the class of a name.
    pub(crate) fn get(&self, name: &[u8]) -> Option<usize> {
        let (home, tag) = self.home(name);
        for step in 0..TRIES {
            let slot = self.slots.get(home.wrapping_add(step))?;
            if slot.number == FREE {
                return None;
            }
            if slot.tag == tag {
                return Some(slot.number as usize);
            }
        }
        None
    }

    // The slot that the low half of the hash of a name leads to, and the high half.
    fn home(&self, name: &[u8]) -> (usize, u32) {
        let mut hasher = FoldHasher::default();
        hasher.write(name);
        let hash = hasher.finish();
        let home = (hash & 0xFFFF_FFFF).wrapping_mul(self.homes as u64) >> 32;
        (home as usize, (hash >> 32) as u32)
    }
}
