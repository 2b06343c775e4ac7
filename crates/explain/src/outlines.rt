//! What is kept of a library for explanations.
use class_model::{Header, NoMemory, Text};
use std::alloc::Global;

/// The names of a library's classes, and of the classes that each is directly below.
#[derive(Drop)]
pub struct Outlines {
    pub(crate) classes: Vec<Text>,
    pub(crate) supers: Vec<SuperName>,
}

/// A class, and one that it names as its superclass or as an interface.
#[derive(Drop)]
pub(crate) struct SuperName {
    pub class: Text,
    pub above: Text,
}

impl Outlines {
    /// The outlines of classes with these headers, which share their texts.
    pub fn of(alloc: Global, headers: &[Header]) -> Result<Outlines, NoMemory> {
        let mut outlines = Outlines {
            classes: Vec::with_capacity(alloc, headers.len())?,
            supers: Vec::new(alloc),
        };
        for header in headers {
            outlines.classes.push(header.name.copy()?)?;
            outlines.push_supers(header)?;
        }
        Ok(outlines)
    }

    // Appends what a class is directly below.
    fn push_supers(&mut self, header: &Header) -> Result<(), NoMemory> {
        if let Some(above) = &header.super_name {
            self.push_super(&header.name, above)?;
        }
        for above in header.interfaces.as_slice() {
            self.push_super(&header.name, above)?;
        }
        Ok(())
    }

    fn push_super(&mut self, class: &Text, above: &Text) -> Result<(), NoMemory> {
        self.supers.push(SuperName {
            class: class.copy()?,
            above: above.copy()?,
        })?;
        Ok(())
    }

    /// Whether it has a class of this name.
    pub(crate) fn has(&self, name: &[u8]) -> bool {
        self.copies(name) > 0
    }

    /// How many classes of this name it has.
    pub(crate) fn copies(&self, name: &[u8]) -> u64 {
        let mut count: u64 = 0;
        for class in self.classes.as_slice() {
            if class.bytes() == name {
                count = count.saturating_add(1);
            }
        }
        count
    }
}
