//! Marks of numbers.
ghost use Rattle.std.specs.Prelude.{◌≡◌, IfOk, OnOk, false, get_or, replicate};
ghost use Rattle.class_rewrite.specs.Inner.Marking.{Marks};

use class_model::NoMemory;
use std::alloc::Global;
use std::marker::Model;

/// Marks of the numbers below a count. Contracts see the list of them.
pub(crate) struct MarkList {
    marks: Vec<bool>,
}

// Written out: a derived drop would be spelled out, field by field, in each function that drops one, and be proved there.
impl Drop for MarkList {
    fn drop(self) {
        let MarkList { marks: _ } = self;
    }
}

impl Model for MarkList {
    ghost use Rattle.std.specs.Prelude.{Bool, List};

    ghost Value = { List Bool };

    ghost view = { λ list. list.marks.items };
}

impl MarkList {
    /// No number below the count is marked.
    pub(crate) fn new(alloc: Global, count: usize) -> Result<Self, NoMemory>
        ensures { IfOk result (λ marks. marks ≡ replicate count false) }
    {
        Ok(MarkList {
            marks: vec![in alloc; false; count]?,
        })
    }

    /// Marks a number, if it is below the count.
    pub(crate) fn mark(&mut self, number: usize)
        ensures { Marks (λ other. other ≡ number) self.old self.new }
    {
        if number < self.marks.len() {
            self.marks[number] = true;
        }
    }

    /// Whether a number is marked.
    pub(crate) fn has(&self, number: usize) -> bool
        ensures { result ≡ get_or self.now number false }
    {
        number < self.marks.len() && self.marks[number]
    }
}
