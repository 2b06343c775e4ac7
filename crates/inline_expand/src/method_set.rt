//! Sets of methods.
ghost use Rattle.std.specs.Prelude.{◌≡◌, ◌==◌, [], ◌∷◌, length, OnOk, IfOk};
ghost use Rattle.inline_expand.specs.Inner.MethodSets.{Adds, AddsAll};

use crate::verdicts::Verdicts;
use class_model::{MethodAt, NoMemory};
use std::alloc::Global;
use std::marker::Model;

/// Methods in the order in which they were added, each once. Contracts see the list.
pub(crate) struct MethodSet {
    list: Vec<MethodAt>,
    // of each of them
    seen: Verdicts,
}

// Written out: a derived drop would be spelled out, field by field, in each function that drops one, and be proved there.
impl Drop for MethodSet {
    fn drop(self) {
        let MethodSet { list: _, seen: _ } = self;
    }
}

impl Model for MethodSet {
    ghost use Rattle.std.specs.Prelude.{List};
    ghost use Rattle.class_model.specs.declared.class_file.MethodAt.{MethodAt};

    ghost Value = { List MethodAt };

    ghost view = { λ set. set.list.items };

    ghost use Rattle.inline_expand.specs.Inner.SeenMethods.{AreAmong};

    ghost invariant = { λ set. AreAmong set.seen set.list.items };
}

impl MethodSet {
    /// No method.
    pub(crate) fn new(alloc: Global) -> Self
        ensures { result ≡ [] }
    {
        MethodSet {
            list: Vec::new(alloc),
            seen: Verdicts::new(alloc),
        }
    }

    /// One method.
    pub(crate) fn of(alloc: Global, at: MethodAt) -> Result<Self, NoMemory>
        ensures { IfOk result (λ set. Adds [] set at) }
    {
        let mut set = MethodSet::new(alloc);
        set.add(at)?;
        Ok(set)
    }

    /// The methods.
    pub(crate) fn list(&self) -> &[MethodAt]
        ensures { result.now ≡ self.now }
    {
        self.list.as_slice()
    }

    /// Whether there is none.
    pub(crate) fn is_empty(&self) -> bool
        ensures { result ≡ (length self.now == 0) }
    {
        self.list.is_empty()
    }

    // Adds a method, if it is not there.
    fn add(&mut self, at: MethodAt) -> Result<(), NoMemory>
        ensures { OnOk result (Adds self.old self.new at) }
    {
        if self.seen.of(at).is_some() {
            return Ok(());
        }
        self.list.push(at)?;
        self.seen.judge(at, true)?;
        Ok(())
    }

    /// Adds those methods that are not there.
    pub(crate) fn add_all(&mut self, methods: &[MethodAt]) -> Result<(), NoMemory>
        ensures { OnOk result (AddsAll self.old self.new methods.now) }
    {
        for at in methods {
            self.add(*at)?;
        }
        Ok(())
    }
}
