//! What was found of methods.
ghost use Rattle.std.specs.Prelude.{◌≡◌, ◌↔◌, true, Some, None, IsTrue, OnOk, OnErr};
ghost use Rattle.class_model.specs.declared.class_file.MethodAt.{MethodAt as Method};
ghost use Rattle.inline_expand.specs.Inner.Verdicts.{AreSame, Judges, verdict};

use class_model::{MethodAt, NoMemory};
use std::alloc::Global;
use std::collections::HashMap;

/// Of some methods, whether they are ready.
pub(crate) struct Verdicts {
    by_method: HashMap<(usize, usize), bool>,
}

// Written out: a derived drop would be spelled out, field by field, in each function that drops one, and be proved there.
impl Drop for Verdicts {
    fn drop(self) {
        let Verdicts { by_method: _ } = self;
    }
}

impl Verdicts {
    /// Of no method.
    pub(crate) fn new(alloc: Global) -> Self
        ensures { (at : Method) → verdict result at ≡ None }
    {
        Verdicts {
            by_method: HashMap::new(alloc),
        }
    }

    /// That of a method, if there is one.
    pub(crate) fn of(&self, at: MethodAt) -> Option<bool>
        ensures { result ≡ verdict self.now at }
    {
        self.by_method.get(&(at.class, at.method)).copied()
    }

    /// Whether a method is known to be ready.
    pub(crate) fn has_ready(&self, at: MethodAt) -> bool
        ensures { IsTrue result ↔ (verdict self.now at ≡ Some true) }
    {
        matches!(self.of(at), Some(true))
    }

    /// Judges a method.
    pub(crate) fn judge(&mut self, at: MethodAt, is_ready: bool) -> Result<(), NoMemory>
        ensures ok { OnOk result (Judges self.old self.new at is_ready) }
        ensures err { OnErr result (AreSame self.old self.new) }
    {
        self.by_method.insert((at.class, at.method), is_ready)?;
        Ok(())
    }
}
