//! Why the frames of a method are not found.
ghost use Rattle.std.specs.Prelude.{◌≡◌};
ghost use Rattle.verify_folder.specs.declared.stop.Stop.TheVariants.{NoMemory as no_memory};

use class_model::NoMemory;
use type_rules::TypeRule;

/// The first failure in a method, or want of memory.
#[derive(Clone, Copy)]
pub(crate) enum Stop {
    /// A rule fails at an offset of the code, in bytes.
    Fails { offset: u32, rule: TypeRule },
    NoMemory,
}

impl From<NoMemory> for Stop {
    ghost from_gives = { λ _ stop. stop ≡ no_memory };

    fn from(_: NoMemory) -> Self {
        Stop::NoMemory
    }
}
