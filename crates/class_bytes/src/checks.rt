//! One check at a place.
ghost use Rattle.std.specs.Prelude.{◌≡◌, [], ◌∷◌, Some, IsSome, IsTrue};
ghost use Rattle.class_model.specs.Answers.{Tells};
ghost use Rattle.class_model.specs.Checks.{check};
ghost use Rattle.class_model.specs.PoolChecks.{utf8_at};
ghost use Rattle.class_model.specs.declared.fault.FileRule.TheVariants as rules;

use class_model::{ClassFault, FileRule, Pool, Text};

/// Asks that a test holds, which is at this place.
pub(crate) fn ask(holds: bool, at: u64, rule: FileRule) -> Result<(), ClassFault>
    ensures { Tells (check at rule (IsTrue holds) ∷ []) (λ done. Unit {0}) result }
{
    if holds {
        Ok(())
    } else {
        Err(ClassFault::Malformed { at, rule })
    }
}

/// Asks that an index, which is at this place, names a Utf8 constant, and answers its text.
pub(crate) fn ask_text(pool: &Pool, index: u16, at: u64) -> Result<&Text, ClassFault>
    ensures { Tells (check at rules.Index (IsSome (utf8_at pool.now index)) ∷ [])
        (λ text. utf8_at pool.now index ≡ Some text.now) result }
{
    match pool.utf8(index) {
        Some(text) => Ok(text),
        None => Err(ClassFault::Malformed {
            at,
            rule: FileRule::Index,
        }),
    }
}
