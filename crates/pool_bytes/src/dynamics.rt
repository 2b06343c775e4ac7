//! Dynamic calls name bootstrap methods (JVM Specification SE 8, 4.4.10).
ghost use Rattle.std.specs.Prelude.{◌≡◌, ◌≢◌, ◌+◌, ◌<◌, ◌^◌, length, Err};
ghost use Rattle.std.specs.List.{flat_map};
ghost use Rattle.class_model.specs.Answers.{Answers};
ghost use Rattle.class_model.specs.ClassOf.{bootstrap_index_checks};
ghost use Rattle.class_model.specs.Spelling.{entry_bytes};
ghost use Rattle.pool_bytes.specs.Inner.Dynamics.{constant_bootstrap_checks};

use crate::raw::{RawConst, RawForm, RawPool};
use class_model::{ClassFault, Const, FileRule};

impl RawPool<'_> {
    /// Checks that each InvokeDynamic constant names one of so many bootstrap methods; the first constant
    /// stands at this place. It takes no memory.
    ///
    /// # Errors
    /// `Malformed` with `Index` at the tag of the first that does not.
    pub fn check_dynamics(&self, count: usize, at: u64) -> Result<(), ClassFault>
        requires { at + length (flat_map entry_bytes self.now) < 2 ^ 64 }
        ensures told { Answers (bootstrap_index_checks count at self.now) result }
        ensures memory { result ≢ Err ClassFault.NoMemory }
    {
        let mut place = at;
        for index in 1..self.count() {
            if let Some(constant) = self.get(index) {
                check_bootstrap(constant, count, place)?;
                place += constant.byte_len();
            }
        }
        Ok(())
    }
}

fn check_bootstrap(constant: &RawConst<'_>, count: usize, at: u64) -> Result<(), ClassFault>
    ensures told { Answers (constant_bootstrap_checks count at constant.now) result }
    ensures memory { result ≢ Err ClassFault.NoMemory }
{
    match constant.form() {
        RawForm::Constant(Const::InvokeDynamic(bootstrap, _)) if usize::from(*bootstrap) >= count =>
            {
                Err(ClassFault::Malformed {
                    at,
                    rule: FileRule::Index,
                })
            }
        _ => Ok(()),
    }
}
