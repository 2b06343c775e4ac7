//! Throwables that the machine makes (JVM Specification SE 8, 2.10).
ghost use Rattle.std.specs.Prelude.{◌≡◌, IfOk};
ghost use Rattle.member_link.specs.Machine.Performing.{raised};
ghost use Rattle.member_link.specs.Machine.Programs.{Program};
ghost use Rattle.member_link.specs.TreePrograms.{IsProgram};
ghost use Rattle.member_link.specs.RunOps.{throwable_name};
ghost use Rattle.machine_run.specs.Outcomes.{Lands, ended, halt_of};

use crate::throw_targets::find_target;
use crate::unwinding::land;
use class_model::{NoMemory, Text, TextList};
use machine_code::Prepared;
use machine_step::{Outcome, WorldState};
use machine_values::{Shape, ValueList};
use member_link::Throwable;
use std::alloc::Global;

/// Makes a throwable of the machine, which is not counted, and throws it with the frames as they stand.
///
/// # Errors
///
/// `NoMemory` where memory runs out.
pub(crate) fn raise(
    alloc: Global,
    prepared: &mut Prepared<'_>,
    w: &mut WorldState,
    throwable: Throwable,
) -> Result<Outcome, NoMemory>
    ensures same { prepared.new ≡ prepared.old }
    ensures lands { IfOk result Lands }
    ensures raised { IfOk result (λ outcome. (P : Program) → IsProgram prepared.old P
        → ended (halt_of outcome) w.new ≡ raised P w.old (throwable_name throwable) w.old.frames) }
{
    let shape = Shape::External {
        class: name_of(alloc, throwable)?,
        also: TextList::new(alloc),
    };
    match find_target(alloc, prepared, &w.frames, Some(&shape))? {
        Some(target) => {
            let at = w.memory.allocate(shape, ValueList::new(alloc))?;
            land(alloc, prepared.tree(), w, at, target)
        }
        None => Ok(Outcome::Stuck),
    }
}

// The name of its class.
fn name_of(alloc: Global, throwable: Throwable) -> Result<Text, NoMemory>
    ensures { IfOk result (λ name. name ≡ throwable_name throwable) }
{
    match throwable {
        Throwable::NullPointer => Text::of_plain(alloc, b"java/lang/NullPointerException"),
        Throwable::Arithmetic => Text::of_plain(alloc, b"java/lang/ArithmeticException"),
        Throwable::IndexOutside => {
            Text::of_plain(alloc, b"java/lang/ArrayIndexOutOfBoundsException")
        }
        Throwable::ArrayStore => Text::of_plain(alloc, b"java/lang/ArrayStoreException"),
        Throwable::NegativeSize => Text::of_plain(alloc, b"java/lang/NegativeArraySizeException"),
        Throwable::ClassCast => Text::of_plain(alloc, b"java/lang/ClassCastException"),
        Throwable::IllegalMonitor => {
            Text::of_plain(alloc, b"java/lang/IllegalMonitorStateException")
        }
        Throwable::IllegalAccess => Text::of_plain(alloc, b"java/lang/IllegalAccessError"),
        Throwable::IncompatibleChange => {
            Text::of_plain(alloc, b"java/lang/IncompatibleClassChangeError")
        }
        Throwable::AbstractCalled => Text::of_plain(alloc, b"java/lang/AbstractMethodError"),
    }
}
