//! The objects that constants are.
ghost use Rattle.std.specs.Prelude.{◌≡◌, [], IfOk};
ghost use Rattle.machine_values.specs.Heaps.{class_of_constant};
ghost use Rattle.machine_values.specs.declared.object.Shape.TheVariants.{External};

use class_model::{NoMemory, Text, TextList};
use machine_values::{Constant, Object, Shape, ValueList};
use std::alloc::Global;

/// The object of a constant before its monitor is entered: one of a class of the library, without values that are known.
///
/// # Errors
///
/// `NoMemory` where memory runs out.
pub(crate) fn constant_object(alloc: Global, constant: &Constant) -> Result<Object, NoMemory>
    ensures { IfOk result (λ object. object
        ≡ record { shape = External (class_of_constant constant.now) []; values = []; monitor = 0 }) }
{
    let class = match constant {
        Constant::Str(_) => Text::of_plain(alloc, b"java/lang/String")?,
        Constant::Class(_) => Text::of_plain(alloc, b"java/lang/Class")?,
        Constant::MethodType(_) => Text::of_plain(alloc, b"java/lang/invoke/MethodType")?,
        Constant::Handle(..) => Text::of_plain(alloc, b"java/lang/invoke/MethodHandle")?,
    };
    Ok(Object {
        shape: Shape::External {
            class,
            also: TextList::new(alloc),
        },
        values: ValueList::new(alloc),
        monitor: 0,
    })
}
