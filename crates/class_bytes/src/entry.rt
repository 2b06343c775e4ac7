//! The frame that the code of a method begins with (JVM Specification SE 8, 4.10.1.6).
ghost use Rattle.std.specs.Prelude.{◌≡◌, IfOk, IfSome, IsSome};
ghost use Rattle.class_model.specs.Frames.{listed};
ghost use Rattle.class_model.specs.Methods as methods;
ghost use Rattle.class_model.specs.Methods.{IsDescriptorOf};
ghost use Rattle.class_model.specs.PoolChecks.{utf8_at};
ghost use Rattle.class_model.specs.declared.class_file.CodePart.{CodePart};
ghost use Rattle.class_bytes.specs.Inner.Cut.{home_seen, method_of};

use crate::cut::CutMember;
use crate::home::Home;
use class_model::{Frame, ListOf, NoMemory};
use code_bytes::entry_locals;
use std::alloc::Global;

/// The frame that a method's code begins with, without the locals behind `this` and the parameters: a table
/// lists the same locals behind it.
pub(crate) fn entry_frame(
    alloc: Global,
    home: &Home<'_>,
    method: &CutMember<'_>,
) -> Result<Frame, NoMemory>
    requires descriptor { IfSome (utf8_at home.now.pool.now method.now.desc)
        (IsDescriptorOf method.now.flags) }
    requires there { IsSome (utf8_at home.now.pool.now method.now.desc) }
    ensures { IfOk result (λ frame. (part : CodePart)
        → listed frame
        ≡ listed (methods.entry_of (home_seen home.now) (method_of method.now) part)) }
{
    let Some(desc) = home.pool.utf8(method.desc) else {
        unreachable!()
    };
    let locals = entry_locals(alloc, home.pool, home.name, method.flags, method.name, desc)?;
    Ok(Frame {
        locals,
        stack: ListOf::new(alloc),
    })
}
