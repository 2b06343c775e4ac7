//! Generated work, as files.
ghost use Rattle.std.specs.List.{AllByRecursion};
ghost use Rattle.class_bytes.specs.Counts.{FitsCounts};

use crate::base_library::put_class;
use class_model::ClassFile;
use host_tree::MemoryHost;
use std::alloc::Global;
use work_gen::generate;

/// Puts the class files of so many generated methods, by draws from a number, into a root, and their script under the root without a name, as
/// `generated.txt`. None where a number is too large or memory runs out.
pub(crate) fn put_generated(
    alloc: Global,
    host: &mut MemoryHost,
    root: &str,
    number: u32,
    size: u32,
) -> Option<()> {
    if number > 2_147_483_647 || size > 1000 {
        return None;
    }
    let work = generate(alloc, number, size).ok()?;
    let put = put_classes(alloc, host, root, work.folder.as_slice());
    let script = host.put(alloc, "", "generated.txt", work.script.as_slice());
    drop(work);
    put?;
    script.ok()
}

// Puts class files into a root, each under the name of its class.
fn put_classes(
    alloc: Global,
    host: &mut MemoryHost,
    root: &str,
    classes: &[ClassFile],
) -> Option<()>
    requires { AllByRecursion FitsCounts classes.now }
{
    match classes {
        [] => Some(()),
        [first, rest @ ..] => {
            put_class(alloc, host, root, first)?;
            put_classes(alloc, host, root, rest)
        }
    }
}
