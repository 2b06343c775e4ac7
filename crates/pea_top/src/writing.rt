//! Writing the output.
ghost use Rattle.std.specs.Prelude.{◌≡◌, List, map, IsTrue, OnOk, OnErr, IsErrOf};
ghost use Rattle.host_tree.specs.declared.call.HostCall.{HostCall};
ghost use Rattle.host_tree.specs.Counts.{CountsOnly, Rose};
ghost use Rattle.pea_top.specs.Inner.Writing.{Puts, PutsSome};

use crate::folder::NamedFile;
use host_tree::{Host, HostFail};
use std::alloc::Global;

/// Writes files under a root, in their order, up to the first that fails.
pub(crate) fn write_files<H: Host>(
    alloc: Global,
    host: &mut H,
    root: &str,
    files: &[NamedFile],
) -> Result<(), HostFail>
    ensures ok { IsTrue H.tells
        → OnOk result (Puts root.now files.now (H.file host.old) (H.file host.new)) }
    ensures err { IsTrue H.tells
        → OnErr result (PutsSome root.now files.now (H.file host.old) (H.file host.new)) }
    ensures printed { IsTrue H.tells → H.printed host.new ≡ H.printed host.old }
    ensures counts { CountsOnly HostCall.Write (H.faults host.old) (H.faults host.new) }
    ensures failed { IsErrOf result HostFail.Failed
        → Rose (H.faults host.old HostCall.Write) (H.faults host.new HostCall.Write) }
    ensures not_absent { ¬ IsErrOf result HostFail.Absent }
{
    for file in files {
        host.write(alloc, root, file.name.as_str(), file.bytes.as_slice())?;
    }
    Ok(())
}
