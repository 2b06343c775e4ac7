//! Verifying a hierarchy.
ghost use Rattle.std.specs.Prelude.{◌≡◌, IsTrue};
ghost use Rattle.host_tree.specs.declared.call.HostCall.{HostCall};
ghost use Rattle.host_tree.specs.Host.{SameFiles};
ghost use Rattle.member_link.specs.Linked.{IsLinked};
ghost use Rattle.verify_folder.specs.Verifying.{FolderIsTyped, FolderVerifies};
ghost use Rattle.pea_top.specs.Inner.Verifying.{IsVerifiedFor, verify_status};

use crate::progress::show_verified;
use crate::status::Status;
use crate::work::Work;
use class_tree::Tree;
use host_tree::Host;
use std::alloc::Global;
use type_rules::{TypedFolder, VerifyFault};
use verify_folder::{check_next, verify_next};

/// Verifies a hierarchy, and shows how many of its classes are verified. The frames are not kept where only a line is to be printed.
pub(crate) fn verify_for<H: Host>(
    alloc: Global,
    host: &mut H,
    tree: &Tree,
    work: &Work<'_>,
) -> Result<Option<TypedFolder>, VerifyFault>
    requires { IsLinked tree.now }
    ensures verified { IsVerifiedFor tree.now work.now result }
    ensures files { IsTrue H.tells → SameFiles (H.file host.old) (H.file host.new) }
    ensures printed { IsTrue H.tells → H.printed host.new ≡ H.printed host.old }
    ensures counts { (call : HostCall) → H.faults host.new call ≡ H.faults host.old call }
{
    match work {
        Work::Print { .. } => match check_all(alloc, host, tree) {
            Ok(()) => Ok(None),
            Err(fault) => Err(fault),
        },
        Work::Optimise { .. } | Work::Plan | Work::Run { .. } | Work::Both { .. } => {
            match verify_all(alloc, host, tree) {
                Ok(typed) => Ok(Some(typed)),
                Err(fault) => Err(fault),
            }
        }
    }
}

/// Verifies a folder class by class.
fn verify_all<H: Host>(alloc: Global, host: &mut H, tree: &Tree) -> Result<TypedFolder, VerifyFault>
    requires { IsLinked tree.now }
    ensures verifies { FolderVerifies tree.now result }
    ensures files { IsTrue H.tells → SameFiles (H.file host.old) (H.file host.new) }
    ensures printed { IsTrue H.tells → H.printed host.new ≡ H.printed host.old }
    ensures counts { (call : HostCall) → H.faults host.new call ≡ H.faults host.old call }
{
    let of = tree.folder().len();
    let mut typed = TypedFolder::new(alloc);
    for place in 0..of {
        show_verified(host, place, of);
        verify_next(alloc, tree, place, &mut typed)?;
    }
    Ok(typed)
}

/// Verifies a folder class by class, and keeps no frames.
fn check_all<H: Host>(alloc: Global, host: &mut H, tree: &Tree) -> Result<(), VerifyFault>
    requires { IsLinked tree.now }
    ensures typed { FolderIsTyped tree.now result }
    ensures files { IsTrue H.tells → SameFiles (H.file host.old) (H.file host.new) }
    ensures printed { IsTrue H.tells → H.printed host.new ≡ H.printed host.old }
    ensures counts { (call : HostCall) → H.faults host.new call ≡ H.faults host.old call }
{
    let of = tree.folder().len();
    for place in 0..of {
        show_verified(host, place, of);
        check_next(alloc, tree, place)?;
    }
    Ok(())
}

/// The status of a command whose class files do not verify.
pub(crate) fn verify_status(fault: VerifyFault) -> Status
    ensures { result ≡ verify_status fault }
{
    match fault {
        VerifyFault::Unverified {
            class,
            method,
            offset,
            rule,
        } => Status::Unverified {
            class,
            method,
            offset,
            rule,
        },
        VerifyFault::NoMemory => Status::NoMemory,
    }
}
