//! Linking the class files of the input with those of the library.
ghost use Rattle.std.specs.Prelude.{◌≡◌, IsTrue};
ghost use Rattle.std.specs.List.{AllByRecursion};
ghost use Rattle.class_tree.specs.Answers.{Answers};
ghost use Rattle.class_tree.specs.Headers.{IsClassFile, IsLibraryClass};
ghost use Rattle.host_tree.specs.declared.call.HostCall.{HostCall};
ghost use Rattle.host_tree.specs.Host.{SameFiles};
ghost use Rattle.member_link.specs.Linked.{link_checks};
ghost use Rattle.pea_top.specs.Inner.Linking.{link_status};
ghost use Rattle.pea_top.specs.Inner.Linking.{IsLinkedOrWhy};

use crate::progress::show_linked;
use crate::status::Status;
use class_tree::{ClassFileList, HeaderList, LinkFault, Tree, build_tree};
use host_tree::Host;
use member_link::{check_declared_links, check_next_links};
use std::alloc::Global;

/// Why class files are not linked, and their hierarchy, if they are one.
#[derive(Drop)]
pub(crate) struct LinkStop {
    pub fault: LinkFault,
    pub tree: Option<Tree>,
}

/// The hierarchy of the class files and headers, which is linked. It shows how many of its classes are.
///
/// # Errors
/// `Unlinked` with the first problem: of the hierarchy, else of the declarations and then of the references of its
/// folder's classes.
pub(crate) fn link<H: Host>(
    alloc: Global,
    host: &mut H,
    classes: ClassFileList,
    headers: HeaderList,
) -> Result<Tree, LinkStop>
    requires classes { AllByRecursion IsClassFile classes }
    requires headers { AllByRecursion IsLibraryClass headers }
    ensures linked { IsLinkedOrWhy classes headers result }
    ensures files { IsTrue H.tells → SameFiles (H.file host.old) (H.file host.new) }
    ensures printed { IsTrue H.tells → H.printed host.new ≡ H.printed host.old }
    ensures counts { (call : HostCall) → H.faults host.new call ≡ H.faults host.old call }
{
    let tree = match build_tree(alloc, classes, headers) {
        Ok(tree) => tree,
        Err(fault) => return Err(LinkStop { fault, tree: None }),
    };
    match check_links(alloc, host, &tree) {
        Ok(()) => Ok(tree),
        Err(fault) => Err(LinkStop {
            fault,
            tree: Some(tree),
        }),
    }
}

/// Checks that the folder of a hierarchy is linked, class by class, and shows how many of its classes are.
fn check_links<H: Host>(alloc: Global, host: &mut H, tree: &Tree) -> Result<(), LinkFault>
    ensures answers { Answers (link_checks tree.now) result }
    ensures files { IsTrue H.tells → SameFiles (H.file host.old) (H.file host.new) }
    ensures printed { IsTrue H.tells → H.printed host.new ≡ H.printed host.old }
    ensures counts { (call : HostCall) → H.faults host.new call ≡ H.faults host.old call }
{
    check_declared_links(alloc, tree)?;
    let of = tree.folder().len();
    for place in 0..of {
        show_linked(host, place, of);
        check_next_links(alloc, tree, place)?;
    }
    Ok(())
}

/// The status of a command whose class files are not linked.
pub(crate) fn link_status(fault: LinkFault) -> Status
    ensures { result ≡ link_status fault }
{
    match fault {
        LinkFault::Unlinked {
            class,
            member,
            rule,
        } => Status::Unlinked {
            class,
            member,
            rule,
        },
        LinkFault::NoMemory => Status::NoMemory,
    }
}
