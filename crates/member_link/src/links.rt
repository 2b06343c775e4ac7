//! Linking a folder with its library.
ghost use Rattle.std.specs.Prelude.{◌<◌, ◌+◌, length};
ghost use Rattle.class_tree.specs.Answers.{Answers};
ghost use Rattle.member_link.specs.Linked.{link_checks};
ghost use Rattle.member_link.specs.LinkedFirst.{AreFirstLinked, FirstLink};

use crate::declarations::check_declarations;
use crate::uses::check_uses;
use class_tree::{LinkFault, Tree};
use std::alloc::Global;

/// Checks that the folder of a tree is linked: first what the classes declare, and then what their methods refer to, each
/// class in byte order of names (JVM Specification SE 8, 5.4).
///
/// # Errors
/// `Unlinked` with the first problem: the class, the member, and `Missing`, `NoAccess`, `FinalOverridden`, `NoMember` or
/// `WrongForm`. `NoMemory`, where memory runs out.
pub fn check_links(alloc: Global, tree: &Tree) -> Result<(), LinkFault>
    ensures { Answers (link_checks tree.now) result }
{
    check_declared_links(alloc, tree)?;
    for place in 0..tree.folder().len() {
        check_next_links(alloc, tree, place)?;
    }
    Ok(())
}

/// Checks what all classes of a folder declare: the first step of `check_links`, for a caller that does something else between
/// the steps.
///
/// # Errors
/// As `check_links`: the first problem of the folder is one of a declaration.
pub fn check_declared_links(alloc: Global, tree: &Tree) -> Result<(), LinkFault>
    ensures { FirstLink tree.now 0 result }
{
    check_declarations(alloc, tree)
}

/// Checks what the methods of one class of a folder refer to, behind those of the classes before it: a step of `check_links`.
///
/// # Errors
/// As `check_links`: the first problem of the folder is in this class.
pub fn check_next_links(alloc: Global, tree: &Tree, place: usize) -> Result<(), LinkFault>
    requires within { place < length tree.now.folder }
    requires linked { AreFirstLinked tree.now place }
    ensures { FirstLink tree.now (place + 1) result }
{
    check_uses(alloc, tree, place)
}
