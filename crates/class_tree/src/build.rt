//! Building a hierarchy.
ghost use Rattle.std.specs.Prelude.{◌≡◌, map};
ghost use Rattle.std.specs.List.{AllByRecursion};
ghost use Rattle.class_model.specs.Header.{header_of};
ghost use Rattle.class_tree.specs.Headers.{IsClassFile, IsLibraryClass};
ghost use Rattle.class_tree.specs.Inner.Nodes.{IsLinksOf};
ghost use Rattle.class_tree.specs.Trees.{AreHeadersInOrder, IsInOrder, IsTreeOf};

use crate::arrange::{add_library, first_duplicate, headers_of, sort_folder, sort_library};
use crate::base::check_base;
use crate::fault::{LinkFault, LinkRule};
use crate::graph::supers_graph;
use crate::guesses::NameGuesses;
use crate::headers::Headers;
use crate::hierarchy::check_hierarchy;
use crate::interfaces::interface_lists;
use crate::links::Links;
use crate::members::{MemberKind, member_indexes};
use crate::order::topological;
use crate::question::ask;
use crate::super_places::super_places;
use crate::tree::{ClassFileList, HeaderList, Tree};
use class_model::{ClassFile, Header};
use std::alloc::Global;

/// The hierarchy of a folder's class files and of its library's headers, in any order (JVM Specification SE 8, 5.3.5).
///
/// # Errors
/// `Unlinked` with the first problem: the first name that stands twice; then class by class, those of the folder first, a
/// class above it that is not there, a class of the library below one of the folder, a class above itself, a final
/// superclass, a superclass or interface of the wrong kind; and then, where the folder has a class, what the machine
/// needs of the library. `NoMemory`, where memory runs out.
pub fn build_tree(
    alloc: Global,
    folder: ClassFileList,
    library: HeaderList,
) -> Result<Tree, LinkFault>
    requires folder { AllByRecursion IsClassFile folder }
    requires library { AllByRecursion IsLibraryClass library }
    ensures { IsTreeOf folder library result }
{
    let folder = sort_folder(alloc, folder)?;
    let library = sort_library(alloc, library)?;
    let mut guesses = NameGuesses::new(alloc, folder.len().saturating_add(library.len()))?;
    let headers = headers_of(alloc, folder.as_slice(), &mut guesses)?;
    add_library(&mut guesses, headers.len(), library.as_slice());
    let links = link(
        alloc,
        folder.as_slice(),
        &headers,
        library.as_slice(),
        &guesses,
    )?;
    Ok(Tree {
        folder,
        library,
        headers,
        guesses,
        links,
    })
}

// Asks classes in byte order of their names all that a hierarchy is asked, and links them.
fn link(
    alloc: Global,
    folder: &[ClassFile],
    headers: &[Header],
    library: &[Header],
    guesses: &NameGuesses,
) -> Result<Links, LinkFault>
    requires headers { headers.now ≡ map header_of folder.now }
    requires folder { AllByRecursion IsClassFile folder.now }
    requires library { AllByRecursion IsLibraryClass library.now }
    requires folder_sorted { AreHeadersInOrder headers.now }
    requires library_sorted { AreHeadersInOrder library.now }
    ensures { IsLinksOf (record { folder = folder.now; library = library.now }) headers.now result }
{
    let all = Headers::new(headers, library, guesses);
    if let Some(name) = first_duplicate(&all) {
        ask(alloc, false, name, LinkRule::Duplicate)?;
    }
    link_in_order(alloc, folder, &all)
}

// The same, where no name stands twice.
fn link_in_order(
    alloc: Global,
    folder: &[ClassFile],
    headers: &Headers<'_>,
) -> Result<Links, LinkFault>
    requires headers { headers.now.folder ≡ map header_of folder.now }
    requires folder { AllByRecursion IsClassFile folder.now }
    requires library { AllByRecursion IsLibraryClass headers.now.library }
    requires in_order { IsInOrder headers.now }
    ensures { IsLinksOf (record { folder = folder.now; library = headers.now.library })
        headers.now.folder result }
{
    let graph = supers_graph(alloc, headers)?;
    let order = topological(alloc, &graph)?;
    let order = order.as_slice();
    check_hierarchy(alloc, headers, &graph, order)?;
    if !folder.is_empty() {
        check_base(alloc, folder, headers, &graph)?;
    }
    let superclasses = super_places(alloc, headers, &graph)?;
    let interfaces = interface_lists(alloc, headers, &graph, order)?;
    let fields = member_indexes(alloc, headers, MemberKind::Field)?;
    let methods = member_indexes(alloc, headers, MemberKind::Method)?;
    Ok(Links {
        superclasses,
        interfaces,
        fields,
        methods,
    })
}
