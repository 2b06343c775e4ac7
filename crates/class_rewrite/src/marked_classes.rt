//! The classes of a folder whose objects are made, and those of their chains.
ghost use Rattle.std.specs.Prelude.{◌≡◌, ◌∷◌, [], Some, IfOk, OnOk, length};
ghost use Rattle.class_rewrite.specs.Inner.Marking.{AreMarked, IsMarked, IsNamed, Marks, StandsInChain, StandsInChains, but_object};
ghost use Rattle.class_tree.specs.Headers.{headers_of};
ghost use Rattle.class_tree.specs.Order.{place_of};
ghost use Rattle.class_tree.specs.declared.place.Place.TheVariants.{Folder};

use crate::marks::MarkList;
use class_model::{NoMemory, Text};
use class_tree::{OBJECT, Place, Tree, a_tree_is_a_hierarchy, chain};
use std::alloc::Global;

/// The classes of the folder that have one of these names.
pub(crate) fn named_classes(
    alloc: Global,
    tree: &Tree,
    names: &[Text],
) -> Result<MarkList, NoMemory>
    ensures { IfOk result
        (AreMarked (length tree.now.folder) (IsNamed (headers_of tree.now) names.now)) }
{
    let mut marks = MarkList::new(alloc, tree.folder().len())?;
    mark_named(tree, names, &mut marks);
    Ok(marks)
}

/// The classes of the folder that stand in the chain of one of these classes.
pub(crate) fn classes_of_chains(
    alloc: Global,
    tree: &Tree,
    classes: &MarkList,
) -> Result<MarkList, NoMemory>
    ensures { IfOk result
        (AreMarked (length tree.now.folder)
        (StandsInChains (headers_of tree.now) classes.now (length tree.now.folder))) }
{
    let mut marks = MarkList::new(alloc, tree.folder().len())?;
    for class in 0..tree.folder().len() {
        mark_chain_of(alloc, tree, classes, class, &mut marks)?;
    }
    Ok(marks)
}

// Marks the classes of a chain, if its class is marked among others.
fn mark_chain_of(
    alloc: Global,
    tree: &Tree,
    classes: &MarkList,
    class: usize,
    marks: &mut MarkList,
) -> Result<(), NoMemory>
    ensures { OnOk result (Marks
        (λ number. IsMarked classes.now class × StandsInChain (headers_of tree.now) class number)
        marks.old marks.new) }
{
    if classes.has(class) {
        mark_chain(alloc, tree, class, marks)?;
    }
    Ok(())
}

// Marks the classes of a chain.
fn mark_chain(
    alloc: Global,
    tree: &Tree,
    class: usize,
    marks: &mut MarkList,
) -> Result<(), NoMemory>
    ensures { OnOk result (Marks (StandsInChain (headers_of tree.now) class) marks.old marks.new) }
{
    a_tree_is_a_hierarchy(tree);
    let Some(header) = tree.header(Place::Folder(class)) else {
        return Ok(());
    };
    let names = chain(alloc, tree, &header.name)?;
    mark_but_object(tree, names.as_slice(), marks);
    Ok(())
}

// Marks the classes of these names but java/lang/Object.
fn mark_but_object(tree: &Tree, names: &[Text], marks: &mut MarkList)
    ensures { Marks (IsNamed (headers_of tree.now) (but_object names.now)) marks.old marks.new }
{
    for name in names {
        mark_other(tree, name, marks);
    }
}

// Marks the class of a name, if that is not java/lang/Object.
fn mark_other(tree: &Tree, name: &Text, marks: &mut MarkList)
    ensures { Marks (IsNamed (headers_of tree.now) (but_object (name.now ∷ []))) marks.old marks.new }
{
    if name.bytes() != OBJECT {
        mark_class(tree, name, marks);
    }
}

// Marks the classes of these names.
fn mark_named(tree: &Tree, names: &[Text], marks: &mut MarkList)
    ensures { Marks (IsNamed (headers_of tree.now) names.now) marks.old marks.new }
{
    for name in names {
        mark_class(tree, name, marks);
    }
}

// Marks the class of a name, if it is of the folder.
fn mark_class(tree: &Tree, name: &Text, marks: &mut MarkList)
    ensures { Marks (λ number. place_of (headers_of tree.now) name.now ≡ Some (Folder number))
        marks.old marks.new }
{
    if let Some(Place::Folder(number)) = tree.place(name) {
        marks.mark(number);
    }
}
