//! Method handles of instance initialisers.
ghost use Rattle.member_link.specs.FieldConstructors.{handled};
ghost use Rattle.std.specs.Prelude.{◌≡◌, ◌++◌, ◌<◌, ℕ, List, Some, IfOk, OnOk};
ghost use Rattle.std.specs.Option.{option_copied, option_map};
ghost use Rattle.class_tree.specs.Headers.{Name, headers_of};
ghost use Rattle.field_constructors.specs.Inner.ConstructorWords.{AreHandled, handled_in, handled_of, handled_of_pool};
ghost use Rattle.member_link.specs.MemberRefs.{reference_meant};

use crate::folder_numbers::folder_number;
use class_model::{ClassFile, Const, INIT, ListOf, NoMemory, Pool, Text, TextList};
use class_tree::{Tree, a_tree_is_a_hierarchy};
use member_link::{MemberRef, member_at};
use std::alloc::Global;

/// For each class of the folder by its number, the descriptors of those of its instance initialisers that method handles of
/// the folder refer to.
pub(crate) fn handled_initialisers(alloc: Global, tree: &Tree) -> Result<Vec<TextList>, NoMemory>
    ensures { IfOk result (λ lists. AreHandled (headers_of tree.now) lists.items
        (λ class. handled_of class tree.now.folder)) }
{
    let mut lists = Vec::new(alloc);
    for _ in 0..tree.folder().len() {
        lists.push(ListOf::new(alloc))?;
    }
    add_folder(tree, &mut lists)?;
    Ok(lists)
}

// Adds what the method handles of the folder refer to.
fn add_folder(tree: &Tree, lists: &mut Vec<TextList>) -> Result<(), NoMemory>
    ensures { OnOk result ((of : Name → List (List ℕ))
        → AreHandled (headers_of tree.now) lists.old.items of
        → AreHandled (headers_of tree.now) lists.new.items
        (λ class. of class ++ handled_of class tree.now.folder)) }
{
    for class in tree.folder().as_slice() {
        add_pool(tree, &class.pool, lists)?;
    }
    Ok(())
}

// Adds what the method handles of a pool refer to.
fn add_pool(tree: &Tree, pool: &Pool, lists: &mut Vec<TextList>) -> Result<(), NoMemory>
    ensures { OnOk result ((of : Name → List (List ℕ))
        → AreHandled (headers_of tree.now) lists.old.items of
        → AreHandled (headers_of tree.now) lists.new.items
        (λ class. of class ++ handled_of_pool class pool.now pool.now)) }
{
    for index in 0..pool.count() {
        add_constant(tree, pool, pool.get(index), lists)?;
    }
    Ok(())
}

// Adds what a constant of a pool refers to, if it is a method handle of an instance initialiser.
fn add_constant(
    tree: &Tree,
    pool: &Pool,
    constant: Option<&Const>,
    lists: &mut Vec<TextList>,
) -> Result<(), NoMemory>
    ensures { OnOk result ((of : Name → List (List ℕ))
        → AreHandled (headers_of tree.now) lists.old.items of
        → AreHandled (headers_of tree.now) lists.new.items
        (λ class. of class ++ handled_in class (handled pool.now (option_copied constant.entry)))) }
{
    match handled(pool, constant) {
        Some(reference) => add_reference(tree, &reference, lists),
        None => Ok(()),
    }
}

// The member that a constant is a method handle of.
fn handled<'p>(pool: &'p Pool, constant: Option<&Const>) -> Option<MemberRef<'p>>
    ensures { option_map reference_meant result
        ≡ handled pool.now (option_copied constant.entry) }
{
    match constant {
        Some(Const::MethodHandle(_, reference)) => member_at(pool, *reference),
        _ => None,
    }
}

// Adds a member that a method handle refers to, if it is an instance initialiser of the folder.
fn add_reference(
    tree: &Tree,
    reference: &MemberRef<'_>,
    lists: &mut Vec<TextList>,
) -> Result<(), NoMemory>
    ensures { OnOk result ((of : Name → List (List ℕ))
        → AreHandled (headers_of tree.now) lists.old.items of
        → AreHandled (headers_of tree.now) lists.new.items
        (λ class. of class ++ handled_in class (Some (reference_meant reference.now)))) }
{
    a_tree_is_a_hierarchy(tree);
    if reference.name.bytes() != INIT {
        return Ok(());
    }
    let Some(number) = folder_number(tree, reference.class) else {
        return Ok(());
    };
    if number < lists.len() {
        lists[number].push(reference.desc.copy()?)?;
    }
    Ok(())
}
