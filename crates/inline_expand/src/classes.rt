//! Classes by their names and places, and what a class file says of itself.
ghost use Rattle.std.specs.Prelude.{◌≡◌, ◌↔◌, Some, IfOk, IsTrue, IsFalse};
ghost use Rattle.std.specs.Option.{option_copied};
ghost use Rattle.class_model.specs.Header.{header_of};
ghost use Rattle.class_model.specs.PoolChecks.{text_or_empty};
ghost use Rattle.class_model.specs.declared.header.Header.{Header};
ghost use Rattle.class_tree.specs.Headers.{headers_of};
ghost use Rattle.class_tree.specs.Names as names;
ghost use Rattle.class_tree.specs.Order.{header_at};
ghost use Rattle.expanded_code.specs.Callees.{IsClass};

use class_model::{ACC_INTERFACE, ClassFile, NoMemory, Text, has};
use class_tree::{Place, Tree, a_tree_is_a_hierarchy};
use std::alloc::Global;

/// The name of a class file.
///
/// # Errors
/// `NoMemory`, where memory runs out.
pub(crate) fn name_of(alloc: Global, class: &ClassFile) -> Result<Text, NoMemory>
    ensures { IfOk result (λ name. name ≡ (header_of class.now).name) }
{
    text_or_empty(alloc, class.pool.class_name(class.this_class))
}

// A text, or the empty one where there is none.
fn text_or_empty(alloc: Global, text: Option<&Text>) -> Result<Text, NoMemory>
    ensures { IfOk result (λ copy. copy ≡ text_or_empty (option_copied text.entry)) }
{
    match text {
        Some(text) => text.copy(),
        None => Text::of_plain(alloc, b""),
    }
}

/// Whether a name is that of a class that is no interface.
pub(crate) fn is_class(tree: &Tree, name: &Text) -> bool
    ensures { IsTrue result ↔ IsClass (headers_of tree.now) name.now }
{
    a_tree_is_a_hierarchy(tree);
    match tree.place(name) {
        Some(place) => is_class_at(tree, place),
        None => false,
    }
}

/// Whether the class at a place is no interface.
pub(crate) fn is_class_at(tree: &Tree, place: Place) -> bool
    ensures { (header : Header)
        → header_at (headers_of tree.now) place ≡ Some header
        → IsTrue result ↔ IsFalse (names.is_interface header) }
{
    match tree.header(place) {
        Some(header) => !has(header.flags, ACC_INTERFACE),
        None => false,
    }
}
