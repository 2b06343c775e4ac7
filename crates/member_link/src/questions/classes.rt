//! Classes of the folder by name and number, and classes by name.
ghost use Rattle.std.specs.Prelude.{◌≡◌, IsSome, IfSome, IfNone, Some, None, slice_get};
ghost use Rattle.std.specs.Option.{option_copied};
ghost use Rattle.class_tree.specs.Headers.{class_named as class_in, headers_of};
ghost use Rattle.member_link.specs.Machine.Programs.{Program, folder_number, header_named, is_interface_named, name_of_class};
ghost use Rattle.member_link.specs.TreePrograms.{IsProgram};

use class_model::{ACC_INTERFACE, Header, Text, has};
use class_tree::{Place, Tree, a_tree_is_a_hierarchy, is_subtype};

/// The number of the class of the folder of a name, counted from 0. It does not allocate.
pub fn folder_number(tree: &Tree, name: &Text) -> Option<usize>
    ensures { (P : Program) → IsProgram tree.now P → result ≡ folder_number P name.now }
{
    match tree.place(name)? {
        Place::Folder(class) => Some(class),
        Place::Library(_) => None,
    }
}

/// The name of the class of the folder of a number; none where it has no such class. It does not allocate.
pub fn class_name(tree: &Tree, class: usize) -> Option<&Text>
    ensures some { IfSome result (λ name.
        (P : Program) → IsProgram tree.now P → name.now ≡ name_of_class P class) }
    ensures there { IfSome result (λ _.
        (P : Program) → IsProgram tree.now P → IsSome (slice_get P.classes class)) }
    ensures none { IfNone result
        ((P : Program) → IsProgram tree.now P → slice_get P.classes class ≡ None) }
{
    match tree.header(Place::Folder(class)) {
        Some(header) => Some(&header.name),
        None => None,
    }
}

/// The header of the class of a name, of the folder or the library. It does not allocate.
pub fn header_named<'a>(tree: &'a Tree, name: &[u8]) -> Option<&'a Header>
    ensures { option_copied result ≡ class_in (headers_of tree.now) name.now }
{
    a_tree_is_a_hierarchy(tree);
    tree.header(tree.find(name)?)
}

/// Whether the class of a name is an interface. It does not allocate.
pub fn is_interface_named(tree: &Tree, name: &[u8]) -> bool
    ensures { (P : Program) → IsProgram tree.now P → result ≡ is_interface_named P name.now }
{
    match header_named(tree, name) {
        Some(header) => has(header.flags, ACC_INTERFACE),
        None => false,
    }
}

/// Whether a class or array is below another or is the same. It does not allocate.
pub fn is_type_below(tree: &Tree, low: &[u8], high: &[u8]) -> bool
    ensures { (P : Program) → IsProgram tree.now P
        → result ≡ P.links.below low.now high.now }
{
    is_subtype(tree, low, high)
}
