//! Fields by the class that declares them (JVM Specification SE 8, 4.5).
ghost use Rattle.std.specs.Prelude.{◌≡◌};
ghost use Rattle.member_link.specs.Machine.Layouts.{capped, slot_number};
ghost use Rattle.member_link.specs.Machine.Programs.{Program, name_of_class};
ghost use Rattle.member_link.specs.TreePrograms.{IsProgram};

use class_tree::{Tree, a_tree_is_a_hierarchy};
use member_link::{Reference, class_name, slot_number};

/// The number of a field among those of an object of the class of the folder of a number, or `usize::MAX` where it is as great or
/// greater. It does not allocate, and goes up the superclasses of the class.
pub(crate) fn slot_in_class(tree: &Tree, class: usize, field: &Reference) -> Option<usize>
    ensures { (P : Program) → IsProgram tree.now P
        → result ≡ capped usize.MAX (slot_number P (name_of_class P class) field.now) }
{
    a_tree_is_a_hierarchy(tree);
    match class_name(tree, class) {
        Some(name) => slot_number(tree, tree.place(name), field),
        None => slot_number(tree, tree.find(b""), field),
    }
}
