//! Names of classes of the folder as texts.
ghost use Rattle.std.specs.Prelude.{◌≡◌, IfOk};
ghost use Rattle.member_link.specs.Machine.Programs.{Program, name_of_class};
ghost use Rattle.member_link.specs.TreePrograms.{IsProgram};

use class_model::{NoMemory, Text};
use class_tree::Tree;
use member_link::class_name;
use std::alloc::Global;

/// The name of the class of the folder of a number, which shares its bytes with the class; empty where there is no such class.
///
/// # Errors
///
/// `NoMemory` where memory runs out.
pub(crate) fn name_of_class(alloc: Global, tree: &Tree, class: usize) -> Result<Text, NoMemory>
    ensures { IfOk result (λ name.
        (P : Program) → IsProgram tree.now P → name ≡ name_of_class P class) }
{
    match class_name(tree, class) {
        Some(name) => name.copy(),
        None => Text::of_plain(alloc, b""),
    }
}
