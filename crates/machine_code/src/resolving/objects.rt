//! Classes of which operations make objects (JVM Specification SE 8, 6.5.new).
ghost use Rattle.std.specs.Prelude.{◌≡◌, None, IfOk};
ghost use Rattle.member_link.specs.Machine.Programs.{Program, folder_number};
ghost use Rattle.member_link.specs.TreePrograms.{IsProgram};
ghost use Rattle.member_link.specs.RunOps.{IsNewOp};

use class_model::{NoMemory, Text};
use class_tree::{Place, Tree, a_tree_is_a_hierarchy};
use machine_heap::blank_fields;
use member_link::NewOp;
use std::alloc::Global;

/// A `new` of a class, with what the fields of its objects hold at first.
///
/// # Errors
/// `NoMemory`, where memory runs out.
pub fn resolve_new(alloc: Global, tree: &Tree, class: &Text) -> Result<NewOp, NoMemory>
    ensures class { IfOk result (λ op. op.class ≡ class.now) }
    ensures resolved { IfOk result (λ op. (P : Program) → IsProgram tree.now P → IsNewOp P op) }
{
    a_tree_is_a_hierarchy(tree);
    match tree.place(class) {
        Some(Place::Folder(number)) => Ok(NewOp {
            class: class.copy()?,
            home: Some(number),
            blanks: blank_fields(alloc, tree, number)?.into_vec(),
        }),
        Some(Place::Library(_)) => new_external(alloc, class),
        None => new_external(alloc, class),
    }
}

// A `new` of a class that is none of the folder.
fn new_external(alloc: Global, class: &Text) -> Result<NewOp, NoMemory>
    ensures class { IfOk result (λ op. op.class ≡ class.now) }
    ensures resolved { IfOk result
        (λ op. (P : Program) → folder_number P class.now ≡ None → IsNewOp P op) }
{
    Ok(NewOp {
        class: class.copy()?,
        home: None,
        blanks: Vec::new(alloc),
    })
}
