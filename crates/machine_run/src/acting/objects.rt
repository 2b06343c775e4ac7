//! Objects of classes of the library that it makes (this project's profile).
ghost use Rattle.std.specs.Prelude.{◌≡◌, not, IfOk};
ghost use Rattle.std.specs.List.{list_any};
ghost use Rattle.member_link.specs.Machine.Acting.{act_new_external};
ghost use Rattle.member_link.specs.Machine.Programs.{Program, is_interface_named};
ghost use Rattle.member_link.specs.TreePrograms.{IsProgram};
ghost use Rattle.machine_run.specs.Inner.ActingWords.{may_make};
ghost use Rattle.machine_run.specs.Outcomes.{ended, halt_behind};

use crate::acting::constructions::is_concrete;
use crate::laws::a_state_goes_on;
use class_model::{NoMemory, Text, TextList};
use class_tree::Tree;
use machine_step::{Acted, WorldState, copy_texts, show_made};
use machine_values::{Shape, ValueList};
use member_link::{folder_number, is_interface_named};
use std::alloc::Global;

/// Makes an object of a class of the library, which also implements interfaces, and shows it to the library. It is not counted.
///
/// # Errors
///
/// `NoMemory` where memory runs out.
pub(crate) fn new_external(
    alloc: Global,
    tree: &Tree,
    w: &mut WorldState,
    class: &Text,
    also: &TextList,
) -> Result<Acted, NoMemory>
    ensures acted { IfOk result (λ acted. (P : Program) → IsProgram tree.now P
        → ended (halt_behind acted) w.new ≡ act_new_external P w.old class.now also.now) }
    ensures fault { IfOk result (λ acted. acted ≡ Acted.Fault → w.new ≡ w.old) }
{
    if !may_make(tree, class, also) {
        return Ok(Acted::Fault);
    }
    let shape = Shape::External {
        class: class.copy()?,
        also: copy_texts(alloc, also.as_slice())?,
    };
    let at = w.memory.allocate(shape, ValueList::new(alloc))?;
    show_made(alloc, tree, w, at)?;
    a_state_goes_on(w);
    Ok(Acted::Done)
}

// Whether the library may make an object of a class that also implements these.
fn may_make(tree: &Tree, class: &Text, also: &TextList) -> bool
    ensures { (P : Program) → IsProgram tree.now P → result ≡ may_make P class.now also.now }
{
    folder_number(tree, class).is_none()
        && (is_concrete(tree, class) && are_interfaces(tree, also.as_slice()))
}

// Whether each is an interface.
fn are_interfaces(tree: &Tree, names: &[Text]) -> bool
    ensures { (P : Program) → IsProgram tree.now P
        → result ≡ not (list_any (λ name. not (is_interface_named P name)) names.now) }
{
    let mut rest = names;
    while let Some((name, more)) = rest.split_first() {
        if !is_interface_named(tree, name.bytes()) {
            return false;
        }
        rest = more;
    }
    true
}
