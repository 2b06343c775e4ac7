//! What calls run (JVM Specification SE 8, 6.5 on the instructions of calls).
ghost use Rattle.std.specs.Prelude.{◌≡◌, List, IfOk, Some, true, false};
ghost use Rattle.std.specs.Option.{option_copied};
ghost use Rattle.class_model.specs.Members.{STATIC};
ghost use Rattle.class_tree.specs.Headers.{headers_of};
ghost use Rattle.class_tree.specs.Order as order;
ghost use Rattle.machine_values.specs.declared.value.Value.{Value};
ghost use Rattle.member_link.specs.DeclaredMembers.{Declared, declared_by, own_method};
ghost use Rattle.member_link.specs.Found.{AreSame, IsChoice, IsMethodFound};
ghost use Rattle.member_link.specs.Machine.CallSteps.{run_call, run_chosen};
ghost use Rattle.member_link.specs.Machine.Links.{chosen_by, reference_to};
ghost use Rattle.member_link.specs.Machine.Programs.{Program, has_flag, method_of, name_of_class};
ghost use Rattle.member_link.specs.Machine.Worlds.{Memory};
ghost use Rattle.member_link.specs.Selection.{Choice};
ghost use Rattle.member_link.specs.RunOps.{called, is_nothing};
ghost use Rattle.member_link.specs.TreePrograms.{IsProgram};

use crate::found::Found;
use crate::laws::a_selection_chooses_one;
use crate::own;
use crate::questions::classes::class_name;
use crate::questions::methods::{has_code, place_of_method};
use crate::reference::Reference;
use crate::run_op::{Callee, Throwable};
use crate::selection::{CallForm, Selected, select};
use class_model::{ACC_STATIC, INIT, Member, MethodAt, NoMemory, Text, has};
use class_tree::{Tree, a_tree_is_a_hierarchy};
use std::alloc::Global;

/// What a call of a method runs: the method, if it is one of the folder with code; else the library is asked for it. It does not
/// allocate.
pub fn run_call(tree: &Tree, method: Reference) -> Callee
    ensures something { is_nothing result ≡ false }
    ensures runs { (P : Program) (memory : Memory) (values : List Value) → IsProgram tree.now P
        → run_call P method values ≡ called memory result values }
{
    match place_of_method(tree, &method) {
        Some(at) => {
            if has_code(tree, at) {
                Callee::Runs(at)
            } else {
                Callee::Asks(method)
            }
        }
        None => Callee::Asks(method),
    }
}

/// What a call runs by what selection answers.
///
/// # Errors
/// `NoMemory`, where memory runs out.
pub(crate) fn run_chosen(tree: &Tree, selected: Selected) -> Result<Callee, NoMemory>
    requires { (choice : Choice) × IsChoice (headers_of tree.now) selected choice }
    ensures something { IfOk result (λ callee. is_nothing callee ≡ false) }
    ensures runs { IfOk result (λ callee. (choice : Choice) (P : Program) (memory : Memory)
        (values : List Value)
        → IsChoice (headers_of tree.now) selected choice
        → IsProgram tree.now P
        → run_chosen P (chosen_by choice) values ≡ called memory callee values) }
{
    match selected {
        Selected::Found(found) => run_found(tree, found),
        Selected::Abstract => Ok(Callee::Raises(Throwable::AbstractCalled)),
        Selected::Twice => Ok(Callee::Raises(Throwable::IncompatibleChange)),
        Selected::NotPublic => Ok(Callee::Raises(Throwable::IllegalAccess)),
    }
}

/// What a call of a method that is found runs.
///
/// # Errors
/// `NoMemory`, where memory runs out.
pub(crate) fn run_found(tree: &Tree, found: Found) -> Result<Callee, NoMemory>
    requires { (method : Declared) × IsMethodFound (headers_of tree.now) found method }
    ensures something { IfOk result (λ callee. is_nothing callee ≡ false) }
    ensures runs { IfOk result (λ callee. (method : Declared) (P : Program) (memory : Memory)
        (values : List Value)
        → IsMethodFound (headers_of tree.now) found method
        → IsProgram tree.now P
        → run_call P (reference_to method) values ≡ called memory callee values) }
{
    Ok(run_call(tree, method_found(tree, found)?))
}

/// A method that is found, by the class that declares it.
///
/// # Errors
/// `NoMemory`, where memory runs out.
pub fn method_found(tree: &Tree, found: Found) -> Result<Reference, NoMemory>
    requires { (method : Declared) × IsMethodFound (headers_of tree.now) found method }
    ensures { IfOk result (λ reference. (method : Declared)
        → IsMethodFound (headers_of tree.now) found method
        → reference ≡ reference_to method) }
{
    let Some(header) = tree.header(found.place) else {
        unreachable!()
    };
    let Some(member) = header.methods.get(found.member) else {
        unreachable!()
    };
    reference_to(&header.name, member)
}

/// A member by the class that declares it.
///
/// # Errors
/// `NoMemory`, where memory runs out.
pub fn reference_to(class: &Text, member: &Member) -> Result<Reference, NoMemory>
    ensures { IfOk result (λ reference. reference ≡ reference_to (declared_by class.now member.now)) }
{
    Ok(Reference {
        class: class.copy()?,
        name: member.name.copy()?,
        desc: member.desc.copy()?,
    })
}

/// What a call of a method runs on an object of a class, by the form of the call; for a special one, by the class at which its selection
/// starts. The method is not static: of one that is, nothing is said.
///
/// # Errors
/// `NoMemory`, where memory runs out.
pub fn run_selected(
    tree: &Tree,
    receiver: &Text,
    method: &Reference,
    form: CallForm,
) -> Result<Callee, NoMemory>
    ensures something { IfOk result (λ callee. is_nothing callee ≡ false) }
    ensures runs { IfOk result (λ callee. (P : Program) (memory : Memory) (values : List Value)
        → IsProgram tree.now P
        → has_flag (method_of P method.now) STATIC ≡ false
        → run_chosen P (P.links.select receiver.now method.now form) values
        ≡ called memory callee values) }
{
    a_selection_chooses_one();
    if method.name.bytes() == INIT {
        return Ok(Callee::Raises(Throwable::AbstractCalled));
    }
    match own_method(tree, &method.class, &method.name, &method.desc) {
        Some(found) => {
            if has(found.flags, ACC_STATIC) {
                Ok(Callee::Raises(Throwable::AbstractCalled))
            } else {
                run_chosen(tree, select(tree, receiver, found, form))
            }
        }
        None => Ok(Callee::Raises(Throwable::AbstractCalled)),
    }
}

/// What a call of a method runs on an object of the class of the folder of a number. The method is not static: of one that is,
/// nothing is said.
///
/// # Errors
/// `NoMemory`, where memory runs out.
pub fn callee_of(
    alloc: Global,
    tree: &Tree,
    class: usize,
    method: &Reference,
    form: CallForm,
) -> Result<Callee, NoMemory>
    ensures something { IfOk result (λ callee. is_nothing callee ≡ false) }
    ensures runs { IfOk result (λ callee. (P : Program) (memory : Memory) (values : List Value)
        → IsProgram tree.now P
        → has_flag (method_of P method.now) STATIC ≡ false
        → run_chosen P (P.links.select (name_of_class P class) method.now form) values
        ≡ called memory callee values) }
{
    match class_name(tree, class) {
        Some(receiver) => run_selected(tree, receiver, method, form),
        None => {
            let no_name = Text::of_plain(alloc, &[])?;
            run_selected(tree, &no_name, method, form)
        }
    }
}

// The method of a name and descriptor that the class of a name declares itself.
fn own_method(tree: &Tree, class: &Text, name: &Text, desc: &Text) -> Option<Found>
    ensures { AreSame (IsMethodFound (headers_of tree.now)) result
        (own_method (headers_of tree.now) class.now name.now desc.now) }
{
    a_tree_is_a_hierarchy(tree);
    let place = tree.place(class)?;
    own::own_method(tree, place, name, desc)
}
