//! What the flags and the names of methods say (JVM Specification SE 8, 4.6).
ghost use Rattle.std.specs.Prelude.{◌≡◌, option_map};
ghost use Rattle.std.specs.Option.{option_copied};
ghost use Rattle.member_link.specs.Machine.Programs.{Program, RunMethod, run_method};
ghost use Rattle.machine_code.specs.Inner.QuestionWords.{locks_by};
ghost use Rattle.member_link.specs.Inner.QuestionWords.{member_run};
ghost use Rattle.machine_code.specs.Prepared.{HasTraits, IsTraitsOf};
ghost use Rattle.member_link.specs.TreePrograms.{IsProgram};

use crate::prepared_method::{Locks, MethodTraits};
use class_model::{ACC_STATIC, CLINIT, Member, MethodAt, has};
use class_tree::{Place, Tree};

// The flag of a synchronized method.
const ACC_SYNCHRONIZED: u16 = 0x0020;

/// What the flags and the name of a method of the folder say; none where there is no such method. It does not allocate.
pub fn method_traits(tree: &Tree, at: MethodAt) -> Option<MethodTraits>
    ensures { (P : Program) → IsProgram tree.now P → IsTraitsOf P at result }
{
    match method_member(tree, at) {
        Some(member) => Some(traits_of(member)),
        None => None,
    }
}

// The member that a method of the folder is.
fn method_member(tree: &Tree, at: MethodAt) -> Option<&Member>
    ensures { (P : Program) → IsProgram tree.now P
        → option_copied result ≡ option_map member_run (run_method P at) }
{
    let header = tree.header(Place::Folder(at.class))?;
    header.methods.get(at.method)
}

// What the flags and the name of a member say.
fn traits_of(member: &Member) -> MethodTraits
    ensures { (method : RunMethod) → method.member ≡ member.now → HasTraits method result }
{
    let is_initialiser = member.name.bytes() == CLINIT;
    let is_static = has(member.flags, ACC_STATIC);
    let is_synchronized = has(member.flags, ACC_SYNCHRONIZED) && !is_initialiser;
    MethodTraits {
        locks: locks_of(is_synchronized, is_static),
        is_initialiser,
        is_static,
    }
}

// Which monitor a method enters.
fn locks_of(is_synchronized: bool, is_static: bool) -> Locks
    ensures { result ≡ locks_by is_synchronized is_static }
{
    if !is_synchronized {
        Locks::None
    } else if is_static {
        Locks::Class
    } else {
        Locks::Receiver
    }
}
