//! The method of the folder that a call runs, whatever its receiver is (JVM Specification SE 8, 6.5 on the
//! instructions of calls).
ghost use Rattle.std.specs.Prelude.{◌≡◌, ◌↔◌, ◌⊎◌, ℕ, Some, IfOk, IsTrue};
ghost use Rattle.std.specs.Option.{option_map};
ghost use Rattle.class_model.specs.Names.{init};
ghost use Rattle.class_model.specs.declared.class_file.MethodAt.{MethodAt};
ghost use Rattle.class_tree.specs.Headers.{Classes, Name, headers_of};
ghost use Rattle.class_tree.specs.Hierarchy.{IsHierarchy};
ghost use Rattle.expanded_code.specs.Callees.{Calls, IsClass};
ghost use Rattle.inline_expand.specs.Inner.Calls.{DecidesCall, DecidesRun, call_at, call_meant, called_by};
ghost use Rattle.member_link.specs.MemberRefs.{reference_meant};
ghost use Rattle.member_link.specs.Methods.{IsInLibrary, IsPolymorphic};
ghost use Rattle.member_link.specs.Scope.{Scope};

use crate::classes::{is_class, is_class_at, name_of};
use crate::folder_methods::FolderMethods;
use crate::found::folder_method;
use crate::host::Host;
use crate::overridden::is_overridden_by_none;
use class_model::opcodes::{INVOKESPECIAL, INVOKESTATIC, INVOKEVIRTUAL};
use class_model::{ACC_STATIC, INIT, Instr, MethodAt, NoMemory, Pool, Text, has};
use class_tree::{METHOD_HANDLE, Place, Tree, a_tree_is_a_hierarchy};
use member_link::{
    CallForm, MemberRef, Selected, a_look_up_finds_one_method, a_selection_chooses_one,
    a_special_call_starts_once, find_method, member_at, select, special_start,
};
use std::alloc::Global;

const INVOKE: &[u8] = b"invoke";

const INVOKE_EXACT: &[u8] = b"invokeExact";

/// A call: its opcode, and the method that it names.
#[derive(Clone, Copy)]
pub(crate) struct Call<'a> {
    pub(crate) opcode: u8,
    pub(crate) reference: MemberRef<'a>,
}

/// The method of the folder that the call at an offset of a method runs, whatever its receiver is; none
/// where no call stands there, or it runs no such method.
///
/// # Errors
/// `NoMemory`, where memory runs out.
pub(crate) fn called(
    alloc: Global,
    methods: &FolderMethods<'_>,
    from: &Host<'_>,
    at: u32,
) -> Result<Option<MethodAt>, NoMemory>
    ensures { IfOk result (DecidesCall methods.now from.now at) }
{
    let Some(call) = call_at(from, at) else {
        return Ok(None);
    };
    let own = name_of(alloc, from.class())?;
    Ok(callee_of(methods, &own, &call))
}

/// A law: a call runs one method of the folder, if any.
pub(crate) fn a_call_runs_one_method()
    ensures { (classes : Classes) (s : Scope) (at : ℕ) (one other : MethodAt)
        → IsHierarchy (headers_of classes)
        → Calls classes s at one
        → Calls classes s at other
        → one ≡ other }
{
    a_look_up_finds_one_method();
    a_selection_chooses_one();
    a_special_call_starts_once();
}

/// The call at an offset of a method, if one stands there.
pub(crate) fn call_at<'a>(from: &Host<'a>, at: u32) -> Option<Call<'a>>
    ensures { option_map call_meant result ≡ call_at from.now at }
{
    let number = from.number(at) as usize;
    match from.instrs().get(number) {
        Some(placed) => call_of(from.pool(), &placed.instr),
        None => None,
    }
}

// The call that an instruction is.
fn call_of<'a>(pool: &'a Pool, instr: &Instr) -> Option<Call<'a>>
    ensures { option_map call_meant result ≡ called_by pool.now (Some instr.now) }
{
    let Instr::Invoke(opcode, index, _) = instr else {
        return None;
    };
    let reference = member_at(pool, *index)?;
    Some(Call {
        opcode: *opcode,
        reference,
    })
}

// The method of the folder that a call in a class of this name runs.
fn callee_of(methods: &FolderMethods<'_>, own: &Text, call: &Call<'_>) -> Option<MethodAt>
    ensures { DecidesRun methods.now own.now (reference_meant call.now.reference) call.now.opcode
        result }
{
    let tree = methods.tree();
    if call.opcode == INVOKESTATIC {
        static_callee(tree, &call.reference)
    } else if call.opcode == INVOKESPECIAL {
        special_callee(tree, own, &call.reference)
    } else if call.opcode == INVOKEVIRTUAL {
        virtual_callee(methods, &call.reference)
    } else {
        None
    }
}

// The method of the folder that a static call runs.
fn static_callee(tree: &Tree, reference: &MemberRef<'_>) -> Option<MethodAt>
    ensures { (own : Name)
        → DecidesRun tree.now own (reference_meant reference.now) INVOKESTATIC result }
{
    a_tree_is_a_hierarchy(tree);
    a_look_up_finds_one_method();
    match find_method(tree, reference.class, reference.name, reference.desc) {
        Some(found) => folder_method(found),
        None => None,
    }
}

// The method of the folder that a special call in a class of this name runs.
fn special_callee(tree: &Tree, own: &Text, reference: &MemberRef<'_>) -> Option<MethodAt>
    ensures { DecidesRun tree.now own.now (reference_meant reference.now) INVOKESPECIAL result }
{
    a_tree_is_a_hierarchy(tree);
    a_look_up_finds_one_method();
    a_selection_chooses_one();
    a_special_call_starts_once();
    if !is_special(tree, own, reference) {
        return None;
    }
    if is_polymorphic(tree, reference) {
        return None;
    }
    let found = find_method(tree, reference.class, reference.name, reference.desc)?;
    if has(found.flags, ACC_STATIC) {
        return None;
    }
    let start = special_start(tree, own, reference.class);
    match select(tree, start, found, CallForm::Special) {
        Selected::Found(chosen) => folder_method(chosen),
        _ => None,
    }
}

// Whether a special call in a class of this name may run: it names an initialiser, or the class is no interface.
fn is_special(tree: &Tree, own: &Text, reference: &MemberRef<'_>) -> bool
    ensures { IsTrue result
        ↔ (IsClass (headers_of tree.now) own.now
        ⊎ ((reference_meant reference.now).name ≡ init)) }
{
    reference.name.bytes() == INIT || is_class(tree, own)
}

// Whether a reference names a signature polymorphic method of the library (2.9), of which nothing is selected.
fn is_polymorphic(tree: &Tree, reference: &MemberRef<'_>) -> bool
    ensures { IsTrue result
        ↔ IsPolymorphic (headers_of tree.now) (reference_meant reference.now).class
        (reference_meant reference.now).name }
{
    reference.class.bytes() == METHOD_HANDLE
        && (reference.name.bytes() == INVOKE || reference.name.bytes() == INVOKE_EXACT)
        && is_in_library(tree, reference.class)
}

// Whether the class of a name is one of the library.
fn is_in_library(tree: &Tree, class: &Text) -> bool
    ensures { IsTrue result ↔ IsInLibrary (headers_of tree.now) class.now }
{
    matches!(tree.place(class), Some(Place::Library(_)))
}

// The method of the folder that a virtual call runs.
fn virtual_callee(methods: &FolderMethods<'_>, reference: &MemberRef<'_>) -> Option<MethodAt>
    ensures { (own : Name)
        → DecidesRun methods.now own (reference_meant reference.now) INVOKEVIRTUAL result }
{
    let tree = methods.tree();
    a_tree_is_a_hierarchy(tree);
    a_look_up_finds_one_method();
    let found = find_method(tree, reference.class, reference.name, reference.desc)?;
    let callee = folder_method(found)?;
    if is_class_at(tree, found.place) && is_overridden_by_none(methods, found) {
        Some(callee)
    } else {
        None
    }
}
