//! Which callees may stand in a host's code, in place of their calls.
ghost use Rattle.std.specs.Prelude.{◌≡◌, ◌↔◌, ◌≤◌, Some, IfOk, IfSome, IsTrue, drop};
ghost use Rattle.std.specs.Option.{option_copied};
ghost use Rattle.class_model.specs.Code.{verification_type};
ghost use Rattle.class_model.specs.Descriptors.{SpellsDescriptor, parameters_of};
ghost use Rattle.class_model.specs.Methods.{this_units};
ghost use Rattle.class_model.specs.declared.class_file.MethodAt.{MethodAt};
ghost use Rattle.class_tree.specs.Headers.{headers_of};
ghost use Rattle.code_bytes.specs.Codes.{IsReadMethod};
ghost use Rattle.expanded_code.specs.Callees.{IsNoHandle, IsPlain, LeavesResult, MayStandIn, NamesInitialiser, ResultSaysAtMost, SayAtMost, SaysAtMost};
ghost use Rattle.flow_code.specs.TypedFrames.{typed_frames_at};
ghost use Rattle.inline_expand.specs.Inner.Standing.{AreOpen, ArePlain, HasForm, HasOwnThis, HasPlainCode, IsInitialiserAt, IsQuietIfStatic, NameInitialisers, ReturnAlone, StandsAlone, TakesDeclared};
ghost use Rattle.member_link.specs.Rows.Operands.{lowest_of};
ghost use Rattle.member_link.specs.Scope.{Scope, instructions, own_descriptor, scope_at};
ghost use Rattle.member_link.specs.Signatures.{result_of};

use crate::classes::{is_class, name_of};
use crate::coded::CodedMethod;
use crate::host::Host;
use crate::known_frames::KnownFrames;
use crate::open::names_open;
use crate::quiet::is_quiet;
use class_model::opcodes::INVOKESPECIAL;
use class_model::{
    ACC_STATIC, ClassFile, Const, Descriptor, FieldType, Frame, INIT, Instr, Kind, LocalTypeList,
    NoMemory, Placed, Text, VType, has, parameters_are_spelled,
};
use class_tree::Tree;
use code_bytes::{a_class_file_has_read_methods, method_descriptor};
use member_link::member_at;
use std::alloc::Global;

// The most bytes of a callee's code.
const MOST_BYTES: usize = 64;

// Of a method: it enters a monitor (JVM Specification SE 8, table 4.6-A).
const ACC_SYNCHRONIZED: u16 = 0x0020;

/// Whether the code of a method, with the frames that type it, may stand in the code of a host of a class
/// file. The method is one that was read, and its frames are among those that are known.
///
/// # Errors
/// `NoMemory`, where memory runs out.
pub(crate) fn may_stand_in(
    alloc: Global,
    tree: &Tree,
    host: &ClassFile,
    known: &KnownFrames<'_>,
    method: &CodedMethod<'_>,
) -> Result<bool, NoMemory>
    requires read { IsReadMethod method.now.host.class.pool method.now.host.method }
    requires known { typed_frames_at known.now method.now.at ≡ Some method.now.frames.now }
    ensures { IfOk result (λ stands.
        IsTrue stands ↔ MayStandIn tree.now host.now method.now.host method.now.frames.now) }
{
    let callee = &method.host;
    let frames = method.frames;
    if !stands_alone(host, known, method) {
        return Ok(false);
    }
    let own = name_of(alloc, host)?;
    if !are_open(callee, &own, callee.instrs()) {
        return Ok(false);
    }
    if !takes_declared(alloc, tree, callee, frames)? {
        return Ok(false);
    }
    is_quiet_if_static(alloc, tree, callee)
}

/// A law: each method of a tree that has code was read.
pub(crate) fn a_method_of_a_tree_was_read(tree: &Tree)
    ensures { (at : MethodAt) (s : Scope)
        → scope_at tree.now at ≡ Some s
        → IsReadMethod s.class.pool s.method }
{
    a_class_file_has_read_methods();
    let _ = tree.folder();
}

/// Whether a frame behind a call says of the callee's result no more than its declared type, or a class. The
/// callee is a method that was read.
///
/// # Errors
/// `NoMemory`, where memory runs out.
pub(crate) fn result_says_at_most(
    alloc: Global,
    tree: &Tree,
    callee: &Host<'_>,
    behind: &Frame,
) -> Result<bool, NoMemory>
    requires { IsReadMethod callee.now.class.pool callee.now.method }
    ensures { IfOk result (λ says. IsTrue says
        ↔ ResultSaysAtMost (headers_of tree.now) (result_of (own_descriptor callee.now))
        behind.now) }
{
    let descriptor = own_descriptor(alloc, callee)?;
    Ok(match &descriptor.result {
        Some(type_) => says_of_topmost(tree, type_, behind.stack.as_slice()),
        None => true,
    })
}

// Whether the topmost entry of a stack says no more than a type, or a class.
fn says_of_topmost(tree: &Tree, type_: &FieldType, stack: &[VType]) -> bool
    ensures { IsTrue result
        ↔ SaysAtMost (headers_of tree.now) type_.now (lowest_of 1 stack.now) }
{
    match stack.last() {
        Some(said) => says_at_most(tree, type_, said),
        None => true,
    }
}

// Whether a method has the version of a host's class, at most so many bytes of code and no handlers, and enters no
// monitor.
fn has_form(host: &ClassFile, callee: &Host<'_>) -> bool
    ensures { IsTrue result ↔ HasForm host.now callee.now }
{
    callee.part().code.len() <= MOST_BYTES
        && callee.part().handlers.is_empty()
        && callee.class().major == host.major
        && !has(callee.method().flags, ACC_SYNCHRONIZED)
}

// Whether each instruction of a method is plain, each special call names an initialiser, and each return has the
// result alone.
fn has_plain_code(callee: &Host<'_>, frames: &[Frame]) -> bool
    ensures { IsTrue result ↔ HasPlainCode callee.now frames.now }
{
    let instrs = callee.instrs();
    are_plain(callee, instrs) && name_initialisers(callee, instrs) && return_alone(instrs, frames)
}

// Whether a method has what is asked of its code alone, and the version of a host's class.
fn stands_alone(host: &ClassFile, known: &KnownFrames<'_>, method: &CodedMethod<'_>) -> bool
    requires { typed_frames_at known.now method.now.at ≡ Some method.now.frames.now }
    ensures { IsTrue result
        ↔ StandsAlone host.now method.now.host method.now.frames.now }
{
    has_form(host, &method.host)
        && has_plain_code(&method.host, method.frames)
        && has_own_this(known, method)
}

// Whether a method is an instance initialiser, or no frame of it has an uninitialised this.
fn has_own_this(known: &KnownFrames<'_>, method: &CodedMethod<'_>) -> bool
    requires { typed_frames_at known.now method.now.at ≡ Some method.now.frames.now }
    ensures { IsTrue result ↔ HasOwnThis method.now.host method.now.frames.now }
{
    if method.host.is_initialiser() {
        return true;
    }
    known.are_without_this(method.at, method.frames)
}

// Whether each instruction is plain.
fn are_plain(callee: &Host<'_>, instrs: &[Placed]) -> bool
    ensures { IsTrue result ↔ ArePlain callee.now instrs.now }
{
    for placed in instrs {
        if !is_plain(callee, &placed.instr) {
            return false;
        }
    }
    true
}

// Whether an instruction asks for no arithmetic of float and double and for no call site, and loads no method
// handle and no method type.
fn is_plain(callee: &Host<'_>, instr: &Instr) -> bool
    ensures { IsTrue result ↔ IsPlain callee.now instr.now }
{
    match instr {
        Instr::FloatAsk(_) | Instr::Dynamic(_) => false,
        Instr::Ldc(index) => is_no_handle(callee.pool().get(*index)),
        _ => true,
    }
}

// Whether a constant is no method handle and no method type.
fn is_no_handle(constant: Option<&Const>) -> bool
    ensures { IsTrue result ↔ IsNoHandle (option_copied constant.entry) }
{
    !matches!(
        constant,
        Some(Const::MethodHandle(..) | Const::MethodType(_))
    )
}

// Whether each special call names an initialiser.
fn name_initialisers(callee: &Host<'_>, instrs: &[Placed]) -> bool
    ensures { IsTrue result ↔ NameInitialisers callee.now instrs.now }
{
    for placed in instrs {
        if !names_initialiser(callee, &placed.instr) {
            return false;
        }
    }
    true
}

// Whether an instruction is no special call, or one that names an initialiser.
fn names_initialiser(callee: &Host<'_>, instr: &Instr) -> bool
    ensures { IsTrue result ↔ NamesInitialiser callee.now instr.now }
{
    match instr {
        Instr::Invoke(opcode, index, _) => {
            *opcode != INVOKESPECIAL || is_initialiser_at(callee, *index)
        }
        _ => true,
    }
}

// Whether the member that a constant refers to is named as an initialiser.
fn is_initialiser_at(callee: &Host<'_>, index: u16) -> bool
    ensures { IsTrue result ↔ IsInitialiserAt callee.now index }
{
    match member_at(callee.pool(), index) {
        Some(reference) => reference.name.bytes() == INIT,
        None => true,
    }
}

// Whether the stack has the result alone before each return.
fn return_alone(instrs: &[Placed], frames: &[Frame]) -> bool
    ensures { IsTrue result ↔ ReturnAlone instrs.now frames.now }
{
    for number in 0..instrs.len() {
        if !returns_alone_at(&instrs[number].instr, frames.get(number)) {
            return false;
        }
    }
    true
}

// Whether the stack of the frame before an instruction, if there is one, has the result alone if the instruction
// is a return.
fn returns_alone_at(instr: &Instr, frame: Option<&Frame>) -> bool
    ensures { IsTrue result ↔ IfSome (option_copied frame.entry) (LeavesResult instr.now) }
{
    match frame {
        Some(frame) => leaves_result(instr, frame),
        None => true,
    }
}

// Whether the stack has the result alone, if an instruction is a return.
fn leaves_result(instr: &Instr, frame: &Frame) -> bool
    ensures { IsTrue result ↔ LeavesResult instr.now frame.now }
{
    match instr {
        Instr::Return(None) => frame.stack.is_empty(),
        Instr::Return(Some(_)) => frame.stack.len() == 1,
        _ => true,
    }
}

// Whether each class, field and method that a method names is accessible from a host's class.
fn are_open(callee: &Host<'_>, host: &Text, instrs: &[Placed]) -> bool
    ensures { IsTrue result ↔ AreOpen callee.now host.now instrs.now }
{
    for placed in instrs {
        if !names_open(callee, host, &placed.instr) {
            return false;
        }
    }
    true
}

// Whether the frame that a method begins with says of its parameters no more than their declared types, or classes.
fn takes_declared(
    alloc: Global,
    tree: &Tree,
    callee: &Host<'_>,
    frames: &[Frame],
) -> Result<bool, NoMemory>
    requires { IsReadMethod callee.now.class.pool callee.now.method }
    ensures { IfOk result (λ takes.
        IsTrue takes ↔ TakesDeclared (headers_of tree.now) callee.now frames.now) }
{
    let Some(first) = frames.first() else {
        return Ok(true);
    };
    let descriptor = own_descriptor(alloc, callee)?;
    let this = this_units(callee.method().flags);
    Ok(say_at_most(tree, descriptor.params.as_slice(), &first.locals, this))
}

// How many units the receiver takes.
fn this_units(flags: u16) -> usize
    ensures units { result ≡ this_units flags }
    ensures few { result ≤ 1 }
{
    if has(flags, ACC_STATIC) { 0 } else { 1 }
}

// Whether local units from one on say of parameters no more than these types, or classes.
fn say_at_most(tree: &Tree, types: &[FieldType], locals: &LocalTypeList, from: usize) -> bool
    requires { from ≤ 1 }
    ensures { IsTrue result
        ↔ SayAtMost (headers_of tree.now) types.now (drop from locals.now) }
{
    let mut unit = from;
    for type_ in types {
        let Some(said) = locals.get(unit) else {
            return false;
        };
        if !says_at_most(tree, type_, said) {
            return false;
        }
        unit += usize::from(type_.kind().units());
    }
    true
}

// Whether what is said of a value is no more than a type, or a class.
fn says_at_most(tree: &Tree, type_: &FieldType, said: &VType) -> bool
    ensures { IsTrue result ↔ SaysAtMost (headers_of tree.now) type_.now said.now }
{
    match said {
        VType::Top => true,
        VType::Object(name) => is_named(type_, name) || is_class(tree, name),
        VType::Int => type_.kind() == Kind::Int,
        VType::Float => type_.kind() == Kind::Float,
        VType::Long => type_.kind() == Kind::Long,
        VType::Double => type_.kind() == Kind::Double,
        VType::Null | VType::UninitThis | VType::Uninit(_) => false,
    }
}

// Whether a type is the class or array of a name.
fn is_named(type_: &FieldType, name: &Text) -> bool
    ensures { IsTrue result ↔ (VType.Object name.now ≡ verification_type type_.now) }
{
    match type_ {
        FieldType::Named(own) => name.bytes() == own.bytes(),
        _ => false,
    }
}

// The method's descriptor.
fn own_descriptor(alloc: Global, callee: &Host<'_>) -> Result<Descriptor, NoMemory>
    requires { IsReadMethod callee.now.class.pool callee.now.method }
    ensures spelled { IfOk result (SpellsDescriptor (own_descriptor callee.now)) }
    ensures params { IfOk result
        (λ descriptor. parameters_of (own_descriptor callee.now) ≡ descriptor.params) }
    ensures result { IfOk result
        (λ descriptor. result_of (own_descriptor callee.now) ≡ descriptor.result) }
{
    parameters_are_spelled();
    let method = callee.method();
    let Some(text) = callee.pool().utf8(method.desc) else {
        unreachable!()
    };
    method_descriptor(alloc, text, method.flags)
}

// Whether a method is no static one, or its class is quiet.
fn is_quiet_if_static(alloc: Global, tree: &Tree, callee: &Host<'_>) -> Result<bool, NoMemory>
    ensures { IfOk result (λ quiet. IsTrue quiet ↔ IsQuietIfStatic (headers_of tree.now) callee.now) }
{
    if !has(callee.method().flags, ACC_STATIC) {
        return Ok(true);
    }
    let own = name_of(alloc, callee.class())?;
    is_quiet(alloc, tree, &own)
}
