//! Methods that calls name, resolved once (JVM Specification SE 8, 5.4.3.3, 5.4.3.4 and 6.5 on the instructions of calls).
ghost use Rattle.std.specs.Prelude.{◌≡◌, bytes_eq, IfOk, IfSome, Some, None, false, if◌then◌else◌};
ghost use Rattle.class_model.specs.Members.{STATIC};
ghost use Rattle.class_model.specs.Names.{init};
ghost use Rattle.class_tree.specs.Headers.{headers_of};
ghost use Rattle.member_link.specs.DeclaredMembers.{Declared};
ghost use Rattle.member_link.specs.Found.{IsMethodFound};
ghost use Rattle.member_link.specs.Machine.CallSteps.{found_special, is_object_init, is_polymorphic};
ghost use Rattle.member_link.specs.Machine.Links.{reference_to};
ghost use Rattle.member_link.specs.Machine.Programs.{Program, has_flag, method_of};
ghost use Rattle.member_link.specs.declared.selection.CallForm.{CallForm};
ghost use Rattle.machine_code.specs.Inner.Resolved.{IsKeptMethod, LinksMethod, home_number, is_invoke};
ghost use Rattle.member_link.specs.RunOps.{HasParameters, IsFoundByReceiver, IsFoundMethod, IsFoundSpecial, IsFoundStatic, RunsSpecial, RunsStatic};
ghost use Rattle.member_link.specs.TreePrograms.{IsProgram};
ghost use Rattle.member_link.specs.declared.run_op.CallTarget.{CallTarget};

use class_model::{ACC_ABSTRACT, ACC_STATIC, INIT, NoMemory, Text, has};
use class_tree::{METHOD_HANDLE, OBJECT, Place, Tree, a_tree_is_a_hierarchy};
use member_link::{
    CallForm, CallOp, CallTarget, Callee, Found, Reference, Throwable, a_look_up_finds_one_method,
    find_method, folder_number, has_method_flag, method_found, parameter_kinds, run_call,
    run_selected,
};
use std::alloc::Global;

const INVOKE: &[u8] = b"invoke";

const INVOKE_EXACT: &[u8] = b"invokeExact";

/// A call of a static method, with the method that is found and what the call runs.
///
/// # Errors
/// `NoMemory`, where memory runs out.
pub(crate) fn resolve_static(
    alloc: Global,
    tree: &Tree,
    named: Reference,
) -> Result<CallOp, NoMemory>
    ensures named { IfOk result (λ op. op.named ≡ named) }
    ensures parameters { IfOk result HasParameters }
    ensures resolved { IfOk result
        (λ op. (P : Program) → IsProgram tree.now P → IsFoundStatic P op op.found) }
{
    let parameters = parameter_kinds(alloc, &named.desc)?;
    let found = match linked_method(tree, &named) {
        Some(found) => Some(static_target(tree, &named, found)?),
        None => None,
    };
    Ok(CallOp {
        named,
        from: None,
        parameters,
        found,
    })
}

/// A call of a method of an object by `invokevirtual` or `invokeinterface`, with the method that is found.
///
/// # Errors
/// `NoMemory`, where memory runs out.
pub(crate) fn resolve_by_receiver(
    alloc: Global,
    tree: &Tree,
    named: Reference,
) -> Result<CallOp, NoMemory>
    ensures named { IfOk result (λ op. op.named ≡ named) }
    ensures parameters { IfOk result HasParameters }
    ensures resolved { IfOk result (λ op. (P : Program) (form : CallForm) → IsProgram tree.now P
        → IsFoundByReceiver P form op op.found) }
{
    let parameters = parameter_kinds(alloc, &named.desc)?;
    let found = match linked_method(tree, &named) {
        Some(found) => Some(method_target(tree, &named, found)?),
        None => None,
    };
    Ok(CallOp {
        named,
        from: None,
        parameters,
        found,
    })
}

/// A special call by the class at which its selection starts, with the method that is found and what the call runs.
///
/// # Errors
/// `NoMemory`, where memory runs out.
pub(crate) fn resolve_special(
    alloc: Global,
    tree: &Tree,
    named: Reference,
    from: Text,
) -> Result<CallOp, NoMemory>
    ensures named { IfOk result (λ op. op.named ≡ named) }
    ensures from { IfOk result (λ op. op.from ≡ Some from) }
    ensures parameters { IfOk result HasParameters }
    ensures resolved { IfOk result
        (λ op. (P : Program) → IsProgram tree.now P → IsFoundSpecial P op op.from op.found) }
{
    let parameters = parameter_kinds(alloc, &named.desc)?;
    let found = match special_method(tree, &named) {
        Some(found) => Some(special_target(tree, &named, &from, found)?),
        None => None,
    };
    Ok(CallOp {
        named,
        from: Some(from),
        parameters,
        found,
    })
}

// ---- look-ups

// The method that a reference finds; an instance initialiser is none that a call finds but a special one.
fn linked_method(tree: &Tree, named: &Reference) -> Option<Found>
    ensures found { IfSome result
        (λ found. (method : Declared) × IsMethodFound (headers_of tree.now) found method) }
    ensures link { (P : Program) → IsProgram tree.now P
        → LinksMethod (headers_of tree.now) result (P.links.method named.now) }
{
    a_look_up_finds_one_method();
    if named.name.bytes() == INIT {
        None
    } else {
        find_method(tree, &named.class, &named.name, &named.desc)
    }
}

// The method that a special call finds.
fn special_method(tree: &Tree, named: &Reference) -> Option<Found>
    ensures found { IfSome result
        (λ found. (method : Declared) × IsMethodFound (headers_of tree.now) found method) }
    ensures link { (P : Program) → IsProgram tree.now P
        → LinksMethod (headers_of tree.now) result (found_special P named.now) }
{
    a_look_up_finds_one_method();
    find_method(tree, &named.class, &named.name, &named.desc)
}

// ---- what is kept of a method that is found

// Of any method.
fn method_target(tree: &Tree, named: &Reference, found: Found) -> Result<CallTarget, NoMemory>
    requires { (method : Declared) × IsMethodFound (headers_of tree.now) found method }
    ensures kept { IfOk result (λ target. (method : Declared)
        → IsMethodFound (headers_of tree.now) found method
        → IsKeptMethod method target) }
    ensures found { IfOk result (λ target. (P : Program) → IsProgram tree.now P
        → IsFoundMethod P named.now target) }
{
    a_tree_is_a_hierarchy(tree);
    let method = method_found(tree, found)?;
    let is_polymorphic = is_polymorphic(tree, named);
    let asked = as_asked(named, &method, is_polymorphic)?;
    Ok(CallTarget {
        method,
        is_static: has(found.flags, ACC_STATIC),
        asked,
        is_polymorphic,
        home: home_number(found.place),
        fixed: None,
        seen: None,
    })
}

// Of a static method, with what a call of it runs.
fn static_target(tree: &Tree, named: &Reference, found: Found) -> Result<CallTarget, NoMemory>
    requires { (method : Declared) × IsMethodFound (headers_of tree.now) found method }
    ensures kept { IfOk result (λ target. (method : Declared)
        → IsMethodFound (headers_of tree.now) found method
        → IsKeptMethod method target) }
    ensures found { IfOk result (λ target. (P : Program) → IsProgram tree.now P
        → IsFoundMethod P named.now target) }
    ensures runs { IfOk result (λ target. (P : Program) → IsProgram tree.now P
        → RunsStatic P target target.fixed) }
{
    let target = method_target(tree, named, found)?;
    let callee = run_call(tree, target.asked.copy()?);
    Ok(with_fixed(target, callee))
}

// Of a method that a special call finds, with what it runs.
fn special_target(
    tree: &Tree,
    named: &Reference,
    from: &Text,
    found: Found,
) -> Result<CallTarget, NoMemory>
    requires { (method : Declared) × IsMethodFound (headers_of tree.now) found method }
    ensures kept { IfOk result (λ target. (method : Declared)
        → IsMethodFound (headers_of tree.now) found method
        → IsKeptMethod method target) }
    ensures found { IfOk result (λ target. (P : Program) → IsProgram tree.now P
        → IsFoundMethod P named.now target) }
    ensures runs { IfOk result (λ target. (P : Program) → IsProgram tree.now P
        → target.is_static ≡ false
        → RunsSpecial P from.now target target.fixed) }
{
    let target = method_target(tree, named, found)?;
    let callee = run_special(tree, from, &target.method)?;
    Ok(with_fixed(target, callee))
}

// With what runs without a receiver's class.
fn with_fixed(target: CallTarget, callee: Callee) -> CallTarget
    ensures { result ≡ record target { fixed = Some callee } }
{
    let mut target = target;
    target.fixed = Some(callee);
    target
}

// What a special call from a class on runs. Of a static method nothing is said.
fn run_special(tree: &Tree, from: &Text, method: &Reference) -> Result<Callee, NoMemory>
    ensures { IfOk result (λ callee. (P : Program) (target : CallTarget)
        → IsProgram tree.now P
        → target.method ≡ method.now
        → has_flag (method_of P method.now) STATIC ≡ false
        → RunsSpecial P from.now target (Some callee)) }
{
    if is_object_init(method) {
        Ok(Callee::Nothing)
    } else if !is_init(method) {
        let callee = run_selected(tree, from, method, CallForm::Special)?;
        Ok(callee)
    } else if has_method_flag(tree, method, ACC_ABSTRACT) {
        Ok(Callee::Raises(Throwable::AbstractCalled))
    } else {
        Ok(run_call(tree, method.copy()?))
    }
}

// Whether a method is an instance initialiser.
fn is_init(method: &Reference) -> bool
    ensures { result ≡ bytes_eq method.now.name init }
{
    method.name.bytes() == INIT
}

// The method as the library is asked for it.
fn as_asked(
    named: &Reference,
    method: &Reference,
    is_polymorphic: bool,
) -> Result<Reference, NoMemory>
    ensures { IfOk result (λ asked. asked
        ≡ (if is_polymorphic then record method.now { desc = named.now.desc } else method.now)) }
{
    if is_polymorphic {
        Ok(Reference {
            class: method.class.copy()?,
            name: method.name.copy()?,
            desc: named.desc.copy()?,
        })
    } else {
        method.copy()
    }
}

// Whether a reference names a signature polymorphic method (2.9).
fn is_polymorphic(tree: &Tree, named: &Reference) -> bool
    ensures { (P : Program) → IsProgram tree.now P → result ≡ is_polymorphic P named.now }
{
    is_invoke(&named.class, &named.name) && folder_number(tree, &named.class).is_none()
}

// Whether a method is `invoke` or `invokeExact` of `java/lang/invoke/MethodHandle`.
fn is_invoke(class: &Text, name: &Text) -> bool
    ensures { result ≡ is_invoke class.now name.now }
{
    class.bytes() == METHOD_HANDLE && (name.bytes() == INVOKE || name.bytes() == INVOKE_EXACT)
}

// Whether a method is the instance initialiser of `java/lang/Object`.
fn is_object_init(method: &Reference) -> bool
    ensures { result ≡ is_object_init method.now }
{
    method.class.bytes() == OBJECT && method.name.bytes() == INIT
}

// The number of the class of the folder at a place.
fn home_number(place: Place) -> Option<usize>
    ensures { result ≡ home_number place }
{
    match place {
        Place::Folder(class) => Some(class),
        Place::Library(_) => None,
    }
}
