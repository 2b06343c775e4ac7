//! How the constants of a class file are resolved (JVM Specification SE 8, 5.4.3 and 5.4.4).
ghost use Rattle.std.specs.Prelude.{◌≡◌, Some, IfOk};
ghost use Rattle.std.specs.Option.{option_copied, option_map};
ghost use Rattle.class_tree.specs.Headers.{headers_of, IsThere};
ghost use Rattle.member_link.specs.Access.{IsClassAccessible};
ghost use Rattle.member_link.specs.MemberRefs.{reference_meant};
ghost use Rattle.member_link.specs.References.{DescriptorNames, Reference as Named};
ghost use Rattle.member_link.specs.Inner.Resolutions.{IsCallee, IfHad, Resolves, ClassResolves, FieldResolves, MethodResolves, TypesResolve};

use crate::access::accessible;
use crate::fields::find_field;
use crate::forms::{fits_kind, is_instantiable};
use crate::methods::find_method;
use crate::names::{
    is_descriptor_accessible, is_descriptor_there, is_field_type_there, is_named_accessible,
    is_named_there,
};
use crate::reference::{MemberRef, descriptor_at, reference_at};
use crate::resolution::{Callee, Referent, Resolution};
use class_model::{Const, INIT, NoMemory, Pool, Text};
use class_tree::{LinkRule, Tree, a_tree_is_a_hierarchy};
use std::alloc::Global;

/// What the constant at an index of a pool resolves to in the class of a name.
pub(crate) fn resolve(
    alloc: Global,
    tree: &Tree,
    pool: &Pool,
    from: &Text,
    index: u16,
) -> Result<Resolution, NoMemory>
    ensures { IfOk result (Resolves (record {
      headers = headers_of tree.now;
      pool = pool.now;
      from = from.now;
    }) index) }
{
    let Some(constant) = pool.get(index) else {
        return Ok(Resolution::Settled);
    };
    match constant {
        Const::Class(name) => Ok(resolve_class(tree, from, pool.utf8(*name))),
        Const::Fieldref(class, member) => {
            resolve_field(alloc, tree, from, reference_at(pool, *class, *member))
        }
        Const::Methodref(class, member) | Const::InterfaceMethodref(class, member) => {
            let reference = reference_at(pool, *class, *member);
            resolve_method(alloc, tree, from, constant, reference)
        }
        Const::MethodType(desc) => resolve_method_type(alloc, tree, from, pool.utf8(*desc)),
        Const::InvokeDynamic(_, member) => {
            resolve_dynamic(alloc, tree, descriptor_at(pool, *member))
        }
        _ => Ok(Resolution::Settled),
    }
}

// What a class that is named resolves to.
fn resolve_class(tree: &Tree, from: &Text, name: Option<&Text>) -> Resolution
    ensures { IfHad (ClassResolves (headers_of tree.now) from.now)
        (option_copied name.entry) result }
{
    let Some(name) = name else {
        return Resolution::Settled;
    };
    if !is_named_there(tree, name.bytes()) {
        return Resolution::Broken(LinkRule::Missing);
    }
    if !is_named_accessible(tree, from.bytes(), name.bytes()) {
        return Resolution::Broken(LinkRule::NoAccess);
    }
    Resolution::Class(is_instantiable(tree, name))
}

// What a reference to a field resolves to.
fn resolve_field(
    alloc: Global,
    tree: &Tree,
    from: &Text,
    reference: Option<MemberRef<'_>>,
) -> Result<Resolution, NoMemory>
    ensures { IfOk result (IfHad (FieldResolves (headers_of tree.now) from.now)
        (option_map reference_meant reference.entry)) }
{
    let Some(reference) = reference else {
        return Ok(Resolution::Settled);
    };
    if !is_named_there(tree, reference.class.bytes())
        || !is_field_type_there(alloc, tree, reference.desc)?
    {
        return Ok(Resolution::Broken(LinkRule::Missing));
    }
    if !is_named_accessible(tree, from.bytes(), reference.class.bytes()) {
        return Ok(Resolution::Broken(LinkRule::NoAccess));
    }
    a_tree_is_a_hierarchy(tree);
    let Some(found) = find_field(tree, reference.class, reference.name, reference.desc) else {
        return Ok(Resolution::Broken(LinkRule::NoMember));
    };
    Ok(Resolution::Field(Referent {
        flags: found.flags,
        is_accessible: accessible(tree, from, reference.class, found),
    }))
}

// What a reference to a method, by this constant, resolves to.
fn resolve_method(
    alloc: Global,
    tree: &Tree,
    from: &Text,
    constant: &Const,
    reference: Option<MemberRef<'_>>,
) -> Result<Resolution, NoMemory>
    ensures { IfOk result
        (IfHad (MethodResolves (headers_of tree.now) from.now
        (Some constant.now)) (option_map reference_meant reference.entry)) }
{
    let Some(reference) = reference else {
        return Ok(Resolution::Settled);
    };
    if !is_named_there(tree, reference.class.bytes())
        || !is_descriptor_there(alloc, tree, reference.desc)?
    {
        return Ok(Resolution::Broken(LinkRule::Missing));
    }
    if !is_named_accessible(tree, from.bytes(), reference.class.bytes()) {
        return Ok(Resolution::Broken(LinkRule::NoAccess));
    }
    let Some(found) = find_method(tree, reference.class, reference.name, reference.desc) else {
        return Ok(Resolution::Broken(LinkRule::NoMember));
    };
    let referent = Referent {
        flags: found.flags,
        is_accessible: accessible(tree, from, reference.class, found),
    };
    let callee = callee_of(tree, constant, reference.class, reference.name);
    Ok(Resolution::Method(referent, callee))
}

// What is kept of a class and a name that calls name by this constant.
fn callee_of(tree: &Tree, constant: &Const, class: &Text, name: &Text) -> Callee
    ensures { (reference : Named)
        → reference.class ≡ class.now
        → reference.name ≡ name.now
        → IsCallee (headers_of tree.now) (Some constant.now) reference result }
{
    Callee {
        fits_kind: fits_kind(tree, constant, class),
        is_initialiser: name.bytes() == INIT,
    }
}

// What the classes of a method type resolve to.
fn resolve_method_type(
    alloc: Global,
    tree: &Tree,
    from: &Text,
    desc: Option<&Text>,
) -> Result<Resolution, NoMemory>
    ensures { IfOk result
        (IfHad (λ text. TypesResolve (DescriptorNames (IsThere (headers_of tree.now)) text)
        (DescriptorNames (IsClassAccessible (headers_of tree.now) from.now) text))
        (option_copied desc.entry)) }
{
    let Some(desc) = desc else {
        return Ok(Resolution::Settled);
    };
    if !is_descriptor_there(alloc, tree, desc)? {
        return Ok(Resolution::Broken(LinkRule::Missing));
    }
    if !is_descriptor_accessible(alloc, tree, from.bytes(), desc)? {
        return Ok(Resolution::Broken(LinkRule::NoAccess));
    }
    Ok(Resolution::Settled)
}

// What the classes of a dynamic call's descriptor resolve to.
fn resolve_dynamic(alloc: Global, tree: &Tree, desc: Option<&Text>) -> Result<Resolution, NoMemory>
    ensures { IfOk result
        (IfHad (λ text. TypesResolve (DescriptorNames (IsThere (headers_of tree.now)) text)
        (Unit {0})) (option_copied desc.entry)) }
{
    let Some(desc) = desc else {
        return Ok(Resolution::Settled);
    };
    if !is_descriptor_there(alloc, tree, desc)? {
        return Ok(Resolution::Broken(LinkRule::Missing));
    }
    Ok(Resolution::Settled)
}
