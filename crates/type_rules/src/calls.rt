//! The rules of calls (JVM Specification SE 8, 6.5: invokevirtual to invokedynamic).
ghost use Rattle.std.specs.Prelude.{◌≡◌, ◌↔◌, ◌+◌, List, Some, bytes_eq, length, IfOk, IsTrue};
ghost use Rattle.std.specs.List.{list_any};
ghost use Rattle.std.specs.Option.{option_copied};
ghost use Rattle.class_model.specs.Descriptors.{SpellsDescriptor};
ghost use Rattle.class_model.specs.Header.{header_of};
ghost use Rattle.class_model.specs.Names.{init};
ghost use Rattle.class_model.specs.Pool.{constant_at};
ghost use Rattle.class_model.specs.PoolChecks.{descriptor_at};
ghost use Rattle.class_tree.specs.Headers.{Name};
ghost use Rattle.class_tree.specs.Subtype.{IsChain};
ghost use Rattle.member_link.specs.Rows.Assigning.{IsAssignableIn};
ghost use Rattle.member_link.specs.Rows.MemberRows.{IsSpecialTarget, argument_needs, call_row, result_types, init_row, dynamic_row, instance_row, special_row, static_row, receiver, PassesMethod};
ghost use Rattle.member_link.specs.Rows.Operands.{lowest_of};
ghost use Rattle.member_link.specs.Rows.Row.{either, plain};
ghost use Rattle.member_link.specs.Signatures.{reference_of, result_of};
ghost use Rattle.member_link.specs.MemberRefs.{reference_meant};
ghost use Rattle.type_rules.specs.Rule.{RowRules};
ghost use Rattle.member_link.specs.Scope.{row_scope};
ghost use Rattle.member_link.specs.Inner.Scope.{current};
ghost use Rattle.type_rules.specs.Inner.Signatures.{IsCallable};

use crate::arguments::call_with;
use crate::assignability::is_object_of;
use crate::descriptors::{a_descriptor_is_read_back, method_descriptor};
use crate::fault::RuleFault;
use crate::initialisers::initialise;
use crate::method_rules::MethodRules;
use crate::need::Need;
use crate::operands::lowest_of;
use crate::protected::passes_method;
use crate::ruled::Ruled;
use crate::step::Step;
use class_model::opcodes::{INVOKESPECIAL, INVOKESTATIC};
use class_model::{Const, Descriptor, INIT, NoMemory, Pool, Text, VType};
use class_tree::{a_tree_is_a_hierarchy, chain};
use member_link::{MemberRef, member_at};
use std::alloc::Global;

// The version from which on a direct superinterface is a target of invokespecial.
const INTERFACE_TARGETS: u16 = 52;

/// Calls a method, by its opcode.
pub(crate) fn call(step: &Step<'_>, opcode: u8, index: u16) -> Result<Ruled, RuleFault>
    requires { IsCallable (constant_at step.now.rules.now.class.pool index) }
    ensures { RowRules (row_scope step.now.rules.now) step.now.before.now
        (call_row (row_scope step.now.rules.now) step.now.before.now opcode
        (reference_of step.now.rules.now.class.pool
        (constant_at step.now.rules.now.class.pool index))) result }
{
    let rules = step.rules;
    let Some(reference) = member_at(&rules.class.pool, index) else {
        return step.no_row();
    };
    if let Some(descriptor) = rules.call_descriptor(index) {
        return call_method(step, opcode, &reference, descriptor);
    }
    let descriptor = method_descriptor(step.alloc, reference.desc)?;
    call_method(step, opcode, &reference, &descriptor)
}

// Calls a method of this descriptor, by its opcode.
fn call_method(
    step: &Step<'_>,
    opcode: u8,
    reference: &MemberRef<'_>,
    descriptor: &Descriptor,
) -> Result<Ruled, RuleFault>
    requires { SpellsDescriptor reference.now.desc.now descriptor.now }
    ensures { RowRules (row_scope step.now.rules.now) step.now.before.now
        (call_row (row_scope step.now.rules.now) step.now.before.now opcode
        (Some (reference_meant reference.now))) result }
{
    if opcode == INVOKESTATIC {
        return call_static(step, reference, descriptor);
    }
    if opcode == INVOKESPECIAL {
        return call_named(step, reference, descriptor);
    }
    call_virtual(step, reference, descriptor)
}

/// Calls a call site.
pub(crate) fn call_dynamic(step: &Step<'_>, index: u16) -> Result<Ruled, RuleFault>
    ensures { RowRules (row_scope step.now.rules.now) step.now.before.now
        (dynamic_row (row_scope step.now.rules.now) step.now.before.now
        (constant_at step.now.rules.now.class.pool index)) result }
{
    let rules = step.rules;
    let Some(Const::InvokeDynamic(_, member)) = rules.class.pool.get(index) else {
        return step.no_row();
    };
    let Some(desc) = descriptor_of(&rules.class.pool, *member) else {
        return step.no_row();
    };
    if let Some(descriptor) = rules.calls.of_member(*member) {
        return call_site(step, desc, descriptor);
    }
    let descriptor = method_descriptor(step.alloc, desc)?;
    call_site(step, desc, &descriptor)
}

// Calls a call site whose text is parsed to this descriptor.
fn call_site(step: &Step<'_>, desc: &Text, descriptor: &Descriptor) -> Result<Ruled, RuleFault>
    requires { SpellsDescriptor desc.now descriptor.now }
    ensures { RowRules (row_scope step.now.rules.now) step.now.before.now
        (plain step.now.before.now (argument_needs desc.now) (result_types (result_of desc.now)))
        result }
{
    a_descriptor_is_read_back();
    call_with(step, None, descriptor, true, true)
}

// The descriptor of the NameAndType constant at an index, if one is there.
fn descriptor_of(pool: &Pool, member: u16) -> Option<&Text>
    ensures { option_copied result ≡ descriptor_at pool.now member }
{
    let (_, desc) = pool.name_and_type(member)?;
    pool.utf8(desc)
}

// Calls a static method.
fn call_static(
    step: &Step<'_>,
    reference: &MemberRef<'_>,
    descriptor: &Descriptor,
) -> Result<Ruled, RuleFault>
    requires { SpellsDescriptor reference.now.desc.now descriptor.now }
    ensures { RowRules (row_scope step.now.rules.now) step.now.before.now
        (static_row step.now.before.now (reference_meant reference.now)) result }
{
    a_descriptor_is_read_back();
    call_with(step, None, descriptor, true, true)
}

// Calls a method on an object of the named class.
fn call_on(
    step: &Step<'_>,
    reference: &MemberRef<'_>,
    descriptor: &Descriptor,
    further: bool,
    access: bool,
) -> Result<Ruled, RuleFault>
    requires { SpellsDescriptor reference.now.desc.now descriptor.now }
    ensures { RowRules (row_scope step.now.rules.now) step.now.before.now
        (instance_row step.now.before.now (reference_meant reference.now) (IsTrue further)
        (IsTrue access)) result }
{
    a_descriptor_is_read_back();
    call_with(
        step,
        Some(Need::Object(reference.class.bytes())),
        descriptor,
        further,
        access,
    )
}

// Calls a method that is chosen by the object.
fn call_virtual(
    step: &Step<'_>,
    reference: &MemberRef<'_>,
    descriptor: &Descriptor,
) -> Result<Ruled, RuleFault>
    requires { SpellsDescriptor reference.now.desc.now descriptor.now }
    ensures { RowRules (row_scope step.now.rules.now) step.now.before.now
        (instance_row step.now.before.now (reference_meant reference.now) (Unit {0})
        (PassesMethod (row_scope step.now.rules.now) (reference_meant reference.now)
        (receiver step.now.before.now reference.now.desc.now))) result }
{
    a_descriptor_is_read_back();
    let top = VType::Top;
    let object = receiver_of(step.before.stack.as_slice(), descriptor, &top);
    let passes = passes_method(step.rules, reference, object);
    call_on(step, reference, descriptor, true, passes)
}

// Calls an initialiser, or a method that is not chosen by the object.
fn call_named(
    step: &Step<'_>,
    reference: &MemberRef<'_>,
    descriptor: &Descriptor,
) -> Result<Ruled, RuleFault>
    requires { SpellsDescriptor reference.now.desc.now descriptor.now }
    ensures { RowRules (row_scope step.now.rules.now) step.now.before.now
        (either (bytes_eq reference.now.name.now init)
        (init_row (row_scope step.now.rules.now) step.now.before.now
        (reference_meant reference.now))
        (special_row (row_scope step.now.rules.now) step.now.before.now
        (reference_meant reference.now))) result }
{
    if reference.name.bytes() == INIT {
        initialise(step, reference, descriptor)
    } else {
        call_special(step, reference, descriptor)
    }
}

// Calls a method of the current class or of one above it, on an object of the current class.
fn call_special(
    step: &Step<'_>,
    reference: &MemberRef<'_>,
    descriptor: &Descriptor,
) -> Result<Ruled, RuleFault>
    requires { SpellsDescriptor reference.now.desc.now descriptor.now }
    ensures { RowRules (row_scope step.now.rules.now) step.now.before.now
        (special_row (row_scope step.now.rules.now) step.now.before.now
        (reference_meant reference.now)) result }
{
    a_descriptor_is_read_back();
    let top = VType::Top;
    let object = receiver_of(step.before.stack.as_slice(), descriptor, &top);
    let fits = fits_special(step.alloc, step.rules, reference.class, object)?;
    call_on(step, reference, descriptor, fits, true)
}

/// The receiver of a call, or `top` where there is none.
pub(crate) fn receiver_of<'a>(
    stack: &'a [VType],
    descriptor: &Descriptor,
    top: &'a VType,
) -> &'a VType
    requires { top.now ≡ VType.Top }
    ensures { result.now ≡ lowest_of (length descriptor.now.params + 1) stack.now }
{
    lowest_of(stack, descriptor.params.as_slice().len() + 1, top)
}

// Whether invokespecial may name a class, with an object of the current class.
fn fits_special(
    alloc: Global,
    rules: &MethodRules<'_>,
    name: &Text,
    object: &VType,
) -> Result<bool, NoMemory>
    ensures { IfOk result (λ fits.
        IsTrue fits
        ↔ (IsSpecialTarget (row_scope rules.now) name.now
        × IsAssignableIn rules.now.headers rules.now.class.major object.now
        (VType.Object (current rules.now)))) }
{
    if !is_object_of(rules.tree, object, rules.header.name.bytes()) {
        return Ok(false);
    }
    if is_direct_target(rules, name) {
        return Ok(true);
    }
    is_on_chain(alloc, rules, name)
}

// Whether a class is a direct superinterface, in version 52.
fn is_direct_target(rules: &MethodRules<'_>, name: &Text) -> bool
    ensures { IsTrue result
        ↔ ((rules.now.class.major ≡ 52)
        × IsTrue (list_any (bytes_eq name.now) (header_of rules.now.class).interfaces)) }
{
    rules.class.major == INTERFACE_TARGETS && stands_in(name, rules.header.interfaces.as_slice())
}

// Whether a class is the current class or a superclass of it.
fn is_on_chain(alloc: Global, rules: &MethodRules<'_>, name: &Text) -> Result<bool, NoMemory>
    ensures { IfOk result (λ above.
        IsTrue above
        ↔ ((names : List Name)
        × IsChain rules.now.headers (current rules.now) names
        × IsTrue (list_any (bytes_eq name.now) names))) }
{
    a_tree_is_a_hierarchy(rules.tree);
    let names = chain(alloc, rules.tree, &rules.header.name)?;
    Ok(stands_in(name, names.as_slice()))
}

// Whether a name is one of these.
fn stands_in(name: &Text, names: &[Text]) -> bool
    ensures { result ≡ list_any (bytes_eq name.now) names.now }
{
    names.iter().any(|other| other.bytes() == name.bytes())
}
