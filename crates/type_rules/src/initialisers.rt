//! The rule of calls of instance initialisers (JVM Specification SE 8, 4.10.1.9.invokespecial).
ghost use Rattle.std.specs.Prelude.{◌≡◌, ◌↔◌, ◌++◌, map, slice_get, IfOk, IsTrue, Some};
ghost use Rattle.std.specs.Option.{option_copied};
ghost use Rattle.class_model.specs.Descriptors.{SpellsDescriptor};
ghost use Rattle.class_model.specs.Header.{header_of};
ghost use Rattle.class_model.specs.declared.frame.VType.{VType as entry_type};
ghost use Rattle.member_link.specs.Rows.MemberRows.{MayInitialise, PassesInitialiser, init_row, initialised_type};
ghost use Rattle.member_link.specs.Rows.Operands.{under};
ghost use Rattle.type_rules.specs.Inner.Calls.{Becomes, init_signature};
ghost use Rattle.member_link.specs.MemberRefs.{reference_meant};
ghost use Rattle.type_rules.specs.Rule.{RowRules};
ghost use Rattle.member_link.specs.Scope.{class_of_new, row_scope};
ghost use Rattle.type_rules.specs.Inner.Steps.{given};

use crate::arguments::take_operands;
use crate::calls::receiver_of;
use crate::descriptors::{a_descriptor_is_read_back, result_type};
use crate::fault::RuleFault;
use crate::method_rules::MethodRules;
use crate::need::Need;
use crate::protected::is_foreign;
use crate::ruled::Ruled;
use crate::step::Step;
use class_model::{Descriptor, LocalTypeList, NoMemory, Text, VType, VTypeList};
use member_link::{MemberRef, a_look_up_finds_one_method, find_method};

/// Initialises an object: all copies of it become one of its class.
pub(crate) fn initialise(
    step: &Step<'_>,
    reference: &MemberRef<'_>,
    descriptor: &Descriptor,
) -> Result<Ruled, RuleFault>
    requires { SpellsDescriptor reference.now.desc.now descriptor.now }
    ensures { RowRules (row_scope step.now.rules.now) step.now.before.now
        (init_row (row_scope step.now.rules.now) step.now.before.now
        (reference_meant reference.now)) result }
{
    a_descriptor_is_read_back();
    initialise_by(step, reference, descriptor)
}

// The same, by the parameters and the result of the initialiser.
fn initialise_by(
    step: &Step<'_>,
    reference: &MemberRef<'_>,
    descriptor: &Descriptor,
) -> Result<Ruled, RuleFault>
    ensures { RowRules (row_scope step.now.rules.now) step.now.before.now
        (init_signature (row_scope step.now.rules.now) step.now.before.now
        (reference_meant reference.now) descriptor.now.params descriptor.now.result) result }
{
    let count = take_operands(step, Some(Need::Uninitialised), descriptor)?;
    let top = VType::Top;
    let receiver = receiver_of(step.before.stack.as_slice(), descriptor, &top);
    let may = may_initialise(step.rules, reference, receiver);
    let passes = passes_initialiser(step.rules, reference, receiver);
    let gives = result_type(descriptor)?;
    let stack = initialised_stack(step, reference, receiver, count, gives)?;
    let locals = initialised_locals(step, reference, receiver)?;
    step.conclude(stack, locals, may, passes)
}

// Whether an initialiser is one of a receiver.
fn may_initialise(rules: &MethodRules<'_>, reference: &MemberRef<'_>, receiver: &VType) -> bool
    ensures { IsTrue result
        ↔ MayInitialise (row_scope rules.now) (reference_meant reference.now) receiver.now }
{
    match receiver {
        VType::Uninit(at) => is_made_of(rules, *at, reference.class),
        VType::UninitThis => rules.is_current(reference.class.bytes())
            || is_super(rules, reference.class),
        _ => false,
    }
}

// Whether an initialiser of another object than this is no protected one of another package.
fn passes_initialiser(rules: &MethodRules<'_>, reference: &MemberRef<'_>, receiver: &VType) -> bool
    ensures { IsTrue result
        ↔ PassesInitialiser (row_scope rules.now) (reference_meant reference.now) receiver.now }
{
    match receiver {
        VType::Uninit(at) => passes_initialiser_of(rules, reference, *at),
        _ => true,
    }
}

// The same of the object that the `new` at an offset made.
fn passes_initialiser_of(rules: &MethodRules<'_>, reference: &MemberRef<'_>, at: u32) -> bool
    ensures { IsTrue result
        ↔ PassesInitialiser (row_scope rules.now) (reference_meant reference.now)
        (VType.Uninit at) }
{
    a_look_up_finds_one_method();
    let found = find_method(rules.tree, reference.class, reference.name, reference.desc);
    !is_foreign(rules, found)
}

// Whether the `new` at an offset makes objects of a class.
fn is_made_of(rules: &MethodRules<'_>, at: u32, class: &Text) -> bool
    ensures { IsTrue result ↔ (class_of_new rules.now at ≡ Some class.now) }
{
    match rules.class_of_new(at) {
        Some(name) => name.bytes() == class.bytes(),
        None => false,
    }
}

// Whether a class is the superclass of the current class.
fn is_super(rules: &MethodRules<'_>, class: &Text) -> bool
    ensures { IsTrue result ↔ ((header_of rules.now.class).super_name ≡ Some class.now) }
{
    match &rules.header.super_name {
        Some(name) => name.bytes() == class.bytes(),
        None => false,
    }
}

// The stack behind the call: the entries under the operands, in which copies of the receiver are initialised, and what
// the call gives.
fn initialised_stack(
    step: &Step<'_>,
    reference: &MemberRef<'_>,
    receiver: &VType,
    count: usize,
    gives: Option<VType>,
) -> Result<VTypeList, NoMemory>
    ensures { IfOk result (λ stack.
        stack
        ≡ map
        (initialised_type (row_scope step.now.rules.now) (reference_meant reference.now)
        receiver.now) (under count step.now.before.now.stack)
        ++ given gives) }
{
    let mut stack = initialised_under(step, reference, receiver, count)?;
    if let Some(value) = gives {
        stack.push(value)?;
    }
    Ok(stack)
}

// The entries under the operands, in which copies of the receiver are initialised.
fn initialised_under(
    step: &Step<'_>,
    reference: &MemberRef<'_>,
    receiver: &VType,
    count: usize,
) -> Result<VTypeList, NoMemory>
    ensures { IfOk result (λ stack.
        stack
        ≡ map
        (initialised_type (row_scope step.now.rules.now) (reference_meant reference.now)
        receiver.now) (under count step.now.before.now.stack)) }
{
    let before = step.under(count)?;
    let mut stack = VTypeList::new(step.alloc);
    for entry in before.as_slice() {
        stack.push(initialised(step.rules, reference, receiver, entry)?)?;
    }
    Ok(stack)
}

// An entry, which is initialised if it is a copy of the receiver.
fn initialised(
    rules: &MethodRules<'_>,
    reference: &MemberRef<'_>,
    receiver: &VType,
    entry: &VType,
) -> Result<VType, NoMemory>
    ensures { IfOk result (λ after.
        after
        ≡ initialised_type (row_scope rules.now) (reference_meant reference.now) receiver.now
        entry.now) }
{
    match class_after(rules, reference, receiver, entry) {
        Some(name) => Ok(VType::Object(name.copy()?)),
        None => entry.copy(),
    }
}

// The locals, in which copies of the receiver are initialised.
fn initialised_locals(
    step: &Step<'_>,
    reference: &MemberRef<'_>,
    receiver: &VType,
) -> Result<LocalTypeList, NoMemory>
    ensures { IfOk result (λ locals.
        locals
        ≡ map
        (initialised_type (row_scope step.now.rules.now) (reference_meant reference.now)
        receiver.now) step.now.before.now.locals) }
{
    let before = &step.before.locals;
    let mut after = before.copy(step.alloc)?;
    for index in 0..before.len() {
        if let Some(name) = class_of_local(step.rules, reference, receiver, before, index) {
            after.set(index, VType::Object(name.copy()?))?;
        }
    }
    Ok(after)
}

// The class of which a local becomes an object, if it is a copy of the receiver.
fn class_of_local<'a>(
    rules: &MethodRules<'a>,
    reference: &MemberRef<'a>,
    receiver: &VType,
    locals: &LocalTypeList,
    index: usize,
) -> Option<&'a Text>
    ensures { (local : entry_type)
        → slice_get locals.now index ≡ Some local
        → Becomes (row_scope rules.now) (reference_meant reference.now) receiver.now local
        (option_copied result) }
{
    match locals.get(index) {
        Some(local) => class_after(rules, reference, receiver, local),
        None => None,
    }
}

// The class of which an entry becomes an object, if it is a copy of the receiver.
fn class_after<'a>(
    rules: &MethodRules<'a>,
    reference: &MemberRef<'a>,
    receiver: &VType,
    entry: &VType,
) -> Option<&'a Text>
    ensures { Becomes (row_scope rules.now) (reference_meant reference.now) receiver.now entry.now
        (option_copied result) }
{
    match (receiver, entry) {
        (VType::Uninit(at), VType::Uninit(other)) if at == other => Some(reference.class),
        (VType::UninitThis, VType::UninitThis) => Some(&rules.header.name),
        _ => None,
    }
}
