//! Calls by the library.
ghost use Rattle.std.specs.Prelude.{◌≡◌, ◌∷◌, List, IfOk, OnOk};
ghost use Rattle.machine_values.specs.declared.value.Value.{Value as Argument};
ghost use Rattle.member_link.specs.Machine.Acting.{act_call, beginning_if, begins_with_angle, call_of_instance, call_of_method, call_of_static, call_on};
ghost use Rattle.member_link.specs.Machine.Performing.{called};
ghost use Rattle.member_link.specs.Machine.Programs.{Program, place_of_method, run_method};
ghost use Rattle.member_link.specs.Machine.Worlds.{is_begun};
ghost use Rattle.member_link.specs.TreePrograms.{IsProgram};
ghost use Rattle.machine_step.specs.Room.{HasRoom};
ghost use Rattle.machine_run.specs.Inner.ActWords.{is_null};
ghost use Rattle.machine_run.specs.Outcomes.{Lands, ended, halt_behind, halt_of};

use crate::acting::given::given_values;
use crate::beginnings::begin_class;
use crate::calls::{arguments_of, call_method};
use crate::laws::a_state_goes_on;
use crate::raising::raise;
use class_model::{MethodAt, NoMemory, Text};
use class_tree::Tree;
use machine_code::{Prepared, method_traits};
use machine_step::{Acted, Memory, Outcome, WorldState, arguments_conform, named_conforms};
use machine_values::{GivenList, Value};
use member_link::{Reference, Throwable, folder_number, has_code, place_of_method};
use std::alloc::Global;

/// Calls a method of a class of the folder without selection, the receiver first where it is not static. A null receiver is no fault:
/// the machine raises a `NullPointerException`, and calls and begins nothing.
///
/// # Errors
///
/// `NoMemory` where memory runs out.
pub(crate) fn call(
    alloc: Global,
    prepared: &mut Prepared<'_>,
    w: &mut WorldState,
    class: &Text,
    name: &Text,
    desc: &Text,
    values: &GivenList,
) -> Result<Acted, NoMemory>
    requires room { HasRoom w.old.memory }
    ensures same { prepared.new ≡ prepared.old }
    ensures acted { IfOk result (λ acted. (P : Program) → IsProgram prepared.old P
        → ended (halt_behind acted) w.new
        ≡ act_call P w.old class.now name.now desc.now values.now) }
    ensures fault { IfOk result (λ acted. acted ≡ Acted.Fault → w.new ≡ w.old) }
{
    if begins_with_angle(name.bytes()) {
        return Ok(Acted::Fault);
    }
    let Some(at) = method_named(prepared.tree(), class, name, desc)? else {
        return Ok(Acted::Fault);
    };
    let Some(values) = given_values(alloc, &w.known, values.as_slice())? else {
        return Ok(Acted::Fault);
    };
    call_at(alloc, prepared, w, class, desc, at, &values)
}

// Whether a name begins with an angle bracket.
fn begins_with_angle(name: &[u8]) -> bool
    ensures { result ≡ begins_with_angle name.now }
{
    match name.first() {
        Some(first) => *first == b'<',
        None => false,
    }
}

/// The place of a method that a class of the folder declares.
///
/// # Errors
///
/// `NoMemory` where memory runs out.
pub(crate) fn method_named(
    tree: &Tree,
    class: &Text,
    name: &Text,
    desc: &Text,
) -> Result<Option<MethodAt>, NoMemory>
    ensures { IfOk result (λ at. (P : Program) → IsProgram tree.now P
        → at ≡ place_of_method P
        (record { class = class.now; name = name.now; desc = desc.now })) }
{
    let method = Reference {
        class: class.copy()?,
        name: name.copy()?,
        desc: desc.copy()?,
    };
    Ok(place_of_method(tree, &method))
}

// Calls the method at a place with these values.
fn call_at(
    alloc: Global,
    prepared: &mut Prepared<'_>,
    w: &mut WorldState,
    class: &Text,
    desc: &Text,
    at: MethodAt,
    values: &[Value],
) -> Result<Acted, NoMemory>
    requires room { HasRoom w.old.memory }
    ensures same { prepared.new ≡ prepared.old }
    ensures acted { IfOk result (λ acted. (P : Program) → IsProgram prepared.old P
        → ended (halt_behind acted) w.new
        ≡ call_of_method P w.old class.now desc.now at values.now (run_method P at)) }
    ensures fault { IfOk result (λ acted. acted ≡ Acted.Fault → w.new ≡ w.old) }
{
    let Some(traits) = method_traits(prepared.tree(), at) else {
        return Ok(Acted::Fault);
    };
    if !has_code(prepared.tree(), at) {
        return Ok(Acted::Fault);
    }
    if traits.is_static {
        call_static(alloc, prepared, w, class, desc, at, values)
    } else {
        call_instance(alloc, prepared, w, class, desc, at, values)
    }
}

// Calls a static method, whose class is begun on top of it.
fn call_static(
    alloc: Global,
    prepared: &mut Prepared<'_>,
    w: &mut WorldState,
    class: &Text,
    desc: &Text,
    at: MethodAt,
    values: &[Value],
) -> Result<Acted, NoMemory>
    requires room { HasRoom w.old.memory }
    ensures same { prepared.new ≡ prepared.old }
    ensures acted { IfOk result (λ acted. (P : Program) → IsProgram prepared.old P
        → ended (halt_behind acted) w.new
        ≡ call_of_static P w.old class.now desc.now at values.now) }
    ensures fault { IfOk result (λ acted. acted ≡ Acted.Fault → w.new ≡ w.old) }
{
    if !arguments_conform(prepared.tree(), w.memory.heap(), desc, values) {
        return Ok(Acted::Fault);
    }
    call_with(alloc, prepared, w, at, values)?;
    begin_if(alloc, prepared, w, class)?;
    Ok(Acted::Done)
}

// Calls a method that is not static, the receiver first.
fn call_instance(
    alloc: Global,
    prepared: &mut Prepared<'_>,
    w: &mut WorldState,
    class: &Text,
    desc: &Text,
    at: MethodAt,
    values: &[Value],
) -> Result<Acted, NoMemory>
    requires room { HasRoom w.old.memory }
    ensures same { prepared.new ≡ prepared.old }
    ensures acted { IfOk result (λ acted. (P : Program) → IsProgram prepared.old P
        → ended (halt_behind acted) w.new
        ≡ call_of_instance P w.old class.now desc.now at values.now) }
    ensures fault { IfOk result (λ acted. acted ≡ Acted.Fault → w.new ≡ w.old) }
{
    let Some((receiver, others)) = values.split_first() else {
        return Ok(Acted::Fault);
    };
    if !named_conforms(prepared.tree(), w.memory.heap(), class.bytes(), *receiver) {
        return Ok(Acted::Fault);
    }
    if !arguments_conform(prepared.tree(), w.memory.heap(), desc, others) {
        return Ok(Acted::Fault);
    }
    call_on(alloc, prepared, w, at, values, *receiver)
}

// Calls a method on a receiver, which is the first of the values.
fn call_on(
    alloc: Global,
    prepared: &mut Prepared<'_>,
    w: &mut WorldState,
    at: MethodAt,
    values: &[Value],
    receiver: Value,
) -> Result<Acted, NoMemory>
    requires room { HasRoom w.old.memory }
    ensures same { prepared.new ≡ prepared.old }
    ensures acted { IfOk result (λ acted. (P : Program) (others : List Argument)
        → IsProgram prepared.old P
        → values.now ≡ receiver ∷ others
        → ended (halt_behind acted) w.new ≡ call_on P w.old at others receiver) }
    ensures done { IfOk result (λ acted. acted ≡ Acted.Fault → ⊥) }
{
    a_state_goes_on(w);
    if is_null(receiver) {
        let outcome = raise(alloc, prepared, w, Throwable::NullPointer)?;
        Ok(acted_of(outcome))
    } else {
        call_with(alloc, prepared, w, at, values)?;
        Ok(Acted::Done)
    }
}

// Whether a value is null.
fn is_null(value: Value) -> bool
    ensures { result ≡ is_null value }
{
    matches!(value, Value::Null)
}

/// What an action comes to that throws, by what throwing comes to.
pub(crate) fn acted_of(outcome: Outcome) -> Acted
    requires { Lands outcome }
    ensures halt { halt_behind result ≡ halt_of outcome }
    ensures done { result ≡ Acted.Fault → ⊥ }
{
    match outcome {
        Outcome::Running => Acted::Done,
        Outcome::InitThrew => Acted::InitThrew,
        Outcome::Stuck => Acted::Stuck,
        Outcome::LibraryTurn | Outcome::ArrayTooLong => unreachable!(),
    }
}

/// Calls a method with these values, the receiver first, on top of the frames as they stand.
///
/// # Errors
///
/// `NoMemory` where memory runs out.
pub(crate) fn call_with(
    alloc: Global,
    prepared: &mut Prepared<'_>,
    w: &mut WorldState,
    at: MethodAt,
    values: &[Value],
) -> Result<(), NoMemory>
    requires room { HasRoom w.old.memory }
    ensures same { prepared.new ≡ prepared.old }
    ensures called { OnOk result ((P : Program) → IsProgram prepared.old P
        → w.new ≡ called P w.old at values.now w.old.frames) }
{
    let arguments = arguments_of(alloc, prepared, at, values)?;
    call_method(alloc, prepared.tree(), w, at, arguments)
}

/// Begins a class on top of the frames as they stand, if it is one of the folder and is not begun.
///
/// # Errors
///
/// `NoMemory` where memory runs out.
pub(crate) fn begin_if(
    alloc: Global,
    prepared: &Prepared<'_>,
    w: &mut WorldState,
    class: &Text,
) -> Result<(), NoMemory>
    ensures { OnOk result ((P : Program) → IsProgram prepared.now P
        → w.new ≡ beginning_if P class.now w.old) }
{
    match folder_number(prepared.tree(), class) {
        Some(number) => {
            if is_begun(&w.memory, number) {
                Ok(())
            } else {
                begin_class(alloc, prepared, w, number)
            }
        }
        None => Ok(()),
    }
}

// Whether a class of the folder is begun.
fn is_begun(memory: &Memory, class: usize) -> bool
    ensures { result ≡ is_begun memory.now class }
{
    memory.begun.contains(class)
}
