//! Fields of objects (JVM Specification SE 8, 6.5: getfield, putfield). The number of a field is searched for where the class of the
//! receiver is not that of the last one.
ghost use Rattle.std.specs.Prelude.{◌≡◌, List, [], ◌∷◌, false, Some, None, IfOk, IfSome, IsSome};
ghost use Rattle.class_model.specs.Members.{STATIC};
ghost use Rattle.machine_values.specs.declared.value.Value.{Value as Operand};
ghost use Rattle.member_link.specs.Machine.FieldSteps.{get_field_work, put_field_in, put_field_work};
ghost use Rattle.member_link.specs.Machine.Programs.{Program, field_of, folder_number, has_flag};
ghost use Rattle.machine_step.specs.Completing.{Completes};
ghost use Rattle.machine_step.specs.Inner.FieldWords.{IsTargetHere, put_conforming, slot_at, slot_in, slot_of};
ghost use Rattle.member_link.specs.Machine.Layouts.{capped};
ghost use Rattle.member_link.specs.TreePrograms.{IsProgram};
ghost use Rattle.member_link.specs.RunOps.{IsFieldOp, IsSeenSlot, home_class};
ghost use Rattle.member_link.specs.declared.run_op.FieldOp.{FieldOp as Op};

use crate::completed::{Asked, Completed};
use crate::fields::{fits, kept};
use crate::memory::Memory;
use crate::questions::conforming::reference_conforms;
use crate::questions::fields::slot_in_class;
use crate::questions::shapes::shape_conforms;
use class_model::{NoMemory, Text};
use class_tree::Tree;
use machine_heap::{Heap, Put};
use machine_values::{Object, Ref, Shape, Value};
use member_link::{FieldHome, FieldOp, FieldTarget, Reference, SeenSlot, Throwable};

// ---- reads

/// A `getfield`. It allocates only where the library is asked.
///
/// # Errors
///
/// `NoMemory` where memory runs out.
pub(crate) fn get_field(
    tree: &Tree,
    memory: &Memory,
    op: &mut FieldOp,
    operands: &[Value],
) -> Result<Completed, NoMemory>
    ensures completed { IfOk result (λ completed. (P : Program)
        → IsProgram tree.now P
        → IsFieldOp P op.old
        → Completes memory.now memory.now operands.now completed
        (get_field_work P memory.now op.old.named.class (P.links.field op.old.named)
        operands.now)) }
    ensures kept { (P : Program) → IsProgram tree.now P → IsFieldOp P op.old → IsFieldOp P op.new }
    ensures named { op.new.named ≡ op.old.named }
    ensures initialises { op.new.initialises ≡ op.old.initialises }
{
    match &mut op.found {
        Some(target) if !target.is_static => {
            get_of(tree, memory, &op.named.class, target, operands)
        }
        _ => Ok(Completed::Stuck),
    }
}

// A read of a field that is not static.
fn get_of(
    tree: &Tree,
    memory: &Memory,
    named: &Text,
    target: &mut FieldTarget,
    operands: &[Value],
) -> Result<Completed, NoMemory>
    ensures completed { IfOk result (λ completed. (P : Program) (op : Op)
        → IsTargetHere tree.now P op named.now target.old
        → target.old.is_static ≡ false
        → Completes memory.now memory.now operands.now completed
        (get_field_work P memory.now named.now (Some target.old.field) operands.now)) }
    ensures kept { (P : Program) (op : Op)
        → IsTargetHere tree.now P op named.now target.old
        → IsTargetHere tree.now P op named.now target.new }
{
    match operands {
        [Value::Null] => Ok(Completed::Raises(Throwable::NullPointer)),
        [Value::Ref(at)] => match target.home {
            FieldHome::Library => get_asked(tree, memory, named, &target.field, *at),
            FieldHome::Folder { .. } => Ok(get_own(tree, memory, named, target, *at)),
        },
        _ => Ok(Completed::Stuck),
    }
}

// A read of a field of the library: the library is asked.
fn get_asked(
    tree: &Tree,
    memory: &Memory,
    named: &Text,
    field: &Reference,
    at: Ref,
) -> Result<Completed, NoMemory>
    ensures { IfOk result (λ completed. (P : Program) (operands : List Operand)
        → IsProgram tree.now P
        → folder_number P field.now.class ≡ None
        → has_flag (field_of P field.now) STATIC ≡ false
        → Completes memory.now memory.now operands completed
        (get_field_work P memory.now named.now (Some field.now) (Operand.Ref at ∷ []))) }
{
    if !reference_conforms(tree, memory.heap(), at, named.bytes()) {
        return Ok(Completed::Stuck);
    }
    Ok(Completed::Asks(Asked::Get(field.copy()?, Some(Value::Ref(at)))))
}

// A read of a field of the folder. It does not allocate.
fn get_own(
    tree: &Tree,
    memory: &Memory,
    named: &Text,
    target: &mut FieldTarget,
    at: Ref,
) -> Completed
    ensures completed { (P : Program) (op : Op) (operands : List Operand)
        → IsTargetHere tree.now P op named.now target.old
        → target.old.is_static ≡ false
        → IsSome (home_class target.old.home)
        → Completes memory.now memory.now operands result
        (get_field_work P memory.now named.now (Some target.old.field) (Operand.Ref at ∷ [])) }
    ensures kept { (P : Program) (op : Op)
        → IsTargetHere tree.now P op named.now target.old
        → IsTargetHere tree.now P op named.now target.new }
{
    match memory.heap().object(at) {
        Some(object) => match slot_in(tree, named, target, object) {
            Some(slot) => match object.values.get(slot) {
                Some(value) => Completed::Gives(Some(*value)),
                None => Completed::Stuck,
            },
            None => Completed::Stuck,
        },
        None => Completed::Stuck,
    }
}

// ---- stores

/// A `putfield`. It allocates only where the library is asked.
///
/// # Errors
///
/// `NoMemory` where memory runs out.
pub(crate) fn put_field(
    tree: &Tree,
    memory: &mut Memory,
    op: &mut FieldOp,
    operands: &[Value],
) -> Result<Completed, NoMemory>
    ensures completed { IfOk result (λ completed. (P : Program)
        → IsProgram tree.now P
        → IsFieldOp P op.old
        → Completes memory.old memory.new operands.now completed
        (put_field_work P memory.old op.old.named.class (P.links.field op.old.named)
        op.old.initialises operands.now)) }
    ensures kept { (P : Program) → IsProgram tree.now P → IsFieldOp P op.old → IsFieldOp P op.new }
    ensures named { op.new.named ≡ op.old.named }
    ensures initialises { op.new.initialises ≡ op.old.initialises }
{
    match &mut op.found {
        Some(target) if !target.is_static => {
            put_tested(tree, memory, &op.named.class, target, operands)
        }
        _ => Ok(Completed::Stuck),
    }
}

// A store into a field that is not static.
fn put_tested(
    tree: &Tree,
    memory: &mut Memory,
    named: &Text,
    target: &mut FieldTarget,
    operands: &[Value],
) -> Result<Completed, NoMemory>
    ensures completed { IfOk result (λ completed. (P : Program) (op : Op)
        → IsTargetHere tree.now P op named.now target.old
        → target.old.is_static ≡ false
        → Completes memory.old memory.new operands.now completed
        (put_field_work P memory.old named.now (Some target.old.field) op.initialises
        operands.now)) }
    ensures kept { (P : Program) (op : Op)
        → IsTargetHere tree.now P op named.now target.old
        → IsTargetHere tree.now P op named.now target.new }
{
    match operands {
        [receiver, value] if fits(&target.desc, *value) => {
            if target.is_barred {
                return Ok(Completed::Raises(Throwable::IllegalAccess));
            }
            put_in(tree, memory, named, target, *receiver, *value)
        }
        _ => Ok(Completed::Stuck),
    }
}

// A store of a value of the field's kind into a field that the code may store into.
fn put_in(
    tree: &Tree,
    memory: &mut Memory,
    named: &Text,
    target: &mut FieldTarget,
    receiver: Value,
    value: Value,
) -> Result<Completed, NoMemory>
    ensures completed { IfOk result (λ completed. (P : Program) (op : Op) (operands : List Operand)
        → IsTargetHere tree.now P op named.now target.old
        → Completes memory.old memory.new operands completed
        (put_field_in P memory.old named.now target.old.field receiver value)) }
    ensures kept { (P : Program) (op : Op)
        → IsTargetHere tree.now P op named.now target.old
        → IsTargetHere tree.now P op named.now target.new }
{
    match receiver {
        Value::Null => Ok(Completed::Raises(Throwable::NullPointer)),
        Value::Ref(at) => {
            let value = kept(&target.desc, value);
            match target.home {
                FieldHome::Library => put_asked(tree, memory, named, &target.field, at, value),
                FieldHome::Folder { .. } => Ok(put_own(tree, memory, named, target, at, value)),
            }
        }
        _ => Ok(Completed::Stuck),
    }
}

// A store of a narrowed value into a field of the library: the library is asked.
fn put_asked(
    tree: &Tree,
    memory: &Memory,
    named: &Text,
    field: &Reference,
    at: Ref,
    value: Value,
) -> Result<Completed, NoMemory>
    ensures { IfOk result (λ completed. (P : Program) (operands : List Operand)
        → IsProgram tree.now P
        → folder_number P field.now.class ≡ None
        → Completes memory.now memory.now operands completed
        (put_conforming P memory.now named.now field.now at value)) }
{
    if !reference_conforms(tree, memory.heap(), at, named.bytes()) {
        return Ok(Completed::Stuck);
    }
    Ok(Completed::Asks(Asked::Put(field.copy()?, Some(Value::Ref(at)), value)))
}

// A store of a narrowed value into a field of the folder. It does not allocate.
fn put_own(
    tree: &Tree,
    memory: &mut Memory,
    named: &Text,
    target: &mut FieldTarget,
    at: Ref,
    value: Value,
) -> Completed
    ensures completed { (P : Program) (op : Op) (operands : List Operand)
        → IsTargetHere tree.now P op named.now target.old
        → IsSome (home_class target.old.home)
        → Completes memory.old memory.new operands result
        (put_conforming P memory.old named.now target.old.field at value) }
    ensures kept { (P : Program) (op : Op)
        → IsTargetHere tree.now P op named.now target.old
        → IsTargetHere tree.now P op named.now target.new }
{
    match slot_at(tree, memory.heap(), named, target, at) {
        Some(slot) => match memory.put(at, slot, value) {
            Put::Done | Put::Outside => Completed::Gives(None),
        },
        None => Completed::Stuck,
    }
}

// ---- where a field is in an object

// The number of the field among the values of the object of a reference: their count where it is as great or greater.
fn slot_at(
    tree: &Tree,
    heap: &Heap,
    named: &Text,
    target: &mut FieldTarget,
    at: Ref,
) -> Option<usize>
    ensures slot { (P : Program) (op : Op)
        → IsTargetHere tree.now P op named.now target.old
        → result ≡ slot_at P heap.now named.now target.old.field at }
    ensures kept { (P : Program) (op : Op)
        → IsTargetHere tree.now P op named.now target.old
        → IsTargetHere tree.now P op named.now target.new }
{
    match heap.object(at) {
        Some(object) => slot_in(tree, named, target, object),
        None => None,
    }
}

// The number of the field among an object's values. There is none where the object is of no class of the folder or does not
// conform to the named class.
fn slot_in(tree: &Tree, named: &Text, target: &mut FieldTarget, object: &Object) -> Option<usize>
    ensures slot { (P : Program) (op : Op)
        → IsTargetHere tree.now P op named.now target.old
        → result ≡ slot_in P named.now target.old.field object.now }
    ensures kept { (P : Program) (op : Op)
        → IsTargetHere tree.now P op named.now target.old
        → IsTargetHere tree.now P op named.now target.new }
{
    let Shape::Folder(class) = &object.shape else {
        return None;
    };
    match seen_slot(tree, named, &target.field, &mut target.seen, *class) {
        Some(slot) => Some(slot.min(object.values.len())),
        None => None,
    }
}

// The number of the field in objects of a class of the folder, or `usize::MAX` where it is as great or greater. It is remembered.
fn seen_slot(
    tree: &Tree,
    named: &Text,
    field: &Reference,
    seen: &mut Option<SeenSlot>,
    class: usize,
) -> Option<usize>
    ensures slot { (P : Program)
        → IsProgram tree.now P
        → IfSome seen.old (IsSeenSlot P named.now field.now)
        → result ≡ capped usize.MAX (slot_of P named.now field.now class) }
    ensures kept { (P : Program)
        → IsProgram tree.now P
        → IfSome seen.old (IsSeenSlot P named.now field.now)
        → IfSome seen.new (IsSeenSlot P named.now field.now) }
{
    if let Some(last) = *seen
        && last.class == class
    {
        return Some(last.slot);
    }
    match searched_slot(tree, named, field, class) {
        Some(slot) => {
            if slot < usize::MAX {
                *seen = Some(SeenSlot { class, slot });
            }
            Some(slot)
        }
        None => None,
    }
}

// The same by a search.
fn searched_slot(tree: &Tree, named: &Text, field: &Reference, class: usize) -> Option<usize>
    ensures { (P : Program)
        → IsProgram tree.now P
        → result ≡ capped usize.MAX (slot_of P named.now field.now class) }
{
    if shape_conforms(tree, &Shape::Folder(class), named.bytes()) {
        slot_in_class(tree, class, field)
    } else {
        None
    }
}
