//! Static fields (JVM Specification SE 8, 5.5 and 6.5: getstatic, putstatic). A field of the folder is found by the numbers of its
//! class and of itself there.
ghost use Rattle.std.specs.Prelude.{◌≡◌, List, true, Some, IfOk};
ghost use Rattle.machine_values.specs.declared.value.Value.{Value as Operand};
ghost use Rattle.member_link.specs.Machine.FieldSteps.{begun_first, get_static_work, got_static, put_static_begun, put_static_value, put_static_work, static_number};
ghost use Rattle.member_link.specs.Machine.Programs.{Program, folder_number};
ghost use Rattle.member_link.specs.Machine.Worlds.{static_value};
ghost use Rattle.member_link.specs.References.{Reference as Named};
ghost use Rattle.machine_step.specs.Completing.{Completes};
ghost use Rattle.member_link.specs.RunOps.{IsFieldOp, IsFieldTarget, IsStoredAs, home_class};
ghost use Rattle.member_link.specs.declared.run_op.FieldOp.{FieldOp as Op};

use crate::completed::{Asked, Completed};
use crate::fields::{fits, kept};
use crate::memory::Memory;
use crate::objects::unbegun;
use class_model::{FieldType, NoMemory};
use machine_heap::blank_of_kind;
use machine_values::Value;
use member_link::{FieldHome, FieldOp, FieldTarget, Throwable};

// ---- reads

/// A `getstatic`, behind the beginning of the class that declares the field if that is one of the folder.
///
/// # Errors
///
/// `NoMemory` where memory runs out.
pub(crate) fn get_static(memory: &Memory, op: &FieldOp) -> Result<Completed, NoMemory>
    ensures { IfOk result (λ completed. (P : Program) (operands : List Operand)
        → IsFieldOp P op.now
        → Completes memory.now memory.now operands completed
        (get_static_work P memory.now (P.links.field op.now.named))) }
{
    match &op.found {
        Some(target) if target.is_static => got_begun(memory, target),
        _ => Ok(Completed::Stuck),
    }
}

// A read of a static field.
fn got_begun(memory: &Memory, target: &FieldTarget) -> Result<Completed, NoMemory>
    ensures { IfOk result (λ completed. (P : Program) (op : Op) (operands : List Operand)
        → IsFieldTarget P op target.now
        → Completes memory.now memory.now operands completed
        (begun_first P memory.now target.now.field.class
        (got_static P memory.now target.now.field
        (folder_number P target.now.field.class)))) }
{
    if let Some(class) = unbegun(memory, home_class(target.home)) {
        return Ok(Completed::Begins(class));
    }
    got_static(memory, target)
}

// A read of a field of a class that is begun, or of the library, which is asked.
fn got_static(memory: &Memory, target: &FieldTarget) -> Result<Completed, NoMemory>
    ensures { IfOk result (λ completed. (P : Program) (op : Op) (operands : List Operand)
        → IsFieldTarget P op target.now
        → Completes memory.now memory.now operands completed
        (got_static P memory.now target.now.field
        (folder_number P target.now.field.class))) }
{
    match target.home {
        FieldHome::Library => Ok(Completed::Asks(Asked::Get(target.field.copy()?, None))),
        FieldHome::Folder { class, number } => Ok(match number {
            Some(number) => {
                let value = static_value(memory, class, number, &target.desc);
                Completed::Gives(Some(value))
            }
            None => Completed::Stuck,
        }),
    }
}

// The value of a static field of the folder: zero or null where it was not written.
fn static_value(memory: &Memory, class: usize, number: usize, type_: &FieldType) -> Value
    ensures { (P : Program) (field : Named)
        → static_number P class field ≡ Some number
        → IsStoredAs type_.now field.desc
        → result ≡ static_value P memory.now class number }
{
    match memory.statics.get(class, number) {
        Some(value) => value,
        None => blank_of_kind(type_.kind()),
    }
}

// The class of the folder that declares a field.
fn home_class(home: FieldHome) -> Option<usize>
    ensures { result ≡ home_class home }
{
    match home {
        FieldHome::Library => None,
        FieldHome::Folder { class, .. } => Some(class),
    }
}

// ---- stores

/// A `putstatic`, behind the beginning of the class that declares the field if that is one of the folder.
///
/// # Errors
///
/// `NoMemory` where memory runs out.
pub(crate) fn put_static(
    memory: &mut Memory,
    op: &FieldOp,
    operands: &[Value],
) -> Result<Completed, NoMemory>
    ensures { IfOk result (λ completed. (P : Program)
        → IsFieldOp P op.now
        → Completes memory.old memory.new operands.now completed
        (put_static_work P memory.old (P.links.field op.now.named) op.now.initialises
        operands.now)) }
{
    match &op.found {
        Some(target) if target.is_static => put_operand(memory, target, operands),
        _ => Ok(Completed::Stuck),
    }
}

// A store into a static field.
fn put_operand(
    memory: &mut Memory,
    target: &FieldTarget,
    operands: &[Value],
) -> Result<Completed, NoMemory>
    ensures { IfOk result (λ completed. (P : Program) (op : Op)
        → IsFieldTarget P op target.now
        → target.now.is_static ≡ true
        → Completes memory.old memory.new operands.now completed
        (put_static_work P memory.old (Some target.now.field) op.initialises operands.now)) }
{
    match operands {
        [value] if fits(&target.desc, *value) => put_begun(memory, target, *value),
        _ => Ok(Completed::Stuck),
    }
}

// A store of a value of the field's kind.
fn put_begun(memory: &mut Memory, target: &FieldTarget, value: Value) -> Result<Completed, NoMemory>
    ensures { IfOk result (λ completed. (P : Program) (op : Op) (operands : List Operand)
        → IsFieldTarget P op target.now
        → Completes memory.old memory.new operands completed
        (begun_first P memory.old target.now.field.class
        (put_static_begun P memory.old target.now.field op.initialises value))) }
{
    if let Some(class) = unbegun(memory, home_class(target.home)) {
        return Ok(Completed::Begins(class));
    }
    if target.is_barred {
        return Ok(Completed::Raises(Throwable::IllegalAccess));
    }
    put_value(memory, target, kept(&target.desc, value))
}

// A store of a narrowed value into a field of a class that is begun, or of the library, which is asked.
fn put_value(memory: &mut Memory, target: &FieldTarget, value: Value) -> Result<Completed, NoMemory>
    ensures { IfOk result (λ completed. (P : Program) (op : Op) (operands : List Operand)
        → IsFieldTarget P op target.now
        → Completes memory.old memory.new operands completed
        (put_static_value P memory.old target.now.field value
        (folder_number P target.now.field.class))) }
{
    match target.home {
        FieldHome::Library => Ok(Completed::Asks(Asked::Put(target.field.copy()?, None, value))),
        FieldHome::Folder { class, number } => match number {
            Some(number) => {
                memory.put_static(class, number, value)?;
                Ok(Completed::Gives(None))
            }
            None => Ok(Completed::Stuck),
        },
    }
}
