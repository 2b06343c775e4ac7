//! What the static fields of a class begin with (JVM Specification SE 8, 4.7.2).
ghost use Rattle.std.specs.Prelude.{◌≡◌, ℕ, Some, zero, IfOk, OnOk};
ghost use Rattle.std.specs.Option.{option_copied};
ghost use Rattle.class_model.specs.Descriptors.{type_of};
ghost use Rattle.class_model.specs.Instructions.{u2_in};
ghost use Rattle.class_model.specs.Members.{constant_value, is_named, raw_content};
ghost use Rattle.class_model.specs.PoolChecks.{text_or_empty, utf8_at};
ghost use Rattle.member_link.specs.Machine.Beginnings.{starts_of, with_starts};
ghost use Rattle.member_link.specs.Machine.Classes.{constant_of, start_of, starts_from};
ghost use Rattle.member_link.specs.Machine.Programs.{Program};
ghost use Rattle.member_link.specs.Machine.Worlds.{field_desc};
ghost use Rattle.machine_heap.specs.Narrowings.{narrowing_of};
ghost use Rattle.member_link.specs.TreePrograms.{IsProgram};
ghost use Rattle.machine_run.specs.Inner.StartWords.{AreFieldsOf, put_if, start_if, with_start_if};

use class_model::{ACC_STATIC, Attr, ClassFile, Const, Field, NoMemory, Pool, has};
use class_tree::Tree;
use machine_heap::{Narrowing, narrow};
use machine_step::{Memory, narrowing_of_text};
use machine_values::{Constant, Value};

/// Writes the static fields of a class of the folder that have a constant value.
///
/// # Errors
///
/// `NoMemory` where memory runs out.
pub(crate) fn start_fields(tree: &Tree, memory: &mut Memory, class: usize) -> Result<(), NoMemory>
    ensures { OnOk result ((P : Program) → IsProgram tree.now P
        → memory.new ≡ with_starts P class memory.old (starts_of P class)) }
{
    match tree.folder().get(class) {
        Some(file) => start_each(memory, class, file),
        None => Ok(()),
    }
}

// Of the class of this class file.
fn start_each(memory: &mut Memory, class: usize, file: &ClassFile) -> Result<(), NoMemory>
    ensures { OnOk result ((P : Program) → AreFieldsOf P class file.now
        → memory.new
        ≡ with_starts P class memory.old (starts_from file.now.pool zero file.now.fields)) }
{
    let fields = file.fields.as_slice();
    for number in 0..fields.len() {
        start_field(memory, class, number, &file.pool, &fields[number])?;
    }
    Ok(())
}

// The field of a number among those of its class.
fn start_field(
    memory: &mut Memory,
    class: usize,
    number: usize,
    pool: &Pool,
    field: &Field,
) -> Result<(), NoMemory>
    ensures { OnOk result ((P : Program)
        → field_desc P class number ≡ text_or_empty (utf8_at pool.now field.now.desc)
        → memory.new ≡ with_start_if P class memory.old number (start_if pool.now field.now)) }
{
    if !has(field.flags, ACC_STATIC) {
        return Ok(());
    }
    match constant_of(pool, field.attrs.as_slice()) {
        Some(constant) => {
            let narrowing = narrowing_at(pool, field.desc);
            start_with(memory, class, number, pool, narrowing, constant)
        }
        None => Ok(()),
    }
}

// With this constant, narrowed.
fn start_with(
    memory: &mut Memory,
    class: usize,
    number: usize,
    pool: &Pool,
    narrowing: Narrowing,
    constant: &Const,
) -> Result<(), NoMemory>
    ensures { OnOk result ((P : Program)
        → narrowing ≡ narrowing_of (type_of (field_desc P class number))
        → memory.new
        ≡ with_start_if P class memory.old number (start_of pool.now (Some constant.now))) }
{
    match start_value(memory, pool, constant)? {
        Some(value) => memory.put_static(class, number, narrow(narrowing, value)),
        None => Ok(()),
    }
}

// The value that a field begins with by its constant: a string is an object.
fn start_value(
    memory: &mut Memory,
    pool: &Pool,
    constant: &Const,
) -> Result<Option<Value>, NoMemory>
    ensures { IfOk result (λ value. (P : Program) (class number : ℕ)
        → with_start_if P class memory.old number (start_of pool.now (Some constant.now))
        ≡ put_if P class memory.new number value) }
{
    match constant {
        Const::Integer(number) => Ok(Some(Value::Int(*number))),
        Const::Long(number) => Ok(Some(Value::Long(*number))),
        Const::Float(bits) => Ok(Some(Value::Float(*bits))),
        Const::Double(bits) => Ok(Some(Value::Double(*bits))),
        Const::String(text) => match pool.utf8(*text) {
            Some(text) => {
                let constant = Constant::Str(text.copy()?);
                let at = memory.constant(&constant);
                // let go by a call, so that its drop is proved once
                drop(constant);
                Ok(Some(Value::Ref(at?)))
            }
            None => Ok(None),
        },
        _ => Ok(None),
    }
}

// What is kept of an int by the descriptor at an index.
fn narrowing_at(pool: &Pool, desc: u16) -> Narrowing
    ensures { result ≡ narrowing_of (type_of (text_or_empty (utf8_at pool.now desc))) }
{
    match pool.utf8(desc) {
        Some(desc) => narrowing_of_text(desc.bytes()),
        None => Narrowing::Whole,
    }
}

// ---- ConstantValue attributes

const CONSTANT_VALUE: &[u8] = b"ConstantValue";

// The constant that the first ConstantValue names.
fn constant_of<'a>(pool: &'a Pool, attrs: &[Attr]) -> Option<&'a Const>
    ensures { option_copied result ≡ constant_of pool.now attrs.now }
{
    for attr in attrs {
        if is_constant_value(pool, attr) {
            return pool.get(index_in(attr));
        }
    }
    None
}

// Whether an attribute is a ConstantValue.
fn is_constant_value(pool: &Pool, attr: &Attr) -> bool
    ensures { result ≡ is_named pool.now constant_value attr.now }
{
    let name = match attr {
        Attr::Raw { name, .. } | Attr::Code { name, .. } => *name,
    };
    match pool.utf8(name) {
        Some(name) => name.bytes() == CONSTANT_VALUE,
        None => false,
    }
}

// The index at the front of an attribute's content; bytes that it lacks count as zero.
fn index_in(attr: &Attr) -> u16
    ensures { result ≡ u2_in (raw_content attr.now) 0 }
{
    match attr {
        Attr::Raw { bytes, .. } => first_number(bytes.as_slice()),
        Attr::Code { .. } => 0,
    }
}

// The number of two bytes at the front.
fn first_number(bytes: &[u8]) -> u16
    ensures { result ≡ u2_in bytes.now 0 }
{
    match bytes {
        [high, low, ..] => u16::from_be_bytes([*high, *low]),
        [high] => u16::from_be_bytes([*high, 0]),
        [] => 0,
    }
}
