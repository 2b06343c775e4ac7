//! The frame that the code of a method begins with (JVM Specification SE 8, 4.10.1.6).
ghost use Rattle.std.specs.Prelude.{◌≡◌, ◌^◌, ◌-◌, ◌<◌, ◌++◌, length, map, replicate, IfOk, OnOk};
ghost use Rattle.std.specs.Option.{option_copied};
ghost use Rattle.class_model.specs.Code.{verification_type};
ghost use Rattle.class_model.specs.Descriptors.{parameters_of};
ghost use Rattle.class_model.specs.Frames.{units, units_of_entries};
ghost use Rattle.class_model.specs.Members as members;
ghost use Rattle.class_model.specs.Methods.{IsDescriptorOf, entry_of, home_of};
ghost use Rattle.class_model.specs.PoolChecks.{utf8_at, text_or_empty};
ghost use Rattle.code_bytes.specs.Entry.{class_entry, this_entries};

use crate::descriptor::method_descriptor;
use class_model::{
    ACC_STATIC, ClassFile, CodePart, FieldType, Frame, INIT, ListOf, LocalTypeList, Method,
    NoMemory, Pool, Text, VType,
};
use std::alloc::Global;

/// The frame that a method's code begins with: `this` and the parameters, which are those of its descriptor, a long or double
/// followed by `Top`, and `Top` in the other locals.
pub fn entry_frame(
    alloc: Global,
    class: &ClassFile,
    method: &Method,
    part: &CodePart,
    params: &[FieldType],
) -> Result<Frame, NoMemory>
    requires { params.now ≡ parameters_of (text_or_empty (utf8_at class.now.pool method.now.desc)) }
    ensures { IfOk result (λ frame. frame ≡ entry_of (home_of class.now) method.now part.now) }
{
    let this = class.pool.class_name(class.this_class);
    let mut locals = locals_of(alloc, &class.pool, this, method.flags, method.name, params)?;
    locals.fill(usize::from(part.max_locals));
    Ok(Frame {
        locals,
        stack: ListOf::new(alloc),
    })
}

/// The locals that `this` and the parameters take where the code of a method begins, of a class of this name: a long or
/// double is followed by `Top`. The name of the method is that at an index of the pool.
pub fn entry_locals(
    alloc: Global,
    pool: &Pool,
    class: Option<&Text>,
    flags: u16,
    name: u16,
    desc: &Text,
) -> Result<LocalTypeList, NoMemory>
    requires { IsDescriptorOf flags desc.now }
    ensures { IfOk result
        (λ locals. locals ≡ this_entries flags (utf8_at pool.now name) (option_copied class.entry)
        ++ units_of_entries (map verification_type (parameters_of desc.now))) }
{
    let descriptor = method_descriptor(alloc, desc, flags)?;
    locals_of(
        alloc,
        pool,
        class,
        flags,
        name,
        descriptor.params.as_slice(),
    )
}

// The same, of these parameters.
fn locals_of(
    alloc: Global,
    pool: &Pool,
    class: Option<&Text>,
    flags: u16,
    name: u16,
    params: &[FieldType],
) -> Result<LocalTypeList, NoMemory>
    ensures { IfOk result
        (λ locals. locals ≡ this_entries flags (utf8_at pool.now name) (option_copied class.entry)
        ++ units_of_entries (map verification_type params.now)) }
{
    let mut locals = LocalTypeList::new(alloc);
    push_this(&mut locals, pool, class, flags, name)?;
    for param in params {
        push_units(&mut locals, verification_type(param)?)?;
    }
    Ok(locals)
}

// Appends the type of `this`, if a method has one.
fn push_this(
    locals: &mut LocalTypeList,
    pool: &Pool,
    class: Option<&Text>,
    flags: u16,
    name: u16,
) -> Result<(), NoMemory>
    requires { length locals.old < 2 ^ 64 - 1 }
    ensures { OnOk result (locals.new ≡ locals.old
        ++ this_entries flags (utf8_at pool.now name) (option_copied class.entry)) }
{
    if is_static(flags) {
        return Ok(());
    }
    let this = if is_text(pool, INIT, name) {
        VType::UninitThis
    } else {
        class_type(class)?
    };
    locals.push(this)
}

// Whether a method has no `this`.
fn is_static(flags: u16) -> bool
    ensures { result ≡ members.has flags members.STATIC }
{
    flags & ACC_STATIC != 0
}

// The type of an instance of a class.
fn class_type(name: Option<&Text>) -> Result<VType, NoMemory>
    ensures { IfOk result (λ type. type ≡ class_entry (option_copied name.entry)) }
{
    Ok(match name {
        Some(name) => VType::Object(name.copy()?),
        None => VType::Top,
    })
}

/// The verification type of a value of a field type. It shares the bytes of a name.
pub fn verification_type(field_type: &FieldType) -> Result<VType, NoMemory>
    ensures { IfOk result (λ type. type ≡ verification_type field_type.now) }
{
    Ok(match field_type {
        FieldType::Byte | FieldType::Char | FieldType::Short | FieldType::Bool | FieldType::Int =>
            VType::Int,
        FieldType::Long => VType::Long,
        FieldType::Float => VType::Float,
        FieldType::Double => VType::Double,
        FieldType::Named(name) => VType::Object(name.copy()?),
    })
}

// Appends the local units of an entry: a long or double is followed by `Top`.
fn push_units(locals: &mut LocalTypeList, entry: VType) -> Result<(), NoMemory>
    requires { length locals.old < 2 ^ 64 - 2 }
    ensures { OnOk result (locals.new ≡ locals.old ++ units entry) }
{
    let is_wide = matches!(&entry, VType::Long | VType::Double);
    locals.push(entry)?;
    if is_wide {
        locals.push(VType::Top)?;
    }
    Ok(())
}

/// Whether the Utf8 constant at an index is there and has this text.
pub fn is_text(pool: &Pool, wanted: &[u8], index: u16) -> bool
    ensures { result ≡ members.is_text wanted.now (utf8_at pool.now index) }
{
    match pool.utf8(index) {
        Some(text) => text.bytes() == wanted,
        None => false,
    }
}
