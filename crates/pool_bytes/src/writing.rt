//! Writing the constant pool.
ghost use Rattle.std.specs.Prelude.{◌≡◌, ◌≤◌, ◌∷◌, ◌++◌, length, ℕ, IfOk, OnOk, OnErr};
ghost use Rattle.class_model.specs.Pool.{constant_at};
ghost use Rattle.class_model.specs.Spelling.{u2, constant_bytes, entry_bytes, pool_bytes};
ghost use Rattle.class_model.specs.Values.{TagsStand};
ghost use Rattle.pool_bytes.specs.Appended.{Grows};
ghost use Rattle.pool_bytes.specs.Items.{FitsItems, EntryFits};
ghost use Rattle.pool_bytes.specs.ReadBack.{IsReadBack, IsReadBackIn};
ghost use Rattle.pool_bytes.specs.Reading.{Stands};

use class_model::constant_tags::{
    CLASS_TAG, DOUBLE_TAG, FIELDREF_TAG, FLOAT_TAG, INTEGER_TAG, INTERFACE_METHODREF_TAG,
    INVOKE_DYNAMIC_TAG, LONG_TAG, METHOD_HANDLE_TAG, METHOD_TYPE_TAG, METHODREF_TAG,
    NAME_AND_TYPE_TAG, STRING_TAG, UTF8_TAG,
};
use class_model::{ByteList, Const, ListOf, NoMemory, Pool, Text, push_u2};
use std::alloc::Global;

/// The bytes of a pool: its count and its constants. Each pool is read from them again.
///
/// # Errors
/// `NoMemory`, where memory runs out.
pub fn write_pool(alloc: Global, pool: &Pool) -> Result<ByteList, NoMemory>
    ensures same { IfOk result (λ bytes. bytes ≡ pool_bytes pool.now) }
    ensures read { IfOk result (λ bytes. Stands 52 bytes 0 pool.now (length bytes)) }
{
    let mut out = Vec::new(alloc);
    push_pool(&mut out, pool)?;
    Ok(ListOf::from_vec(out))
}

/// Appends the count of a pool and its constants. Index 0 has no constant. The pool is read from them again, in a class file
/// of any version that has the tags of its constants.
///
/// # Errors
/// `NoMemory`, where memory runs out; some bytes may then be appended behind those that stood there.
pub fn push_pool(out: &mut Vec<u8>, pool: &Pool) -> Result<(), NoMemory>
    ensures same { OnOk result (out.new.items ≡ out.old.items ++ pool_bytes pool.now) }
    ensures read { OnOk result (IsReadBack pool.now) }
    ensures read_in { OnOk result
        ((major : ℕ) → TagsStand major pool.now → IsReadBackIn major pool.now) }
    ensures err { OnErr result (Grows out.old.items out.new.items) }
{
    push_u2(out, pool.count())?;
    for index in 0..pool.count() {
        push_entry(out, pool, index)?;
    }
    Ok(())
}

// Appends the constant at an index, if one is there.
fn push_entry(out: &mut Vec<u8>, pool: &Pool, index: u16) -> Result<(), NoMemory>
    ensures same { OnOk result
        (out.new.items ≡ out.old.items ++ entry_bytes (constant_at pool.now index)) }
    ensures fits { OnOk result (EntryFits (constant_at pool.now index)) }
    ensures err { OnErr result (Grows out.old.items out.new.items) }
{
    match pool.get(index) {
        Some(constant) => push_constant(out, constant),
        None => Ok(()),
    }
}

// Appends a constant: its tag and its fields (JVM Specification SE 8, 4.4).
fn push_constant(out: &mut Vec<u8>, constant: &Const) -> Result<(), NoMemory>
    ensures same { OnOk result (out.new.items ≡ out.old.items ++ constant_bytes constant.now) }
    ensures fits { OnOk result (FitsItems constant.now) }
    ensures err { OnErr result (Grows out.old.items out.new.items) }
{
    match constant {
        Const::Utf8(text) => push_text(out, text),
        Const::Integer(number) => push_tagged(out, INTEGER_TAG, &number.to_be_bytes()),
        Const::Float(bits) => push_tagged(out, FLOAT_TAG, &bits.to_be_bytes()),
        Const::Long(number) => push_tagged(out, LONG_TAG, &number.to_be_bytes()),
        Const::Double(bits) => push_tagged(out, DOUBLE_TAG, &bits.to_be_bytes()),
        Const::Class(name) => push_tagged(out, CLASS_TAG, &name.to_be_bytes()),
        Const::String(text) => push_tagged(out, STRING_TAG, &text.to_be_bytes()),
        Const::Fieldref(class, member) => push_pair(out, FIELDREF_TAG, *class, *member),
        Const::Methodref(class, member) => push_pair(out, METHODREF_TAG, *class, *member),
        Const::InterfaceMethodref(class, member) => {
            push_pair(out, INTERFACE_METHODREF_TAG, *class, *member)
        }
        Const::NameAndType(name, descriptor) => {
            push_pair(out, NAME_AND_TYPE_TAG, *name, *descriptor)
        }
        Const::MethodHandle(kind, reference) => push_handle(out, *kind, *reference),
        Const::MethodType(descriptor) => {
            push_tagged(out, METHOD_TYPE_TAG, &descriptor.to_be_bytes())
        }
        Const::InvokeDynamic(bootstrap, member) => {
            push_pair(out, INVOKE_DYNAMIC_TAG, *bootstrap, *member)
        }
    }
}

// Appends a Utf8 constant: its tag, and the length and bytes of its text.
fn push_text(out: &mut Vec<u8>, text: &Text) -> Result<(), NoMemory>
    ensures same { OnOk result
        (out.new.items ≡ out.old.items ++ 1 ∷ (u2 (length text.now) ++ text.now)) }
    ensures fits { length text.now ≤ 65535 }
    ensures err { OnErr result (Grows out.old.items out.new.items) }
{
    let text = text.bytes();
    out.push(UTF8_TAG)?;
    push_u2(out, text.len() as u16)?;
    out.extend_from_slice(text)?;
    Ok(())
}

// Appends a MethodHandle constant: its tag, its kind and its reference.
fn push_handle(out: &mut Vec<u8>, kind: u8, reference: u16) -> Result<(), NoMemory>
    ensures ok { OnOk result (out.new.items ≡ out.old.items ++ 15 ∷ kind ∷ u2 reference) }
    ensures err { OnErr result (Grows out.old.items out.new.items) }
{
    out.push(METHOD_HANDLE_TAG)?;
    out.push(kind)?;
    push_u2(out, reference)
}

// Appends a tag and two indices.
fn push_pair(out: &mut Vec<u8>, tag: u8, first: u16, second: u16) -> Result<(), NoMemory>
    ensures ok { OnOk result (out.new.items ≡ out.old.items ++ tag ∷ (u2 first ++ u2 second)) }
    ensures err { OnErr result (Grows out.old.items out.new.items) }
{
    out.push(tag)?;
    push_u2(out, first)?;
    push_u2(out, second)
}

// Appends a tag and the bytes of a field.
fn push_tagged(out: &mut Vec<u8>, tag: u8, field: &[u8]) -> Result<(), NoMemory>
    ensures ok { OnOk result (out.new.items ≡ out.old.items ++ tag ∷ field.now) }
    ensures err { OnErr result (Grows out.old.items out.new.items) }
{
    out.push(tag)?;
    out.extend_from_slice(field)?;
    Ok(())
}
