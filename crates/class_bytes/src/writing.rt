//! Writing a class file.
ghost use Rattle.std.specs.Prelude.{◌≡◌, ◌≤◌, ◌++◌, length, IfOk, OnOk, OnErr};
ghost use Rattle.std.specs.List.{flat_map, AllByRecursion};
ghost use Rattle.class_model.specs.ClassOf.{ClassOf};
ghost use Rattle.class_model.specs.Spelling.{u2, u2s, field_bytes, method_bytes, class_bytes};
ghost use Rattle.class_model.specs.Values.{IsValue};
ghost use Rattle.class_bytes.specs.Counts.{FitsField, FitsFields, FitsMethod, FitsMethods, FitsCounts};
ghost use Rattle.class_bytes.specs.Numbers.{FieldNumbers, MethodNumbers};
ghost use Rattle.pool_bytes.specs.Appended.{Grows};
ghost use Rattle.pool_bytes.specs.Items.{IsU2};

use crate::attr_writing::push_attrs;
use crate::cut::MAGIC;
use class_model::{
    ByteList, ClassFile, Field, FieldList, IndexList, ListOf, Method, MethodList, NoMemory,
    push_u2, push_u4,
};
use pool_bytes::push_pool;
use std::alloc::Global;

/// The bytes of a class file (JVM Specification SE 8, 4.1), each list of which fits its count. It is read from them again
/// where its checks hold.
///
/// # Errors
/// `NoMemory`, where memory runs out.
pub fn write_class(alloc: Global, class: &ClassFile) -> Result<ByteList, NoMemory>
    requires { FitsCounts class.now }
    ensures same { IfOk result (λ bytes. bytes ≡ class_bytes class.now) }
    ensures read { IfOk result (λ bytes. IsValue class.now → ClassOf bytes class.now) }
{
    let mut out = Vec::new(alloc);
    push_class(&mut out, class)?;
    Ok(ListOf::from_vec(out))
}

/// Appends the bytes of a class file (JVM Specification SE 8, 4.1), each list of which fits its count.
///
/// # Errors
/// `NoMemory`, where memory runs out; some bytes may then be appended behind those that stood there.
pub fn push_class(out: &mut Vec<u8>, class: &ClassFile) -> Result<(), NoMemory>
    requires { FitsCounts class.now }
    ensures ok { OnOk result (out.new.items ≡ out.old.items ++ class_bytes class.now) }
    ensures read { OnOk result (IsValue class.now → ClassOf (class_bytes class.now) class.now) }
    ensures err { OnErr result (Grows out.old.items out.new.items) }
{
    push_u4(out, MAGIC)?;
    push_u2(out, class.minor)?;
    push_u2(out, class.major)?;
    push_pool(out, &class.pool)?;
    push_u2(out, class.flags)?;
    push_u2(out, class.this_class)?;
    push_u2(out, class.super_class)?;
    push_interfaces(out, &class.interfaces)?;
    push_fields(out, &class.fields)?;
    push_methods(out, &class.methods)?;
    push_attrs(out, &class.attrs)?;
    Ok(())
}

// Appends the number of interfaces, and their indices.
fn push_interfaces(out: &mut Vec<u8>, interfaces: &IndexList) -> Result<(), NoMemory>
    requires { length interfaces.now ≤ 65535 }
    ensures ok { OnOk result
        (out.new.items ≡ out.old.items ++ (u2 (length interfaces.now) ++ u2s interfaces.now)) }
    ensures numbers { OnOk result (AllByRecursion IsU2 interfaces.now) }
    ensures err { OnErr result (Grows out.old.items out.new.items) }
{
    let interfaces = interfaces.as_slice();
    push_u2(out, interfaces.len() as u16)?;
    for interface in interfaces {
        push_u2(out, *interface)?;
    }
    Ok(())
}

// Appends the number of fields, and the fields.
fn push_fields(out: &mut Vec<u8>, fields: &FieldList) -> Result<(), NoMemory>
    requires { FitsFields fields.now }
    ensures ok { OnOk result (out.new.items ≡ out.old.items
        ++ (u2 (length fields.now) ++ flat_map field_bytes fields.now)) }
    ensures numbers { OnOk result (AllByRecursion FieldNumbers fields.now) }
    ensures err { OnErr result (Grows out.old.items out.new.items) }
{
    let fields = fields.as_slice();
    push_u2(out, fields.len() as u16)?;
    for field in fields {
        push_field(out, field)?;
    }
    Ok(())
}

// Appends a field (JVM Specification SE 8, 4.5).
fn push_field(out: &mut Vec<u8>, field: &Field) -> Result<(), NoMemory>
    requires { FitsField field.now }
    ensures ok { OnOk result (out.new.items ≡ out.old.items ++ field_bytes field.now) }
    ensures numbers { OnOk result (FieldNumbers field.now) }
    ensures err { OnErr result (Grows out.old.items out.new.items) }
{
    push_u2(out, field.flags)?;
    push_u2(out, field.name)?;
    push_u2(out, field.desc)?;
    push_attrs(out, &field.attrs)
}

// Appends the number of methods, and the methods.
fn push_methods(out: &mut Vec<u8>, methods: &MethodList) -> Result<(), NoMemory>
    requires { FitsMethods methods.now }
    ensures ok { OnOk result (out.new.items ≡ out.old.items
        ++ (u2 (length methods.now) ++ flat_map method_bytes methods.now)) }
    ensures numbers { OnOk result (AllByRecursion MethodNumbers methods.now) }
    ensures err { OnErr result (Grows out.old.items out.new.items) }
{
    let methods = methods.as_slice();
    push_u2(out, methods.len() as u16)?;
    for method in methods {
        push_method(out, method)?;
    }
    Ok(())
}

// Appends a method (JVM Specification SE 8, 4.6).
fn push_method(out: &mut Vec<u8>, method: &Method) -> Result<(), NoMemory>
    requires { FitsMethod method.now }
    ensures ok { OnOk result (out.new.items ≡ out.old.items ++ method_bytes method.now) }
    ensures numbers { OnOk result (MethodNumbers method.now) }
    ensures err { OnErr result (Grows out.old.items out.new.items) }
{
    push_u2(out, method.flags)?;
    push_u2(out, method.name)?;
    push_u2(out, method.desc)?;
    push_attrs(out, &method.attrs)
}
