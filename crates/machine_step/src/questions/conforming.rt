//! Which values conform to a type (JVM Specification SE 8, 4.10.1.2).
ghost use Rattle.std.specs.Prelude.{◌≡◌};
ghost use Rattle.class_model.specs.Descriptors.{parameters_of, type_of};
ghost use Rattle.class_model.specs.declared.descriptor.FieldType.TheVariants.{Named};
ghost use Rattle.member_link.specs.Machine.Acting.{all_conform};
ghost use Rattle.member_link.specs.Machine.Programs.{Program};
ghost use Rattle.member_link.specs.Machine.Shapes.{reference_conforms, value_conforms};
ghost use Rattle.member_link.specs.Machine.Worlds.{World};
ghost use Rattle.machine_heap.specs.Narrowings.{narrowing_of};
ghost use Rattle.member_link.specs.TreePrograms.{IsProgram};

use crate::questions::shapes::shape_conforms;
use class_model::{Kind, Text};
use class_tree::Tree;
use machine_heap::{Heap, Narrowing, has_kind};
use machine_values::{Ref, Value};
use member_link::{after_first, after_type, begins_type, first_type, kind_at, named_type};

/// Whether a reference is in the heap, and its object conforms to a class or array type. It does not allocate.
pub fn reference_conforms(tree: &Tree, heap: &Heap, at: Ref, name: &[u8]) -> bool
    ensures { (P : Program) → IsProgram tree.now P
        → result ≡ reference_conforms P heap.now at name.now }
{
    match heap.object(at) {
        Some(object) => shape_conforms(tree, &object.shape, name),
        None => false,
    }
}

/// Whether a value is null, or a reference that conforms to a class or array type. It does not allocate.
pub fn named_conforms(tree: &Tree, heap: &Heap, name: &[u8], value: Value) -> bool
    ensures { (P : Program) → IsProgram tree.now P
        → result ≡ value_conforms P heap.now (Named name.now) value }
{
    match value {
        Value::Null => true,
        Value::Ref(at) => reference_conforms(tree, heap, at, name),
        Value::Int(_) | Value::Long(_) | Value::Float(_) | Value::Double(_) => false,
    }
}

/// Whether a value is of the kind of the type that a text spells and, if it is a reference, conforms to it. Of a text that spells no type
/// it is by the first byte. It does not allocate.
pub fn text_conforms(tree: &Tree, heap: &Heap, desc: &[u8], value: Value) -> bool
    ensures { (P : Program) → IsProgram tree.now P
        → result ≡ value_conforms P heap.now (type_of desc.now) value }
{
    let kind = kind_at(desc);
    if kind == Kind::Ref {
        named_conforms(tree, heap, named_type(desc), value)
    } else {
        has_kind(kind, value)
    }
}

/// Whether values are as many as the parameters of a method descriptor, and each conforms to its parameter. It does not allocate.
pub fn arguments_conform(tree: &Tree, heap: &Heap, desc: &Text, values: &[Value]) -> bool
    ensures { (P : Program) (w : World) → IsProgram tree.now P → w.memory.heap ≡ heap.now
        → result ≡ all_conform P w (parameters_of desc.now) values.now }
{
    let mut types = after_first(desc.bytes());
    let mut values = values;
    while begins_type(types) {
        let Some((value, rest)) = values.split_first() else {
            return false;
        };
        if !text_conforms(tree, heap, first_type(types), *value) {
            return false;
        }
        types = after_type(types);
        values = rest;
    }
    values.is_empty()
}

/// What the type that a text spells keeps of an int. Of a text that spells no type it is by the first byte. It does not allocate.
pub fn narrowing_of_text(desc: &[u8]) -> Narrowing
    ensures { result ≡ narrowing_of (type_of desc.now) }
{
    match desc {
        [b'B', ..] => Narrowing::Byte,
        [b'C', ..] => Narrowing::Char,
        [b'S', ..] => Narrowing::Short,
        [b'Z', ..] => Narrowing::Boolean,
        _ => Narrowing::Whole,
    }
}
