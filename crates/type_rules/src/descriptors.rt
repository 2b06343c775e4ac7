//! What the descriptors of fields and methods say (JVM Specification SE 8, 4.3).
ghost use Rattle.std.specs.Prelude.{◌≡◌, ◌-◌, ℕ, List, length, take, IfOk};
ghost use Rattle.class_model.specs.Descriptors.{SpellsDescriptor, parameters_of, type_of};
ghost use Rattle.class_model.specs.ModifiedUtf8.{IsText};
ghost use Rattle.class_model.specs.PoolChecks.{IsMethodDescriptor};
ghost use Rattle.class_model.specs.declared.descriptor.Descriptor.{Descriptor};
ghost use Rattle.member_link.specs.Rows.MemberRows.{result_types};
ghost use Rattle.member_link.specs.Signatures.{result_of};
ghost use Rattle.type_rules.specs.Inner.Signatures.{IsMemberDescriptor};
ghost use Rattle.type_rules.specs.Inner.Steps.{given};

use class_model::{
    Descriptor, FieldType, NameFault, NoMemory, Text, VType, a_descriptor_of_a_text,
    parameters_are_spelled, parse_descriptor,
};
use code_bytes::verification_type;
use std::alloc::Global;

/// The type of a field with this descriptor. What is no field's descriptor stands for itself.
pub(crate) fn field_type(alloc: Global, desc: &Text) -> Result<FieldType, NoMemory>
    requires { IsMemberDescriptor desc.now }
    ensures { IfOk result (λ type. type ≡ type_of desc.now) }
{
    let Some((first, rest)) = desc.bytes().split_first() else {
        return Ok(FieldType::Named(desc.copy()?));
    };
    match *first {
        b'B' => Ok(FieldType::Byte),
        b'C' => Ok(FieldType::Char),
        b'D' => Ok(FieldType::Double),
        b'F' => Ok(FieldType::Float),
        b'I' => Ok(FieldType::Int),
        b'J' => Ok(FieldType::Long),
        b'S' => Ok(FieldType::Short),
        b'Z' => Ok(FieldType::Bool),
        b'L' => class_type(alloc, rest),
        _ => Ok(FieldType::Named(desc.copy()?)),
    }
}

// The class type whose name stands before the last byte.
fn class_type(alloc: Global, bytes: &[u8]) -> Result<FieldType, NoMemory>
    requires { IsText (take (length bytes.now - 1) bytes.now) }
    ensures { IfOk result (λ type. type ≡ FieldType.Named (take (length bytes.now - 1) bytes.now)) }
{
    let name = Text::of_text(alloc, &bytes[..bytes.len().saturating_sub(1)])?;
    Ok(FieldType::Named(name))
}

/// The method descriptor that a text spells.
pub(crate) fn method_descriptor(alloc: Global, desc: &Text) -> Result<Descriptor, NoMemory>
    requires { IsMethodDescriptor desc.now }
    ensures { IfOk result (SpellsDescriptor desc.now) }
{
    // its bytes are a text
    let _bytes = desc.bytes();
    a_descriptor_of_a_text();
    match parse_descriptor(alloc, desc) {
        Ok(descriptor) => Ok(descriptor),
        Err(NameFault::NoMemory) => Err(NoMemory),
        Err(NameFault::BadName) => unreachable!(),
    }
}

/// The type of what a method of this descriptor gives, or none.
pub(crate) fn result_type(descriptor: &Descriptor) -> Result<Option<VType>, NoMemory>
    ensures { IfOk result (λ type. given type ≡ result_types descriptor.now.result) }
{
    Ok(match &descriptor.result {
        Some(result) => Some(verification_type(result)?),
        None => None,
    })
}

/// A law: the text of a method descriptor gives back its parameters and its result.
pub(crate) fn a_descriptor_is_read_back()
    ensures { (text : List ℕ) (descriptor : Descriptor)
        → SpellsDescriptor text descriptor
        → (parameters_of text ≡ descriptor.params) × (result_of text ≡ descriptor.result) }
{
    parameters_are_spelled();
}
