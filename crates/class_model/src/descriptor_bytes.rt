//! Tests of descriptors over bytes that need not be a text (JVM Specification SE 8, 4.3 and 4.4.1). They
//! take no memory.
ghost use Rattle.std.specs.Prelude.{◌≡◌, ◌≤◌, ◌↔◌, ℕ, List, [], ◌∷◌, IsTrue, IsSome, IfSome, IfNone};
ghost use Rattle.class_model.specs.Code.{HasDimensions};
ghost use Rattle.class_model.specs.Descriptors.{IsReferenceName, parameter_units};
ghost use Rattle.class_model.specs.Inner.DescriptorParts.{TypeAt, TypeUnitsAt, UnitsAt};
ghost use Rattle.class_model.specs.PoolChecks.{IsFieldDescriptor, IsMethodDescriptor, BytesSpell, ReturnsVoid};
ghost use Rattle.class_model.specs.declared.descriptor.FieldType.{FieldType};
ghost use Rattle.class_model.specs.declared.descriptor.Descriptor.{Descriptor};

use crate::descriptor::{
    MAX_UNITS, after_array, after_brackets, after_byte, after_element, is_array_type,
};
use crate::names::is_class_name;

/// Whether bytes name a class or an array type: a class name in internal form, or the descriptor of an array
/// of at most 255 dimensions.
pub fn is_reference_name(bytes: &[u8]) -> bool
    ensures { IsTrue result ↔ IsReferenceName bytes.now }
{
    is_class_name(bytes) || is_array_type(bytes)
}

/// Whether bytes are a field descriptor (JVM Specification SE 8, 4.3.2). It takes no memory.
pub fn is_field_descriptor(bytes: &[u8]) -> bool
    ensures { IsTrue result ↔ IsFieldDescriptor bytes.now }
{
    match type_units_at(bytes) {
        Some((_, rest)) => rest.is_empty(),
        None => false,
    }
}

/// How many dimensions bytes have that are the descriptor of an array, or 0 for another field type; none where
/// they are no field type with brackets before it (JVM Specification SE 8, 4.3.2). There may be more than 255.
pub fn dimensions(bytes: &[u8]) -> Option<usize>
    ensures some { IfSome result
        (λ most. (least : ℕ) → HasDimensions bytes.now least ↔ (least ≤ most)) }
    ensures none { IfNone result ((least : ℕ) → ¬ HasDimensions bytes.now least) }
{
    let element = after_brackets(bytes);
    match after_element(element) {
        Some(rest) if rest.is_empty() => Some(bytes.len() - element.len()),
        _ => None,
    }
}

/// What a method descriptor (JVM Specification SE 8, 4.3.3) says of a call.
#[derive(Clone, Copy, PartialEq, Eq, Debug)]
pub struct MethodShape {
    /// The local units of the parameters, `this` not counted: at most 255.
    pub units: u16,
    /// Whether there is no result.
    pub is_void: bool,
}

/// The shape of the method descriptor that bytes are, or none where they are no method descriptor. It takes no memory.
pub fn method_shape(bytes: &[u8]) -> Option<MethodShape>
    ensures descriptor { IsSome result ↔ IsMethodDescriptor bytes.now }
    ensures units { IfSome result (λ shape. (d : Descriptor)
        → BytesSpell bytes.now d
        → shape.units ≡ parameter_units d.params) }
    ensures void { IfSome result (λ shape. IsTrue shape.is_void ↔ ReturnsVoid bytes.now) }
{
    let after = after_byte(bytes, b'(')?;
    let (units, result) = parameter_units_at(after)?;
    let is_void = is_no_result(result);
    if is_void || is_field_descriptor(result) {
        Some(MethodShape { units, is_void })
    } else {
        None
    }
}

// Whether the bytes behind the parameters say that there is no result.
fn is_no_result(bytes: &[u8]) -> bool
    ensures { IsTrue result ↔ (bytes.now ≡ 86 ∷ []) }
{
    matches!(bytes, [b'V'])
}

// The local units of the parameters at the front, up to and with their closing parenthesis, and the bytes
// after it.
fn parameter_units_at(bytes: &[u8]) -> Option<(u16, &[u8])>
    ensures some { IfSome result (λ found. UnitsAt bytes.now found.0 found.1.now) }
    ensures none { IfNone result ((units : ℕ) (rest : List ℕ) → ¬ UnitsAt bytes.now units rest) }
{
    let mut units = 0;
    let mut rest = bytes;
    loop {
        if let Some(after) = after_byte(rest, b')') {
            return Some((units, after));
        }
        let (more, after) = type_units_at(rest)?;
        units += more;
        if units > MAX_UNITS {
            return None;
        }
        rest = after;
    }
}

// The local units of a value of the field type at the front, and the bytes after that.
fn type_units_at(bytes: &[u8]) -> Option<(u16, &[u8])>
    ensures some { IfSome result (λ found. TypeUnitsAt bytes.now found.0 found.1.now) }
    ensures none { IfNone result
        ((type : FieldType) (rest : List ℕ) → ¬ TypeAt bytes.now type rest) }
{
    let (first, after) = bytes.split_first()?;
    match *first {
        b'D' | b'J' => Some((2, after)),
        b'[' => Some((1, after_array(bytes)?)),
        _ => Some((1, after_element(bytes)?)),
    }
}
