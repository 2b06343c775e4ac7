//! The kinds of fields by their descriptors.
ghost use Rattle.std.specs.Prelude.{◌≡◌, ◌≤◌, ◌∷◌, ℕ, List};
ghost use Rattle.class_model.specs.Descriptors.{kind_of, type_of};
ghost use Rattle.constructor_methods.specs.Inner.ConstructorWords.{units_of_descs};

use class_model::{Kind, Text};

/// The kind of the values of a field of this descriptor.
pub(crate) fn field_kind(desc: &Text) -> Kind
    ensures { result ≡ kind_of (type_of desc.now) }
{
    match desc.bytes().split_first() {
        Some((first, _)) => kind_of_letter(*first),
        None => Kind::Ref,
    }
}

// The kind of the values of a field whose descriptor begins with this letter.
fn kind_of_letter(first: u8) -> Kind
    ensures { (rest : List ℕ) → result ≡ kind_of (type_of (first ∷ rest)) }
{
    if first == b'B' {
        Kind::Int
    } else if first == b'C' {
        Kind::Int
    } else if first == b'D' {
        Kind::Double
    } else if first == b'F' {
        Kind::Float
    } else if first == b'I' {
        Kind::Int
    } else if first == b'J' {
        Kind::Long
    } else if first == b'S' {
        Kind::Int
    } else if first == b'Z' {
        Kind::Int
    } else {
        Kind::Ref
    }
}

/// The local units of fields of these descriptors.
pub(crate) fn field_units(descs: &[Text]) -> u16
    requires { units_of_descs descs.now ≤ 64 }
    ensures { result ≡ units_of_descs descs.now }
{
    let mut units = 0;
    for desc in descs {
        units += field_kind(desc).units();
    }
    units
}
