//! Types by the texts of their names and descriptors.
ghost use Rattle.std.specs.Prelude.{◌≡◌, [], ◌∷◌, Some, IfOk, option_map};
ghost use Rattle.std.specs.List.{AllByRecursion};
ghost use Rattle.class_model.specs.ModifiedUtf8.{IsText};
ghost use Rattle.member_link.specs.Rows.MemberRows.{result_types};
ghost use Rattle.member_link.specs.Signatures.{field_type, result_of};
ghost use Rattle.row_frames.specs.Behind.{HasText};
ghost use Rattle.row_frames.specs.Inner.Stacks.{given};

use class_model::{Kind, NoMemory, Text, TextFault, VType};
use member_link::{kind_at, named_type, result_text};
use std::alloc::Global;

/// An object of a class or array of this name, if the name is a text.
pub(crate) fn object_of(alloc: Global, name: &[u8]) -> Result<Option<VType>, NoMemory>
    ensures { IfOk result (λ type. IsText name.now → type ≡ Some (VType.Object name.now)) }
{
    match Text::of_bytes(alloc, name) {
        Ok(text) => Ok(Some(VType::Object(text))),
        Err(TextFault::BadText) => Ok(None),
        Err(TextFault::NoMemory) => Err(NoMemory),
    }
}

/// The type of a value of the field type that a text spells, if its name is a text.
pub(crate) fn type_of(alloc: Global, desc: &[u8]) -> Result<Option<VType>, NoMemory>
    ensures { IfOk result (λ type. HasText (field_type desc.now) → type ≡ Some (field_type desc.now)) }
{
    match kind_at(desc) {
        Kind::Int => Ok(Some(VType::Int)),
        Kind::Long => Ok(Some(VType::Long)),
        Kind::Float => Ok(Some(VType::Float)),
        Kind::Double => Ok(Some(VType::Double)),
        Kind::Ref => object_of(alloc, named_type(desc)),
    }
}

/// What a call of this descriptor pushes: a value or none, if its name is a text.
pub(crate) fn given_by(alloc: Global, desc: &[u8]) -> Result<Option<Option<VType>>, NoMemory>
    ensures { IfOk result (λ gives.
        AllByRecursion HasText (result_types (result_of desc.now))
        → option_map given gives ≡ Some (result_types (result_of desc.now))) }
{
    match result_text(desc) {
        None => Ok(Some(None)),
        Some(text) => value_of(alloc, text),
    }
}

// A value of the field type that a text spells, if its name is a text.
fn value_of(alloc: Global, desc: &[u8]) -> Result<Option<Option<VType>>, NoMemory>
    ensures { IfOk result (λ gives.
        HasText (field_type desc.now)
        → option_map given gives ≡ Some (field_type desc.now ∷ [])) }
{
    match type_of(alloc, desc)? {
        Some(value) => Ok(Some(Some(value))),
        None => Ok(None),
    }
}
