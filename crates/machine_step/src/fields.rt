//! Fields (JVM Specification SE 8, 5.5 and 6.5: getstatic, putstatic, getfield, putfield).
ghost use Rattle.std.specs.Prelude.{◌≡◌, ℕ, List};
ghost use Rattle.class_model.specs.Descriptors.{kind_of, type_of};
ghost use Rattle.machine_values.specs.Values.{has_kind, narrowed};
ghost use Rattle.member_link.specs.RunOps.{IsStoredAs};

mod objects;
mod statics;

use class_model::FieldType;
use machine_heap::{Narrowing, has_kind, narrow};
use machine_values::Value;
pub(crate) use objects::{get_field, put_field};
pub(crate) use statics::{get_static, put_static};

// Whether a field of a type keeps a value: it is of the field's kind.
fn fits(type_: &FieldType, value: Value) -> bool
    ensures { (desc : List ℕ) → IsStoredAs type_.now desc
        → result ≡ has_kind (kind_of (type_of desc)) value }
{
    has_kind(type_.kind(), value)
}

// What a field of a type keeps of a value.
fn kept(type_: &FieldType, value: Value) -> Value
    ensures { (desc : List ℕ) → IsStoredAs type_.now desc
        → result ≡ narrowed (type_of desc) value }
{
    narrow(Narrowing::of(type_), value)
}
