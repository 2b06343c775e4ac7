//! Writing verification types (JVM Specification SE 8, 4.7.4).
ghost use Rattle.std.specs.Prelude.{◌≡◌, ◌∷◌, ◌++◌, OnOk};
ghost use Rattle.std.specs.List.{AllByRecursion};
ghost use Rattle.class_model.specs.Frames.{entries_of_units};
ghost use Rattle.map_frames.specs.Inner.Tags.{tag_of};
ghost use Rattle.map_frames.specs.Writing.{FitsType, type_bytes, types_bytes};

use crate::class_indices::ClassIndices;
use crate::local_units::first_entry;
use class_model::frame_tags::{
    ITEM_DOUBLE, ITEM_FLOAT, ITEM_INTEGER, ITEM_LONG, ITEM_NULL, ITEM_OBJECT, ITEM_TOP,
    ITEM_UNINITIALIZED, ITEM_UNINITIALIZED_THIS,
};
use class_model::{NoMemory, VType, push_u2};

/// Appends types, each as an entry.
pub(crate) fn push_types(
    out: &mut Vec<u8>,
    classes: &ClassIndices,
    types: &[VType],
) -> Result<(), NoMemory>
    requires { AllByRecursion (FitsType classes.now) types.now }
    ensures { OnOk result (out.new.items ≡ out.old.items ++ types_bytes classes.now types.now) }
{
    for kind in types {
        push_type(out, classes, kind)?;
    }
    Ok(())
}

/// Appends the entries that list local units.
pub(crate) fn push_entries(
    out: &mut Vec<u8>,
    classes: &ClassIndices,
    units: &[VType],
) -> Result<(), NoMemory>
    requires { AllByRecursion (FitsType classes.now) (entries_of_units units.now) }
    ensures { OnOk result
        (out.new.items ≡ out.old.items ++ types_bytes classes.now (entries_of_units units.now)) }
{
    let mut rest = units;
    while let Some((entry, others)) = first_entry(rest) {
        push_type(out, classes, entry)?;
        rest = others;
    }
    Ok(())
}

// Appends a type: its tag, and the index of its class or the offset of its new.
fn push_type(out: &mut Vec<u8>, classes: &ClassIndices, kind: &VType) -> Result<(), NoMemory>
    requires { FitsType classes.now kind.now }
    ensures { OnOk result (out.new.items ≡ out.old.items ++ type_bytes classes.now kind.now) }
{
    out.push(tag_of(kind))?;
    match kind {
        VType::Object(name) => push_u2(out, classes.get(name)),
        VType::Uninit(at) => push_u2(out, *at as u16),
        _ => Ok(()),
    }
}

fn tag_of(kind: &VType) -> u8
    ensures { result ≡ tag_of kind.now }
{
    match kind {
        VType::Top => ITEM_TOP,
        VType::Int => ITEM_INTEGER,
        VType::Float => ITEM_FLOAT,
        VType::Double => ITEM_DOUBLE,
        VType::Long => ITEM_LONG,
        VType::Null => ITEM_NULL,
        VType::UninitThis => ITEM_UNINITIALIZED_THIS,
        VType::Object(_) => ITEM_OBJECT,
        VType::Uninit(_) => ITEM_UNINITIALIZED,
    }
}
