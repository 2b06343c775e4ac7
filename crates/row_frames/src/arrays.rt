//! Instructions on arrays (JVM Specification SE 8, 6.5).
ghost use Rattle.std.specs.Prelude.{◌≡◌, ◌-◌, [], ◌∷◌, length, take, Some, IfOk};
ghost use Rattle.class_model.specs.ArrayTypes.{component_of};
ghost use Rattle.class_model.specs.Characters.{left_bracket};
ghost use Rattle.class_model.specs.Descriptors.{named_text};
ghost use Rattle.class_model.specs.PoolChecks.{class_at};
ghost use Rattle.class_model.specs.declared.opcodes.TheConstants.{AALOAD};
ghost use Rattle.member_link.specs.RowScope.{RowScope};
ghost use Rattle.member_link.specs.Rows.ArrayRows as rows;
ghost use Rattle.member_link.specs.Rows.Row.{row_frame};
ghost use Rattle.row_frames.specs.Behind.{HasText};
ghost use Rattle.row_frames.specs.Inner.Rows.{IsBehindRow};
ghost use Rattle.row_frames.specs.Inner.Scopes.{scope_with};

use crate::names::object_of;
use crate::step::{Step, lowest_of};
use class_model::array_codes::{
    T_BOOLEAN, T_BYTE, T_CHAR, T_DOUBLE, T_FLOAT, T_INT, T_LONG, T_SHORT,
};
use class_model::opcodes::{IALOAD, IASTORE};
use class_model::{Frame, NoMemory, Text, VType};
use class_tree::is_array;
use std::alloc::Global;

/// Pushes an element.
pub(crate) fn load(step: &Step<'_>, opcode: u8) -> Result<Option<Frame>, NoMemory>
    ensures { IfOk result
        (IsBehindRow step.now.before.now (rows.array_load_row step.now.before.now opcode)) }
{
    match opcode.checked_sub(IALOAD) {
        Some(0) => step.replaced(2, Some(VType::Int)),
        Some(1) => step.replaced(2, Some(VType::Long)),
        Some(2) => step.replaced(2, Some(VType::Float)),
        Some(3) => step.replaced(2, Some(VType::Double)),
        Some(4) => load_reference(step),
        Some(5) => step.replaced(2, Some(VType::Int)),
        Some(6) => step.replaced(2, Some(VType::Int)),
        Some(7) => step.replaced(2, Some(VType::Int)),
        _ => step.no_row(),
    }
}

/// Pops a value into an element.
pub(crate) fn store(step: &Step<'_>, opcode: u8) -> Result<Option<Frame>, NoMemory>
    ensures { IfOk result (λ frame. frame
        ≡ row_frame step.now.before.now (rows.array_store_row step.now.before.now opcode)) }
{
    match opcode.checked_sub(IASTORE) {
        Some(0) => step.pops(3),
        Some(1) => step.pops(3),
        Some(2) => step.pops(3),
        Some(3) => step.pops(3),
        Some(4) => step.pops(3),
        Some(5) => step.pops(3),
        Some(6) => step.pops(3),
        Some(7) => step.pops(3),
        _ => step.no_row(),
    }
}

// Pops an array of references and an index, and pushes an element.
fn load_reference(step: &Step<'_>) -> Result<Option<Frame>, NoMemory>
    ensures { IfOk result
        (IsBehindRow step.now.before.now (rows.array_load_row step.now.before.now AALOAD)) }
{
    let top = VType::Top;
    let array = lowest_of(step.before.stack.as_slice(), 2, &top);
    match element_type(step.alloc, array)? {
        Some(element) => step.replaced(2, Some(element)),
        None => Ok(None),
    }
}

// The type of the elements of an array of references, if its name is a text.
fn element_type(alloc: Global, array: &VType) -> Result<Option<VType>, NoMemory>
    ensures { IfOk result (λ element.
        HasText (rows.component_type array.now)
        → element ≡ Some (rows.component_type array.now)) }
{
    match array {
        VType::Object(name) => object_of(alloc, component_of(name.bytes())),
        _ => Ok(Some(VType::Null)),
    }
}

// The component of an array of references by its descriptor.
fn component_of(array: &[u8]) -> &[u8]
    ensures { result.now ≡ component_of array.now }
{
    let Some((_, inner)) = array.split_first() else {
        return array;
    };
    let Some((first, name)) = inner.split_first() else {
        return inner;
    };
    if *first == b'L' {
        without_last(name)
    } else {
        inner
    }
}

// The bytes without the last of them.
fn without_last(bytes: &[u8]) -> &[u8]
    ensures { result.now ≡ take (length bytes.now - 1) bytes.now }
{
    &bytes[..bytes.len().saturating_sub(1)]
}

/// Makes an array of a primitive type.
pub(crate) fn new_array(step: &Step<'_>, code: u8) -> Result<Option<Frame>, NoMemory>
    ensures { IfOk result (λ frame. frame
        ≡ row_frame step.now.before.now (rows.new_array_row step.now.before.now code)) }
{
    let name: &[u8] = match code {
        T_BOOLEAN => b"[Z",
        T_CHAR => b"[C",
        T_FLOAT => b"[F",
        T_DOUBLE => b"[D",
        T_BYTE => b"[B",
        T_SHORT => b"[S",
        T_INT => b"[I",
        T_LONG => b"[J",
        _ => return step.no_row(),
    };
    step.replaced(1, Some(VType::Object(Text::of_plain(step.alloc, name)?)))
}

/// Makes an array of a class or of arrays.
pub(crate) fn new_ref_array(step: &Step<'_>, index: u16) -> Result<Option<Frame>, NoMemory>
    ensures { IfOk result (λ frame. (s : RowScope)
        → IsBehindRow step.now.before.now
        (rows.new_ref_array_row (scope_with s step.now.pool.now step.now.own.now)
        step.now.before.now index) frame) }
{
    let Some(name) = step.pool.class_name(index) else {
        return step.no_row();
    };
    let array = array_of(step.alloc, name.bytes())?;
    match object_of(step.alloc, array.as_slice())? {
        Some(made) => step.replaced(1, Some(made)),
        None => Ok(None),
    }
}

// The name of the array of a class or array.
fn array_of(alloc: Global, name: &[u8]) -> Result<Vec<u8>, NoMemory>
    ensures { IfOk result (λ array. array.items ≡ left_bracket ∷ named_text name.now) }
{
    let mut array = Vec::with_capacity(alloc, name.len() + 3)?;
    array.push(b'[')?;
    if is_array(name) {
        array.extend_from_slice(name)?;
        return Ok(array);
    }
    array.push(b'L')?;
    array.extend_from_slice(name)?;
    array.push(b';')?;
    Ok(array)
}

/// Makes an array of arrays with so many counts.
pub(crate) fn new_multi(
    step: &Step<'_>,
    index: u16,
    dimensions: u8,
) -> Result<Option<Frame>, NoMemory>
    ensures { IfOk result (λ frame. (s : RowScope)
        → frame ≡ row_frame step.now.before.now
        (rows.new_multi_row (scope_with s step.now.pool.now step.now.own.now)
        step.now.before.now index dimensions)) }
{
    match step.pool.class_name(index) {
        Some(name) => made(step, dimensions, name),
        None => step.no_row(),
    }
}

// Pops so many counts and pushes an array of this name.
fn made(step: &Step<'_>, dimensions: u8, name: &Text) -> Result<Option<Frame>, NoMemory>
    ensures { IfOk result (λ frame. frame
        ≡ row_frame step.now.before.now
        (rows.made_row step.now.before.now dimensions (Some name.now))) }
{
    step.replaced(usize::from(dimensions), Some(VType::Object(name.copy()?)))
}
