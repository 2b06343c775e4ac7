//! The locals of a frame by unit (JVM Specification SE 8, 2.6.1).
ghost use Rattle.std.specs.Prelude.{◌≡◌, ◌+◌, ◌^◌, ◌<◌, ◌≤◌, false, length, slice_get, Some, None, if◌then◌else◌};
ghost use Rattle.machine_values.specs.Values.{has_kind};
ghost use Rattle.member_link.specs.Machine.Locals.{local_value, cut_before, stored, width_of};
ghost use Rattle.machine_code.specs.Inner.Units.{begins_wide, incremented_at, written};

use class_model::Kind;
use machine_heap::{has_kind, is_wide};
use machine_values::{LocalList, Value};

/// The value of a kind in a local. None where no value is there, or one of another kind.
pub fn local_value(kind: Kind, locals: &LocalList, at: usize) -> Option<Value>
    ensures { result ≡ local_value kind locals.now at }
{
    let units = locals.as_slice();
    if at >= units.len() {
        return None;
    }
    match &units[at] {
        Some(value) => if_kind(kind, value),
        None => None,
    }
}

/// The value, if it is of a kind. It does not allocate.
pub fn if_kind(kind: Kind, value: &Value) -> Option<Value>
    ensures { result ≡ (if has_kind kind value.now then Some value.now else None) }
{
    if has_kind(kind, *value) {
        Some(*value)
    } else {
        None
    }
}

/// Whether a long or double begins in a unit.
fn begins_wide(locals: &LocalList, at: usize) -> bool
    ensures { result ≡ begins_wide (slice_get locals.now at) }
{
    let units = locals.as_slice();
    if at >= units.len() {
        return false;
    }
    match &units[at] {
        Some(value) => is_wide(*value),
        None => false,
    }
}

/// Takes the long or double away whose second unit is this one.
fn cut_before(locals: &mut LocalList, at: usize)
    ensures { locals.new ≡ cut_before at locals.old }
{
    if at == 0 {
        return;
    }
    if begins_wide(locals, at - 1) {
        locals.set(at - 1, None);
    }
}

/// Stores a value in a local, if its units are there, and says whether it was stored. A long or double whose second unit is written is
/// none any more (JVM Specification SE 8, 2.6.1). It does not allocate.
pub fn store(locals: &mut LocalList, at: usize, value: Value) -> bool
    ensures stored { written result locals.new ≡ stored at value locals.old }
    ensures kept { result ≡ false → locals.new ≡ locals.old }
{
    let width = if is_wide(value) { 2 } else { 1 };
    if locals.len() < width || locals.len() - width < at {
        return false;
    }
    put(locals, at, &value);
    true
}

/// Puts a value in a local whose units are there.
fn put(locals: &mut LocalList, at: usize, value: &Value)
    requires room { at + width_of value.now ≤ length locals.old }
    requires bounded { length locals.old < 2 ^ 64 }
    ensures { stored at value.now locals.old ≡ Some locals.new }
{
    cut_before(locals, at);
    locals.set(at, Some(*value));
    if is_wide(*value) {
        locals.set(at + 1, None);
    }
}

/// Adds to the int in a local, and says whether it was stored: `iinc` (JVM Specification SE 8, 6.5). It does not allocate.
pub fn increment(locals: &mut LocalList, at: usize, by: i32) -> bool
    ensures stored { written result locals.new ≡ incremented_at at by locals.old }
    ensures kept { result ≡ false → locals.new ≡ locals.old }
{
    match local_value(Kind::Int, locals, at) {
        Some(Value::Int(number)) => store(locals, at, Value::Int(number.wrapping_add(by))),
        _ => false,
    }
}
