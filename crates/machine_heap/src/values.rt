//! Values by their kinds (JVM Specification SE 8, 2.6.1 and 2.11.1).
ghost use Rattle.std.specs.Prelude.{◌≡◌, [], ◌∷◌, ◌++◌, ◌-◌, List, length, map, replicate, None, IfOk, OnOk};
ghost use Rattle.class_model.specs.Descriptors.{kind_of};
ghost use Rattle.class_model.specs.declared.descriptor.FieldType.{FieldType};
ghost use Rattle.machine_values.specs.Values.{has_kind, is_wide_value, blank_of_kind, narrowed, have_kinds, units_of_values};
ghost use Rattle.machine_heap.specs.Narrowings.{narrowing_of, narrowed_int};

use class_model::{FieldType, Kind, NoMemory};
use machine_values::{LocalList, SlotList, Value};
use std::alloc::Global;

/// Whether a value is of a kind (JVM Specification SE 8, 2.11.1).
pub fn has_kind(kind: Kind, value: Value) -> bool
    ensures { result ≡ has_kind kind value }
{
    match value {
        Value::Int(_) => matches!(kind, Kind::Int),
        Value::Long(_) => matches!(kind, Kind::Long),
        Value::Float(_) => matches!(kind, Kind::Float),
        Value::Double(_) => matches!(kind, Kind::Double),
        Value::Null | Value::Ref(_) => matches!(kind, Kind::Ref),
    }
}

/// Whether a value is a long or double, which takes two local units (JVM Specification SE 8, 2.6.1).
pub fn is_wide(value: Value) -> bool
    ensures { result ≡ is_wide_value value }
{
    matches!(value, Value::Long(_) | Value::Double(_))
}

/// What a field or element of a kind holds before it is written (JVM Specification SE 8, 2.3 and 2.4).
pub fn blank_of_kind(kind: Kind) -> Value
    ensures { result ≡ blank_of_kind kind }
{
    match kind {
        Kind::Int => Value::Int(0),
        Kind::Long => Value::Long(0),
        Kind::Float => Value::Float(0),
        Kind::Double => Value::Double(0),
        Kind::Ref => Value::Null,
    }
}

/// What is kept of an int that is put into a field or array of a type, or returned at it (this project's profile).
#[derive(Clone, Copy, PartialEq, Eq)]
pub enum Narrowing {
    /// The low eight bits, with their sign.
    Byte,
    /// The low sixteen bits, with their sign.
    Short,
    /// The low sixteen bits.
    Char,
    /// The lowest bit.
    Boolean,
    /// The whole value.
    Whole,
}

impl Narrowing {
    /// What a field type keeps.
    pub fn of(type_: &FieldType) -> Narrowing
        ensures { result ≡ narrowing_of type_.now }
    {
        match type_ {
            FieldType::Byte => Narrowing::Byte,
            FieldType::Short => Narrowing::Short,
            FieldType::Char => Narrowing::Char,
            FieldType::Bool => Narrowing::Boolean,
            FieldType::Int
            | FieldType::Long
            | FieldType::Float
            | FieldType::Double
            | FieldType::Named(_) => Narrowing::Whole,
        }
    }
}

/// What is kept of the number of an int.
pub fn narrow_int(narrowing: Narrowing, number: i32) -> i32
    ensures { result ≡ narrowed_int narrowing number }
{
    match narrowing {
        Narrowing::Byte => ((number.cast_unsigned() % 256) as u8).cast_signed() as i32,
        Narrowing::Short => ((number.cast_unsigned() % 65536) as u16).cast_signed() as i32,
        Narrowing::Char => (number.cast_unsigned() % 65536) as i32,
        Narrowing::Boolean => (number.cast_unsigned() % 2) as i32,
        Narrowing::Whole => number,
    }
}

/// What is kept of a value where it is put into a field or array, or returned (this project's profile).
pub fn narrow(narrowing: Narrowing, value: Value) -> Value
    ensures { (type : FieldType) → narrowing ≡ narrowing_of type → result ≡ narrowed type value }
{
    match value {
        Value::Int(number) => Value::Int(narrow_int(narrowing, number)),
        other => other,
    }
}

/// Whether values are of the kinds of types, one by one. The kinds are found once for a method.
pub fn have_kinds(kinds: &[Kind], values: &[Value]) -> bool
    ensures { (types : List FieldType) → map kind_of types ≡ kinds.now
        → result ≡ have_kinds types values.now }
{
    if kinds.len() != values.len() {
        return false;
    }
    for at in 0..kinds.len() {
        if !has_kind(kinds[at], values[at]) {
            return false;
        }
    }
    true
}

/// The locals with which a method starts: its arguments in local units, then units without a value, up to so many units in all
/// (JVM Specification SE 8, 2.6.1).
///
/// # Errors
///
/// `NoMemory` where memory runs out.
pub fn locals_of(alloc: Global, values: &[Value], locals: usize) -> Result<LocalList, NoMemory>
    ensures { IfOk result (λ list. list ≡ units_of_values values.now
        ++ replicate (locals - length (units_of_values values.now)) None) }
{
    let mut units = Vec::with_capacity(alloc, locals)?;
    push_units(&mut units, values)?;
    if units.len() < locals {
        units.resize(locals, None)?;
    }
    Ok(SlotList::from_vec(units))
}

/// Appends the units of values.
fn push_units(units: &mut Vec<Option<Value>>, values: &[Value]) -> Result<(), NoMemory>
    ensures { OnOk result (units.new.items ≡ units.old.items ++ units_of_values values.now) }
{
    for value in values {
        push_value(units, value)?;
    }
    Ok(())
}

/// Appends the units of a value.
fn push_value(units: &mut Vec<Option<Value>>, value: &Value) -> Result<(), NoMemory>
    ensures { OnOk result (units.new.items ≡ units.old.items ++ units_of_values (value.now ∷ [])) }
{
    units.push(Some(*value))?;
    if is_wide(*value) {
        units.push(None)?;
    }
    Ok(())
}
