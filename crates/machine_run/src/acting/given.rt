//! Values that the library gives.
ghost use Rattle.std.specs.Prelude.{◌≡◌, IfOk, Some, None, Option, option_map};
ghost use Rattle.member_link.specs.Machine.Acting.{given_value, given_values};
ghost use Rattle.machine_run.specs.Inner.ActWords.{items_of};

use class_model::NoMemory;
use machine_step::KnownRefs;
use machine_values::{Given, Value};
use std::alloc::Global;

/// A value that the library gives; none where it is a reference of a number that it does not know. It does not allocate.
pub(crate) fn given_value(known: &KnownRefs, given: Given) -> Option<Value>
    ensures { result ≡ given_value known.now given }
{
    match given {
        Given::Int(number) => Some(Value::Int(number)),
        Given::Long(number) => Some(Value::Long(number)),
        Given::Float(bits) => Some(Value::Float(bits)),
        Given::Double(bits) => Some(Value::Double(bits)),
        Given::Null => Some(Value::Null),
        Given::Known(number) => match known.get(number) {
            Some(at) => Some(Value::Ref(at)),
            None => None,
        },
    }
}

/// Values that the library gives, in order; none where one is a reference that it does not know.
///
/// # Errors
///
/// `NoMemory` where memory runs out.
pub(crate) fn given_values(
    alloc: Global,
    known: &KnownRefs,
    given: &[Given],
) -> Result<Option<Vec<Value>>, NoMemory>
    ensures { IfOk result
        (λ values. option_map items_of values ≡ given_values known.now given.now) }
{
    let mut values = Vec::with_capacity(alloc, given.len())?;
    let mut rest = given;
    while let Some((one, more)) = rest.split_first() {
        match given_value(known, *one) {
            Some(value) => values.push(value)?,
            None => return Ok(None),
        }
        rest = more;
    }
    Ok(Some(values))
}
