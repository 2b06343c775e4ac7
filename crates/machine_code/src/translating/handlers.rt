//! Exception tables (JVM Specification SE 8, 4.7.3).
ghost use Rattle.std.specs.Prelude.{◌≡◌, ◌∷◌, ◌++◌, [], ℕ, if◌then◌else◌, option_to_list, IfOk, OnOk};
ghost use Rattle.member_link.specs.Machine.Codes.{covers};
ghost use Rattle.machine_code.specs.Inner.Preparing.{AreHandlers, IsHandler};
ghost use Rattle.machine_code.specs.Inner.Translating.{number_of};
ghost use Rattle.machine_code.specs.Prepared.{catches_around};

use crate::prepared_method::PreparedHandler;
use crate::translating::numbers::Numbers;
use class_model::{Handler, NoMemory, Pool, Text};
use std::alloc::Global;

/// The handlers of a method, each with the number of the instruction at which it begins. One whose catch type names no class
/// catches nothing, and is left out.
///
/// # Errors
/// `NoMemory`, where memory runs out.
pub(crate) fn handlers_of(
    alloc: Global,
    pool: &Pool,
    numbers: &Numbers<'_>,
    handlers: &[Handler],
) -> Result<Vec<PreparedHandler>, NoMemory>
    ensures { IfOk result (λ made. AreHandlers pool.now numbers.now handlers.now made.items) }
{
    let mut made = Vec::with_capacity(alloc, handlers.len())?;
    for handler in handlers {
        add_handler(&mut made, handler_of(pool, numbers, handler)?)?;
    }
    Ok(made)
}

// Appends a handler, if there is one.
fn add_handler(
    made: &mut Vec<PreparedHandler>,
    handler: Option<PreparedHandler>,
) -> Result<(), NoMemory>
    ensures { OnOk result (made.new.items ≡ made.old.items ++ option_to_list handler) }
{
    if let Some(handler) = handler {
        made.push(handler)?;
    }
    Ok(())
}

// A handler, if it catches anything.
fn handler_of(
    pool: &Pool,
    numbers: &Numbers<'_>,
    handler: &Handler,
) -> Result<Option<PreparedHandler>, NoMemory>
    ensures { IfOk result
        (λ made. IsHandler pool.now numbers.now handler.now (option_to_list made)) }
{
    if handler.catch_type == 0 {
        return Ok(Some(handler_for(numbers, handler, None)));
    }
    match pool.class_name(handler.catch_type) {
        Some(name) => Ok(Some(handler_for(numbers, handler, Some(name.copy()?)))),
        None => Ok(None),
    }
}

// A handler for a class, or for everything.
fn handler_for(numbers: &Numbers<'_>, handler: &Handler, class: Option<Text>) -> PreparedHandler
    ensures { (at : ℕ)
        → catches_around (result ∷ []) at
        ≡ if covers handler.now at
        then record { to = number_of numbers.now handler.now.at; class = class } ∷ []
        else [] }
{
    PreparedHandler {
        start: u32::from(handler.start),
        end: u32::from(handler.end),
        to: numbers.of(u32::from(handler.at)),
        class,
    }
}
