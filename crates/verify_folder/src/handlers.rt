//! Exception handlers (JVM Specification SE 8, 4.10.1.6).
ghost use Rattle.std.specs.Prelude.{◌≡◌, ◌↔◌, IfOk, IsTrue};
ghost use Rattle.class_tree.specs.Headers.{headers_of};
ghost use Rattle.class_tree.specs.Names.{throwable};
ghost use Rattle.member_link.specs.Access.{IsAtOrBelow};
ghost use Rattle.member_link.specs.Bodies.{caught_type};
ghost use Rattle.type_rules.specs.Handlers.{caught, covers};
ghost use Rattle.type_rules.specs.Inner.Handlers.{CatchesThrowables, caught_frame};
ghost use Rattle.verify_folder.specs.Inner.Steps.{TableAnswers};

use crate::stop::Stop;
use class_model::{Frame, Handler, NoMemory, Text, VType, VTypeList};
use class_tree::{THROWABLE, Tree, is_below};
use std::alloc::Global;
use type_rules::{MethodRules, TypeRule};

/// Asks that the handlers of a method catch throwables.
///
/// # Errors
/// `CatchType` at the start of the first that does not.
pub(crate) fn check_catch_types(rules: &MethodRules<'_>) -> Result<(), Stop>
    ensures { TableAnswers rules.now rules.now.part.handlers result }
{
    for handler in rules.part().handlers.as_slice() {
        if !catches_throwables(rules, handler) {
            return Err(Stop::Fails {
                offset: u32::from(handler.start),
                rule: TypeRule::CatchType,
            });
        }
    }
    Ok(())
}

// Whether a handler catches throwables.
fn catches_throwables(rules: &MethodRules<'_>, handler: &Handler) -> bool
    ensures { IsTrue result ↔ CatchesThrowables rules.now handler.now }
{
    if handler.catch_type == 0 {
        return true;
    }
    match rules.class().pool.class_name(handler.catch_type) {
        Some(name) => is_at_or_below(rules.tree(), name.bytes(), THROWABLE),
        None => false,
    }
}

// Whether a class is another or below it.
fn is_at_or_below(tree: &Tree, low: &[u8], high: &[u8]) -> bool
    ensures { IsTrue result ↔ IsAtOrBelow (headers_of tree.now) low.now high.now }
{
    low == high || is_below(tree, low, high)
}

/// Whether the range of a handler has an offset.
pub(crate) fn covers(handler: &Handler, at: u32) -> bool
    ensures { result ≡ covers handler.now at }
{
    u32::from(handler.start) <= at && at < u32::from(handler.end)
}

/// The frame that a handler begins with behind these locals. The text is the name of all throwables.
pub(crate) fn caught_frame(
    alloc: Global,
    rules: &MethodRules<'_>,
    all: &Text,
    before: &Frame,
    handler: &Handler,
) -> Result<Frame, NoMemory>
    requires { all.now ≡ throwable }
    ensures { IfOk result (λ frame. frame ≡ caught_frame rules.now before.now handler.now) }
{
    let mut stack = VTypeList::new(alloc);
    stack.push(caught_type(rules, all, handler)?)?;
    Ok(Frame {
        locals: before.locals.copy(alloc)?,
        stack,
    })
}

// The type of what a handler catches.
fn caught_type(rules: &MethodRules<'_>, all: &Text, handler: &Handler) -> Result<VType, NoMemory>
    requires { all.now ≡ throwable }
    ensures { IfOk result (λ type. type ≡ caught_type (caught rules.now handler.now)) }
{
    if handler.catch_type == 0 {
        return Ok(VType::Object(all.copy()?));
    }
    Ok(match rules.class().pool.class_name(handler.catch_type) {
        Some(name) => VType::Object(name.copy()?),
        None => VType::Top,
    })
}
