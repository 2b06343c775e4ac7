//! What the references of a method's code are asked: those of its instructions, the caught classes, and the classes that
//! its stated frames name.
ghost use Rattle.std.specs.Prelude.{◌≡◌, Ok, IfOk};
ghost use Rattle.class_model.specs.Checks.{AllHold, asked_each};
ghost use Rattle.class_model.specs.Instructions.{decoded};
ghost use Rattle.class_model.specs.Methods.{home_of};
ghost use Rattle.class_tree.specs.Answers.{Answers};
ghost use Rattle.code_bytes.specs.Decoding.{decoding_checks};
ghost use Rattle.member_link.specs.Inner.Resolving.{resolved_scope};
ghost use Rattle.member_link.specs.Uses.{code_use_checks, handler_use_checks, instr_use_checks};
ghost use Rattle.code_bytes.specs.Codes.{IsReadMethod};

use crate::body::frames_of;
use crate::frames::check_frames;
use crate::instructions::check_instr;
use crate::resolver::{Resolver, check_class};
use class_model::{ClassFile, CodePart, Handler, Member, Method, Placed};
use class_tree::LinkFault;
use code_bytes::instructions_of;
use std::alloc::Global;

/// Asks that what the code of a method refers to is there, of the right form and accessible. The method is this member of
/// its class's header.
pub(crate) fn check_code(
    alloc: Global,
    resolver: &mut Resolver<'_>,
    class: &ClassFile,
    method: &Method,
    member: &Member,
    part: &CodePart,
) -> Result<(), LinkFault>
    requires pool { resolver.old.pool ≡ class.now.pool }
    requires method { IsReadMethod class.now.pool method.now }
    requires code { AllHold (decoding_checks part.now.code) }
    ensures same { resolver.new ≡ resolver.old }
    ensures told { Answers
        (code_use_checks (resolved_scope resolver.old member.now)
        (home_of class.now) method.now part.now) result }
{
    let instrs = instructions_of(alloc, part.code.as_slice())?;
    check_instrs(alloc, resolver, member, instrs.as_slice())?;
    check_handlers(alloc, resolver, member, part.handlers.as_slice())?;
    let frames = frames_of(alloc, class, method, part, &instrs)?;
    check_frames(alloc, resolver, member, frames.as_slice())
}

// Asks that what each of these instructions refers to is there, of the right form and accessible.
fn check_instrs(
    alloc: Global,
    resolver: &mut Resolver<'_>,
    member: &Member,
    instrs: &[Placed],
) -> Result<(), LinkFault>
    ensures same { resolver.new ≡ resolver.old }
    ensures told { Answers
        (asked_each (λ placed. instr_use_checks
        (resolved_scope resolver.old member.now) placed.instr) instrs.now) result }
{
    for placed in instrs {
        check_instr(alloc, resolver, member, &placed.instr)?;
    }
    Ok(())
}

// Asks that the classes that an exception table catches are there and accessible.
fn check_handlers(
    alloc: Global,
    resolver: &mut Resolver<'_>,
    member: &Member,
    handlers: &[Handler],
) -> Result<(), LinkFault>
    ensures same { resolver.new ≡ resolver.old }
    ensures told { Answers
        (asked_each (handler_use_checks
        (resolved_scope resolver.old member.now)) handlers.now) result }
{
    for handler in handlers {
        check_handler(alloc, resolver, member, *handler)?;
    }
    Ok(())
}

// Asks that the class that an entry catches is there and accessible. One for all that is thrown names none.
fn check_handler(
    alloc: Global,
    resolver: &mut Resolver<'_>,
    member: &Member,
    handler: Handler,
) -> Result<(), LinkFault>
    ensures same { resolver.new ≡ resolver.old }
    ensures told { Answers
        (handler_use_checks (resolved_scope resolver.old member.now) handler) result }
{
    if handler.catch_type == 0 {
        return Ok(());
    }
    check_class(alloc, resolver, member, handler.catch_type)
}
