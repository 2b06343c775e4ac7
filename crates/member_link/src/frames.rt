//! The classes that the stated frames of a method's code name (JVM Specification SE 8, 4.7.4).
ghost use Rattle.std.specs.Prelude.{};
ghost use Rattle.class_model.specs.Checks.{asked_each};
ghost use Rattle.class_tree.specs.Answers.{Answers};
ghost use Rattle.member_link.specs.Inner.Resolving.{resolved_scope};
ghost use Rattle.member_link.specs.Uses.{frame_checks, type_checks};

use crate::resolver::{Resolver, check_name};
use class_model::{LocalTypeList, Member, PlacedFrame, VType};
use class_tree::LinkFault;
use std::alloc::Global;

/// Asks that the classes that these frames name are there.
pub(crate) fn check_frames(
    alloc: Global,
    resolver: &Resolver<'_>,
    member: &Member,
    frames: &[PlacedFrame],
) -> Result<(), LinkFault>
    ensures { Answers (asked_each
        (frame_checks (resolved_scope resolver.now member.now)) frames.now) result }
{
    for placed in frames {
        check_frame(alloc, resolver, member, placed)?;
    }
    Ok(())
}

// Asks that the classes that a frame names are there: those of its locals, and then those of its stack.
fn check_frame(
    alloc: Global,
    resolver: &Resolver<'_>,
    member: &Member,
    placed: &PlacedFrame,
) -> Result<(), LinkFault>
    ensures { Answers (frame_checks (resolved_scope resolver.now member.now) placed.now) result }
{
    check_locals(alloc, resolver, member, &placed.frame.locals)?;
    check_types(alloc, resolver, member, placed.frame.stack.as_slice())
}

// Asks that the classes that the types of local units name are there. `Top` names none.
fn check_locals(
    alloc: Global,
    resolver: &Resolver<'_>,
    member: &Member,
    locals: &LocalTypeList,
) -> Result<(), LinkFault>
    ensures { Answers (asked_each
        (type_checks (resolved_scope resolver.now member.now)) locals.now) result }
{
    for at in 0..locals.listed() {
        let Some(one) = locals.get(at) else {
            unreachable!()
        };
        check_type(alloc, resolver, member, one)?;
    }
    Ok(())
}

// Asks that the classes that these types name are there.
fn check_types(
    alloc: Global,
    resolver: &Resolver<'_>,
    member: &Member,
    types: &[VType],
) -> Result<(), LinkFault>
    ensures { Answers (asked_each
        (type_checks (resolved_scope resolver.now member.now)) types.now) result }
{
    for one in types {
        check_type(alloc, resolver, member, one)?;
    }
    Ok(())
}

// Asks that the class that a type names is there, if it names one.
fn check_type(
    alloc: Global,
    resolver: &Resolver<'_>,
    member: &Member,
    one: &VType,
) -> Result<(), LinkFault>
    ensures { Answers (type_checks (resolved_scope resolver.now member.now) one.now) result }
{
    match one {
        VType::Object(name) => check_name(alloc, resolver, member, name),
        _ => Ok(()),
    }
}
