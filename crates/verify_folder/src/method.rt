//! A method verifies.
ghost use Rattle.std.specs.Prelude.{◌≡◌, IfOk, IsSome, Some};
ghost use Rattle.class_model.specs.Header.{header_of};
ghost use Rattle.member_link.specs.Linked.{IsLinked};
ghost use Rattle.member_link.specs.Scope.{scope_at};
ghost use Rattle.verify_folder.specs.Verifying.{VerifiesAs};
ghost use Rattle.verify_folder.specs.Inner.Verifying.{MethodIsTyped};

use crate::stop::Stop;
use crate::typing::{pass_method, type_method};
use class_model::{Member, MethodAt, NoMemory};
use class_tree::Tree;
use std::alloc::Global;
use type_rules::{MethodRules, TypeRule, TypedMethod, VerifyFault};

/// Verifies a method with code of a linked folder (JVM Specification SE 8, 4.10.1.6): the frames that type it, one for each
/// instruction. There are no others.
///
/// # Errors
/// `Unverified` where no frames type it, with the first failure: of the catch types in table order (at the start of the
/// handler's range), then of the instructions by offset, and `FallsOff` at the length of the code, in bytes.
pub fn verify_method(alloc: Global, tree: &Tree, at: MethodAt) -> Result<TypedMethod, VerifyFault>
    requires linked { IsLinked tree.now }
    requires has_code { IsSome (scope_at tree.now at) }
    ensures { VerifiesAs tree.now at result }
{
    let rules = MethodRules::new(alloc, tree, at)?;
    let answer = verify_by(alloc, tree, &rules, at);
    drop(rules);
    answer
}

// Verifies a method by its rules.
fn verify_by(
    alloc: Global,
    tree: &Tree,
    rules: &MethodRules<'_>,
    at: MethodAt,
) -> Result<TypedMethod, VerifyFault>
    requires { scope_at tree.now at ≡ Some rules.now }
    ensures { VerifiesAs tree.now at result }
{
    match type_method(alloc, rules) {
        Ok(frames) => Ok(frames),
        Err(Stop::Fails { offset, rule }) => {
            let Some(member) = rules.header().methods.get(at.method) else {
                unreachable!()
            };
            Err(unverified(rules, member, offset, rule)?)
        }
        Err(Stop::NoMemory) => Err(VerifyFault::NoMemory),
    }
}

/// Verifies a method with code of a linked folder, as `verify_method`, and keeps no frames.
///
/// # Errors
/// As `verify_method`.
pub(crate) fn check_method(alloc: Global, tree: &Tree, at: MethodAt) -> Result<(), VerifyFault>
    requires linked { IsLinked tree.now }
    requires has_code { IsSome (scope_at tree.now at) }
    ensures { MethodIsTyped tree.now at result }
{
    let rules = MethodRules::new(alloc, tree, at)?;
    let passed = pass_method(alloc, &rules);
    drop(rules);
    match passed {
        Ok(()) => Ok(()),
        Err(_) => verify_again(alloc, tree, at),
    }
}

// Verifies a method of which no frames were found. What fails first is told by the pass that keeps frames.
fn verify_again(alloc: Global, tree: &Tree, at: MethodAt) -> Result<(), VerifyFault>
    requires linked { IsLinked tree.now }
    requires has_code { IsSome (scope_at tree.now at) }
    ensures { MethodIsTyped tree.now at result }
{
    verify_method(alloc, tree, at)?;
    Ok(())
}

// The failure of a method, which is this member of its class's header.
fn unverified(
    rules: &MethodRules<'_>,
    member: &Member,
    offset: u32,
    rule: TypeRule,
) -> Result<VerifyFault, NoMemory>
    ensures { IfOk result (λ fault.
        fault ≡ VerifyFault.Unverified (header_of rules.now.class).name member.now offset rule) }
{
    Ok(VerifyFault::Unverified {
        class: rules.header().name.copy()?,
        method: Member {
            flags: member.flags,
            name: member.name.copy()?,
            desc: member.desc.copy()?,
        },
        offset,
        rule,
    })
}
