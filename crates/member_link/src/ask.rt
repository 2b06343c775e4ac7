//! One question of linking.
ghost use Rattle.std.specs.Prelude.{◌≡◌, IfOk, IsTrue, [], ◌∷◌};
ghost use Rattle.class_tree.specs.Answers.{Answers};
ghost use Rattle.member_link.specs.Declarations.{asked};

use class_model::{Member, NoMemory, Text};
use class_tree::{LinkFault, LinkRule};
use std::alloc::Global;

/// Asks that a test holds of a member of a class.
pub(crate) fn ask_at(
    alloc: Global,
    holds: bool,
    class: &Text,
    member: &Member,
    rule: LinkRule,
) -> Result<(), LinkFault>
    ensures { Answers (asked (record {
      class = class.now;
      member = member.now;
    }) rule (IsTrue holds)
        ∷ []) result }
{
    if holds {
        return Ok(());
    }
    let class = class.copy()?;
    let member = copy_of(member)?;
    Err(LinkFault::Unlinked {
        class,
        member,
        rule,
    })
}

// A copy of a member.
fn copy_of(member: &Member) -> Result<Member, NoMemory>
    ensures { IfOk result (λ copy. copy ≡ member.now) }
{
    Ok(Member {
        flags: member.flags,
        name: member.name.copy()?,
        desc: member.desc.copy()?,
    })
}
