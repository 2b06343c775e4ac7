//! One question of linking.
ghost use Rattle.std.specs.Prelude.{◌≡◌, [], ◌∷◌, IfOk, IsTrue};
ghost use Rattle.class_model.specs.ModifiedUtf8.{is_plain_text};
ghost use Rattle.class_tree.specs.Answers.{Answers};
ghost use Rattle.class_tree.specs.Problems.{check};
ghost use Rattle.class_tree.specs.Problems as problems;

use crate::fault::{LinkFault, LinkRule};
use class_model::{Member, NoMemory, Text};
use std::alloc::Global;

/// Asks that a test holds of a class itself.
pub fn ask(alloc: Global, holds: bool, class: &Text, rule: LinkRule) -> Result<(), LinkFault>
    ensures { Answers (check class.now rule (IsTrue holds) ∷ []) result }
{
    if holds {
        return Ok(());
    }
    let class = class.copy()?;
    let member = itself(alloc)?;
    Err(LinkFault::Unlinked {
        class,
        member,
        rule,
    })
}

/// Asks that a test holds of the class of this name, whose bytes are plain.
pub(crate) fn ask_named(
    alloc: Global,
    holds: bool,
    name: &[u8],
    rule: LinkRule,
) -> Result<(), LinkFault>
    requires { IsTrue (is_plain_text name.now) }
    ensures { Answers (check name.now rule (IsTrue holds) ∷ []) result }
{
    if holds {
        return Ok(());
    }
    let class = Text::of_plain(alloc, name)?;
    ask(alloc, holds, &class, rule)
}

// No member.
fn itself(alloc: Global) -> Result<Member, NoMemory>
    ensures { IfOk result (λ member. member ≡ problems.itself) }
{
    let name = Text::of_plain(alloc, &[])?;
    let desc = name.copy()?;
    Ok(Member {
        flags: 0,
        name,
        desc,
    })
}
