//! What stands before an instruction, for explanations. Nothing is proved of it but that it is safe.
ghost use Rattle.member_link.specs.Linked.{IsLinked};

use crate::stop::Stop;
use crate::typing::flows_before;
use class_model::{Frame, MethodAt, NoMemory};
use class_tree::Tree;
use std::alloc::Global;
use type_rules::{MethodRules, has_code};

/// The frames before an instruction: the one that flows into it, and the one that is stated there.
#[derive(Drop)]
pub struct FrameBefore {
    pub flows: Option<Frame>,
    pub stated: Option<Frame>,
}

/// The frames before the instruction of a method at an offset, in bytes. Neither is there where the method has no code, and
/// none flows where an instruction before it is not typed.
pub fn frame_before(
    alloc: Global,
    tree: &Tree,
    at: MethodAt,
    offset: u32,
) -> Result<FrameBefore, NoMemory>
    requires { IsLinked tree.now }
{
    if !has_code(tree, at) {
        return Ok(FrameBefore {
            flows: None,
            stated: None,
        });
    }
    let rules = MethodRules::new(alloc, tree, at)?;
    let answer = before_by(alloc, &rules, offset);
    drop(rules);
    answer
}

// The frames before the instruction at an offset of a method with these rules.
fn before_by(alloc: Global, rules: &MethodRules<'_>, offset: u32) -> Result<FrameBefore, NoMemory> {
    let stated = match rules.stated_at(offset) {
        Some(stated) => Some(stated.copy(alloc)?),
        None => None,
    };
    match flows_before(alloc, rules, offset) {
        Ok(flows) => Ok(FrameBefore { flows, stated }),
        Err(Stop::Fails { .. }) => Ok(FrameBefore {
            flows: None,
            stated,
        }),
        Err(Stop::NoMemory) => {
            drop(stated);
            Err(NoMemory)
        }
    }
}
