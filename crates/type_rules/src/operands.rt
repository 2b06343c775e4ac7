//! Operands on the stack.
ghost use Rattle.std.specs.Prelude.{◌≡◌};
ghost use Rattle.member_link.specs.Rows.Operands.{lowest_of};

use crate::need::topmost;
use class_model::VType;

/// The lowest of the topmost entries of a stack, so many, or `top` where there is none.
pub(crate) fn lowest_of<'a>(stack: &'a [VType], count: usize, top: &'a VType) -> &'a VType
    requires { top.now ≡ VType.Top }
    ensures { result.now ≡ lowest_of count stack.now }
{
    match topmost(stack, count).first() {
        Some(lowest) => lowest,
        None => top,
    }
}
