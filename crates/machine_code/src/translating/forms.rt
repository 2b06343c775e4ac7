//! Instructions with an opcode of a form (JVM Specification SE 8, 6.5: the loads and stores of elements, and if). Other opcodes have no
//! meaning there.
ghost use Rattle.std.specs.Prelude.{◌≡◌, ◌&&◌, nat_le};
ghost use Rattle.class_tree.specs.Headers.{Classes};
ghost use Rattle.member_link.specs.Machine.Codes.{if_between};
ghost use Rattle.machine_code.specs.Inner.Translating.{OpIsResolved};
ghost use Rattle.member_link.specs.RunOps.{op_of};

use member_link::RunOp;

/// An operation by an opcode, which is meaningless where the opcode is not one of these. It does not allocate.
pub(crate) fn if_between(low: u8, high: u8, opcode: u8, op: RunOp) -> RunOp
    ensures is { op_of result ≡ if_between low high opcode (op_of op) }
    ensures resolved { (classes : Classes) → OpIsResolved classes op
        → OpIsResolved classes result }
{
    if is_between(low, high, opcode) {
        op
    } else {
        RunOp::Meaningless
    }
}

// Whether an opcode is one of these.
fn is_between(low: u8, high: u8, opcode: u8) -> bool
    ensures { result ≡ (nat_le low opcode && nat_le opcode high) }
{
    low <= opcode && opcode <= high
}
