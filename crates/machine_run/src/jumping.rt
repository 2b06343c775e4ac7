//! Operations after which control goes on elsewhere in the method (JVM Specification SE 8, 6.5: ifeq to goto, tableswitch, lookupswitch,
//! ifnull and ifnonnull). None of them allocates.
ghost use Rattle.std.specs.Prelude.{◌≡◌, ◌∷◌, ◌<◌, ◌+◌, ◌-◌, ◌^◌, IfSome, IfNone, reverse, if◌then◌else◌};
ghost use Rattle.machine_values.specs.declared.value.Value.TheVariants.{Int};
ghost use Rattle.member_link.specs.Machine.Ops.{jump_by_int, jump_by_ints, jump_by_null, jump_by_references, lookup_switch, table_switch};
ghost use Rattle.machine_run.specs.Inner.Moves.{HasNoKey, IsMoved, StaysUnlessWent};

use crate::moves::Moved;
use machine_code::{drop_top, entry, lookup_target, table_target};
use machine_values::{MethodFrame, Value, ValueList};
use member_link::{LookupOp, TableOp};

// ---- conditional jumps

/// A jump by an int: ifeq, ifne, iflt, ifge, ifgt, ifle.
pub(crate) fn jump_by_int(frame: &mut MethodFrame, opcode: u8, to: u32) -> Moved
    requires { frame.old.place < 2 ^ 32 - 1 }
    ensures moved { IsMoved frame.old frame.new (jump_by_int opcode to) result }
    ensures stays { StaysUnlessWent frame.old frame.new result }
{
    match machine_code::jump_by_int(opcode, &mut frame.stack) {
        Some(taken) => {
            branch(frame, taken, to);
            Moved::Went
        }
        None => Moved::Stuck,
    }
}

/// A jump by two ints: if_icmpeq, ne, lt, ge, gt, le.
pub(crate) fn jump_by_ints(frame: &mut MethodFrame, opcode: u8, to: u32) -> Moved
    requires { frame.old.place < 2 ^ 32 - 1 }
    ensures moved { IsMoved frame.old frame.new (jump_by_ints opcode to) result }
    ensures stays { StaysUnlessWent frame.old frame.new result }
{
    match machine_code::jump_by_ints(opcode, &mut frame.stack) {
        Some(taken) => {
            branch(frame, taken, to);
            Moved::Went
        }
        None => Moved::Stuck,
    }
}

/// A jump by two references: if_acmpeq, if_acmpne.
pub(crate) fn jump_by_references(frame: &mut MethodFrame, opcode: u8, to: u32) -> Moved
    requires { frame.old.place < 2 ^ 32 - 1 }
    ensures moved { IsMoved frame.old frame.new (jump_by_references opcode to) result }
    ensures stays { StaysUnlessWent frame.old frame.new result }
{
    match machine_code::jump_by_references(opcode, &mut frame.stack) {
        Some(taken) => {
            branch(frame, taken, to);
            Moved::Went
        }
        None => Moved::Stuck,
    }
}

/// A jump by a test for null: ifnull, ifnonnull.
pub(crate) fn jump_by_null(frame: &mut MethodFrame, opcode: u8, to: u32) -> Moved
    requires { frame.old.place < 2 ^ 32 - 1 }
    ensures moved { IsMoved frame.old frame.new (jump_by_null opcode to) result }
    ensures stays { StaysUnlessWent frame.old frame.new result }
{
    match machine_code::jump_by_null(opcode, &mut frame.stack) {
        Some(taken) => {
            branch(frame, taken, to);
            Moved::Went
        }
        None => Moved::Stuck,
    }
}

/// Goes on at a point where a jump is taken, else at the next one.
fn branch(frame: &mut MethodFrame, taken: bool, to: u32)
    requires { frame.old.place < 2 ^ 32 - 1 }
    ensures { frame.new ≡ record frame.old {
      place = if taken then to else frame.old.place + 1;
    } }
{
    if taken {
        frame.place = to;
    } else {
        frame.place += 1;
    }
}

// ---- switches

/// A `tableswitch`.
pub(crate) fn switch_table(frame: &mut MethodFrame, op: &TableOp) -> Moved
    ensures moved { IsMoved frame.old frame.new
        (table_switch op.now.low op.now.other op.now.targets) result }
    ensures stays { StaysUnlessWent frame.old frame.new result }
{
    match take_key(&mut frame.stack) {
        Some(key) => {
            frame.place = table_target(op.low, op.other, op.targets.as_slice(), key);
            Moved::Went
        }
        None => Moved::Stuck,
    }
}

/// A `lookupswitch`.
pub(crate) fn switch_lookup(frame: &mut MethodFrame, op: &LookupOp) -> Moved
    ensures moved { IsMoved frame.old frame.new
        (lookup_switch op.now.other op.now.pairs) result }
    ensures stays { StaysUnlessWent frame.old frame.new result }
{
    match take_key(&mut frame.stack) {
        Some(key) => {
            frame.place = lookup_target(op.other, op.pairs.as_slice(), key);
            Moved::Went
        }
        None => Moved::Stuck,
    }
}

/// Takes the int off that is on top, if one is.
fn take_key(stack: &mut ValueList) -> Option<i32>
    ensures some { IfSome result (λ key. reverse stack.old ≡ Int key ∷ reverse stack.new) }
    ensures none { IfNone result (HasNoKey (reverse stack.old)) }
    ensures stays { IfNone result (stack.new ≡ stack.old) }
{
    match entry(stack, 0) {
        Some(Value::Int(key)) => {
            drop_top(stack, 1);
            Some(key)
        }
        _ => None,
    }
}
