//! Where jumps and switches go on (JVM Specification SE 8, 6.5).
ghost use Rattle.std.specs.Prelude.{◌≡◌, ◌-◌, drop, reverse, slice_get, IfNone};
ghost use Rattle.class_model.specs.declared.opcodes.TheConstants.{IFEQ};
ghost use Rattle.member_link.specs.Machine.Arithmetic.{holds_for};
ghost use Rattle.member_link.specs.Machine.Locals.{with_rest, jump_of_int, jump_of_ints, jump_of_references, jump_of_null, same_references, table_target, lookup_target};
ghost use Rattle.machine_code.specs.Inner.Jumps.{int_jump, ints_jump, references_jump, null_jump};

use crate::stack::{drop_top, entry};
use class_model::Pair;
use class_model::opcodes::{IF_ACMPEQ, IF_ICMPEQ, IFEQ, IFNULL};
use machine_values::{Value, ValueList};

/// Whether a comparison holds: eq, ne, lt, ge, gt and le, counted from the first of their form. None for other numbers.
fn holds_for(number: u8, one: i32, other: i32) -> Option<bool>
    ensures { result ≡ holds_for number one other }
{
    match number {
        0 => Some(one == other),
        1 => Some(one != other),
        2 => Some(one < other),
        3 => Some(one >= other),
        4 => Some(one > other),
        5 => Some(one <= other),
        _ => None,
    }
}

/// Whether a jump by an int is taken. None where it is no int, or for another opcode.
fn int_jump(opcode: u8, top: Option<Value>) -> Option<bool>
    ensures { result ≡ int_jump opcode top }
{
    match top {
        Some(Value::Int(number)) => holds_for(opcode.saturating_sub(IFEQ), number, 0),
        _ => None,
    }
}

/// Whether a jump by two ints is taken, of which the second is the topmost.
fn ints_jump(opcode: u8, one: Option<Value>, other: Option<Value>) -> Option<bool>
    ensures { result ≡ ints_jump opcode one other }
{
    match (one, other) {
        (Some(Value::Int(one)), Some(Value::Int(other))) => {
            holds_for(opcode.saturating_sub(IF_ICMPEQ), one, other)
        }
        _ => None,
    }
}

/// Whether two values are the same reference. None where one is no reference.
fn same_references(one: Value, other: Value) -> Option<bool>
    ensures { result ≡ same_references one other }
{
    match one {
        Value::Null => match other {
            Value::Null => Some(true),
            Value::Ref(_) => Some(false),
            _ => None,
        },
        Value::Ref(one) => match other {
            Value::Null => Some(false),
            Value::Ref(other) => Some(one.number == other.number),
            _ => None,
        },
        _ => None,
    }
}

/// Whether a jump by two references is taken.
fn references_jump(opcode: u8, one: Option<Value>, other: Option<Value>) -> Option<bool>
    ensures { result ≡ references_jump opcode one other }
{
    let same = same_references(one?, other?)?;
    Some(if opcode == IF_ACMPEQ { same } else { !same })
}

/// Whether a jump by a test for null is taken.
fn null_jump(opcode: u8, top: Option<Value>) -> Option<bool>
    ensures { result ≡ null_jump opcode top }
{
    match top {
        Some(Value::Null) => Some(opcode == IFNULL),
        Some(Value::Ref(_)) => Some(opcode != IFNULL),
        _ => None,
    }
}

/// Takes the operands of a jump off, if there is one.
fn jumped(stack: &mut ValueList, count: usize, taken: Option<bool>) -> Option<bool>
    ensures jump { with_rest (reverse stack.new) result
        ≡ with_rest (drop count (reverse stack.old)) taken }
    ensures stuck { IfNone result (stack.new ≡ stack.old) }
{
    if taken.is_some() {
        drop_top(stack, count);
    }
    taken
}

/// Whether a jump by an int is taken: ifeq, ifne, iflt, ifge, ifgt, ifle (JVM Specification SE 8, 6.5). Its operand is taken off. None
/// where the topmost entry is no int; the stack is then as it was.
pub fn jump_by_int(opcode: u8, stack: &mut ValueList) -> Option<bool>
    ensures jump { jump_of_int opcode (reverse stack.old) ≡ with_rest (reverse stack.new) result }
    ensures stuck { IfNone result (stack.new ≡ stack.old) }
{
    let taken = int_jump(opcode, entry(stack, 0));
    jumped(stack, 1, taken)
}

/// Whether a jump by two ints is taken: if_icmpeq, ne, lt, ge, gt, le (JVM Specification SE 8, 6.5). Its operands are taken off. None
/// where the topmost entries are no ints; the stack is then as it was.
pub fn jump_by_ints(opcode: u8, stack: &mut ValueList) -> Option<bool>
    ensures jump { jump_of_ints opcode (reverse stack.old) ≡ with_rest (reverse stack.new) result }
    ensures stuck { IfNone result (stack.new ≡ stack.old) }
{
    let taken = ints_jump(opcode, entry(stack, 1), entry(stack, 0));
    jumped(stack, 2, taken)
}

/// Whether a jump by two references is taken: if_acmpeq, if_acmpne (JVM Specification SE 8, 6.5). Its operands are taken off. None
/// where the topmost entries are no references; the stack is then as it was.
pub fn jump_by_references(opcode: u8, stack: &mut ValueList) -> Option<bool>
    ensures jump { jump_of_references opcode (reverse stack.old)
        ≡ with_rest (reverse stack.new) result }
    ensures stuck { IfNone result (stack.new ≡ stack.old) }
{
    let taken = references_jump(opcode, entry(stack, 1), entry(stack, 0));
    jumped(stack, 2, taken)
}

/// Whether a jump by a test for null is taken: ifnull, ifnonnull (JVM Specification SE 8, 6.5). Its operand is taken off. None where the
/// topmost entry is no reference; the stack is then as it was.
pub fn jump_by_null(opcode: u8, stack: &mut ValueList) -> Option<bool>
    ensures jump { jump_of_null opcode (reverse stack.old) ≡ with_rest (reverse stack.new) result }
    ensures stuck { IfNone result (stack.new ≡ stack.old) }
{
    let taken = null_jump(opcode, entry(stack, 0));
    jumped(stack, 1, taken)
}

/// The target of a `tableswitch` for a key: those from `low` on, else the default.
pub fn table_target(low: i32, other: u32, targets: &[u32], key: i32) -> u32
    ensures { result ≡ table_target low other targets.now key }
{
    if key < low {
        return other;
    }
    let at = key.abs_diff(low) as usize;
    if at < targets.len() {
        targets[at]
    } else {
        other
    }
}

/// The target of a `lookupswitch` for a key.
pub fn lookup_target(other: u32, pairs: &[Pair], key: i32) -> u32
    ensures { result ≡ lookup_target other pairs.now key }
{
    for pair in pairs {
        if pair.key == key {
            return pair.to;
        }
    }
    other
}
