//! The operand stack (JVM Specification SE 8, 2.6.2). Its list has the top last; contracts see the top first.
ghost use Rattle.std.specs.Prelude.{◌≡◌, ◌∷◌, drop, reverse, slice_get, length, ◌≤◌, ◌↔◌, IfSome, IsSome, OnOk, OnErr};
ghost use Rattle.member_link.specs.Machine.Locals.{topmost};

use class_model::NoMemory;
use machine_values::{Value, ValueList};

/// The entry at a depth, counted from the top, which is at 0.
pub fn entry(stack: &ValueList, depth: usize) -> Option<Value>
    ensures { result ≡ slice_get (reverse stack.now) depth }
{
    let values = stack.as_slice();
    if depth < values.len() {
        Some(values[values.len() - 1 - depth])
    } else {
        None
    }
}

/// Takes off so many of the topmost entries, or all where there are fewer. It does not allocate.
pub fn drop_top(stack: &mut ValueList, count: usize)
    ensures { reverse stack.new ≡ drop count (reverse stack.old) }
{
    let left = stack.len().saturating_sub(count);
    stack.items.truncate(left);
}

/// Puts a value on the top.
///
/// # Errors
///
/// `NoMemory` where memory runs out; the stack is then as it was.
pub fn push_top(stack: &mut ValueList, value: &Value) -> Result<(), NoMemory>
    ensures ok { OnOk result (reverse stack.new ≡ value.now ∷ reverse stack.old) }
    ensures err { OnErr result (stack.new ≡ stack.old) }
{
    stack.push(*value)
}

/// Puts two values on the top, the second above the first.
pub(crate) fn push_two(stack: &mut ValueList, below: &Value, above: &Value) -> Result<(), NoMemory>
    ensures { OnOk result (reverse stack.new ≡ above.now ∷ below.now ∷ reverse stack.old) }
{
    push_top(stack, below)?;
    push_top(stack, above)
}

/// The topmost entries, so many, the topmost last. None where there are fewer.
pub fn operands(stack: &ValueList, count: usize) -> Option<&[Value]>
    ensures some { IfSome result (λ values. values.now ≡ topmost count (reverse stack.now)) }
    ensures enough { IsSome result ↔ (count ≤ length stack.now) }
{
    let values = stack.as_slice();
    if count <= values.len() {
        Some(&values[values.len() - count..])
    } else {
        None
    }
}
