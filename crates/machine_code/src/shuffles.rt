//! Instructions that move entries of the operand stack (JVM Specification SE 8, 6.5: pop to swap).
ghost use Rattle.std.specs.Prelude.{◌≡◌, false, drop, reverse, slice_get, option_map, IfOk, OnOk, ◌∷◌};
ghost use Rattle.member_link.specs.Machine.Locals.{shuffled};
ghost use Rattle.machine_code.specs.Inner.Moves.{pushed, dup_under, dup_under_two, dup_two, dup_two_under, dup_two_under_two, swapped, moved_by, wide_at, one_narrow, two_narrow, one_or_two, dup_x2_move, dup2_x1_move, dup2_x2_move};
ghost use Rattle.machine_code.specs.Inner.Units.{written};

use crate::stack::{drop_top, entry, push_top, push_two};
use class_model::NoMemory;
use class_model::opcodes::{DUP, DUP_X1, DUP_X2, DUP2, DUP2_X1, DUP2_X2, POP, POP2, SWAP};
use machine_heap::is_wide;
use machine_values::ValueList;

/// How entries of the operand stack move.
#[derive(Clone, Copy, PartialEq, Eq)]
enum Move {
    /// The top goes.
    Pop,
    /// The two topmost entries go.
    PopTwo,
    /// The top is pushed again.
    Dup,
    /// The top is copied under the entry below it.
    DupUnder,
    /// The top is copied under the two entries below it.
    DupUnderTwo,
    /// The two topmost entries are pushed again.
    DupTwo,
    /// The two topmost entries are copied under the entry below them.
    DupTwoUnder,
    /// The two topmost entries are copied under the two entries below them.
    DupTwoUnderTwo,
    /// The two topmost entries change places.
    Swap,
}

/// Moves entries of the operand stack by an opcode: pop, pop2, dup, dup_x1, dup_x2, dup2, dup2_x1, dup2_x2 or swap (JVM
/// Specification SE 8, 6.5), in the form that the widths of the topmost entries choose. False where no form fits them, and for
/// another opcode; the stack is then as it was.
///
/// # Errors
///
/// `NoMemory` where memory runs out. The entries below those that the opcode moves are then as they were; of those that it moves some may be
/// missing, and the others may stand in their new order.
pub fn shuffle(opcode: u8, stack: &mut ValueList) -> Result<bool, NoMemory>
    ensures shuffled { IfOk result (λ moved. shuffled opcode (reverse stack.old)
        ≡ written moved (reverse stack.new)) }
    ensures kept { IfOk result (λ moved. moved ≡ false → stack.new ≡ stack.old) }
{
    match move_for(opcode, stack) {
        Some(how) => {
            make_move(stack, how)?;
            Ok(true)
        }
        None => Ok(false),
    }
}

/// Whether the entry at a depth is a long or double, if there is one.
fn wide_at(stack: &ValueList, depth: usize) -> Option<bool>
    ensures { result ≡ wide_at (reverse stack.now) depth }
{
    match entry(stack, depth) {
        Some(value) => Some(is_wide(value)),
        None => None,
    }
}

/// The move that an opcode makes.
fn move_for(opcode: u8, stack: &ValueList) -> Option<Move>
    ensures { shuffled opcode (reverse stack.now)
        ≡ option_map (λ how. moved_by how (reverse stack.now)) result }
{
    match opcode {
        POP => one_narrow(Move::Pop, wide_at(stack, 0)),
        POP2 => one_or_two(
            Move::Pop,
            Move::PopTwo,
            wide_at(stack, 0),
            wide_at(stack, 1),
        ),
        DUP => one_narrow(Move::Dup, wide_at(stack, 0)),
        DUP_X1 => two_narrow(Move::DupUnder, wide_at(stack, 0), wide_at(stack, 1)),
        DUP_X2 => dup_x2_move(wide_at(stack, 0), wide_at(stack, 1), wide_at(stack, 2)),
        DUP2 => one_or_two(
            Move::Dup,
            Move::DupTwo,
            wide_at(stack, 0),
            wide_at(stack, 1),
        ),
        DUP2_X1 => dup2_x1_move(wide_at(stack, 0), wide_at(stack, 1), wide_at(stack, 2)),
        DUP2_X2 => dup2_x2_move(
            wide_at(stack, 0),
            wide_at(stack, 1),
            wide_at(stack, 2),
            wide_at(stack, 3),
        ),
        SWAP => two_narrow(Move::Swap, wide_at(stack, 0), wide_at(stack, 1)),
        _ => None,
    }
}

/// The move of one entry that takes one unit.
fn one_narrow(how: Move, top: Option<bool>) -> Option<Move>
    ensures { result ≡ one_narrow how top }
{
    match top {
        Some(false) => Some(how),
        _ => None,
    }
}

/// The move of two entries that take one unit each.
fn two_narrow(how: Move, top: Option<bool>, next: Option<bool>) -> Option<Move>
    ensures { result ≡ two_narrow how top next }
{
    match (top, next) {
        (Some(false), Some(false)) => Some(how),
        _ => None,
    }
}

/// The move of one entry that takes two units, or of two that take one each.
fn one_or_two(wide: Move, narrow: Move, top: Option<bool>, next: Option<bool>) -> Option<Move>
    ensures { result ≡ one_or_two wide narrow top next }
{
    match (top, next) {
        (Some(true), _) => Some(wide),
        (Some(false), Some(false)) => Some(narrow),
        _ => None,
    }
}

/// The move of dup_x2.
fn dup_x2_move(top: Option<bool>, next: Option<bool>, third: Option<bool>) -> Option<Move>
    ensures { result ≡ dup_x2_move top next third }
{
    match (top, next, third) {
        (Some(false), Some(true), _) => Some(Move::DupUnder),
        (Some(false), Some(false), Some(false)) => Some(Move::DupUnderTwo),
        _ => None,
    }
}

/// The move of dup2_x1.
fn dup2_x1_move(top: Option<bool>, next: Option<bool>, third: Option<bool>) -> Option<Move>
    ensures { result ≡ dup2_x1_move top next third }
{
    match (top, next, third) {
        (Some(true), Some(false), _) => Some(Move::DupUnder),
        (Some(false), Some(false), Some(false)) => Some(Move::DupTwoUnder),
        _ => None,
    }
}

/// The move of dup2_x2.
fn dup2_x2_move(
    top: Option<bool>,
    next: Option<bool>,
    third: Option<bool>,
    fourth: Option<bool>,
) -> Option<Move>
    ensures { result ≡ dup2_x2_move top next third fourth }
{
    match (top, next, third, fourth) {
        (Some(true), Some(true), _, _) => Some(Move::DupUnder),
        (Some(true), Some(false), Some(false), _) => Some(Move::DupUnderTwo),
        (Some(false), Some(false), Some(true), _) => Some(Move::DupTwoUnder),
        (Some(false), Some(false), Some(false), Some(false)) => Some(Move::DupTwoUnderTwo),
        _ => None,
    }
}

/// Makes a move.
fn make_move(stack: &mut ValueList, how: Move) -> Result<(), NoMemory>
    ensures { OnOk result (reverse stack.new ≡ moved_by how (reverse stack.old)) }
{
    match how {
        Move::Pop => {
            drop_top(stack, 1);
            Ok(())
        }
        Move::PopTwo => {
            drop_top(stack, 2);
            Ok(())
        }
        Move::Dup => dup(stack),
        Move::DupUnder => dup_under(stack),
        Move::DupUnderTwo => dup_under_two(stack),
        Move::DupTwo => dup_two(stack),
        Move::DupTwoUnder => dup_two_under(stack),
        Move::DupTwoUnderTwo => dup_two_under_two(stack),
        Move::Swap => swap_two(stack),
    }
}

/// Pushes the top again.
fn dup(stack: &mut ValueList) -> Result<(), NoMemory>
    ensures { OnOk result (reverse stack.new
        ≡ pushed (slice_get (reverse stack.old) 0) (reverse stack.old)) }
{
    let Some(top) = entry(stack, 0) else {
        return Ok(());
    };
    push_top(stack, &top)
}

/// Copies the top under the entry below it.
fn dup_under(stack: &mut ValueList) -> Result<(), NoMemory>
    ensures { OnOk result (reverse stack.new ≡ dup_under (slice_get (reverse stack.old) 0)
        (slice_get (reverse stack.old) 1) (reverse stack.old)) }
{
    let Some(top) = entry(stack, 0) else {
        return Ok(());
    };
    let Some(next) = entry(stack, 1) else {
        return Ok(());
    };
    drop_top(stack, 2);
    push_top(stack, &top)?;
    push_two(stack, &next, &top)
}

/// Copies the top under the two entries below it.
fn dup_under_two(stack: &mut ValueList) -> Result<(), NoMemory>
    ensures { OnOk result (reverse stack.new ≡ dup_under_two (slice_get (reverse stack.old) 0)
        (slice_get (reverse stack.old) 1) (slice_get (reverse stack.old) 2)
        (reverse stack.old)) }
{
    let Some(top) = entry(stack, 0) else {
        return Ok(());
    };
    let Some(next) = entry(stack, 1) else {
        return Ok(());
    };
    let Some(third) = entry(stack, 2) else {
        return Ok(());
    };
    drop_top(stack, 3);
    push_two(stack, &top, &third)?;
    push_two(stack, &next, &top)
}

/// Pushes the two topmost entries again.
fn dup_two(stack: &mut ValueList) -> Result<(), NoMemory>
    ensures { OnOk result (reverse stack.new ≡ dup_two (slice_get (reverse stack.old) 0)
        (slice_get (reverse stack.old) 1) (reverse stack.old)) }
{
    let Some(top) = entry(stack, 0) else {
        return Ok(());
    };
    let Some(next) = entry(stack, 1) else {
        return Ok(());
    };
    push_two(stack, &next, &top)
}

/// Copies the two topmost entries under the entry below them.
fn dup_two_under(stack: &mut ValueList) -> Result<(), NoMemory>
    ensures { OnOk result (reverse stack.new ≡ dup_two_under (slice_get (reverse stack.old) 0)
        (slice_get (reverse stack.old) 1) (slice_get (reverse stack.old) 2)
        (reverse stack.old)) }
{
    let Some(top) = entry(stack, 0) else {
        return Ok(());
    };
    let Some(next) = entry(stack, 1) else {
        return Ok(());
    };
    let Some(third) = entry(stack, 2) else {
        return Ok(());
    };
    drop_top(stack, 3);
    push_two(stack, &next, &top)?;
    push_top(stack, &third)?;
    push_two(stack, &next, &top)
}

/// Copies the two topmost entries under the two entries below them.
fn dup_two_under_two(stack: &mut ValueList) -> Result<(), NoMemory>
    ensures { OnOk result (reverse stack.new
        ≡ dup_two_under_two (slice_get (reverse stack.old) 0) (slice_get (reverse stack.old) 1)
        (slice_get (reverse stack.old) 2) (slice_get (reverse stack.old) 3)
        (reverse stack.old)) }
{
    let Some(top) = entry(stack, 0) else {
        return Ok(());
    };
    let Some(next) = entry(stack, 1) else {
        return Ok(());
    };
    let Some(third) = entry(stack, 2) else {
        return Ok(());
    };
    let Some(fourth) = entry(stack, 3) else {
        return Ok(());
    };
    drop_top(stack, 4);
    push_two(stack, &next, &top)?;
    push_two(stack, &fourth, &third)?;
    push_two(stack, &next, &top)
}

/// Lets the two topmost entries change places.
fn swap_two(stack: &mut ValueList) -> Result<(), NoMemory>
    ensures { OnOk result (reverse stack.new ≡ swapped (slice_get (reverse stack.old) 0)
        (slice_get (reverse stack.old) 1) (reverse stack.old)) }
{
    let Some(top) = entry(stack, 0) else {
        return Ok(());
    };
    let Some(next) = entry(stack, 1) else {
        return Ok(());
    };
    drop_top(stack, 2);
    push_two(stack, &top, &next)
}
