//! Arithmetic of int and long, and the operands of that of float and double (JVM Specification SE 8, 2.11.3, 2.11.4 and 6.5).
ghost use Rattle.std.specs.Prelude.{◌≡◌, [], ◌∷◌, Some, option_and_then};
ghost use Rattle.std.specs.Int.{w32, w64};
ghost use Rattle.machine_values.specs.declared.value.Value.TheVariants.{Int, Long};
ghost use Rattle.member_link.specs.Machine.Arithmetic.{comparison, meaning_in, pure_meanings, divide_meanings, result_by, operands_of, unsigned_shr, int_distance, long_distance};
ghost use Rattle.member_link.specs.Machine.Work.{division_work};
ghost use Rattle.member_link.specs.Machine.Worlds.{Memory};
ghost use Rattle.machine_step.specs.Inner.Results.{pure_result, completion_of};

use class_model::opcodes::{
    I2B, I2C, I2L, I2S, IADD, IAND, IDIV, IMUL, INEG, IOR, IREM, ISHL, ISHR, ISUB, IUSHR, IXOR,
    L2I, LADD, LAND, LCMP, LDIV, LMUL, LNEG, LOR, LREM, LSHL, LSHR, LSUB, LUSHR, LXOR,
};
use machine_heap::{Narrowing, narrow_int};
use machine_values::Value;

/// How many operands arithmetic of int and long takes that raises nothing.
pub fn pure_operands(opcode: u8) -> usize
    ensures { result ≡ operands_of (meaning_in pure_meanings opcode) }
{
    match opcode {
        INEG | LNEG | I2L | L2I | I2B | I2C | I2S => 1,
        _ => 2,
    }
}

/// What arithmetic of int and long gives that raises nothing, of its operands, the topmost last. None for operands of other
/// kinds, and for another opcode.
pub fn pure(opcode: u8, operands: &[Value]) -> Option<Value>
    ensures { result ≡ option_and_then (λ meaning. result_by meaning operands.now)
        (meaning_in pure_meanings opcode) }
{
    if operands.len() == 1 {
        of_one(opcode, &operands[0])
    } else if operands.len() == 2 {
        of_two(opcode, &operands[0], &operands[1])
    } else {
        None
    }
}

/// Of one operand.
fn of_one(opcode: u8, only: &Value) -> Option<Value>
    ensures { result ≡ pure_result opcode (only.now ∷ []) }
{
    match only {
        Value::Int(number) => of_int(opcode, *number),
        Value::Long(number) => of_long(opcode, *number),
        _ => None,
    }
}

/// Of two operands.
fn of_two(opcode: u8, one: &Value, other: &Value) -> Option<Value>
    ensures { result ≡ pure_result opcode (one.now ∷ other.now ∷ []) }
{
    match one {
        Value::Int(one) => match other {
            Value::Int(other) => of_ints(opcode, *one, *other),
            _ => None,
        },
        Value::Long(one) => match other {
            Value::Long(other) => of_longs(opcode, *one, *other),
            Value::Int(other) => shifted(opcode, *one, *other),
            _ => None,
        },
        _ => None,
    }
}

/// Of an int.
fn of_int(opcode: u8, number: i32) -> Option<Value>
    ensures { result ≡ pure_result opcode (Int number ∷ []) }
{
    match opcode {
        INEG => Some(Value::Int(number.wrapping_neg())),
        I2L => Some(Value::Long(i64::from(number))),
        I2B => Some(Value::Int(narrow_int(Narrowing::Byte, number))),
        I2C => Some(Value::Int(narrow_int(Narrowing::Char, number))),
        I2S => Some(Value::Int(narrow_int(Narrowing::Short, number))),
        _ => None,
    }
}

/// Of a long.
fn of_long(opcode: u8, number: i64) -> Option<Value>
    ensures { result ≡ pure_result opcode (Long number ∷ []) }
{
    match opcode {
        LNEG => Some(Value::Long(number.wrapping_neg())),
        L2I => Some(Value::Int(((number.cast_unsigned() % 4294967296) as u32).cast_signed())),
        _ => None,
    }
}

/// Of two ints.
fn of_ints(opcode: u8, one: i32, other: i32) -> Option<Value>
    ensures { result ≡ pure_result opcode (Int one ∷ Int other ∷ []) }
{
    let number = match opcode {
        IADD => one.wrapping_add(other),
        ISUB => one.wrapping_sub(other),
        IMUL => one.wrapping_mul(other),
        ISHL => one.wrapping_shl(other.cast_unsigned()),
        ISHR => one.wrapping_shr(other.cast_unsigned()),
        IUSHR => int_unsigned_shr(one, other),
        IAND => one & other,
        IOR => one | other,
        IXOR => one ^ other,
        _ => return None,
    };
    Some(Value::Int(number))
}

/// A shift of an int to the right that fills with zeros.
fn int_unsigned_shr(number: i32, by: i32) -> i32
    ensures { result ≡ unsigned_shr w32 number (int_distance by) }
{
    (number.cast_unsigned() >> (by.cast_unsigned() % 32)).cast_signed()
}

/// Of two longs.
fn of_longs(opcode: u8, one: i64, other: i64) -> Option<Value>
    ensures { result ≡ pure_result opcode (Long one ∷ Long other ∷ []) }
{
    let number = match opcode {
        LADD => one.wrapping_add(other),
        LSUB => one.wrapping_sub(other),
        LMUL => one.wrapping_mul(other),
        LAND => one & other,
        LOR => one | other,
        LXOR => one ^ other,
        LCMP => return Some(Value::Int(comparison(one, other))),
        _ => return None,
    };
    Some(Value::Long(number))
}

/// -1, 0 or 1.
fn comparison(one: i64, other: i64) -> i32
    ensures { result ≡ comparison one other }
{
    if one < other {
        -1
    } else if other < one {
        1
    } else {
        0
    }
}

/// A shift of a long.
fn shifted(opcode: u8, number: i64, by: i32) -> Option<Value>
    ensures { result ≡ pure_result opcode (Long number ∷ Int by ∷ []) }
{
    let number = match opcode {
        LSHL => number.wrapping_shl(by.cast_unsigned()),
        LSHR => number.wrapping_shr(by.cast_unsigned()),
        LUSHR => long_unsigned_shr(number, by),
        _ => return None,
    };
    Some(Value::Long(number))
}

/// A shift of a long to the right that fills with zeros.
fn long_unsigned_shr(number: i64, by: i32) -> i64
    ensures { result ≡ unsigned_shr w64 number (long_distance by) }
{
    (number.cast_unsigned() >> (by.cast_unsigned() % 64)).cast_signed()
}

/// What a division of ints or longs comes to.
#[derive(Clone, Copy, PartialEq, Eq)]
pub enum Divided {
    Gives(Value),
    /// The divisor is zero.
    ByZero,
    /// The operands are of other kinds, or the opcode is another one.
    Stuck,
}

/// What a division or remainder comes to, of its operands, the topmost last: the least number divided by -1 is itself (JVM
/// Specification SE 8, 6.5: idiv, ldiv, irem and lrem).
pub fn divide(opcode: u8, operands: &[Value]) -> Divided
    ensures { (memory : Memory) → completion_of memory result
        ≡ division_work memory (meaning_in divide_meanings opcode) operands.now }
{
    if operands.len() == 2 {
        two_divided(opcode, &operands[0], &operands[1])
    } else {
        Divided::Stuck
    }
}

/// Of two operands.
fn two_divided(opcode: u8, one: &Value, other: &Value) -> Divided
    ensures { (memory : Memory) → completion_of memory result
        ≡ division_work memory (meaning_in divide_meanings opcode) (one.now ∷ other.now ∷ []) }
{
    match one {
        Value::Int(one) => match other {
            Value::Int(other) => ints_divided(opcode, *one, *other),
            _ => Divided::Stuck,
        },
        Value::Long(one) => match other {
            Value::Long(other) => longs_divided(opcode, *one, *other),
            _ => Divided::Stuck,
        },
        _ => Divided::Stuck,
    }
}

/// Of two ints.
fn ints_divided(opcode: u8, one: i32, other: i32) -> Divided
    ensures { (memory : Memory) → completion_of memory result
        ≡ division_work memory (meaning_in divide_meanings opcode) (Int one ∷ Int other ∷ []) }
{
    if opcode == IDIV {
        if other == 0 {
            Divided::ByZero
        } else {
            Divided::Gives(Value::Int(one.wrapping_div(other)))
        }
    } else if opcode == IREM {
        if other == 0 {
            Divided::ByZero
        } else {
            Divided::Gives(Value::Int(one.wrapping_rem(other)))
        }
    } else {
        Divided::Stuck
    }
}

/// Of two longs.
fn longs_divided(opcode: u8, one: i64, other: i64) -> Divided
    ensures { (memory : Memory) → completion_of memory result
        ≡ division_work memory (meaning_in divide_meanings opcode) (Long one ∷ Long other ∷ []) }
{
    if opcode == LDIV {
        if other == 0 {
            Divided::ByZero
        } else {
            Divided::Gives(Value::Long(one.wrapping_div(other)))
        }
    } else if opcode == LREM {
        if other == 0 {
            Divided::ByZero
        } else {
            Divided::Gives(Value::Long(one.wrapping_rem(other)))
        }
    } else {
        Divided::Stuck
    }
}
