//! The forms of the instructions, as they are written (JVM Specification SE 8, 6.5).
ghost use Rattle.std.specs.Prelude.{◌≡◌, ◌∷◌, ◌++◌, ◌≤◌, ◌-◌, ◌*◌, pos, ◌+ℤ◌, length, replicate, OnOk};
ghost use Rattle.std.specs.Int.{cast_unsigned, w32};
ghost use Rattle.class_model.specs.Instructions.{pad_of};
ghost use Rattle.class_model.specs.Spelling.{u2, u4};
ghost use Rattle.code_bytes.specs.Forms.{offset_of, target_bytes, pair_bytes, table_bytes, lookup_bytes};
ghost use Rattle.code_bytes.specs.Numbers.{FitsKeys};
ghost use Rattle.code_bytes.specs.Inner.FormBytes.{FitsTable, FitsCount, HasKeys, form_bytes};

use class_model::opcodes::{LOOKUPSWITCH, TABLESWITCH, WIDE};
use class_model::{NoMemory, Pair};

/// An opcode and its operands, which are big-endian: numbers of one (U1), two (U2) or four bytes (U4).
#[derive(Clone, Copy)]
pub(crate) enum Form<'a> {
    Alone(u8),
    U1(u8, u8),
    U1U1(u8, u8, u8),
    U2(u8, u16),
    U2U1(u8, u16, u8),
    /// The last byte is zero.
    U2U1Zero(u8, u16, u8),
    U4(u8, u32),
    /// Behind a wide.
    WideU2(u8, u16),
    WideU2U2(u8, u16, u16),
    /// A `tableswitch`: its offset, the lowest key, the default target and the targets.
    Table(u32, i32, u32, &'a [u32]),
    /// A `lookupswitch`: its offset, the default target and the pairs.
    Lookup(u32, u32, &'a [Pair]),
}

impl Form<'_> {
    /// How many bytes these are.
    pub(crate) fn len(self) -> u32
        requires { FitsCount self }
        ensures len { result ≡ length (form_bytes self.entry) }
        ensures keys { HasKeys self.entry }
    {
        match self {
            Form::Alone(_) => 1,
            Form::U1(..) => 2,
            Form::U1U1(..) | Form::U2(..) => 3,
            Form::U2U1(..) | Form::WideU2(..) => 4,
            Form::U2U1Zero(..) | Form::U4(..) => 5,
            Form::WideU2U2(..) => 6,
            Form::Table(at, _, _, targets) => 13 + pad_len(at) + 4 * targets.len() as u32,
            Form::Lookup(at, _, pairs) => 9 + pad_len(at) + pairs_len(pairs),
        }
    }

    /// Appends these bytes.
    pub(crate) fn push(self, out: &mut Vec<u8>) -> Result<(), NoMemory>
        requires { FitsCount self }
        ensures { OnOk result (out.new.items ≡ out.old.items ++ form_bytes self.entry) }
    {
        match self {
            Form::Alone(opcode) => push_all(out, &[opcode]),
            Form::U1(opcode, a) => push_all(out, &[opcode, a]),
            Form::U1U1(opcode, a, b) => push_all(out, &[opcode, a, b]),
            Form::U2(opcode, a) => {
                let [high, low] = a.to_be_bytes();
                push_all(out, &[opcode, high, low])
            }
            Form::U2U1(opcode, a, b) => {
                let [high, low] = a.to_be_bytes();
                push_all(out, &[opcode, high, low, b])
            }
            Form::U2U1Zero(opcode, a, b) => {
                let [high, low] = a.to_be_bytes();
                push_all(out, &[opcode, high, low, b, 0])
            }
            Form::U4(opcode, a) => {
                let [high, mid_high, mid_low, low] = a.to_be_bytes();
                push_all(out, &[opcode, high, mid_high, mid_low, low])
            }
            Form::WideU2(opcode, a) => {
                let [high, low] = a.to_be_bytes();
                push_all(out, &[WIDE, opcode, high, low])
            }
            Form::WideU2U2(opcode, a, b) => {
                let [high, low] = a.to_be_bytes();
                let [b_high, b_low] = b.to_be_bytes();
                push_all(out, &[WIDE, opcode, high, low, b_high, b_low])
            }
            Form::Table(at, low, other, targets) => push_table(out, at, low, other, targets),
            Form::Lookup(at, other, pairs) => push_lookup(out, at, other, pairs),
        }
    }
}

/// The jump offset from an opcode to a target, in 32 bits.
pub(crate) fn offset(at: u32, to: u32) -> u32
    ensures { result ≡ offset_of at to }
{
    to.wrapping_sub(at)
}

// How many pad bytes a switch has at an offset.
fn pad_len(at: u32) -> u32
    ensures { result ≡ pad_of at }
{
    3 - at % 4
}

// How many bytes pairs are. Each key is read, since only what is read is known to be of its type.
fn pairs_len(pairs: &[Pair]) -> u32
    requires { length pairs.now ≤ 65535 }
    ensures len { result ≡ 8 * length pairs.now }
    ensures keys { FitsKeys pairs.now }
{
    let mut len = 0;
    for pair in pairs {
        let _key = pair.key;
        len += 8;
    }
    len
}

// Appends bytes.
fn push_all(out: &mut Vec<u8>, bytes: &[u8]) -> Result<(), NoMemory>
    ensures { OnOk result (out.new.items ≡ out.old.items ++ bytes.now) }
{
    out.extend_from_slice(bytes)?;
    Ok(())
}

// Appends a number of four bytes.
fn push_u4(out: &mut Vec<u8>, number: u32) -> Result<(), NoMemory>
    ensures { OnOk result (out.new.items ≡ out.old.items ++ u4 number) }
{
    push_all(out, &number.to_be_bytes())
}

// Appends a signed number of four bytes.
fn push_s4(out: &mut Vec<u8>, number: i32) -> Result<(), NoMemory>
    ensures { OnOk result (out.new.items ≡ out.old.items ++ u4 (cast_unsigned w32 number)) }
{
    push_all(out, &number.to_be_bytes())
}

// Appends the opcode of a switch, pad bytes and its default target.
#[tactic(auto, using(crate::proofs::Pads::taken_pad))]
fn push_switch(out: &mut Vec<u8>, opcode: u8, at: u32, other: u32) -> Result<(), NoMemory>
    ensures { OnOk result
        (out.new.items ≡ out.old.items
        ++ (opcode ∷ (replicate (pad_of at) 0 ++ target_bytes at other))) }
{
    push_all(out, &[opcode])?;
    push_all(out, &[0; 3][..pad_len(at) as usize])?;
    push_u4(out, offset(at, other))
}

// The highest key of a tableswitch.
fn high_of(low: i32, targets: &[u32]) -> i32
    requires { FitsTable low targets.now }
    ensures { result ≡ low +ℤ pos (length targets.now - 1) }
{
    low + (targets.len() as i32 - 1)
}

// Appends a tableswitch (6.5.tableswitch).
fn push_table(
    out: &mut Vec<u8>,
    at: u32,
    low: i32,
    other: u32,
    targets: &[u32],
) -> Result<(), NoMemory>
    requires { FitsTable low targets.now }
    ensures { OnOk result (out.new.items ≡ out.old.items ++ table_bytes at low other targets.now) }
{
    push_switch(out, TABLESWITCH, at, other)?;
    push_s4(out, low)?;
    push_s4(out, high_of(low, targets))?;
    for to in targets {
        push_u4(out, offset(at, *to))?;
    }
    Ok(())
}

// Appends a lookupswitch (6.5.lookupswitch).
fn push_lookup(out: &mut Vec<u8>, at: u32, other: u32, pairs: &[Pair]) -> Result<(), NoMemory>
    requires { length pairs.now ≤ 65535 }
    ensures { OnOk result (out.new.items ≡ out.old.items ++ lookup_bytes at other pairs.now) }
{
    push_switch(out, LOOKUPSWITCH, at, other)?;
    push_u4(out, pairs.len() as u32)?;
    for pair in pairs {
        push_pair(out, at, pair)?;
    }
    Ok(())
}

// Appends a key and the offset of its target.
fn push_pair(out: &mut Vec<u8>, at: u32, pair: &Pair) -> Result<(), NoMemory>
    ensures { OnOk result (out.new.items ≡ out.old.items ++ pair_bytes at pair.now) }
{
    push_s4(out, pair.key)?;
    push_u4(out, offset(at, pair.to))
}
