//! The bytes of a code and its exception table.
ghost use Rattle.std.specs.Prelude.{◌≡◌, ◌≤◌, ◌++◌, ◌∷◌, ◌^◌, ◌<◌, ℕ, length, map, IfOk, OnOk};
ghost use Rattle.class_model.specs.Spelling.{u4};
ghost use Rattle.class_model.specs.declared.instr.Instr.TheVariants.{Goto};
ghost use Rattle.class_model.specs.declared.opcodes.TheConstants.{GOTO_W};
ghost use Rattle.code_bytes.specs.Encoding.{HasSpelling};
ghost use Rattle.code_bytes.specs.Forms.{offset_of};
ghost use Rattle.member_link.specs.Targets.{with_targets};
ghost use Rattle.code_layout.specs.Inner.Writing.{ArePlaced, AreSpelled, CanBeSpelled, IsAppended, spelled_in};
ghost use Rattle.code_layout.specs.Layout.{end_from, item_ranges, placed_bytes, placed_items, range_of, short_spelled, start_in, wide_spelled};

use crate::emitted::{Catch, EmitItem};
use crate::form::Form;
use crate::places::start_of;
use crate::retarget::retargeted;
use class_model::opcodes::GOTO_W;
use class_model::{Handler, Instr, NoMemory, push_u4};
use code_bytes::{a_wide_goto_spells_a_goto, encode_into};
use std::alloc::Global;

/// The bytes and the exception table of items whose offsets in a form these are.
pub(crate) fn code_and_table(
    alloc: Global,
    form: Form,
    items: &[EmitItem],
    starts: &[u32],
) -> Result<(Vec<u8>, Vec<Handler>), NoMemory>
    requires { ArePlaced form items.now starts.now }
    ensures bytes { IfOk result (λ both. both.0.items
        ≡ placed_bytes (spelled_in form) (placed_items (spelled_in form) items.now)) }
    ensures spelled { OnOk result
        (AreSpelled (spelled_in form) (placed_items (spelled_in form) items.now)) }
    ensures end { IfOk result (λ both. length both.0.items ≡ end_from (spelled_in form) 0 items.now) }
    ensures table { IfOk result (λ both. both.1.items ≡ item_ranges (spelled_in form) items.now) }
{
    let mut code = Vec::new(alloc);
    let mut table = Vec::new(alloc);
    for item in items {
        let start = code.len();
        push_instr(alloc, form, &mut code, &item.instr, starts)?;
        let end = code.len();
        push_ranges(
            &mut table,
            item.catches.as_slice(),
            starts,
            start as u16,
            end as u16,
        )?;
    }
    Ok((code, table))
}

// Appends an instruction whose targets are numbers of items that start at these offsets.
fn push_instr(
    alloc: Global,
    form: Form,
    code: &mut Vec<u8>,
    instr: &Instr,
    starts: &[u32],
) -> Result<(), NoMemory>
    requires place { length code.old.items ≤ 65535 }
    requires spelled { CanBeSpelled form (length code.old.items)
        (with_targets (start_in starts.now) instr.now) }
    ensures { OnOk result (IsAppended (spelled_in form) (start_in starts.now) instr.now
        code.old.items code.new.items) }
{
    match form {
        Form::Short => push_shortest(alloc, code, instr, starts),
        Form::Wide => match instr {
            Instr::Goto(to) => push_wide_goto(code, start_of(starts, *to)),
            _ => push_shortest(alloc, code, instr, starts),
        },
    }
}

// Appends its shortest spelling.
fn push_shortest(
    alloc: Global,
    code: &mut Vec<u8>,
    instr: &Instr,
    starts: &[u32],
) -> Result<(), NoMemory>
    requires place { length code.old.items ≤ 65535 }
    requires spelled { HasSpelling (length code.old.items) (with_targets (start_in starts.now) instr.now) }
    ensures { OnOk result
        (IsAppended short_spelled (start_in starts.now) instr.now code.old.items code.new.items) }
{
    let at = code.len() as u32;
    match retargeted(alloc, instr, starts)? {
        Some(placed) => encode_into(code, &placed, at)?,
        None => encode_into(code, instr, at)?,
    }
    Ok(())
}

// Appends a goto of 32 bits.
fn push_wide_goto(code: &mut Vec<u8>, to: u32) -> Result<(), NoMemory>
    requires { length code.old.items ≤ 65535 }
    ensures { OnOk result (IsAppended wide_spelled (λ to. to) (Goto to) code.old.items code.new.items) }
{
    a_wide_goto_spells_a_goto();
    let at = code.len() as u32;
    code.push(GOTO_W)?;
    push_u4(code, offset(at, to))
}

// From an offset to another.
fn offset(at: u32, to: u32) -> u32
    ensures { result ≡ offset_of at to }
{
    to.wrapping_sub(at)
}

// Appends an entry for each handler of the instruction from an offset up to another.
fn push_ranges(
    table: &mut Vec<Handler>,
    catches: &[Catch],
    starts: &[u32],
    start: u16,
    end: u16,
) -> Result<(), NoMemory>
    requires { (to : ℕ) → start_in starts.now to ≤ 65535 }
    ensures { OnOk result
        (table.new.items
        ≡ table.old.items ++ map (range_of (start_in starts.now) start end) catches.now) }
{
    for catch in catches {
        table.push(Handler {
            start,
            end,
            at: start_of(starts, catch.to) as u16,
            catch_type: catch.catch_type,
        })?;
    }
    Ok(())
}
