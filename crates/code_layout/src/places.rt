//! Where items stand.
ghost use Rattle.std.specs.Prelude.{◌≡◌, ◌↔◌, ◌<◌, ◌≤◌, IfOk, IsTrue, MatchOption};
ghost use Rattle.code_layout.specs.ChosenForm.{is_short};
ghost use Rattle.code_layout.specs.Inner.Writing.{HaveForms, most_in, spelled_in};
ghost use Rattle.code_layout.specs.Layout.{end_from, item_starts, start_in, table_len};

use crate::emitted::EmitItem;
use crate::form::Form;
use crate::lengths::len_of;
use class_model::NoMemory;
use std::alloc::Global;

// The greatest number of bytes that jumps of 16 bits reach over.
const MAX_SHORT: u32 = 32_767;

// The greatest number of bytes of a code (JVM Specification SE 8, 4.7.3).
const MAX_CODE: u32 = 65_535;

// The greatest number of entries of an exception table (JVM Specification SE 8, 4.7.3).
const MAX_HANDLERS: usize = 65_535;

/// Whether the exception table of these items has at most 65,535 entries.
pub(crate) fn fits_table(items: &[EmitItem]) -> bool
    ensures { IsTrue result ↔ (table_len items.now ≤ 65535) }
{
    let mut left = MAX_HANDLERS;
    for item in items {
        let count = item.catches.len();
        if count > left {
            return false;
        }
        left -= count;
    }
    true
}

// The greatest number of bytes that code may have in a form.
fn most_in(form: Form) -> u32
    ensures is { result ≡ most_in form }
    ensures few { result ≤ 65535 }
{
    match form {
        Form::Short => MAX_SHORT,
        Form::Wide => MAX_CODE,
    }
}

/// Where each item starts in a form, in bytes, if all have at most as many bytes as they may have in it.
pub(crate) fn places(
    alloc: Global,
    form: Form,
    items: &[EmitItem],
) -> Result<Option<Vec<u32>>, NoMemory>
    requires { HaveForms items.now }
    ensures { IfOk result (λ found. MatchOption found (most_in form < end_from (spelled_in form) 0 items.now)
        (λ starts. (starts.items ≡ item_starts (spelled_in form) items.now)
        × (end_from (spelled_in form) 0 items.now ≤ most_in form))) }
{
    let most = most_in(form);
    let mut starts = Vec::new(alloc);
    let mut at: u32 = 0;
    for item in items {
        starts.push(at)?;
        at = at.saturating_add(len_of(form, &item.instr, at));
        if at > most {
            return Ok(None);
        }
    }
    Ok(Some(starts))
}

/// Whether these items have at most 32,767 bytes in the short form.
pub(crate) fn is_short(items: &[EmitItem]) -> bool
    requires { HaveForms items.now }
    ensures { result ≡ is_short items.now }
{
    let mut at: u32 = 0;
    for item in items {
        at = at.saturating_add(len_of(Form::Short, &item.instr, at));
        if at > MAX_SHORT {
            return false;
        }
    }
    true
}

/// Where the item of a number starts.
pub(crate) fn start_of(starts: &[u32], to: u32) -> u32
    ensures { result ≡ start_in starts.now to }
{
    starts.get(to as usize).copied().unwrap_or(0)
}
