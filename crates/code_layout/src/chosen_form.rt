//! The layout of emitted code.
ghost use Rattle.std.specs.Prelude.{◌≡◌, ◌<◌, ◌≤◌, IfOk, OnOk, IfErr};
ghost use Rattle.code_layout.specs.ChosenForm.{IsLaidOut, IsWithin, KeepsLong, is_short};
ghost use Rattle.code_layout.specs.EmittedCode.{HasCodeOf};
ghost use Rattle.code_layout.specs.Inner.Writing.{ArePlaced, spelled_in};
ghost use Rattle.code_layout.specs.Layout.{IsLaid, end_from, short_spelled, table_len};

use crate::emitted::Emitted;
use crate::form::Form;
use crate::laid::Laid;
use crate::places::{self, fits_table, places};
use crate::wide_form::widened;
use crate::writing::code_and_table;
use class_model::{ListOf, NoMemory};
use flow_code::{KeptFault, Reason};
use std::alloc::Global;

// The greatest number of instructions of a code, since each has a byte at least.
const MAX_ITEMS: usize = 65_535;

/// Lays out emitted code: one instruction after the other, and an entry of the exception table for each handler of each item, which covers that
/// instruction alone. Each instruction is in its shortest spelling, with jumps of 16 bits; where that has more than 32,767 bytes, the wide form is
/// chosen, in which a goto has 32 bits and a conditional jump is the opposite one over such a goto. `starts` are those of the chosen form's items. It
/// takes time in proportion to the items, their targets and handlers.
///
/// # Errors
///
/// `Kept(Long)`, exactly where the chosen form has more than 65,535 bytes or the exception table more than 65,535 entries;
/// `NoMemory`, where memory runs out.
pub fn layout(alloc: Global, emitted: &Emitted) -> Result<Laid, KeptFault>
    ensures laid { IfOk result (IsLaidOut emitted.now) }
    ensures within { OnOk result (IsWithin emitted.now) }
    ensures kept { IfErr result (KeepsLong emitted.now) }
{
    let items = emitted.as_slice();
    if !fits_table(items) {
        return Err(KeptFault::Kept(Reason::Long));
    }
    match places(alloc, Form::Short, items)? {
        Some(starts) => Ok(laid_out(alloc, Form::Short, emitted, starts)?),
        None => wide_layout(alloc, emitted),
    }
}

/// Whether emitted code is laid out in the short form: it has at most 32,767 bytes there. It takes time in proportion to the items.
pub fn is_short(emitted: &Emitted) -> bool
    ensures { result ≡ is_short emitted.now }
{
    places::is_short(emitted.as_slice())
}

// The layout in the wide form, where the short one has too many bytes.
fn wide_layout(alloc: Global, emitted: &Emitted) -> Result<Laid, KeptFault>
    requires long { 32767 < end_from short_spelled 0 emitted.now }
    requires table { table_len emitted.now ≤ 65535 }
    ensures laid { IfOk result (IsLaidOut emitted.now) }
    ensures within { OnOk result (IsWithin emitted.now) }
    ensures kept { IfErr result (KeepsLong emitted.now) }
{
    if emitted.as_slice().len() > MAX_ITEMS {
        return Err(KeptFault::Kept(Reason::Long));
    }
    let wide = widened(alloc, emitted)?;
    match places(alloc, Form::Wide, wide.as_slice())? {
        Some(starts) => Ok(laid_out(alloc, Form::Wide, &wide, starts)?),
        None => Err(KeptFault::Kept(Reason::Long)),
    }
}

// The layout in a form, of items whose offsets in it these are.
fn laid_out(
    alloc: Global,
    form: Form,
    emitted: &Emitted,
    starts: Vec<u32>,
) -> Result<Laid, NoMemory>
    requires { ArePlaced form emitted.now starts.items }
    ensures laid { IfOk result (IsLaid (spelled_in form) emitted.now) }
    ensures code { IfOk result (HasCodeOf emitted.now) }
{
    let items = emitted.as_slice();
    let (code, handlers) = code_and_table(alloc, form, items, starts.as_slice())?;
    Ok(Laid {
        code: ListOf::from_vec(code),
        handlers: ListOf::from_vec(handlers),
        starts: ListOf::from_vec(starts),
    })
}
