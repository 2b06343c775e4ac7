//! The items to which jumps and handlers lead.
ghost use Rattle.std.specs.Prelude.{◌==◌, IfOk};
ghost use Rattle.class_model.specs.Instructions.{targets};
ghost use Rattle.stackmap_emit.specs.Inner.Marks.{AreLed, IsMarked, are_targets, catches_lead, item_leads, items_lead, pairs_lead};

use class_model::{Instr, NoMemory, Pair};
use code_layout::{Catch, EmitItem};
use std::alloc::Global;

/// For each item whether a jump or a handler of some item leads to it.
///
/// # Errors
/// `NoMemory`, where memory runs out.
pub(crate) fn led_items(alloc: Global, items: &[EmitItem]) -> Result<Vec<bool>, NoMemory>
    ensures { IfOk result (λ led. AreLed items.now led.items) }
{
    let mut led = vec![in alloc; false; items.len()]?;
    mark_items(led.as_mut_slice(), items);
    Ok(led)
}

// Marks the items to which items lead.
fn mark_items(led: &mut [bool], items: &[EmitItem])
    ensures { IsMarked (items_lead items.now) led.old led.new }
{
    for item in items {
        mark_item(led, item);
    }
}

// Marks the items to which an item leads.
fn mark_item(led: &mut [bool], item: &EmitItem)
    ensures { IsMarked (item_leads item.now) led.old led.new }
{
    mark_targets(led, &item.instr);
    mark_catches(led, item.catches.as_slice());
}

// Marks the items to which an instruction jumps.
fn mark_targets(led: &mut [bool], instr: &Instr)
    ensures { IsMarked (are_targets (targets instr.now)) led.old led.new }
{
    match instr {
        Instr::If(_, to) | Instr::If2(_, to) | Instr::IfSame(_, to) | Instr::IfNull(_, to) => {
            mark(led, *to)
        }
        Instr::Goto(to) => mark(led, *to),
        Instr::Table { other, targets, .. } => {
            mark(led, *other);
            mark_all(led, targets.as_slice());
        }
        Instr::Lookup { other, pairs } => {
            mark(led, *other);
            mark_pairs(led, pairs.as_slice());
        }
        _ => {}
    }
}

// Marks items.
fn mark_all(led: &mut [bool], numbers: &[u32])
    ensures { IsMarked (are_targets numbers.now) led.old led.new }
{
    for to in numbers {
        mark(led, *to);
    }
}

// Marks the targets of keys.
fn mark_pairs(led: &mut [bool], pairs: &[Pair])
    ensures { IsMarked (pairs_lead pairs.now) led.old led.new }
{
    for pair in pairs {
        mark(led, pair.to);
    }
}

// Marks the items where handlers begin.
fn mark_catches(led: &mut [bool], catches: &[Catch])
    ensures { IsMarked (catches_lead catches.now) led.old led.new }
{
    for catch in catches {
        mark(led, catch.to);
    }
}

// Marks the item of a number, if there is one.
fn mark(led: &mut [bool], number: u32)
    ensures { IsMarked (λ at. number == at) led.old led.new }
{
    let at = number as usize;
    if at < led.len() {
        led[at] = true;
    }
}
