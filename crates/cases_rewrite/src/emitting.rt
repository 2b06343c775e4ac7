//! Emitted code.
ghost use Rattle.member_link.specs.Targets.{HasForm};
ghost use Rattle.std.specs.Prelude.{◌≡◌, ◌<◌, ◌≤◌, ℕ, Some, length, map, IfSome, IsTrue};
ghost use Rattle.std.specs.List.{AllByRecursion, slice_get};
ghost use Rattle.class_model.specs.Instructions.{keys_increase, targets};
ghost use Rattle.class_model.specs.declared.instr.Imm.TheVariants as imms;
ghost use Rattle.class_model.specs.declared.instr.Instr.TheVariants.{Const, Throw};
ghost use Rattle.cases_rewrite.specs.Inner.Forms.{IsSmallTable};
ghost use Rattle.code_layout.specs.Emitting.{HasInstr, IfNear, IsItem, JumpsNear, NamesItem};
ghost use Rattle.code_layout.specs.declared.emitted.EmitItem.{EmitItem};

use class_model::opcodes::IFNONNULL;
use class_model::{Imm, Instr, Pair};
use code_layout::{Catch, EmitItem, EmitItemList, Emitted};

/// The code of these items, of the instructions that tests and benches use, if they are as `Emitted::of` asks.
pub fn emitted_of(items: EmitItemList) -> Option<Emitted>
    ensures { IfSome result (λ emitted. emitted ≡ items) }
{
    if are_items(items.as_slice()) {
        Some(Emitted::of(items))
    } else {
        None
    }
}

// Whether there is an item, and each is as asked.
fn are_items(items: &[EmitItem]) -> bool
    ensures some { IsTrue result → 0 < length items.now }
    ensures each { IsTrue result
        → (at : ℕ) (item : EmitItem)
        → slice_get items.now at ≡ Some item
        → IsItem items.now at item }
{
    for at in 0..items.len() {
        if !is_item(items, at, &items[at]) {
            return false;
        }
    }
    !items.is_empty()
}

// Whether an item of a number is as asked.
fn is_item(items: &[EmitItem], at: usize, item: &EmitItem) -> bool
    ensures { IsTrue result → IsItem items.now at item.now }
{
    has_form(&item.instr)
        && aims_within(&item.instr, items.len())
        && catches_within(item.catches.as_slice(), items.len())
        && is_near(items, at, item)
}

// Whether an instruction, of some kinds, would have a spelling if it stood where it jumps to.
fn has_form(instr: &Instr) -> bool
    ensures { IsTrue result → HasForm instr.now }
{
    match instr {
        Instr::Nop | Instr::Goto(_) | Instr::Load(..) | Instr::Return(_) | Instr::Throw => true,
        Instr::Const(value) => matches!(value, Imm::Null),
        Instr::IfNull(opcode, _) => *opcode == IFNONNULL,
        Instr::Table { low, targets, .. } => has_table_form(*low, targets.len()),
        Instr::Lookup { pairs, .. } => has_lookup_form(pairs.as_slice()),
        _ => false,
    }
}

// Whether a tableswitch of a lowest key and so many targets is a small one.
fn has_table_form(low: i32, targets: usize) -> bool
    ensures { IsTrue result → IsSmallTable low targets }
{
    0 <= low && low < 1_000 && 1 <= targets && targets < 1_000
}

// Whether a lookupswitch has at most two pairs, and its keys increase.
fn has_lookup_form(pairs: &[Pair]) -> bool
    ensures few { IsTrue result → length pairs.now ≤ 65535 }
    ensures order { IsTrue result → IsTrue (keys_increase pairs.now) }
{
    match pairs {
        [] | [_] => true,
        [first, second] => first.key < second.key,
        _ => false,
    }
}

// Whether the targets of an instruction are numbers of so many items.
fn aims_within(instr: &Instr, count: usize) -> bool
    ensures { IsTrue result → AllByRecursion (NamesItem count) (targets instr.now) }
{
    match instr {
        Instr::Nop | Instr::Load(..) | Instr::Return(_) | Instr::Throw | Instr::Const(_) => true,
        Instr::Goto(to) | Instr::IfNull(_, to) => (*to as usize) < count,
        Instr::Table { other, targets, .. } => {
            (*other as usize) < count && targets_within(targets.as_slice(), count)
        }
        Instr::Lookup { other, pairs } => {
            (*other as usize) < count && pairs_within(pairs.as_slice(), count)
        }
        _ => false,
    }
}

fn targets_within(targets: &[u32], count: usize) -> bool
    ensures { IsTrue result → AllByRecursion (NamesItem count) targets.now }
{
    match targets {
        [] => true,
        [first, others @ ..] => (*first as usize) < count && targets_within(others, count),
    }
}

fn pairs_within(pairs: &[Pair], count: usize) -> bool
    ensures { IsTrue result → AllByRecursion (NamesItem count) (map (λ pair. pair.to) pairs.now) }
{
    match pairs {
        [] => true,
        [first, others @ ..] => (first.to as usize) < count && pairs_within(others, count),
    }
}

// Whether handlers are numbers of so many items.
fn catches_within(catches: &[Catch], count: usize) -> bool
    ensures { IsTrue result → AllByRecursion (λ catch. NamesItem count catch.to) catches.now }
{
    for catch in catches {
        if catch.to as usize >= count {
            return false;
        }
    }
    true
}

// Whether an item of a number, if it is the jump inside a test against null, is as said of those.
fn is_near(items: &[EmitItem], at: usize, item: &EmitItem) -> bool
    ensures { IsTrue result → IfNear items.now at item.now }
{
    !item.near || jumps_near(items, at, &item.instr)
}

fn jumps_near(items: &[EmitItem], at: usize, instr: &Instr) -> bool
    ensures { IsTrue result → JumpsNear items.now at instr.now }
{
    let Instr::IfNull(opcode, to) = instr else {
        return false;
    };
    let to = *to as usize;
    *opcode == IFNONNULL
        && to >= 3
        && to - 3 == at
        && has_null(items, to - 2)
        && has_throw(items, to - 1)
}

fn has_null(items: &[EmitItem], at: usize) -> bool
    ensures { IsTrue result → HasInstr items.now at (Const imms.Null) }
{
    match items.get(at) {
        Some(item) => matches!(&item.instr, Instr::Const(Imm::Null)),
        None => false,
    }
}

fn has_throw(items: &[EmitItem], at: usize) -> bool
    ensures { IsTrue result → HasInstr items.now at Throw }
{
    match items.get(at) {
        Some(item) => matches!(&item.instr, Instr::Throw),
        None => false,
    }
}
