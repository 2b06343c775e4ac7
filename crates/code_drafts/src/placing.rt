//! Items with the numbers of items for targets.
ghost use Rattle.std.specs.Prelude.{◌≡◌, ◌≤◌, ◌<◌, ◌++◌, ◌∷◌, [], ℕ, List, drop, length, map, take, unwrap_or, None, IfOk, OnOk, MatchOption};
ghost use Rattle.std.specs.Vec.Iter.{into_iter_items};
ghost use Rattle.class_model.specs.Pool.{Constants};
ghost use Rattle.class_tree.specs.Headers.{Name};
ghost use Rattle.code_drafts.specs.Drafts.{AreDrafted, all_items, meaning, meant, target_of};
ghost use Rattle.code_drafts.specs.Numbering.{IsNumbered};
ghost use Rattle.code_drafts.specs.Inner.Parts.{Joins, JoinsPart, draft_number, end_drafts, parts_of, placed_catch, placed_draft, placed_drafts, start_at};
ghost use Rattle.code_drafts.specs.declared.draft.Target.{Target as Leading};
ghost use Rattle.code_layout.specs.PlainItems.{plain_item, plain_items};
ghost use Rattle.flow_code.specs.WrittenUnits.{written_units};
ghost use Rattle.plan_flow.specs.PlanScope.{PlanScope};
ghost use Rattle.plan_flow.specs.Written.Blocks.{Block};
ghost use Rattle.plan_flow.specs.Written.WrittenCode.{jumping_to, pairs_to};
ghost use Rattle.plan_flow.specs.Written.WrittenConstants.{is_near};
ghost use Rattle.written_frames.specs.FewLocals.{HasFewLocals};

use crate::draft::{DraftBlock, DraftCatch, DraftItem, Target};
use crate::finishing::{DraftEnd, ends_of};
use crate::kept::MOST;
use crate::numbers::Starts;
use class_model::{Instr, ListOf, NoMemory, Pair};
use code_layout::{Catch, CatchList, EmitItem, EmitItemList};
use flow_code::Flat;
use std::alloc::Global;
use std::vec::IntoIter;

/// The items of all blocks with what blocks end with, where targets are numbers of items, and the number of the first item of each block.
pub struct Numbered {
    pub items: EmitItemList,
    pub firsts: Vec<u16>,
}

// Written out: a derived drop would be spelled out, field by field, in each function that drops one, and be proved there.
impl Drop for Numbered {
    fn drop(self) {
        let Numbered {
            items: _,
            firsts: _,
        } = self;
    }
}

impl Numbered {
    /// The items, and the number of the first item of each block.
    pub fn into_parts(self) -> (EmitItemList, Vec<u16>)
        ensures items { result.0 ≡ self.items }
        ensures firsts { result.1 ≡ self.firsts }
    {
        let Numbered { items, firsts } = self;
        (items, firsts)
    }
}

/// Numbers the items of all blocks. None: they are more than a code can have.
///
/// # Errors
/// `NoMemory`, where memory runs out.
pub fn number_items(
    alloc: Global,
    flat: &Flat,
    blocks: &[DraftBlock],
    items: Vec<DraftItem>,
) -> Result<Option<Numbered>, NoMemory>
    requires units { written_units flat.now ≤ 65535 }
    requires few { (at : ℕ) → HasFewLocals flat.now at }
    ensures { IfOk result (λ found.
        (s : PlanScope) (constructor : Name → List ℕ) (pool : Constants) (bs : List Block)
        → s.flat ≡ flat.now
        → AreDrafted bs blocks.now
        → map meaning items.items ≡ map (meant s constructor pool) (all_items bs)
        → IsNumbered s constructor pool bs found) }
{
    let ends = ends_of(alloc, flat, blocks)?;
    let mut joined = Joined::new(alloc);
    let fits = join(alloc, blocks, ends.as_slice(), items, &mut joined)?;
    if !fits {
        return Ok(None);
    }
    let items = place_items(alloc, &joined.starts, joined.items.as_slice())?;
    let firsts = joined.into_firsts();
    Ok(Some(Numbered { items, firsts }))
}

// ---- blocks one behind the other

// Items of blocks, each with its end, the number of the first item of each block, and where blocks begin.
struct Joined {
    items: ListOf<DraftItem>,
    firsts: Vec<u16>,
    starts: Starts,
}

// Written out: a derived drop would be spelled out, field by field, in each function that drops one, and be proved there.
impl Drop for Joined {
    fn drop(self) {
        let Joined {
            items: _,
            firsts: _,
            starts: _,
        } = self;
    }
}

impl Joined {
    // Of no block.
    fn new(alloc: Global) -> Self
        ensures items { result.items ≡ [] }
        ensures firsts { result.firsts.items ≡ [] }
        ensures starts { (to : Leading) → start_at result.starts to ≡ None }
    {
        Joined {
            items: ListOf::new(alloc),
            firsts: Vec::new(alloc),
            starts: Starts::new(alloc),
        }
    }

    // The numbers of first items.
    fn into_firsts(self) -> Vec<u16>
        ensures { result ≡ self.firsts }
    {
        let Joined {
            items: _,
            firsts,
            starts: _,
        } = self;
        firsts
    }
}

// Appends the items of blocks, each with its end, and notes where blocks begin. False: they are more than a code can have.
fn join(
    alloc: Global,
    blocks: &[DraftBlock],
    ends: &[DraftEnd],
    items: Vec<DraftItem>,
    joined: &mut Joined,
) -> Result<bool, NoMemory>
    requires items { joined.old.items ≡ [] }
    requires firsts { joined.old.firsts.items ≡ [] }
    requires starts { (to : Leading) → start_at joined.old.starts to ≡ None }
    requires as_many { length ends.now ≡ length blocks.now }
    ensures { IfOk result (Joins (parts_of blocks.now ends.now items.items) joined.new) }
{
    let mut left = items.into_iter();
    for (at, block) in blocks.iter().enumerate() {
        let fits = join_block(alloc, block, ends[at], &mut left, joined)?;
        if !fits {
            return Ok(false);
        }
    }
    Ok(joined.items.len() <= MOST)
}

// Notes where a block begins, and appends its items and its end. False: there are more items than a code can have.
fn join_block(
    alloc: Global,
    block: &DraftBlock,
    end: DraftEnd,
    left: &mut IntoIter<DraftItem>,
    joined: &mut Joined,
) -> Result<bool, NoMemory>
    ensures { IfOk result (JoinsPart block.now end (into_iter_items left.old)
        (into_iter_items left.new) joined.old joined.new) }
{
    let Ok(number) = u16::try_from(joined.items.len()) else {
        return Ok(false);
    };
    joined.starts.note(block.of, number)?;
    joined.firsts.push(number)?;
    move_items(block.count, left, &mut joined.items)?;
    push_end(alloc, end, &mut joined.items)?;
    Ok(true)
}

// Moves so many items, or those that there are.
fn move_items(
    count: usize,
    left: &mut IntoIter<DraftItem>,
    written: &mut ListOf<DraftItem>,
) -> Result<(), NoMemory>
    ensures written { OnOk result
        (written.new ≡ written.old ++ take count (into_iter_items left.old)) }
    ensures left { OnOk result
        (into_iter_items left.new ≡ drop count (into_iter_items left.old)) }
{
    for _ in 0..count {
        let Some(item) = left.next() else {
            return Ok(());
        };
        written.push(item)?;
    }
    Ok(())
}

// Appends what a block ends with.
fn push_end(alloc: Global, end: DraftEnd, written: &mut ListOf<DraftItem>) -> Result<(), NoMemory>
    ensures { OnOk result (written.new ≡ written.old ++ end_drafts end) }
{
    match end {
        DraftEnd::Nothing => Ok(()),
        DraftEnd::Goto(to) => push_bare(alloc, Instr::Goto(0), &[Target::Point(to)], written),
        DraftEnd::Nop => push_bare(alloc, Instr::Nop, &[], written),
    }
}

// Appends an instruction that no handler catches.
fn push_bare(
    alloc: Global,
    instr: Instr,
    targets: &[Target],
    written: &mut ListOf<DraftItem>,
) -> Result<(), NoMemory>
    ensures { OnOk result (written.new ≡ written.old
        ++ record { instr = instr; targets = targets.now; catches = [] } ∷ []) }
{
    let targets = ListOf::from_vec(Vec::from_slice(alloc, targets)?);
    let catches = ListOf::new(alloc);
    written.push(DraftItem {
        instr,
        targets,
        catches,
    })
}

// ---- items with numbers

// Items with numbers for targets.
fn place_items(
    alloc: Global,
    starts: &Starts,
    items: &[DraftItem],
) -> Result<EmitItemList, NoMemory>
    requires { length items.now ≤ 65535 }
    ensures { IfOk result (λ placed.
        plain_items placed ≡ placed_drafts starts.now (length items.now) 0 items.now) }
{
    let total = items.len() as u32;
    let mut placed = Vec::with_capacity(alloc, items.len())?;
    let mut number: u32 = 0;
    for item in items {
        placed.push(place_item(alloc, starts, total, number, item)?)?;
        number += 1;
    }
    Ok(ListOf::from_vec(placed))
}

// The item of a number among so many, with numbers for targets.
fn place_item(
    alloc: Global,
    starts: &Starts,
    total: u32,
    number: u32,
    item: &DraftItem,
) -> Result<EmitItem, NoMemory>
    requires { number ≤ 65535 }
    ensures { IfOk result (λ placed.
        plain_item placed ≡ placed_draft (draft_number starts.now total number) item.now) }
{
    let near = is_near(item.targets.as_slice());
    let numbers = numbers_of(alloc, starts, total, number, item.targets.as_slice())?;
    let instr = jumping_to(alloc, &item.instr, numbers.as_slice())?;
    let catches = catches_of(alloc, starts, total, number, item.catches.as_slice())?;
    Ok(EmitItem {
        instr,
        near,
        catches,
    })
}

// Whether these are the targets of the jump inside a test for null.
fn is_near(targets: &[Target]) -> bool
    ensures { result ≡ is_near (map target_of targets.now) }
{
    if targets.len() == 1 {
        match targets[0] {
            Target::Ahead(count) => count == 3,
            _ => false,
        }
    } else {
        false
    }
}

// The number of a target of the item of a number among so many.
fn number_of(starts: &Starts, total: u32, number: u32, to: Target) -> u32
    requires { number ≤ 65535 }
    ensures { result ≡ draft_number starts.now total number to }
{
    match to {
        Target::Point(_) => start_or(starts, total, to),
        Target::JumpPad { .. } => start_or(starts, total, to),
        Target::HandlerPad { .. } => start_or(starts, total, to),
        Target::Ahead(count) => number + u32::from(count),
    }
}

// Where the block begins that a target leads to, or this number.
fn start_or(starts: &Starts, total: u32, to: Target) -> u32
    ensures { result ≡ unwrap_or (start_at starts.now to) total }
{
    match starts.of(to) {
        Some(start) => u32::from(start),
        None => total,
    }
}

// The numbers of targets.
fn numbers_of(
    alloc: Global,
    starts: &Starts,
    total: u32,
    number: u32,
    targets: &[Target],
) -> Result<Vec<u32>, NoMemory>
    requires { number ≤ 65535 }
    ensures { IfOk result (λ numbers.
        numbers.items ≡ map (draft_number starts.now total number) targets.now) }
{
    let mut numbers = Vec::with_capacity(alloc, targets.len())?;
    for to in targets {
        numbers.push(number_of(starts, total, number, *to))?;
    }
    Ok(numbers)
}

// Handlers with numbers for where they begin.
fn catches_of(
    alloc: Global,
    starts: &Starts,
    total: u32,
    number: u32,
    catches: &[DraftCatch],
) -> Result<CatchList, NoMemory>
    requires { number ≤ 65535 }
    ensures { IfOk result (λ placed. map (λ catch. (catch.to, catch.catch_type)) placed
        ≡ map (placed_catch (draft_number starts.now total number)) catches.now) }
{
    let mut placed = Vec::with_capacity(alloc, catches.len())?;
    for catch in catches {
        placed.push(Catch {
            to: number_of(starts, total, number, catch.to),
            catch_type: catch.class,
        })?;
    }
    Ok(ListOf::from_vec(placed))
}

// ---- instructions with targets

// An instruction with these targets, a switch's default first.
fn jumping_to(alloc: Global, instr: &Instr, numbers: &[u32]) -> Result<Instr, NoMemory>
    ensures { IfOk result (λ made. made ≡ jumping_to numbers.now instr.now) }
{
    let Some(first) = numbers.first() else {
        return instr.copy(alloc);
    };
    match jumping_first(alloc, instr, *first, &numbers[1..])? {
        Some(made) => Ok(made),
        None => instr.copy(alloc),
    }
}

// An instruction with a target and others. None: it has none.
fn jumping_first(
    alloc: Global,
    instr: &Instr,
    first: u32,
    others: &[u32],
) -> Result<Option<Instr>, NoMemory>
    ensures { IfOk result (λ found.
        MatchOption found (jumping_to (first ∷ others.now) instr.now ≡ instr.now)
        (λ made. made ≡ jumping_to (first ∷ others.now) instr.now)) }
{
    Ok(Some(match instr {
        Instr::If(opcode, _) => Instr::If(*opcode, first),
        Instr::If2(opcode, _) => Instr::If2(*opcode, first),
        Instr::IfSame(opcode, _) => Instr::IfSame(*opcode, first),
        Instr::IfNull(opcode, _) => Instr::IfNull(*opcode, first),
        Instr::Goto(_) => Instr::Goto(first),
        Instr::Table { low, .. } => Instr::Table {
            low: *low,
            other: first,
            targets: ListOf::from_vec(Vec::from_slice(alloc, others)?),
        },
        Instr::Lookup { pairs, .. } => Instr::Lookup {
            other: first,
            pairs: ListOf::from_vec(pairs_to(alloc, pairs.as_slice(), others)?),
        },
        _ => return Ok(None),
    }))
}

// Each key with its target in order.
fn pairs_to(alloc: Global, pairs: &[Pair], numbers: &[u32]) -> Result<Vec<Pair>, NoMemory>
    ensures { IfOk result (λ made. made.items ≡ pairs_to pairs.now numbers.now) }
{
    let mut made = Vec::with_capacity(alloc, pairs.len())?;
    for (at, pair) in pairs.iter().enumerate() {
        let Some(number) = numbers.get(at) else {
            return Ok(made);
        };
        made.push(Pair {
            key: pair.key,
            to: *number,
        })?;
    }
    Ok(made)
}
