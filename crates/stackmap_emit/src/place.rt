//! The frames that written code states.
ghost use Rattle.std.specs.Prelude.{◌≡◌, ◌≤◌, ◌<◌, ◌^◌, ℕ, List, length, IfOk};
ghost use Rattle.std.specs.Option.{option_copied};
ghost use Rattle.class_model.specs.Header.{header_of};
ghost use Rattle.class_tree.specs.Headers.{Name};
ghost use Rattle.code_layout.specs.ChosenForm.{chosen_items};
ghost use Rattle.flow_code.specs.WrittenUnits.{written_units};
ghost use Rattle.member_link.specs.Scope.{Scope};
ghost use Rattle.plan_flow.specs.PlanScope.{PlanScope};
ghost use Rattle.plan_flow.specs.Written.Finish.{Finished};
ghost use Rattle.plan_flow.specs.Written.Routes.{Routes};
ghost use Rattle.plan_flow.specs.Written.WrittenCode.{Form, written_items};
ghost use Rattle.stackmap_emit.specs.FramedItems.{AreEmitted, ArePlacedBy, entry_with, finished_by, form_of};
ghost use Rattle.stackmap_emit.specs.Inner.BlockTables.{AreStarts, form_number};
ghost use Rattle.stackmap_emit.specs.Inner.Walking.{IsWalk, reads};
ghost use Rattle.written_frames.specs.FewLocals.{HasFewLocals};

use crate::blocks::Blocks;
use crate::led::led_items;
use crate::walk::{Walk, WrittenFrames};
use class_model::{Frame, NoMemory, Pool, Text};
use code_layout::{EmitItem, Emitted, Laid, is_short, wide_numbers, widened};
use flow_code::Flat;
use std::alloc::Global;
use written_frames::BlockStart;

/// What the frames of written code depend on, beside its items.
#[derive(Clone, Copy)]
pub struct WrittenCode<'a> {
    /// The flat code of the method.
    pub flat: &'a Flat,
    /// The frame with which the written code begins.
    pub entry: &'a Frame,
    /// A pool that has the constants of the items.
    pub pool: &'a Pool,
    /// The name of the method's class.
    pub own: &'a Text,
    /// Where the blocks of the items start.
    pub starts: &'a [BlockStart],
}

/// The frames that written code states, at the offsets at which its items are laid out, and the greatest depth of its stack (JVM Specification
/// SE 8, 4.7.3, 4.7.4). It takes time in proportion to the items with what their stacks have, to their targets and handlers, and to the
/// units of the frames of blocks.
///
/// # Errors
/// `NoMemory`, where memory runs out.
pub fn place_frames(
    alloc: Global,
    code: &WrittenCode<'_>,
    emitted: &Emitted,
    laid: &Laid,
) -> Result<WrittenFrames, NoMemory>
    requires units { written_units code.now.flat.now ≤ 65535 }
    requires locals { (at : ℕ) → HasFewLocals code.now.flat.now at }
    requires few { length emitted.now ≤ 65535 }
    ensures { IfOk result (λ made. (s : PlanScope) (host : Scope) (constructor : Name → List ℕ)
        (routes : Routes)
        → s.flat ≡ code.now.flat.now
        → (header_of host.class).name ≡ code.now.own.now
        → code.now.entry.now ≡ entry_with host s.flat
        → AreEmitted s constructor routes code.now.pool.now emitted.now code.now.starts.now
        → ArePlacedBy host s.flat (form_of emitted.now) (finished_by s routes) code.now.pool.now
        (chosen_items emitted.now) laid.now.starts made.placed made.max_stack) }
{
    if is_short(emitted) {
        return frames_of(
            alloc,
            code,
            emitted.as_slice(),
            None,
            laid.starts.as_slice(),
        );
    }
    let numbers = wide_numbers(alloc, emitted.as_slice())?;
    let wide = widened(alloc, emitted)?;
    let numbers = Some(numbers.as_slice());
    frames_of(
        alloc,
        code,
        wide.as_slice(),
        numbers,
        laid.starts.as_slice(),
    )
}

// The frames of items of a form. Items of the wide one have numbers by those of the short one.
fn frames_of(
    alloc: Global,
    code: &WrittenCode<'_>,
    items: &[EmitItem],
    numbers: Option<&[u32]>,
    offsets: &[u32],
) -> Result<WrittenFrames, NoMemory>
    requires units { written_units code.now.flat.now ≤ 65535 }
    requires locals { (at : ℕ) → HasFewLocals code.now.flat.now at }
    requires few { length items.now < 2 ^ 32 }
    ensures { IfOk result (λ made. (host : Scope) (form : Form) (blocks : List Finished)
        → (header_of host.class).name ≡ code.now.own.now
        → code.now.entry.now ≡ entry_with host code.now.flat.now
        → length items.now ≡ length (written_items form blocks)
        → AreStarts form (form_number (option_copied numbers.entry) (length items.now))
        code.now.starts.now blocks
        → ArePlacedBy host code.now.flat.now form blocks code.now.pool.now
        items.now offsets.now made.placed made.max_stack) }
{
    let led = led_items(alloc, items)?;
    let blocks = Blocks::new(alloc, code.flat, code.starts, numbers, items.len() as u32)?;
    walked(alloc, code, items, &blocks, led.as_slice(), offsets)
}

// The frames of items whose blocks these are.
fn walked(
    alloc: Global,
    code: &WrittenCode<'_>,
    items: &[EmitItem],
    blocks: &Blocks<'_>,
    led: &[bool],
    offsets: &[u32],
) -> Result<WrittenFrames, NoMemory>
    requires locals { (at : ℕ) → HasFewLocals blocks.now.maker at }
    requires few { length items.now < 2 ^ 32 }
    ensures { IfOk result
        (IsWalk (reads code.now.pool.now code.now.own.now blocks.now led.now offsets.now)
        code.now.entry.now items.now) }
{
    let walk = Walk {
        alloc,
        pool: code.pool,
        own: code.own,
        blocks,
        led,
        offsets,
    };
    walk.over(code.entry, items)
}
