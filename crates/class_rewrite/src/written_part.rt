//! The content of the Code attribute of a method that is rewritten (JVM Specification SE 8, 4.7.3).
ghost use Rattle.std.specs.Prelude.{◌≡◌, ◌≤◌, ℕ, List, length, min, IfOk};
ghost use Rattle.std.specs.Result.{IsErrOf};
ghost use Rattle.class_model.specs.Spelling.{code_part_bytes};
ghost use Rattle.class_rewrite.specs.Inner.Meanings.{IsCode, IsEditOf, IsFit, IsFullFor, IsKnownCode, IsMeant, IsPart, IsReasonOf, Meaning, StatesFrames};
ghost use Rattle.class_tree.specs.Headers.{Name};
ghost use Rattle.code_layout.specs.ChosenForm.{chosen_items};
ghost use Rattle.flow_code.specs.declared.reason.Reason.{Reason};
ghost use Rattle.plan_flow.specs.PlanScope.{PlanScope};
ghost use Rattle.plan_flow.specs.Written.Routes.{Routes};
ghost use Rattle.pool_edit.specs.Edits.{Continues, Edit};
ghost use Rattle.stackmap_emit.specs.FrameConstants.{table_needs};
ghost use Rattle.stackmap_emit.specs.FramedItems.{AreEmitted, ArePlacedBy, entry_with, finished_by, form_of};
ghost use Rattle.stackmap_emit.specs.FramesAttribute.{CanBeWritten, all_stated, attributes};

use crate::home::Home;
use crate::local_units::local_units;
use crate::method_laws::{
    what_is_meant_can_be_written, what_is_written_fits, what_is_written_is_laid_out,
    written_frames_are_sound,
};
use class_model::{
    CodePart, Frame, InnerAttr, InnerAttrList, ListOf, NoMemory, PlacedFrameList, Pool,
};
use code_drafts::Setting;
use code_emit::WrittenCode;
use code_layout::{Laid, layout};
use flow_code::{KeptFault, Reason};
use pool_edit::{PoolEdit, an_edit_goes_back_to_what_it_was};
use stackmap_emit::{WrittenCode as FramedCode, WrittenFrames, frames_attribute, place_frames};
use std::alloc::Global;

// The first version of class files that state frames.
const FIRST_FRAMES: u16 = 50;

// The most bytes that an attribute has.
const MOST_BYTES: usize = 0xFFFF_FFFF;

/// The content of the Code attribute, by the written code. The constants of its frames are added to the pool.
///
/// # Errors
/// `Kept(PoolFull)`, exactly where they do not fit; `Kept(Long)`, exactly where its code, its exception table, its stack or the whole is too long;
/// `NoMemory`, where memory runs out. Constants may have been added then.
pub(crate) fn written_part(
    alloc: Global,
    setting: &Setting<'_>,
    home: &Home<'_>,
    code: &WrittenCode,
    grown: &Pool,
    pool: &mut PoolEdit,
) -> Result<CodePart, KeptFault>
    requires { IsKnownCode setting.now pool.old code.now home.now grown.now }
    ensures ok { IfOk result (λ part. (m : Meaning) (before : Edit)
        → IsMeant setting.now m
        → IsEditOf setting.now.classes m.at before
        → IsCode setting.now before pool.old code.now
        → IsPart setting.now m before pool.old pool.new code.now part) }
    ensures few { IfOk result (λ part. length part.code ≤ 65535) }
    ensures kept { (reason : Reason) (m : Meaning) (before : Edit)
        → IsErrOf result (KeptFault.Kept reason)
        → IsMeant setting.now m
        → IsEditOf setting.now.classes m.at before
        → IsCode setting.now before pool.old code.now
        → IsReasonOf setting.now m before reason }
    ensures more { Continues pool.old pool.new }
{
    an_edit_goes_back_to_what_it_was();
    what_is_meant_can_be_written();
    what_is_written_is_laid_out();
    what_is_written_fits();
    written_frames_are_sound();
    let laid = layout(alloc, &code.emitted)?;
    let locals = local_units(setting.units());
    let entry = home.entry(alloc, locals)?;
    let frames = frames_of(alloc, setting, home, code, grown, &entry, &laid)?;
    let max_stack = frames.max_stack;
    // a stack that is as deep as a method may say, or deeper
    if max_stack == u16::MAX {
        return Err(KeptFault::Kept(Reason::Long));
    }
    let attrs = attributes_of(alloc, home.class().major, &entry, &frames.placed, pool)?;
    // let go by a call, so that its drop is proved once
    drop(frames);
    let Laid {
        code,
        handlers,
        starts: _,
    } = laid;
    let part = CodePart {
        max_stack,
        max_locals: locals,
        code,
        handlers,
        attrs,
    };
    // a class file gives its length in four bytes
    if part_len(&part) > MOST_BYTES {
        return Err(KeptFault::Kept(Reason::Long));
    }
    Ok(part)
}

// How many bytes the content of a Code attribute takes, or the most that a number may say where they are more.
fn part_len(part: &CodePart) -> usize
    ensures { result ≡ min (length (code_part_bytes part.now)) 18446744073709551615 }
{
    let handlers = part.handlers.len().saturating_mul(8);
    let mut len = part.code.len().saturating_add(12).saturating_add(handlers);
    for attr in part.attrs.as_slice() {
        len = len.saturating_add(6).saturating_add(attr.bytes.len());
    }
    len
}

// The frames of the written code.
fn frames_of(
    alloc: Global,
    setting: &Setting<'_>,
    home: &Home<'_>,
    code: &WrittenCode,
    grown: &Pool,
    entry: &Frame,
    laid: &Laid,
) -> Result<WrittenFrames, NoMemory>
    requires { IsFit setting.now code.now }
    ensures { IfOk result (λ made. (s : PlanScope) (constructor : Name → List ℕ) (routes : Routes)
        → s.flat ≡ setting.now.flat
        → entry.now ≡ entry_with home.now s.flat
        → AreEmitted s constructor routes grown.now code.now.emitted code.now.starts
        → ArePlacedBy home.now s.flat (form_of code.now.emitted) (finished_by s routes) grown.now
        (chosen_items code.now.emitted) laid.now.starts made.placed made.max_stack) }
{
    let framed = FramedCode {
        flat: setting.flat(),
        entry,
        pool: grown,
        own: home.name(),
        starts: code.starts.as_slice(),
    };
    place_frames(alloc, &framed, &code.emitted, laid)
}

// The attributes that state frames. Below version 50 none does.
fn attributes_of(
    alloc: Global,
    major: u16,
    entry: &Frame,
    placed: &PlacedFrameList,
    pool: &mut PoolEdit,
) -> Result<InnerAttrList, KeptFault>
    requires { CanBeWritten placed.now }
    ensures ok { IfOk result (StatesFrames major pool.old pool.new entry.now placed.now) }
    ensures full { (reason : Reason)
        → IsErrOf result (KeptFault.Kept reason)
        → IsFullFor major pool.old (table_needs (all_stated placed.now)) reason }
    ensures more { Continues pool.old pool.new }
{
    an_edit_goes_back_to_what_it_was();
    if major < FIRST_FRAMES {
        return Ok(ListOf::new(alloc));
    }
    let made = frames_attribute(alloc, entry, placed, pool)?;
    Ok(listed(alloc, made)?)
}

// An attribute that may be there, as a list.
fn listed(alloc: Global, made: Option<InnerAttr>) -> Result<InnerAttrList, NoMemory>
    ensures { IfOk result (λ attrs. attrs ≡ attributes made) }
{
    let mut attrs = ListOf::new(alloc);
    if let Some(attribute) = made {
        attrs.push(attribute)?;
    }
    Ok(attrs)
}
