//! Frames of methods in their places.
ghost use Rattle.std.specs.Prelude.{◌≡◌, ◌≤◌, ◌<◌, ◌+◌, ◌-◌, ◌^◌, ◌++◌, length, map, take, slice_set, IfOk, OnOk};
ghost use Rattle.class_model.specs.Frames.{is_wide};
ghost use Rattle.class_model.specs.declared.frame.VType.{VType};
ghost use Rattle.expanded_code.specs.Expanded.{Argument, frame_stored, overlaid, set_frame, set_type};
ghost use Rattle.inline_expand.specs.Inner.Frames.{put_at};
ghost use Rattle.inline_expand.specs.Inner.Settings.{setting_of};
ghost use Rattle.member_link.specs.Rows.LocalRows.{cut_before, stored};

use crate::expanded::settings::Setting;
use class_model::{Frame, LocalTypeList, NoMemory, VType, VTypeList};
use std::alloc::Global;

/// A frame of a method in its place: its locals in those of its callers, and its stack on theirs.
///
/// # Errors
/// `NoMemory`, where memory runs out.
pub(crate) fn set_frame(
    alloc: Global,
    setting: &Setting<'_, '_>,
    frame: &Frame,
) -> Result<Frame, NoMemory>
    requires { setting.now.unit + length frame.now.locals ≤ 65535 }
    ensures { IfOk result (λ set. set ≡ set_frame (setting_of setting.now) frame.now) }
{
    Ok(Frame {
        locals: set_locals(alloc, setting, &frame.locals)?,
        stack: set_stack(alloc, setting, &frame.stack)?,
    })
}

// Its locals in those of its callers.
fn set_locals(
    alloc: Global,
    setting: &Setting<'_, '_>,
    own: &LocalTypeList,
) -> Result<LocalTypeList, NoMemory>
    requires { setting.now.unit + length own.now ≤ 65535 }
    ensures { IfOk result (λ list. list ≡ overlaid setting.now.unit
        (map (set_type (setting_of setting.now)) own.now) setting.now.below.locals) }
{
    let unit = usize::from(setting.unit);
    let below = &setting.below.locals;
    let mut list = below.copy(alloc)?;
    for at in 0..written_units(own, below, unit) {
        let Some(type_) = own.get(at) else {
            unreachable!()
        };
        put(&mut list, unit, at, setting.type_of(type_)?)?;
    }
    Ok(list)
}

// How many of a frame's units are written over those below, from a unit on: all behind are Top in both.
fn written_units(own: &LocalTypeList, below: &LocalTypeList, unit: usize) -> usize
    ensures few { result ≤ length own.now }
    ensures same { (f : VType → VType)
        → f VType.Top ≡ VType.Top
        → overlaid unit (map f (take result own.now)) below.now
        ≡ overlaid unit (map f own.now) below.now }
{
    if own.len() <= below.len().saturating_sub(unit) {
        let listed = below.listed().saturating_sub(unit);
        own.listed().max(listed).min(own.len())
    } else {
        own.len()
    }
}

// Gives a unit behind another a type, or appends one where there is none.
fn put(list: &mut LocalTypeList, unit: usize, at: usize, type_: VType) -> Result<(), NoMemory>
    requires { unit + at < 2 ^ 64 - 1 }
    ensures { OnOk result (list.new ≡ put_at list.old (unit + at) type_) }
{
    if at < list.len().saturating_sub(unit) {
        list.set(unit + at, type_)
    } else {
        list.push(type_)
    }
}

// Its stack on that of its callers.
fn set_stack(
    alloc: Global,
    setting: &Setting<'_, '_>,
    own: &VTypeList,
) -> Result<VTypeList, NoMemory>
    ensures { IfOk result (λ stack. stack
        ≡ setting.now.below.stack ++ map (set_type (setting_of setting.now)) own.now) }
{
    let mut stack = Vec::with_capacity(alloc, setting.below.stack.len().saturating_add(own.len()))?;
    for type_ in setting.below.stack.as_slice() {
        stack.push(type_.copy()?)?;
    }
    for type_ in own.as_slice() {
        stack.push(setting.type_of(type_)?)?;
    }
    Ok(VTypeList::from_vec(stack))
}

/// The frame behind a store into a unit of what is topmost on the stack.
///
/// # Errors
/// `NoMemory`, where memory runs out.
pub(crate) fn stored(frame: Frame, at: u16) -> Result<Frame, NoMemory>
    ensures { IfOk result (λ behind. (argument : Argument)
        → argument.unit ≡ at
        → behind ≡ frame_stored frame argument) }
{
    let (locals, stack) = frame.into_parts();
    let mut stack = stack.into_vec();
    let value = stack.pop().unwrap_or(VType::Top);
    Ok(Frame {
        locals: stored_in(locals, at, value)?,
        stack: VTypeList::from_vec(stack),
    })
}

// Locals behind a store. The long or double that it cuts is none any more.
fn stored_in(locals: LocalTypeList, at: u16, value: VType) -> Result<LocalTypeList, NoMemory>
    ensures { IfOk result (λ after. after ≡ stored at value locals) }
{
    let at = usize::from(at);
    let mut after = locals;
    cut_before(&mut after, at)?;
    let is_wide = is_wide(&value);
    set(&mut after, at, value)?;
    if is_wide {
        set(&mut after, at + 1, VType::Top)?;
    }
    Ok(after)
}

// The long or double whose second unit is written is none any more.
fn cut_before(locals: &mut LocalTypeList, at: usize) -> Result<(), NoMemory>
    ensures { OnOk result (locals.new ≡ cut_before at locals.old) }
{
    let Some(first) = at.checked_sub(1) else {
        return Ok(());
    };
    match locals.get(first) {
        Some(unit) if is_wide(unit) => locals.set(first, VType::Top),
        _ => Ok(()),
    }
}

// Gives a unit another type, if it is there.
fn set(locals: &mut LocalTypeList, at: usize, unit: VType) -> Result<(), NoMemory>
    ensures { OnOk result (locals.new ≡ slice_set locals.old at unit) }
{
    if at < locals.len() {
        locals.set(at, unit)
    } else {
        Ok(())
    }
}

// Whether a type takes two units.
fn is_wide(type_: &VType) -> bool
    ensures { result ≡ is_wide type_.now }
{
    matches!(type_, VType::Long | VType::Double)
}
