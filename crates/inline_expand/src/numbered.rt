//! Frames whose uninitialised objects are named by numbers.
ghost use Rattle.std.specs.Prelude.{◌≡◌, ◌<◌, length, map, slice_get, slice_set, Some, IfOk, OnOk};
ghost use Rattle.std.specs.Option.{option_copied};
ghost use Rattle.expanded_code.specs.Alone.{number_at, numbered_frame, numbered_type};
ghost use Rattle.inline_expand.specs.Inner.Hosts.{uninit_of};

use crate::host::Host;
use class_model::{Frame, LocalTypeList, NoMemory, VType, VTypeList};
use std::alloc::Global;

/// A frame of a method, in which an uninitialised object is named by the number of its `new`. It shares
/// the types of the locals where there is none in them.
///
/// # Errors
/// `NoMemory`, where memory runs out.
pub(crate) fn numbered_frame(
    alloc: Global,
    host: &Host<'_>,
    frame: &Frame,
) -> Result<Frame, NoMemory>
    ensures { IfOk result (λ numbered. numbered ≡ numbered_frame (number_at host.now) frame.now) }
{
    Ok(Frame {
        locals: numbered_locals(alloc, host, &frame.locals)?,
        stack: numbered_stack(alloc, host, &frame.stack)?,
    })
}

// Local units whose uninitialised objects are named by numbers.
fn numbered_locals(
    alloc: Global,
    host: &Host<'_>,
    locals: &LocalTypeList,
) -> Result<LocalTypeList, NoMemory>
    ensures { IfOk result (λ list. list ≡ map (numbered_type (number_at host.now)) locals.now) }
{
    let mut list = locals.copy(alloc)?;
    for unit in 0..locals.listed() {
        number_unit(host, &mut list, unit)?;
    }
    Ok(list)
}

// Names the object of a unit by its number, if it is uninitialised.
fn number_unit(host: &Host<'_>, list: &mut LocalTypeList, unit: usize) -> Result<(), NoMemory>
    requires { unit < length list.old }
    ensures { OnOk result ((type : VType)
        → slice_get list.old unit ≡ Some type
        → list.new ≡ slice_set list.old unit (numbered_type (number_at host.now) type)) }
{
    match uninit_of(list.get(unit)) {
        Some(at) => list.set(unit, VType::Uninit(host.number(at))),
        None => Ok(()),
    }
}

// The offset of the `new` of an uninitialised object.
fn uninit_of(type_: Option<&VType>) -> Option<u32>
    ensures { result ≡ uninit_of (option_copied type_.entry) }
{
    match type_ {
        Some(VType::Uninit(at)) => Some(*at),
        _ => None,
    }
}

// Entries of the stack whose uninitialised objects are named by numbers.
fn numbered_stack(alloc: Global, host: &Host<'_>, stack: &VTypeList) -> Result<VTypeList, NoMemory>
    ensures { IfOk result (λ list. list ≡ map (numbered_type (number_at host.now)) stack.now) }
{
    let mut list = Vec::with_capacity(alloc, stack.len())?;
    for type_ in stack.as_slice() {
        list.push(numbered_type(host, type_)?)?;
    }
    Ok(VTypeList::from_vec(list))
}

// A type; that of an uninitialised object is named by a number.
fn numbered_type(host: &Host<'_>, type_: &VType) -> Result<VType, NoMemory>
    ensures { IfOk result (λ numbered. numbered ≡ numbered_type (number_at host.now) type_.now) }
{
    match type_ {
        VType::Uninit(at) => Ok(VType::Uninit(host.number(*at))),
        _ => type_.copy(),
    }
}
