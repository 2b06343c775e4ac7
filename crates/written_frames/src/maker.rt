//! Frames of states.
ghost use Rattle.std.specs.Prelude.{◌≡◌, ◌≤◌, [], ◌++◌, List, length, drop, IfOk, OnOk};
ghost use Rattle.class_model.specs.declared.frame.VType.{VType as type};
ghost use Rattle.flow_code.specs.ReadTypes.{read_type};
ghost use Rattle.flow_code.specs.WrittenUnits.{written_units};
ghost use Rattle.making_code.specs.StateFrames.{entry_types_by, entry_types_from, state_frame};
ghost use Rattle.written_frames.specs.FewLocals.{HasFewLocals};

use crate::behind::units_behind;
use crate::locals::written_locals;
use crate::types::read_type;
use class_model::{Frame, ListOf, LocalTypeList, NoMemory, VType, VTypeList};
use flow_code::Flat;
use std::alloc::Global;
use std::marker::Model;
use virtual_state::{Slot, VState};

/// What makes the frames of one flat code. Contracts see the flat code.
pub struct FrameMaker<'f> {
    flat: &'f Flat,
    // the units behind those of the sites' fields
    behind: usize,
}

// Written out: a derived drop would be spelled out, field by field, in each function that drops one, and be proved there.
impl Drop for FrameMaker<'_> {
    fn drop(self) {
        let FrameMaker { flat: _, behind: _ } = self;
    }
}

impl<'f> Model for FrameMaker<'f> {
    ghost use Rattle.flow_code.specs.FlatCode.{FlatCode};
    ghost use Rattle.written_frames.specs.Inner.Rooms.{IsRoom};

    ghost Value = { FlatCode };

    ghost view = { λ maker. maker.flat.now };

    ghost invariant = { λ maker. IsRoom maker.flat.now maker.behind };
}

impl<'f> FrameMaker<'f> {
    /// For a flat code whose written code has at most 65,535 local units. It goes over the stack of each point once.
    pub fn new(flat: &'f Flat) -> Self
        requires { written_units flat.now ≤ 65535 }
        ensures { result ≡ flat.now }
    {
        FrameMaker {
            flat,
            behind: units_behind(flat),
        }
    }

    /// The frame before the point of a number in a state: that of no unit and no entry where there is no such point. It shares with
    /// the types of the point what it can, and takes time proportional to the units that are not `Top` to the end.
    ///
    /// # Errors
    /// `NoMemory`, where memory runs out.
    pub fn frame(&self, alloc: Global, at: usize, state: &VState) -> Result<Frame, NoMemory>
        requires { HasFewLocals self.now at }
        ensures { IfOk result (λ frame. frame ≡ state_frame self.now at state.now) }
    {
        let Some(typed) = self.flat.typed(at) else {
            return Ok(no_places(alloc));
        };
        let stack = plain_entries(alloc, self.flat, typed, state)?;
        let locals = written_locals(alloc, self.flat, &typed.locals, state, self.behind)?;
        Ok(Frame { locals, stack })
    }
}

/// The frame of written code before the point of a number in a state. For many frames of one flat code use `FrameMaker`.
///
/// # Errors
/// `NoMemory`, where memory runs out.
pub fn state_frame(alloc: Global, flat: &Flat, at: usize, state: &VState) -> Result<Frame, NoMemory>
    requires units { written_units flat.now ≤ 65535 }
    requires locals { HasFewLocals flat.now at }
    ensures { IfOk result (λ frame. frame ≡ state_frame flat.now at state.now) }
{
    FrameMaker::new(flat).frame(alloc, at, state)
}

// A frame without units and entries.
fn no_places(alloc: Global) -> Frame
    ensures { result ≡ record { locals = []; stack = [] } }
{
    Frame {
        locals: LocalTypeList::new(alloc),
        stack: ListOf::new(alloc),
    }
}

// The types of the plain entries of the stack at a point.
fn plain_entries(
    alloc: Global,
    flat: &Flat,
    typed: &Frame,
    state: &VState,
) -> Result<VTypeList, NoMemory>
    ensures { IfOk result (λ stack. stack
        ≡ entry_types_from flat.now typed.now.stack
        (drop (length typed.now.locals) state.now.slots)) }
{
    let mut entries = ListOf::new(alloc);
    let types = typed.stack.as_slice();
    let places = state.len().saturating_sub(typed.locals.len());
    for place in 0..types.len().min(places) {
        let Some(slot) = state.slot(typed.locals.len() + place) else {
            unreachable!()
        };
        push_plain(flat, &types[place], slot, &mut entries)?;
    }
    Ok(entries)
}

// Appends the type of an entry, if it is plain.
fn push_plain(flat: &Flat, of: &VType, slot: Slot, entries: &mut VTypeList) -> Result<(), NoMemory>
    ensures { OnOk result ((rest : List type)
        → entries.new ++ rest ≡ entries.old ++ entry_types_by slot (read_type flat.now of.now) rest) }
{
    match slot {
        Slot::Plain => entries.push(read_type(flat, of)?)?,
        Slot::Virt(_) => {}
        Slot::Unusable => {}
    }
    Ok(())
}
