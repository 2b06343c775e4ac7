//! The constants of the classes that frames name.
ghost use Rattle.std.specs.Prelude.{◌≡◌, [], Some, IfOk, OnOk};
ghost use Rattle.std.specs.Result.{IsErrOf};
ghost use Rattle.std.specs.List.{flat_map};
ghost use Rattle.flow_code.specs.declared.reason.Reason.{Reason};
ghost use Rattle.making_code.specs.Constants.{class_needs};
ghost use Rattle.materialise.specs.Growing.{IsFull};
ghost use Rattle.pool_edit.specs.Edits.{Continues};
ghost use Rattle.stackmap_emit.specs.FrameConstants.{frame_needs, type_needs};
ghost use Rattle.stackmap_emit.specs.FramesAttribute.{placed_needs};
ghost use Rattle.stackmap_emit.specs.Inner.ClassIndices.{Adds};

use crate::noting::NotedClasses;
use class_model::{LocalTypeList, PlacedFrame, Text, VType};
use flow_code::KeptFault;
use map_frames::IndexOfText;
use materialise::add_class;
use pool_edit::{PoolEdit, an_edit_goes_back_to_what_it_was};
use std::alloc::Global;

/// Adds the classes of frames to a pool, in order. It gives their indices.
pub(crate) fn add_frames(
    alloc: Global,
    frames: &[PlacedFrame],
    pool: &mut PoolEdit,
) -> Result<IndexOfText, KeptFault>
    ensures ok { IfOk result (Adds pool.old [] (placed_needs frames.now) pool.new) }
    ensures full { (reason : Reason)
        → IsErrOf result (KeptFault.Kept reason)
        → IsFull pool.old (placed_needs frames.now) reason }
    ensures more { Continues pool.old pool.new }
{
    an_edit_goes_back_to_what_it_was();
    let mut noted = NotedClasses::new(alloc);
    for placed in frames {
        add_frame(placed, &mut noted, pool)?;
    }
    Ok(noted.into_list())
}

// Adds those of a frame.
fn add_frame(
    placed: &PlacedFrame,
    noted: &mut NotedClasses,
    pool: &mut PoolEdit,
) -> Result<(), KeptFault>
    ensures ok { OnOk result
        (Adds pool.old noted.old (frame_needs (Some placed.now.frame)) pool.new noted.new) }
    ensures full { (reason : Reason)
        → IsErrOf result (KeptFault.Kept reason)
        → IsFull pool.old (frame_needs (Some placed.now.frame)) reason }
    ensures more { Continues pool.old pool.new }
{
    an_edit_goes_back_to_what_it_was();
    add_units(&placed.frame.locals, noted, pool)?;
    add_types(placed.frame.stack.as_slice(), noted, pool)?;
    Ok(())
}

// Adds those of local units.
fn add_units(
    locals: &LocalTypeList,
    noted: &mut NotedClasses,
    pool: &mut PoolEdit,
) -> Result<(), KeptFault>
    ensures ok { OnOk result
        (Adds pool.old noted.old (flat_map type_needs locals.now) pool.new noted.new) }
    ensures full { (reason : Reason)
        → IsErrOf result (KeptFault.Kept reason)
        → IsFull pool.old (flat_map type_needs locals.now) reason }
    ensures more { Continues pool.old pool.new }
{
    an_edit_goes_back_to_what_it_was();
    for at in 0..locals.listed() {
        let Some(unit) = locals.get(at) else {
            unreachable!()
        };
        add_type(unit, noted, pool)?;
    }
    Ok(())
}

// Adds those of types, in order.
fn add_types(
    types: &[VType],
    noted: &mut NotedClasses,
    pool: &mut PoolEdit,
) -> Result<(), KeptFault>
    ensures ok { OnOk result
        (Adds pool.old noted.old (flat_map type_needs types.now) pool.new noted.new) }
    ensures full { (reason : Reason)
        → IsErrOf result (KeptFault.Kept reason)
        → IsFull pool.old (flat_map type_needs types.now) reason }
    ensures more { Continues pool.old pool.new }
{
    an_edit_goes_back_to_what_it_was();
    for entry in types {
        add_type(entry, noted, pool)?;
    }
    Ok(())
}

// Adds the class of a type, if it has one.
fn add_type(of: &VType, noted: &mut NotedClasses, pool: &mut PoolEdit) -> Result<(), KeptFault>
    ensures ok { OnOk result (Adds pool.old noted.old (type_needs of.now) pool.new noted.new) }
    ensures full { (reason : Reason)
        → IsErrOf result (KeptFault.Kept reason)
        → IsFull pool.old (type_needs of.now) reason }
    ensures more { Continues pool.old pool.new }
{
    an_edit_goes_back_to_what_it_was();
    if let VType::Object(name) = of {
        return add_object(name, noted, pool);
    }
    Ok(())
}

// Adds a class.
fn add_object(name: &Text, noted: &mut NotedClasses, pool: &mut PoolEdit) -> Result<(), KeptFault>
    ensures ok { OnOk result (Adds pool.old noted.old (class_needs name.now) pool.new noted.new) }
    ensures full { (reason : Reason)
        → IsErrOf result (KeptFault.Kept reason)
        → IsFull pool.old (class_needs name.now) reason }
    ensures more { Continues pool.old pool.new }
{
    let index = add_class(pool, name)?;
    noted.note(name, index)?;
    Ok(())
}
