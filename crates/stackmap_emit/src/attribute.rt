//! The StackMapTable of written code.
ghost use Rattle.std.specs.Prelude.{◌≡◌, ◌≢◌, ◌++◌, ◌∷◌, [], IfOk, OnErr, OnOk};
ghost use Rattle.std.specs.Result.{IsErrOf};
ghost use Rattle.class_model.specs.Code.{stack_map_table};
ghost use Rattle.class_model.specs.Pool.{Constants};
ghost use Rattle.flow_code.specs.declared.reason.Reason.{Reason};
ghost use Rattle.making_code.specs.Constants.{needs_text};
ghost use Rattle.materialise.specs.Growing.{Grows, IsFull};
ghost use Rattle.materialise.specs.Indices.{IsIndex, need_of_text};
ghost use Rattle.pool_edit.specs.Edits.{Continues, grown};
ghost use Rattle.stackmap_emit.specs.FrameConstants.{table_needs};
ghost use Rattle.stackmap_emit.specs.FramesAttribute.{CanBeWritten, IsFramesAttribute, all_stated, attributes};

use crate::classes::add_frames;
use class_model::{Frame, InnerAttr, PlacedFrameList, Text};
use flow_code::KeptFault;
use map_frames::frame_bytes;
use materialise::add_text;
use pool_edit::{PoolEdit, an_edit_goes_back_to_what_it_was};
use std::alloc::Global;

const STACK_MAP_TABLE: &[u8] = b"StackMapTable";

/// The StackMapTable (JVM Specification SE 8, 4.7.4) that states these frames behind an entry frame: none where there is no
/// frame. Its name and the classes of the frames are added to the pool.
///
/// # Errors
/// `Kept(PoolFull)` exactly where a constant does not fit into the pool; `NoMemory`, where memory runs out. After an error the
/// pool is as before.
pub fn frames_attribute(
    alloc: Global,
    entry: &Frame,
    frames: &PlacedFrameList,
    pool: &mut PoolEdit,
) -> Result<Option<InnerAttr>, KeptFault>
    requires { CanBeWritten frames.now }
    ensures attribute { IfOk result (λ made. (more : Constants)
        → IsFramesAttribute (grown pool.new ++ more) entry.now frames.now (attributes made)) }
    ensures ok { OnOk result (Grows pool.old (table_needs (all_stated frames.now)) pool.new) }
    ensures full { (reason : Reason)
        → IsErrOf result (KeptFault.Kept reason)
        → IsFull pool.old (table_needs (all_stated frames.now)) reason }
    ensures err { OnErr result (pool.new ≡ pool.old) }
{
    if frames.is_empty() {
        return Ok(None);
    }
    an_edit_goes_back_to_what_it_was();
    let count = pool.count();
    match some_attribute(alloc, entry, frames, pool) {
        Ok(attribute) => Ok(Some(attribute)),
        Err(fault) => {
            pool.back(count);
            Err(fault)
        }
    }
}

// The same of some frames, but that after an error constants may be left in the pool.
fn some_attribute(
    alloc: Global,
    entry: &Frame,
    frames: &PlacedFrameList,
    pool: &mut PoolEdit,
) -> Result<InnerAttr, KeptFault>
    requires written { CanBeWritten frames.now }
    requires some { frames.now ≢ [] }
    ensures attribute { IfOk result (λ attribute. (more : Constants)
        → IsFramesAttribute (grown pool.new ++ more) entry.now frames.now (attribute ∷ [])) }
    ensures ok { OnOk result (Grows pool.old (table_needs (all_stated frames.now)) pool.new) }
    ensures full { (reason : Reason)
        → IsErrOf result (KeptFault.Kept reason)
        → IsFull pool.old (table_needs (all_stated frames.now)) reason }
    ensures more { Continues pool.old pool.new }
{
    an_edit_goes_back_to_what_it_was();
    let name = add_name(alloc, pool)?;
    let classes = add_frames(alloc, frames.as_slice(), pool)?;
    let bytes = frame_bytes(alloc, entry, frames, &classes)?;
    Ok(InnerAttr { name, bytes })
}

// Adds the name of the attribute to the pool. It gives its index.
fn add_name(alloc: Global, pool: &mut PoolEdit) -> Result<u16, KeptFault>
    ensures ok { OnOk result (Grows pool.old (needs_text stack_map_table) pool.new) }
    ensures index { IfOk result (IsIndex pool.new (need_of_text stack_map_table)) }
    ensures full { (reason : Reason)
        → IsErrOf result (KeptFault.Kept reason)
        → IsFull pool.old (needs_text stack_map_table) reason }
    ensures more { Continues pool.old pool.new }
{
    an_edit_goes_back_to_what_it_was();
    let text = Text::of_plain(alloc, STACK_MAP_TABLE)?;
    add_text(pool, &text)
}
