//! Instructions that need no constant.
ghost use Rattle.std.specs.Prelude.{◌∷◌, [], OnOk};
ghost use Rattle.code_drafts.specs.Puts.{IsPut, Puts};
ghost use Rattle.flow_code.specs.FlatCode.{FlatCode};
ghost use Rattle.making_code.specs.Items.{WInstr};

use crate::draft::DraftItem;
use crate::kept::KeptItems;
use class_model::{Instr, ListOf, NoMemory};
use std::alloc::Global;

/// Appends an instruction that does not jump and that no handler catches.
///
/// # Errors
/// `NoMemory`, where memory runs out.
pub(crate) fn put(alloc: Global, instr: Instr, kept: &mut KeptItems) -> Result<(), NoMemory>
    ensures { OnOk result ((flat : FlatCode) (one : WInstr)
        → IsPut flat one instr
        → Puts flat (one ∷ []) kept.old kept.new) }
{
    kept.push(DraftItem {
        instr,
        targets: ListOf::new(alloc),
        catches: ListOf::new(alloc),
    })
}
