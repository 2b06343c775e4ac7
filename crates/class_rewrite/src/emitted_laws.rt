//! The items of rewritten methods are emitted code: a function that does nothing, whose contract says so.
ghost use Rattle.std.specs.Prelude.{List};
ghost use Rattle.class_model.specs.declared.class_file.ClassFile.{ClassFile};
ghost use Rattle.class_rewrite.specs.Rewriting.Folders.{IsFolderWritten};
ghost use Rattle.class_rewrite.specs.Rewriting.Methods.{Rewriting};
ghost use Rattle.class_rewrite.specs.Rewriting.Verifying.{IsOfVerified};
ghost use Rattle.class_rewrite.specs.Rewriting.WellWritten.{IsWellWritten};

use crate::ready_laws::a_written_folder_is_ready;
use code_drafts::{items_of_a_plan_are_emitted_code, items_of_a_plan_go_wide};
use code_layout::emitted_code_that_is_made_wide_is_emitted;
use stackmap_emit::items_that_are_made_wide_are_those_of_the_wide_form;
use written_types::frames_type_written_code;

/// The items of rewritten methods are emitted code, in whichever form: they jump to items, and so do their handlers.
pub fn rewritten_items_are_emitted_code()
    ensures { (r : Rewriting) (files : List ClassFile) (w : IsFolderWritten r files)
        → IsOfVerified r
        → IsWellWritten r files w }
{
    a_written_folder_is_ready();
    items_of_a_plan_are_emitted_code();
    items_of_a_plan_go_wide();
    items_that_are_made_wide_are_those_of_the_wide_form();
    emitted_code_that_is_made_wide_is_emitted();
    frames_type_written_code();
}
