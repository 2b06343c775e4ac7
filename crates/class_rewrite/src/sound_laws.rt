//! A written folder is sound: a function that does nothing, whose contract says so.
ghost use Rattle.std.specs.Prelude.{List};
ghost use Rattle.class_model.specs.declared.class_file.ClassFile.{ClassFile};
ghost use Rattle.class_rewrite.specs.Rewriting.Folders.{IsFolderWritten};
ghost use Rattle.class_rewrite.specs.Rewriting.Methods.{Rewriting};
ghost use Rattle.class_rewrite.specs.Rewriting.Verifying.{IsFolderSound, IsOfVerified};

use crate::access_laws::rewritten_items_may_use_what_they_name;
use crate::emitted_laws::rewritten_items_are_emitted_code;
use crate::file_laws::written_classes_are_class_files;
use crate::frame_facts::{
    frames_of_rewritten_methods_are_linked, rewritten_methods_have_sound_frames,
};
use crate::linked_laws::written_methods_are_linked;

/// The folder that is written of a folder that verifies is sound: its classes are class files, and what its methods name is linked and may be used.
pub fn a_written_folder_is_sound()
    ensures { (r : Rewriting) (files : List ClassFile) (w : IsFolderWritten r files)
        → IsOfVerified r
        → IsFolderSound r files w }
{
    rewritten_items_are_emitted_code();
    written_classes_are_class_files();
    written_methods_are_linked();
    rewritten_items_may_use_what_they_name();
    rewritten_methods_have_sound_frames();
    frames_of_rewritten_methods_are_linked();
}
