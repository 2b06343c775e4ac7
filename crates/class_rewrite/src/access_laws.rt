//! Items of rewritten methods use members that their class may use: a function that does nothing, whose contract says so.
ghost use Rattle.std.specs.Prelude.{ℕ, List, Option};
ghost use Rattle.class_model.specs.declared.class_file.ClassFile.{ClassFile};
ghost use Rattle.class_model.specs.declared.class_file.MethodAt.{MethodAt};
ghost use Rattle.class_model.specs.declared.frame.Frame.{Frame};
ghost use Rattle.class_rewrite.specs.Rewriting.Folders.{IsFolderWritten};
ghost use Rattle.class_rewrite.specs.Rewriting.Methods.{Rewriting, Rewritten};
ghost use Rattle.class_rewrite.specs.Rewriting.Verifying.{IsOfVerified, IsWrittenIn, laid_of};
ghost use Rattle.member_link.specs.Scope.{Scope};
ghost use Rattle.stackmap_emit.specs.TypedMethods.{PassAccess};

use crate::ready_laws::a_written_folder_is_ready;
use expanded_runs::an_expanded_flat_code_names_what_the_host_may_use;
use type_rules::{a_grown_class_has_a_grown_header, rows_hold_among_grown_classes};
use written_types::written_items_may_use_what_they_name;

/// Each item of a method that is rewritten may use the protected member that it names behind its frame, in the class that is written of its class
/// (JVM Specification SE 8, 4.10.1.8), if the folder verifies.
pub fn rewritten_items_may_use_what_they_name()
    ensures { (r : Rewriting) (files : List ClassFile) (w : IsFolderWritten r files)
        → IsOfVerified r
        → (at : MethodAt) (v : Rewritten) (host now : Scope)
        → IsWrittenIn r files w at v host now
        → (state : ℕ → Option Frame)
        → PassAccess (laid_of host v state) now }
{
    a_written_folder_is_ready();
    an_expanded_flat_code_names_what_the_host_may_use();
    written_items_may_use_what_they_name();
    rows_hold_among_grown_classes();
    a_grown_class_has_a_grown_header();
}
