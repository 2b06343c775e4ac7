//! What is written names what is linked: a function that does nothing, whose contract says so.
ghost use Rattle.std.specs.Prelude.{◌≡◌, ℕ, List, Some};
ghost use Rattle.class_model.specs.Checks.{AllHold, asked_each};
ghost use Rattle.class_model.specs.Header.{header_of};
ghost use Rattle.class_model.specs.Instructions.{decoded};
ghost use Rattle.class_model.specs.declared.class_file.ClassFile.{ClassFile};
ghost use Rattle.class_model.specs.declared.class_file.MethodAt.{MethodAt};
ghost use Rattle.class_rewrite.specs.Rewriting.Folders.{IsFolderWritten};
ghost use Rattle.class_rewrite.specs.Rewriting.Methods.{Rewriting, Rewritten};
ghost use Rattle.class_rewrite.specs.Rewriting.Verifying.{IsAddedIn, IsOfVerified, IsWrittenIn};
ghost use Rattle.class_tree.specs.Headers.{Name, headers_of};
ghost use Rattle.member_link.specs.Scope.{Scope};
ghost use Rattle.member_link.specs.Uses.{handler_use_checks, instrs_checks};
ghost use Rattle.written_files.specs.LinkedConstructors.{HasLinkedMembers, uses_in};

use crate::ready_laws::a_written_folder_is_ready;
use class_model::{constants_compare_by_value, parameters_of_bytes_are_spelled};
use expanded_runs::an_expanded_flat_code_names_what_the_host_may_use;
use member_link::{
    a_look_up_finds_one_field, a_look_up_finds_one_method, a_method_reference_passes,
};
use type_rules::{
    a_grown_class_has_a_grown_header, a_grown_class_keeps_its_code,
    a_grown_class_keeps_its_instructions, grown_classes_are_found_alike,
    grown_classes_declare_what_passes,
};
use written_files::{
    a_field_constructor_is_a_member, a_field_constructor_names_classes_that_are_there,
};

/// Of a folder that verifies, what the instructions of a method that is rewritten refer to is linked in the class that is written (`instrs`), and so
/// are the classes that its handlers catch (`handlers`); and what the field constructors that are added refer to is there (`constructors`; JVM
/// Specification SE 8, 5.4.3 and 5.4.4).
pub fn written_methods_are_linked()
    ensures instrs { (r : Rewriting) (files : List ClassFile) (w : IsFolderWritten r files)
        (at : MethodAt) (v : Rewritten) (host now : Scope)
        → IsOfVerified r
        → IsWrittenIn r files w at v host now
        → AllHold (instrs_checks (uses_in now) (decoded now.part.code)) }
    ensures handlers { (r : Rewriting) (files : List ClassFile) (w : IsFolderWritten r files)
        (at : MethodAt) (v : Rewritten) (host now : Scope)
        → IsOfVerified r
        → IsWrittenIn r files w at v host now
        → AllHold (asked_each (handler_use_checks (uses_in now)) now.part.handlers) }
    ensures constructors { (r : Rewriting) (files : List ClassFile) (w : IsFolderWritten r files)
        (class : ℕ) (file : ClassFile) (above : Name) (s : Scope)
        → IsOfVerified r
        → IsAddedIn r files w class file s
        → (header_of file).super_name ≡ Some above
        → HasLinkedMembers (headers_of r.classes) r.constructor file above s }
{
    a_written_folder_is_ready();
    an_expanded_flat_code_names_what_the_host_may_use();
    a_grown_class_has_a_grown_header();
    a_grown_class_keeps_its_code();
    a_grown_class_keeps_its_instructions();
    grown_classes_are_found_alike();
    grown_classes_declare_what_passes();
    a_look_up_finds_one_field();
    a_look_up_finds_one_method();
    a_method_reference_passes();
    a_field_constructor_is_a_member();
    a_field_constructor_names_classes_that_are_there();
    constants_compare_by_value();
    parameters_of_bytes_are_spelled();
}
