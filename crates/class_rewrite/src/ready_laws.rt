//! What is known of a written folder by the laws of the crates below: a function that does nothing, whose contract says it.
ghost use Rattle.std.specs.Prelude.{List};
ghost use Rattle.class_model.specs.declared.class_file.ClassFile.{ClassFile};
ghost use Rattle.class_rewrite.specs.Inner.ReadyFolders.{IsReadyFolder};
ghost use Rattle.class_rewrite.specs.Rewriting.Folders.{IsFolderWritten};
ghost use Rattle.class_rewrite.specs.Rewriting.Methods.{Rewriting};
ghost use Rattle.class_rewrite.specs.Rewriting.Verifying.{IsOfVerified};

use class_model::{constants_compare_by_value, parameters_of_bytes_are_spelled};
use class_tree::classes_of_a_tree_are_a_hierarchy;
use expanded_runs::{
    an_expanded_flat_code_carries_constants, an_expanded_flat_code_is_ready,
    expanded_flat_codes_have_a_replacement,
};
use inline_expand::a_method_has_one_expanded_flat_code;
use plan_flow::{effect_grows, flat_code_has_one_least_plan};
use type_rules::a_grown_class_has_a_grown_header;
use typed_flats::flat_codes_run_typed;
use typed_programs::{
    a_verified_folder_is_a_typed_program, linked_instructions_have_linked_operations,
};

/// Of a folder that verifies the methods that are rewritten are ready, the classes that are written have grown, and the field constructors that are
/// added to them are new.
pub fn a_written_folder_is_ready()
    ensures { (r : Rewriting) (files : List ClassFile) (w : IsFolderWritten r files)
        → IsOfVerified r
        → IsReadyFolder r files w }
{
    classes_of_a_tree_are_a_hierarchy();
    a_verified_folder_is_a_typed_program();
    linked_instructions_have_linked_operations();
    an_expanded_flat_code_is_ready();
    an_expanded_flat_code_carries_constants();
    expanded_flat_codes_have_a_replacement();
    flat_codes_run_typed();
    a_method_has_one_expanded_flat_code();
    flat_code_has_one_least_plan();
    effect_grows();
    constants_compare_by_value();
    parameters_of_bytes_are_spelled();
    a_grown_class_has_a_grown_header();
}
