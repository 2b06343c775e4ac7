//! Laws of the classes of a written folder as class files: functions that do nothing, whose contracts say what always holds.
ghost use Rattle.std.specs.Prelude.{List};
ghost use Rattle.std.specs.List.{AllByRecursion};
ghost use Rattle.class_model.specs.declared.class_file.ClassFile.{ClassFile};
ghost use Rattle.class_rewrite.specs.Inner.FittingFolders.{HasFittingMethods};
ghost use Rattle.class_rewrite.specs.Rewriting.Folders.{IsFolderWritten};
ghost use Rattle.class_rewrite.specs.Rewriting.Methods.{Rewriting};
ghost use Rattle.class_rewrite.specs.Rewriting.Verifying.{IsOfVerified};
ghost use Rattle.class_tree.specs.Headers.{IsClassFile};

use crate::frame_facts::rewritten_methods_have_sound_frames;
use crate::ready_laws::a_written_folder_is_ready;
use class_model::{
    a_descriptor_of_a_text, constants_compare_by_value, parameters_of_bytes_are_spelled,
};
use code_bytes::instructions_are_consecutive;
use expanded_runs::{
    an_expanded_flat_code_catches_what_its_host_names, an_expanded_flat_code_is_of_one_version,
};
use stackmap_emit::{a_laid_method_states_its_frames, what_types_items_types_the_laid_method};
use type_rules::{a_grown_class_keeps_its_instructions, grown_classes_are_found_alike};
use written_files::{
    a_class_file_fits_its_items, a_field_constructor_passes_its_checks,
    a_written_class_is_a_class_file, fitting_constants_are_added,
    what_a_field_constructor_needs_fits, what_a_field_constructor_needs_is_sound,
    what_written_code_needs_fits, what_written_code_needs_is_sound,
};
use written_types::{frames_type_written_code, stated_frames_are_whole};

/// Each class that is written of a folder that verifies is a class file (JVM Specification SE 8, 4.1 to 4.9), where the methods that are
/// rewritten fit (`HasFittingMethods`).
pub fn written_classes_are_class_files()
    ensures { (r : Rewriting) (files : List ClassFile) (w : IsFolderWritten r files)
        → IsOfVerified r
        → HasFittingMethods r
        → AllByRecursion IsClassFile files }
{
    a_written_folder_is_ready();
    rewritten_methods_have_sound_frames();
    a_laid_method_states_its_frames();
    what_types_items_types_the_laid_method();
    frames_type_written_code();
    stated_frames_are_whole();
    grown_classes_are_found_alike();
    an_expanded_flat_code_catches_what_its_host_names();
    an_expanded_flat_code_is_of_one_version();
    a_class_file_fits_its_items();
    a_written_class_is_a_class_file();
    fitting_constants_are_added();
    what_written_code_needs_is_sound();
    what_written_code_needs_fits();
    what_a_field_constructor_needs_is_sound();
    what_a_field_constructor_needs_fits();
    a_grown_class_keeps_its_instructions();
    instructions_are_consecutive();
    a_field_constructor_passes_its_checks();
    parameters_of_bytes_are_spelled();
    a_descriptor_of_a_text();
    constants_compare_by_value();
}
