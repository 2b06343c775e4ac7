//! The program of a folder that verifies.
ghost use Rattle.std.specs.Prelude.{◌<◌, length};
ghost use Rattle.class_tree.specs.Headers.{Classes, headers_of};
ghost use Rattle.class_tree.specs.Trees.{IsTree};
ghost use Rattle.flow_code.specs.TypedFrames.{FolderFrames};
ghost use Rattle.member_link.specs.Linked.{IsLinked};
ghost use Rattle.member_link.specs.Machine.Classes.{program_of};
ghost use Rattle.member_link.specs.Machine.Links.{AreLinksOf};
ghost use Rattle.member_link.specs.Machine.Programs.{Links};
ghost use Rattle.type_rules.specs.Verified.{TypesFolder};
ghost use Rattle.typed_runs.specs.FolderTypings.{HasTypings};
ghost use Rattle.typed_runs.specs.LinkedInstrs.{LinksInstrs};
ghost use Rattle.typed_runs.specs.TypedPrograms.{IsTypedProgram, Typings};

use class_model::parameters_of_bytes_are_spelled;
use class_tree::classes_of_a_tree_are_a_hierarchy;
use code_bytes::a_class_file_has_read_methods;
use member_link::{
    a_field_reference_passes, a_linked_folder_passes_by_place, a_method_reference_passes,
    a_named_class_passes,
};
use type_rules::{
    a_method_stands_in_order, a_typed_body_goes_to_stated_frames, a_typed_folder_types_each_method,
    a_typed_method_types_each_instruction, frames_type_a_body_by_its_places,
};

/// The program of a folder that verifies is typed, by the frames that type the folder, where the folder has a class.
pub fn a_verified_folder_is_a_typed_program()
    ensures { (classes : Classes) (typed : FolderFrames) (links : Links)
        → IsTree classes
        → IsLinked classes
        → TypesFolder classes typed
        → AreLinksOf (headers_of classes) links
        → 0 < length classes.folder
        → (T : Typings) × IsTypedProgram (program_of classes links) T × HasTypings typed T }
{
    classes_of_a_tree_are_a_hierarchy();
    a_typed_folder_types_each_method();
    a_typed_method_types_each_instruction();
    frames_type_a_body_by_its_places();
    a_typed_body_goes_to_stated_frames();
    a_method_stands_in_order();
    a_linked_folder_passes_by_place();
    a_named_class_passes();
    a_field_reference_passes();
    a_method_reference_passes();
    a_class_file_has_read_methods();
    parameters_of_bytes_are_spelled();
}

/// What reading and linking accept of an instruction of a class of the folder is what typing asks of its operation, in the code of
/// whatever class it stands.
pub fn linked_instructions_have_linked_operations()
    ensures { (classes : Classes) (links : Links)
        → IsTree classes
        → AreLinksOf (headers_of classes) links
        → 0 < length classes.folder
        → LinksInstrs (program_of classes links) classes }
{
    classes_of_a_tree_are_a_hierarchy();
    a_named_class_passes();
    a_field_reference_passes();
    a_method_reference_passes();
    parameters_of_bytes_are_spelled();
}
