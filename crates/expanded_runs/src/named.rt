//! What the frames and constants of expanded flat codes name: functions that do nothing, whose contracts say what always holds.
ghost use Rattle.class_model.specs.declared.class_file.MethodAt.{MethodAt};
ghost use Rattle.class_tree.specs.Headers.{Classes};
ghost use Rattle.class_tree.specs.Trees.{IsTree};
ghost use Rattle.expanded_code.specs.CandidateSites.{HasCandidateSites};
ghost use Rattle.expanded_code.specs.ExpandAnswers.{IsExpanded};
ghost use Rattle.expanded_runs.specs.NamedFrames.{HasFramedNames};
ghost use Rattle.flow_code.specs.FlatCode.{FlatCode};
ghost use Rattle.flow_code.specs.TypedFrames.{FolderFrames};
ghost use Rattle.member_link.specs.Linked.{IsLinked};
ghost use Rattle.member_link.specs.Scope.{Scope};
ghost use Rattle.same_runs.specs.ReadyCode.{IsReadyCode};
ghost use Rattle.type_rules.specs.Verified.{TypesFolder};

/// The names in the typed frames of an expanded flat code, of its sites and their fields, and of the constants of its instructions are texts that a
/// Class constant may have, and the classes that they name are there (JVM Specification SE 8, 4.4.1 and 5.4.3.1).
pub fn expanded_flat_codes_have_framed_names()
    ensures { (classes : Classes) (typed : FolderFrames) (at : MethodAt) (flat : FlatCode) (s : Scope)
        → IsTree classes
        → IsLinked classes
        → TypesFolder classes typed
        → IsExpanded classes typed at flat
        → HasCandidateSites classes flat
        → IsReadyCode classes s flat
        → HasFramedNames classes s flat }
{
    class_model::parameters_are_spelled();
    class_model::a_descriptor_of_a_text();
    class_tree::classes_of_a_tree_are_a_hierarchy();
    code_bytes::a_class_file_has_read_methods();
    member_link::a_linked_folder_passes_by_place();
    type_rules::a_typed_folder_types_each_method();
    type_rules::a_typed_method_types_each_instruction();
    type_rules::a_method_stands_in_order();
    type_rules::frames_type_a_body_by_its_places();
    type_rules::a_typed_body_goes_to_stated_frames();
}
