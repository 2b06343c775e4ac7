//! Laws of expanded flat code: functions that do nothing, whose contracts say what always holds.
ghost use Rattle.std.specs.Prelude.{◌≡◌, Some};
ghost use Rattle.class_model.specs.declared.class_file.MethodAt.{MethodAt};
ghost use Rattle.class_tree.specs.Headers.{Classes, headers_of};
ghost use Rattle.class_tree.specs.Hierarchy.{IsHierarchy};
ghost use Rattle.expanded_code.specs.ExpandAnswers.{IsExpanded, IsNoHost};
ghost use Rattle.flow_code.specs.FlatCode.{FlatCode};
ghost use Rattle.flow_code.specs.TypedFrames.{FolderFrames};
ghost use Rattle.member_link.specs.Scope.{Scope, scope_at};
ghost use Rattle.type_rules.specs.Verified.{TypesFolder};

use crate::calls::a_call_runs_one_method;
use member_link::{
    a_hierarchy_has_links, a_look_up_finds_one_field, a_look_up_finds_one_method,
    a_selection_chooses_one, a_special_call_starts_once,
};
use type_rules::a_typed_folder_types_each_method;

/// A method of a hierarchy has at most one expanded flat code.
pub fn a_method_has_one_expanded_flat_code()
    ensures { (classes : Classes) (typed : FolderFrames) (at : MethodAt) (flat other : FlatCode)
        → IsHierarchy (headers_of classes)
        → IsExpanded classes typed at flat
        → IsExpanded classes typed at other
        → flat ≡ other }
{
    a_call_runs_one_method();
}

/// Each method with code has an expanded flat code, where the classes are a hierarchy and frames type the folder's methods: so each
/// host has one, and an initialiser too; a method without code has none. Nothing is asked of its length, or of arithmetic of float or
/// double: of each call and each `new` it is decided what becomes of it, and a chain has at most six callees.
pub fn a_host_has_an_expanded_flat_code()
    ensures coded { (classes : Classes) (typed : FolderFrames) (at : MethodAt) (scope : Scope)
        → IsHierarchy (headers_of classes)
        → TypesFolder classes typed
        → scope_at classes at ≡ Some scope
        → (flat : FlatCode) × IsExpanded classes typed at flat }
    ensures host { (classes : Classes) (typed : FolderFrames) (at : MethodAt)
        → IsHierarchy (headers_of classes)
        → TypesFolder classes typed
        → ¬ IsNoHost classes at
        → (flat : FlatCode) × IsExpanded classes typed at flat }
{
    a_call_runs_one_method();
    a_hierarchy_has_links();
    a_look_up_finds_one_field();
    a_look_up_finds_one_method();
    a_selection_chooses_one();
    a_special_call_starts_once();
    a_typed_folder_types_each_method();
}
