//! Laws: functions that do nothing, whose contracts say what always holds.
ghost use Rattle.same_runs.specs.ClearedFields.{ReplacesByFlats};
ghost use Rattle.same_runs.specs.TypedFlats.{TypesFlat};
ghost use Rattle.std.specs.Prelude.{◌≡◌, ◌<◌, List, Some, length};
ghost use Rattle.class_model.specs.declared.class_file.ClassFile.{ClassFile};
ghost use Rattle.class_model.specs.declared.class_file.MethodAt.{MethodAt};
ghost use Rattle.class_rewrite.specs.Inner.Deciding.{HasRules};
ghost use Rattle.class_rewrite.specs.Inner.Outcomes.{MakesHere};
ghost use Rattle.class_rewrite.specs.Laws.OneWriting.{HaveOne};
ghost use Rattle.class_rewrite.specs.Optimised.{RunsAs, with_folder};
ghost use Rattle.class_rewrite.specs.Rewriting.Folders.{HasReasonAt, IsFolderWritten, IsRewrittenAt};
ghost use Rattle.class_rewrite.specs.Rewriting.Methods.{Rewriting, Rewritten};
ghost use Rattle.class_rewrite.specs.Rewriting.Verifying.{IsOfVerified};
ghost use Rattle.class_rewrite.specs.Rewriting.WellWritten.{IsWellWritten};
ghost use Rattle.class_tree.specs.Headers.{Classes, Name, headers_of};
ghost use Rattle.class_tree.specs.Hierarchy.{IsHierarchy};
ghost use Rattle.class_tree.specs.Trees.{IsTree};
ghost use Rattle.expanded_code.specs.Candidates.{IsCandidate};
ghost use Rattle.expanded_code.specs.ExpandAnswers.{IsExpanded, IsNoHost};
ghost use Rattle.expanded_runs.specs.ByteCodes.{HaveByteCodes};
ghost use Rattle.expanded_runs.specs.ExpandedPrograms.{AreExpanded};
ghost use Rattle.flow_code.specs.FlatCode.{FlatCode};
ghost use Rattle.flow_code.specs.TypedFrames.{FolderFrames};
ghost use Rattle.flow_code.specs.declared.reason.Reason.{Reason};
ghost use Rattle.member_link.specs.Linked.{IsLinked};
ghost use Rattle.member_link.specs.Machine.Classes.{program_of};
ghost use Rattle.member_link.specs.Machine.Links.{AreLinksOf};
ghost use Rattle.member_link.specs.Machine.Programs.{Links};
ghost use Rattle.member_link.specs.Machine.Replaced.{Replacement, replaced};
ghost use Rattle.member_link.specs.Machine.SameRuns.{SameRuns};
ghost use Rattle.member_link.specs.Scope.{Scope, scope_at};
ghost use Rattle.same_runs.specs.EqualRuns.{EqualRuns};
ghost use Rattle.same_runs.specs.Flats.{Flats};
ghost use Rattle.type_rules.specs.Verified.{IsVerified, TypesFolder};

use crate::emitted_laws::rewritten_items_are_emitted_code;
use crate::ready_laws::a_written_folder_is_ready;
use crate::sound_laws::a_written_folder_is_sound;
use crate::verified_laws::a_sound_written_folder_verifies;
use class_tree::{Tree, classes_of_a_tree_are_a_hierarchy};
use expanded_runs::{
    an_expanded_flat_code_is_ready, an_expanded_flat_code_is_typed, expanded_flat_codes_run_equally,
};
use inline_expand::a_method_has_one_expanded_flat_code;
use machine_laws::running_the_same_composes;
use member_link::a_tree_has_links;
use same_runs::{programs_that_are_equal_run_equally, running_equally_is_running_the_same};
use typed_programs::a_verified_folder_is_a_typed_program;
use written_runs::written_codes_run_the_same;

/// A method of a hierarchy has one reason at most.
pub fn a_method_has_one_reason()
    ensures { (r : Rewriting) (at : MethodAt) (one other : Reason)
        → IsTree r.classes
        → HasReasonAt r at one
        → HasReasonAt r at other
        → one ≡ other }
{
    a_rewriting_has_one_answer();
}

/// What becoming of methods goes by is one.
pub(crate) fn a_rewriting_has_one_answer()
    ensures { (r : Rewriting) → IsTree r.classes → HaveOne r }
{
    classes_of_a_tree_are_a_hierarchy();
    a_method_has_one_expanded_flat_code();
    plan_flow::flat_code_has_one_least_plan();
    plan_flow::effect_grows();
}

/// A tree has links, and descriptors of the field constructors of its folder.
pub(crate) fn a_tree_has_rules(tree: &Tree)
    ensures { HasRules tree.now }
{
    let _folder = tree.folder();
    a_tree_has_links(tree);
}

/// The classes whose objects the code of a method that is rewritten makes are candidates.
pub(crate) fn rewritten_methods_make_candidates()
    ensures { (r : Rewriting) (at : MethodAt) (w : Rewritten) (class : Name)
        → IsTree r.classes
        → IsLinked r.classes
        → TypesFolder r.classes r.typed
        → AreLinksOf (headers_of r.classes) r.links
        → IsRewrittenAt r at w
        → MakesHere r w.one class
        → IsCandidate r.classes class }
{
    a_verified_folder_is_a_typed_program();
    an_expanded_flat_code_is_ready();
}

/// The folder that is written of a verified folder verifies, and its methods have the code of their items.
pub fn a_written_folder_verifies()
    ensures { (r : Rewriting) (files : List ClassFile) (w : IsFolderWritten r files)
        → IsOfVerified r
        → IsVerified (with_folder r.classes files) × IsWellWritten r files w }
{
    a_written_folder_is_sound();
    a_sound_written_folder_verifies();
    rewritten_items_are_emitted_code();
}

/// In the program of a verified folder any hosts may run their expanded flat codes, callees in place of their calls, and it runs equally: for
/// every list of actions it shows the same events with equal counts and the same end, and it goes on exactly where the program of the folder
/// does.
pub fn expanded_flat_codes_of_a_verified_folder_run_equally()
    ensures { (classes : Classes) (typed : FolderFrames) (links : Links) (flats : Flats)
        (r : Replacement)
        → IsTree classes
        → IsLinked classes
        → TypesFolder classes typed
        → AreLinksOf (headers_of classes) links
        → AreExpanded classes typed flats
        → ReplacesByFlats classes links flats r
        → EqualRuns (program_of classes links) (replaced (program_of classes links) r) }
{
    a_verified_folder_is_a_typed_program();
    expanded_flat_codes_run_equally();
    // where the folder has no class
    programs_that_are_equal_run_equally();
}

/// The typed points of the expanded flat code of a host of a verified folder type it (`TypesFlat`). Access is not asked.
pub fn an_expanded_flat_code_of_a_verified_folder_is_typed()
    ensures { (classes : Classes) (typed : FolderFrames) (links : Links) (at : MethodAt)
        (flat : FlatCode) (s : Scope)
        → IsTree classes
        → IsLinked classes
        → TypesFolder classes typed
        → AreLinksOf (headers_of classes) links
        → IsExpanded classes typed at flat
        → ¬ IsNoHost classes at
        → scope_at classes at ≡ Some s
        → TypesFlat classes s flat }
{
    a_verified_folder_is_a_typed_program();
    an_expanded_flat_code_is_typed();
}

/// The codes that are written of a verified folder run the same as those of the folder: in the program in which they take the place of their
/// methods' own, with field constructors and with flags of fields cleared, each list of actions shows the same events and the same end, with no
/// more allocations and monitor entries at each event (`codes`). And that program is the one of the written folder, so that this runs as the
/// folder (`folder`), where its methods have the code of their items (`IsWellWritten`). The codes of the folder are bytes, as those of class files
/// that were read are.
pub fn a_written_folder_runs_as_its_folder()
    ensures codes { (r : Rewriting) (files : List ClassFile) (w : IsFolderWritten r files)
        → IsTree r.classes
        → HaveByteCodes r.classes
        → IsLinked r.classes
        → TypesFolder r.classes r.typed
        → AreLinksOf (headers_of r.classes) r.links
        → SameRuns (program_of r.classes r.links) (replaced (program_of r.classes r.links) w.s) }
    ensures folder { (r : Rewriting) (files : List ClassFile) (w : IsFolderWritten r files)
        → IsTree r.classes
        → HaveByteCodes r.classes
        → IsLinked r.classes
        → TypesFolder r.classes r.typed
        → AreLinksOf (headers_of r.classes) r.links
        → 0 < length r.classes.folder
        → IsWellWritten r files w
        → RunsAs r.classes (with_folder r.classes files) }
{
    a_written_folder_is_ready();
    expanded_flat_codes_run_equally();
    running_equally_is_running_the_same();
    written_codes_run_the_same();
    running_the_same_composes();
    class_model::constants_compare_by_value();
    written_files::a_field_constructor_runs_its_instructions();
    type_rules::a_grown_class_has_a_grown_header();
    type_rules::a_grown_class_keeps_its_instructions();
    type_rules::a_grown_class_keeps_its_code();
    type_rules::a_grown_class_begins_alike();
    type_rules::grown_classes_have_the_same_links();
    code_layout::a_laid_code_means_its_items();
    // where the folder has no class
    programs_that_are_equal_run_equally();
}
