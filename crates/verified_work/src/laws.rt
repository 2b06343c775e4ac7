//! Laws: functions that do nothing, whose contracts say what always holds.
ghost use Rattle.std.specs.Prelude.{ℕ, ◌≤◌};
ghost use Rattle.class_tree.specs.Headers.{Classes};
ghost use Rattle.class_tree.specs.Trees.{IsArranged};
ghost use Rattle.type_rules.specs.Verified.{IsVerified};
ghost use Rattle.work_gen.specs.BaseLibrary.{base_headers};
ghost use Rattle.script_text.specs.Scripts.{IsScript};
ghost use Rattle.verified_work.specs.GeneratedActions.{generated_actions};
ghost use Rattle.work_gen.specs.Generated.{choices, generated_folder, generated_script};

use class_model::{a_text_spells_one_field_type, parameters_are_spelled};
use class_tree::a_folder_is_told_once;
use member_link::{a_look_up_finds_one_field, a_look_up_finds_one_method};
use script_text::a_printed_script_reads_back;
use work_gen::{base_headers_are_library_classes, generated_classes_are_class_files};

/// Generated work verifies with the library of `base_library`, in whichever order the classes of both are given.
pub fn generated_work_verifies()
    ensures { (number size : ℕ) (classes : Classes)
        → size ≤ 1000
        → IsArranged (generated_folder (choices number size)) base_headers classes
        → IsVerified classes }
{
    generated_classes_are_class_files();
    base_headers_are_library_classes();
    a_folder_is_told_once();
    parameters_are_spelled();
    a_text_spells_one_field_type();
    a_look_up_finds_one_field();
    a_look_up_finds_one_method();
}

/// A generated script has these actions.
pub fn a_generated_script_is_read()
    ensures { (number size : ℕ)
        → size ≤ 1000
        → IsScript (generated_script (choices number size))
        (generated_actions (choices number size)) }
{
    a_printed_script_reads_back();
}
