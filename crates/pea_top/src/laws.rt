//! What holds of words and files, whoever reads them.
ghost use Rattle.std.specs.Prelude.{◌≡◌, List};
ghost use Rattle.host_tree.specs.Host.{Files};
ghost use Rattle.pea_top.specs.Answer.{IsAnswer};
ghost use Rattle.pea_top.specs.Words.{Word, Command, Spells};
ghost use Rattle.pea_top.specs.declared.status.Status.{Status};

use class_model::{
    a_class_file_has_no_fault, a_library_file_is_told_once, another_version_is_no_class_file,
    bytes_are_one_class_file, one_first_fault,
};
use class_tree::a_folder_is_told_once;
use script_text::a_script_has_no_line_outside;
use verify_folder::a_folder_fails_once;

/// Words spell one command at most.
pub fn words_spell_one_command()
    ensures { (words : List Word) (one other : Command)
        → Spells one words
        → Spells other words
        → one ≡ other }
{}

/// Words and the files that a host tells have one answer at most.
pub fn words_and_files_have_one_answer()
    ensures { (words : List Word) (files : Files) (one other : Status)
        → IsAnswer words files one
        → IsAnswer words files other
        → one ≡ other }
{
    one_first_fault();
    a_class_file_has_no_fault();
    another_version_is_no_class_file();
    bytes_are_one_class_file();
    a_library_file_is_told_once();
    a_folder_is_told_once();
    a_folder_fails_once();
    a_script_has_no_line_outside();
}
