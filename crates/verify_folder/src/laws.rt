//! Laws: functions that do nothing, whose contracts say what always holds.
ghost use Rattle.std.specs.Prelude.{◌≡◌, List};
ghost use Rattle.class_model.specs.declared.class_file.ClassFile.{ClassFile};
ghost use Rattle.class_tree.specs.Headers.{Headers};
ghost use Rattle.flow_code.specs.TypedFrames.{FolderFrames};
ghost use Rattle.type_rules.specs.Verified.{AreTypedClasses};
ghost use Rattle.verify_folder.specs.Verifying.{ClassesFail, Failure};

use type_rules::a_failing_method_has_no_frames;

/// Where a folder fails, no frames type it, and it fails first in one place by one rule.
pub fn a_folder_fails_once()
    ensures none { (headers : Headers) (classes : List ClassFile) (typed : FolderFrames)
        (failure : Failure)
        → ClassesFail headers classes failure
        → ¬ AreTypedClasses headers classes typed }
    ensures one { (headers : Headers) (classes : List ClassFile) (one other : Failure)
        → ClassesFail headers classes one
        → ClassesFail headers classes other
        → one ≡ other }
{
    a_failing_method_has_no_frames();
}
