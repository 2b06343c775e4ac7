//! What is known of the methods of a folder that frames type.
ghost use Rattle.std.specs.Prelude.{List};
ghost use Rattle.class_model.specs.declared.class_file.MethodAt.{MethodAt};
ghost use Rattle.class_model.specs.declared.frame.Frame.{Frame};
ghost use Rattle.expanded_code.specs.Sites.{HasFrames};
ghost use Rattle.inline_expand.specs.Inner.TypedMethods.{IsTypedMethod};
ghost use Rattle.member_link.specs.Scope.{Scope};
ghost use Rattle.type_rules.specs.Verified.{TypesFolder};

use crate::known_frames::KnownFrames;
use class_tree::Tree;
use code_bytes::a_class_file_has_read_methods;
use type_rules::{
    a_method_stands_in_order, a_typed_body_goes_to_stated_frames, a_typed_folder_types_each_method,
    a_typed_method_types_each_instruction,
};

/// A law: frames type each method with code, each with as many local units as the code, its instructions name instructions and
/// local units that it has, and these units hold its arguments.
pub(crate) fn each_method_is_typed(tree: &Tree, typed: &KnownFrames<'_>)
    requires { TypesFolder tree.now typed.now }
    ensures { (at : MethodAt) (s : Scope) (frames : List Frame)
        → HasFrames tree.now typed.now at s frames
        → IsTypedMethod s frames }
{
    a_typed_folder_types_each_method();
    a_typed_method_types_each_instruction();
    a_method_stands_in_order();
    a_typed_body_goes_to_stated_frames();
    a_class_file_has_read_methods();
    let _folder = tree.folder();
}
