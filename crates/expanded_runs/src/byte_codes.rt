//! The codes of class files are bytes, since class files are values whose codes are lists of bytes.
ghost use Rattle.std.specs.Prelude.{◌≡◌, ℕ, Some, slice_get};
ghost use Rattle.class_model.specs.Cutting.{IsBytes};
ghost use Rattle.class_model.specs.MethodCode.{code_of as code_among};
ghost use Rattle.class_model.specs.declared.class_file.ClassFile.{ClassFile};
ghost use Rattle.class_model.specs.declared.class_file.CodePart.{CodePart};
ghost use Rattle.class_model.specs.declared.class_file.Method.{Method};
ghost use Rattle.expanded_runs.specs.ByteCodes.{HaveByteCodes};

use class_model::{Attr, ClassFile, Method};
use class_tree::Tree;
use type_rules::code_of;

/// The codes of a tree's folder are bytes. It goes through the methods of the folder, and not through their codes.
pub fn codes_of_a_tree_are_bytes(tree: &Tree)
    ensures { HaveByteCodes tree.now }
{
    have_byte_codes(tree.folder().as_slice());
}

// The codes of classes are bytes.
fn have_byte_codes(classes: &[ClassFile])
    ensures { (at number : ℕ) (class : ClassFile) (method : Method) (part : CodePart)
        → slice_get classes.now at ≡ Some class
        → slice_get class.methods number ≡ Some method
        → code_among method.attrs ≡ Some part
        → IsBytes part.code }
{
    for class in classes {
        methods_have_byte_codes(class.methods.as_slice());
    }
}

// The codes of methods are bytes.
fn methods_have_byte_codes(methods: &[Method])
    ensures { (number : ℕ) (method : Method) (part : CodePart)
        → slice_get methods.now number ≡ Some method
        → code_among method.attrs ≡ Some part
        → IsBytes part.code }
{
    for method in methods {
        has_byte_code(method.attrs.as_slice());
    }
}

// The code among attributes is bytes, if there is one.
fn has_byte_code(attrs: &[Attr])
    ensures { (part : CodePart) → code_among attrs.now ≡ Some part → IsBytes part.code }
{
    if let Some(part) = code_of(attrs) {
        are_bytes(part.code.as_slice());
    }
}

// Bytes are below 256.
fn are_bytes(bytes: &[u8])
    ensures { IsBytes bytes.now }
{
    let _ = bytes.len();
}
