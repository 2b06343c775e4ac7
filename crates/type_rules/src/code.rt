//! The code of methods (JVM Specification SE 8, 4.7.3).
ghost use Rattle.std.specs.Prelude.{◌≡◌, ◌↔◌, IsSome, IsTrue};
ghost use Rattle.std.specs.Option.{option_copied};
ghost use Rattle.class_model.specs.MethodCode.{code_of};
ghost use Rattle.member_link.specs.Scope.{scope_at};

use class_model::{Attr, CodePart, MethodAt};
use class_tree::Tree;

/// The content of the first Code attribute among attributes. It takes no memory.
pub fn code_of(attrs: &[Attr]) -> Option<&CodePart>
    ensures { option_copied result ≡ code_of attrs.now }
{
    for attr in attrs {
        if let Attr::Code { part, .. } = attr {
            return Some(part);
        }
    }
    None
}

/// Whether a method of the folder stands under its numbers, counted from 0, and has code, as `rule` asks. It takes no
/// memory.
pub fn has_code(tree: &Tree, at: MethodAt) -> bool
    ensures { IsTrue result ↔ IsSome (scope_at tree.now at) }
{
    let Some(class) = tree.folder().get(at.class) else {
        return false;
    };
    let Some(method) = class.methods.get(at.method) else {
        return false;
    };
    code_of(method.attrs.as_slice()).is_some()
}
