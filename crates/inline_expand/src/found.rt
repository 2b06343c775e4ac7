//! Methods that are found, by their places in a tree.
ghost use Rattle.std.specs.Prelude.{◌≡◌, Some};
ghost use Rattle.std.specs.Option.{option_copied};
ghost use Rattle.class_tree.specs.Headers.{headers_of};
ghost use Rattle.inline_expand.specs.Inner.Found as words;
ghost use Rattle.member_link.specs.DeclaredMembers.{Declared};
ghost use Rattle.member_link.specs.Found.{IsMethodFound};

use class_model::{Member, MethodAt};
use class_tree::{Place, Tree};
use member_link::Found;

/// The method that is found.
pub(crate) fn method_of(tree: &Tree, found: Found) -> Option<&Member>
    ensures { (method : Declared)
        → IsMethodFound (headers_of tree.now) found method
        → option_copied result ≡ Some method.member }
{
    tree.header(found.place)?.methods.get(found.member)
}

/// The numbers of a method that is found, if it is one of the folder.
pub(crate) fn folder_method(found: Found) -> Option<MethodAt>
    ensures { result ≡ words.folder_method found }
{
    match found.place {
        Place::Folder(class) => Some(MethodAt {
            class,
            method: found.member,
        }),
        Place::Library(_) => None,
    }
}
