//! The members that a class declares itself.
ghost use Rattle.std.specs.Prelude.{◌≡◌, Some, option_map};
ghost use Rattle.class_model.specs.declared.header.Header.{Header};
ghost use Rattle.class_tree.specs.Headers.{headers_of};
ghost use Rattle.class_tree.specs.Order.{header_at};
ghost use Rattle.member_link.specs.DeclaredMembers.{declared_by, declared};
ghost use Rattle.member_link.specs.Found.{AreSame, IsFieldFound, IsMethodFound};

use crate::found::Found;
use class_model::Text;
use class_tree::{Place, Tree};

/// The field of a name and descriptor that the class at a place declares.
pub(crate) fn own_field(tree: &Tree, class: Place, name: &Text, desc: &Text) -> Option<Found>
    ensures { (header : Header)
        → header_at (headers_of tree.now) class ≡ Some header
        → AreSame (IsFieldFound (headers_of tree.now)) result
        (option_map (declared_by header.name) (declared name.now desc.now header.fields)) }
{
    let member = tree.field(class, name, desc)?;
    let field = tree.header(class)?.fields.get(member)?;
    Some(Found {
        place: class,
        member,
        flags: field.flags,
    })
}

/// The method of a name and descriptor that the class at a place declares. It does not allocate.
pub fn own_method(tree: &Tree, class: Place, name: &Text, desc: &Text) -> Option<Found>
    ensures { (header : Header)
        → header_at (headers_of tree.now) class ≡ Some header
        → AreSame (IsMethodFound (headers_of tree.now)) result
        (option_map (declared_by header.name) (declared name.now desc.now header.methods)) }
{
    let member = tree.method(class, name, desc)?;
    let method = tree.header(class)?.methods.get(member)?;
    Some(Found {
        place: class,
        member,
        flags: method.flags,
    })
}
