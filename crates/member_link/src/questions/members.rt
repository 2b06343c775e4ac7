//! Members by the class that declares them.
ghost use Rattle.std.specs.Prelude.{◌≡◌, slice_get, option_and_then};
ghost use Rattle.std.specs.Option.{option_copied};
ghost use Rattle.class_tree.specs.Headers.{class_named, headers_of};
ghost use Rattle.class_tree.specs.Order.{members_of};
ghost use Rattle.member_link.specs.DeclaredMembers.{declared};

use class_model::{Member, Text};
use class_tree::{MemberKind, Tree, a_tree_is_a_hierarchy, members_of};

/// The field or method of a name and descriptor that the class of a name declares. It does not allocate.
pub(crate) fn member_named<'a>(
    tree: &'a Tree,
    kind: MemberKind,
    class: &Text,
    name: &Text,
    desc: &Text,
) -> Option<&'a Member>
    ensures { option_copied result
        ≡ option_and_then (λ header. declared name.now desc.now (members_of kind header))
        (class_named (headers_of tree.now) class.now) }
{
    a_tree_is_a_hierarchy(tree);
    let place = tree.place(class)?;
    let number = tree.member(kind, place, name, desc)?;
    member_at(members_of(tree.header(place)?, kind), number)
}

// The member of a number.
fn member_at(members: &[Member], number: usize) -> Option<&Member>
    ensures { option_copied result ≡ slice_get members.now number }
{
    members.get(number)
}
