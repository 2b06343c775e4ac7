//! Constants of a pool that refer to the same.
ghost use Rattle.std.specs.Prelude.{◌≡◌, IsTrue};
ghost use Rattle.member_link.specs.Inner.AlikeConstants.{AreAlike};
ghost use Rattle.member_link.specs.References.{reference_at};

use class_model::{Const, Pool};

/// The index of the text of the name or descriptor of a constant that is resolved.
pub(crate) fn text_index(pool: &Pool, constant: &Const) -> Option<u16> {
    match constant {
        Const::Class(text) | Const::MethodType(text) => Some(*text),
        Const::Fieldref(_, member)
        | Const::Methodref(_, member)
        | Const::InterfaceMethodref(_, member)
        | Const::InvokeDynamic(_, member) => {
            let (_, text) = pool.name_and_type(*member)?;
            Some(text)
        }
        _ => None,
    }
}

/// Whether two constants are equal, or refer to members of the same kind by the same indices of
/// class, name and descriptor.
pub(crate) fn is_alike(pool: &Pool, one: &Const, other: &Const) -> bool
    ensures { IsTrue result → AreAlike pool.now one.now other.now }
{
    match one {
        Const::Fieldref(class, member) => match other {
            Const::Fieldref(to_class, to_member) => is_same_member(
                pool, *class, *member, *to_class, *to_member,
            ),
            _ => false,
        },
        Const::Methodref(class, member) => match other {
            Const::Methodref(to_class, to_member) => is_same_member(
                pool, *class, *member, *to_class, *to_member,
            ),
            _ => false,
        },
        Const::InterfaceMethodref(class, member) => match other {
            Const::InterfaceMethodref(to_class, to_member) => {
                is_same_member(pool, *class, *member, *to_class, *to_member)
            }
            _ => false,
        },
        _ => one.is_same(other),
    }
}

// Whether two references are to members of the same class, name and descriptor, by the indices of
// these.
fn is_same_member(pool: &Pool, class: u16, member: u16, to_class: u16, to_member: u16) -> bool
    ensures { IsTrue result
        → reference_at pool.now class member ≡ reference_at pool.now to_class to_member }
{
    let Some((name, desc)) = pool.name_and_type(member) else {
        return false;
    };
    let Some((to_name, to_desc)) = pool.name_and_type(to_member) else {
        return false;
    };
    class == to_class && name == to_name && desc == to_desc
}
