//! The first method of a name and descriptor from a class upwards that counts.
ghost use Rattle.std.specs.Prelude.{◌≡◌, ◌↔◌, ◌&&◌, not, Option, IsSome, Some, IsTrue};
ghost use Rattle.class_model.specs.Members as members;
ghost use Rattle.class_model.specs.declared.header.Header.{Header};
ghost use Rattle.class_tree.specs.Headers.{headers_of};
ghost use Rattle.class_tree.specs.Names as names;
ghost use Rattle.class_tree.specs.Order.{header_at};
ghost use Rattle.member_link.specs.Inner.Counting.{IsValid, Counts};
ghost use Rattle.member_link.specs.DeclaredMembers.{Declared};
ghost use Rattle.member_link.specs.Found.{AreSame, IsMethodFound};
ghost use Rattle.member_link.specs.Upwards.{FirstUpwards};

use crate::found::Found;
use crate::overriding::overrides;
use crate::own::own_method;
use class_model::{ACC_PUBLIC, ACC_STATIC, Text, has};
use class_tree::{OBJECT, Place, Tree};

/// Which methods count on the way up.
#[derive(Clone, Copy)]
pub(crate) enum Counted {
    /// Each.
    Every,
    /// Those of the interface at this place, and those that are public and not static.
    OfInterface(Place),
    /// A method itself, and those that override it.
    Overriding(Found),
    /// Those that are not static.
    Instance,
    /// Those that are not static; of java/lang/Object those that are public besides.
    InstanceOfInterface,
}

impl Counted {
    // Whether a method counts.
    fn counts(self, tree: &Tree, found: Found) -> bool
        requires valid { IsValid (headers_of tree.now) self }
        requires found { (method : Declared) × IsMethodFound (headers_of tree.now) found method }
        ensures { (method : Declared)
            → IsMethodFound (headers_of tree.now) found method
            → IsTrue result ↔ Counts (headers_of tree.now) self method }
    {
        class_tree::a_tree_is_a_hierarchy(tree);
        match self {
            Counted::Every => true,
            Counted::OfInterface(place) => found.place == place || is_public_instance(found.flags),
            Counted::Overriding(resolved) => found == resolved || overrides(tree, found, resolved),
            Counted::Instance => !has(found.flags, ACC_STATIC),
            Counted::InstanceOfInterface => {
                !has(found.flags, ACC_STATIC)
                    && (has(found.flags, ACC_PUBLIC) || !is_of_object(tree, found))
            }
        }
    }
}

// Whether a method is public and not static.
fn is_public_instance(flags: u16) -> bool
    ensures { result
        ≡ (members.has flags members.PUBLIC && not (members.has flags members.STATIC)) }
{
    has(flags, ACC_PUBLIC) && !has(flags, ACC_STATIC)
}

// Whether java/lang/Object declares a method.
fn is_of_object(tree: &Tree, found: Found) -> bool
    ensures { (method : Declared)
        → IsMethodFound (headers_of tree.now) found method
        → IsTrue result ↔ (method.class ≡ names.object) }
{
    match tree.header(found.place) {
        Some(header) => header.name.bytes() == OBJECT,
        None => false,
    }
}

/// The first method of a name and descriptor that counts, from the class at a place upwards.
pub(crate) fn first_upwards(
    tree: &Tree,
    start: Place,
    name: &Text,
    desc: &Text,
    counted: Counted,
) -> Option<Found>
    requires start { IsSome (header_at (headers_of tree.now) start) }
    requires counted { IsValid (headers_of tree.now) counted }
    ensures { (header : Header)
        → header_at (headers_of tree.now) start ≡ Some header
        → (found : Option Declared)
        × FirstUpwards (headers_of tree.now)
        (Counts (headers_of tree.now) counted) name.now desc.now header.name found
        × AreSame (IsMethodFound (headers_of tree.now)) result found }
{
    class_tree::a_tree_is_a_hierarchy(tree);
    let mut next = Some(start);
    while let Some(place) = next {
        if let Some(found) = own_method(tree, place, name, desc) {
            if counted.counts(tree, found) {
                return Some(found);
            }
        }
        next = tree.superclass(place);
    }
    None
}
