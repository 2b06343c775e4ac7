//! Access to classes (JVM Specification SE 8, 5.4.4).
ghost use Rattle.std.specs.Prelude.{◌↔◌, IsTrue};
ghost use Rattle.class_tree.specs.Headers.{headers_of};
ghost use Rattle.member_link.specs.References.{IsNamedAccessible};

use crate::names::is_named_accessible;
use class_model::Text;
use class_tree::Tree;

/// Whether the class that a class name or an array type names is there and accessible from a class: it is public, or of the
/// same package. Of an array its element is meant, and one of a base type passes (JVM Specification SE 8, 5.4.4). It does not
/// allocate.
pub fn class_accessible(tree: &Tree, from: &Text, name: &Text) -> bool
    ensures { IsTrue result ↔ IsNamedAccessible (headers_of tree.now) from.now name.now }
{
    is_named_accessible(tree, from.bytes(), name.bytes())
}
