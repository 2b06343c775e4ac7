//! The subtype relation on classes and arrays (JVM Specification SE 8, 4.10.1.2).
ghost use Rattle.std.specs.Prelude.{◌≡◌, ◌↔◌, Some, IfSome, IfNone, IsSome, IsTrue, IsFalse};
ghost use Rattle.class_model.specs.declared.header.Header.{Header};
ghost use Rattle.class_tree.specs.Headers.{Name, Headers, headers_of, class_named};
ghost use Rattle.class_tree.specs.Names as names;
ghost use Rattle.class_tree.specs.Order.{header_at};
ghost use Rattle.class_tree.specs.Subtype.{AreComponents, IsArray, IsReferenceComponent, IsAboveArrays, IsBelow, IsSubtype};
ghost use Rattle.class_tree.specs.Trees.{IsTree};

use crate::names::{CLONEABLE, OBJECT, SERIALIZABLE};
use crate::place::Place;
use crate::tree::Tree;
use class_model::Text;

/// Whether a class or array is below another, or is the same (JVM Specification SE 8, 4.10 and 4.10.1.2). Classes are named, and
/// arrays are their descriptors. It does not allocate.
pub fn is_sub(tree: &Tree, low: &Text, high: &Text) -> bool
    ensures { IsTrue result ↔ IsSubtype (headers_of tree.now) low.now high.now }
{
    is_subtype(tree, low.bytes(), high.bytes())
}

/// The same of names and descriptors as bytes.
pub fn is_subtype(tree: &Tree, low: &[u8], high: &[u8]) -> bool
    ensures { IsTrue result ↔ IsSubtype (headers_of tree.now) low.now high.now }
{
    // no class has the name of an array
    let _ = &tree.folder;
    let (low, high) = innermost(low, high);
    if low == high {
        return true;
    }
    if is_array(low) {
        is_above_arrays(high)
    } else {
        is_below(tree, low, high)
    }
}

/// The components of two arrays, as far as both have one.
pub fn innermost<'a>(low: &'a [u8], high: &'a [u8]) -> (&'a [u8], &'a [u8])
    ensures taken { AreComponents low.now high.now result.0.now result.1.now }
    ensures last { (low_component high_component : Name)
        → IsReferenceComponent result.0.now low_component
        → ¬ IsReferenceComponent result.1.now high_component }
{
    let (mut low, mut high) = (low, high);
    while let (Some(low_component), Some(high_component)) = (component(low), component(high)) {
        low = low_component;
        high = high_component;
    }
    (low, high)
}

/// The component of an array of references: an array, or a class between `L` and `;`.
pub fn component(array: &[u8]) -> Option<&[u8]>
    ensures some { IfSome result (λ component. IsReferenceComponent array.now component.now) }
    ensures none { IfNone result ((component : Name) → ¬ IsReferenceComponent array.now component) }
{
    let component = array.strip_prefix(b"[")?;
    if is_array(component) {
        return Some(component);
    }
    component.strip_prefix(b"L")?.strip_suffix(b";")
}

/// Whether a name is that of an array, which is its descriptor.
pub fn is_array(name: &[u8]) -> bool
    ensures { IsTrue result ↔ IsArray name.now }
{
    name.starts_with(b"[")
}

/// Whether each array is below the class of a name: java/lang/Object, java/lang/Cloneable and java/io/Serializable are.
pub fn is_above_arrays(name: &[u8]) -> bool
    ensures { IsTrue result ↔ IsAboveArrays name.now }
{
    name == OBJECT || name == CLONEABLE || name == SERIALIZABLE
}

/// Whether the class of a name is below another and not the same.
pub fn is_below(tree: &Tree, low: &[u8], high: &[u8]) -> bool
    ensures { IsTrue result ↔ IsBelow (headers_of tree.now) low.now high.now }
{
    let Some(low) = tree.find(low) else {
        return false;
    };
    let Some(high) = tree.find(high) else {
        return false;
    };
    if tree.is_interface(high) {
        has_interface(tree, low, high)
    } else {
        has_superclass(tree, low, high)
    }
}

// Whether an interface is above a class.
fn has_interface(tree: &Tree, class: Place, interface: Place) -> bool
    requires tree { IsTree tree.now }
    requires class { IsSome (header_at (headers_of tree.now) class) }
    ensures { (low high : Header)
        → header_at (headers_of tree.now) class ≡ Some low
        → header_at (headers_of tree.now) interface ≡ Some high
        → IsTrue (names.is_interface high)
        → IsTrue result ↔ IsBelow (headers_of tree.now) low.name high.name }
{
    tree.superinterfaces(class).contains(&interface)
}

// Whether a class is above another that is no interface.
fn has_superclass(tree: &Tree, class: Place, above: Place) -> bool
    requires { IsTree tree.now }
    ensures { (low high : Header)
        → header_at (headers_of tree.now) class ≡ Some low
        → header_at (headers_of tree.now) above ≡ Some high
        → IsFalse (names.is_interface high)
        → IsTrue result ↔ IsBelow (headers_of tree.now) low.name high.name }
{
    let mut next = tree.superclass(class);
    while let Some(place) = next {
        if place == above {
            return true;
        }
        next = tree.superclass(place);
    }
    false
}
