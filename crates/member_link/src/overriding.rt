//! Overriding (JVM Specification SE 8, 5.4.5).
ghost use Rattle.std.specs.Prelude.{◌≡◌, ◌⊎◌, ◌↔◌, true, false, Some, IsSome, IsTrue};
ghost use Rattle.class_model.specs.Names.{init, clinit};
ghost use Rattle.class_model.specs.declared.header.Header.{Header};
ghost use Rattle.class_tree.specs.Headers.{headers_of, IsThere};
ghost use Rattle.class_tree.specs.Hierarchy.{StandsAt};
ghost use Rattle.class_tree.specs.Order.{header_at};
ghost use Rattle.class_tree.specs.Subtype.{IsBelow};
ghost use Rattle.member_link.specs.DeclaredMembers.{Declared, declared_by};
ghost use Rattle.member_link.specs.Found.{IsMethodFound};
ghost use Rattle.member_link.specs.Inner.OpenMethods.{IsAbove, IsAboveOfKind, IsAnyOf, IsSameOf, OpensPackage};
ghost use Rattle.member_link.specs.Overriding.{MayOverride, Overrides};

use crate::flags::{is_inherited, is_open};
use crate::found::Found;
use crate::own::own_method;
use crate::packages::is_same_package;
use class_model::{CLINIT, Header, INIT, Member, Text};
use class_tree::{Place, Tree, a_tree_is_a_hierarchy, is_sub};

/// Whether a method overrides another (JVM Specification SE 8, 5.4.5). It does not allocate.
pub fn overrides(tree: &Tree, low: Found, high: Found) -> bool
    requires low { (method : Declared) × IsMethodFound (headers_of tree.now) low method }
    requires high { (method : Declared) × IsMethodFound (headers_of tree.now) high method }
    ensures { (low_method high_method : Declared)
        → IsMethodFound (headers_of tree.now) low low_method
        → IsMethodFound (headers_of tree.now) high high_method
        → IsTrue result ↔ Overrides (headers_of tree.now) low_method high_method }
{
    overrides_method(tree, method_at(tree, low), method_at(tree, high))
}

/// A method of the class at a place.
#[derive(Clone, Copy)]
pub(crate) struct Method<'a> {
    pub place: Place,
    pub header: &'a Header,
    pub member: &'a Member,
}

/// The method that is found.
pub(crate) fn method_at<'a>(tree: &'a Tree, found: Found) -> Method<'a>
    requires { (method : Declared) × IsMethodFound (headers_of tree.now) found method }
    ensures at { StandsAt
        (headers_of tree.now) result.header.now.name result.place result.header.now }
    ensures same { (method : Declared)
        → IsMethodFound (headers_of tree.now) found method
        → method ≡ declared_by result.header.now.name result.member.now }
{
    a_tree_is_a_hierarchy(tree);
    let Some(header) = tree.header(found.place) else {
        unreachable!()
    };
    Method {
        place: found.place,
        header,
        member: &header.methods.as_slice()[found.member],
    }
}

/// Whether a method overrides another. Neither need be the first of its name and descriptor in its class.
pub(crate) fn overrides_method(tree: &Tree, low: Method<'_>, high: Method<'_>) -> bool
    requires { StandsAt (headers_of tree.now) low.header.now.name low.place low.header.now }
    ensures { IsTrue result
        ↔ Overrides (headers_of tree.now)
        (declared_by low.entry.header.now.name low.entry.member.now)
        (declared_by high.entry.header.now.name high.entry.member.now) }
{
    may_override(tree, low, high)
        && (is_open(high.member.flags)
            || is_same_package(low.header.name.bytes(), high.header.name.bytes())
            || any_above(tree, low, |middle| opens_package(tree, middle, high)))
}

// Whether a method is of the name and descriptor of another above it, and neither of them is private, static or an
// initialiser.
fn may_override(tree: &Tree, low: Method<'_>, high: Method<'_>) -> bool
    requires { StandsAt (headers_of tree.now) low.header.now.name low.place low.header.now }
    ensures { IsTrue result
        ↔ MayOverride (headers_of tree.now)
        (declared_by low.entry.header.now.name low.entry.member.now)
        (declared_by high.entry.header.now.name high.entry.member.now) }
{
    is_inherited(low.member.flags)
        && is_inherited(high.member.flags)
        && is_same_signature(low.member, high.member)
        && !is_initialiser(high.member.name.bytes())
        && is_below(tree, &low.header.name, &high.header.name)
}

// Whether two methods have one name and descriptor.
fn is_same_signature(one: &Member, other: &Member) -> bool
    ensures { IsTrue result ↔ ((one.now.name ≡ other.now.name) × (one.now.desc ≡ other.now.desc)) }
{
    one.name == other.name && one.desc == other.desc
}

// Whether a name is one of the two of initialisers.
fn is_initialiser(name: &[u8]) -> bool
    ensures { IsTrue result ↔ ((name.now ≡ init) ⊎ (name.now ≡ clinit)) }
{
    name == INIT || name == CLINIT
}

// Whether a class is below another.
fn is_below(tree: &Tree, low: &Text, high: &Text) -> bool
    requires { IsThere (headers_of tree.now) low.now }
    ensures { IsTrue result ↔ IsBelow (headers_of tree.now) low.now high.now }
{
    a_tree_is_a_hierarchy(tree);
    low != high && is_sub(tree, low, high)
}

// Whether a method that is found is public or protected, and may override another of its package.
fn opens_package(tree: &Tree, middle: Found, high: Method<'_>) -> bool
    requires { (method : Declared) × IsMethodFound (headers_of tree.now) middle method }
    ensures { (method : Declared)
        → IsMethodFound (headers_of tree.now) middle method
        → IsTrue result
        ↔ OpensPackage (headers_of tree.now) method
        (declared_by high.entry.header.now.name high.entry.member.now) }
{
    let middle = method_at(tree, middle);
    is_open(middle.member.flags)
        && is_same_package(middle.header.name.bytes(), high.header.name.bytes())
        && may_override(tree, middle, high)
}

/// Whether one of the methods of the classes above that have the name and descriptor of a method passes a test.
pub(crate) fn any_above<F: Fn(Found) -> bool>(tree: &Tree, low: Method<'_>, test: F) -> bool
    requires at { StandsAt (headers_of tree.now) low.header.now.name low.place low.header.now }
    requires test { (found : Found) (high : Declared)
        → IsMethodFound (headers_of tree.now) found high
        → F.pre test found }
    ensures { IsAnyOf (headers_of tree.now)
        (IsAbove (headers_of tree.now)
        (declared_by low.entry.header.now.name low.entry.member.now)) (F.post test) result }
{
    any_superclass(tree, low, &test) || any_superinterface(tree, low, &test)
}

// Whether one of those of superclasses does.
fn any_superclass<F: Fn(Found) -> bool>(tree: &Tree, low: Method<'_>, test: &F) -> bool
    requires at { StandsAt (headers_of tree.now) low.header.now.name low.place low.header.now }
    requires test { (found : Found) (high : Declared)
        → IsMethodFound (headers_of tree.now) found high
        → F.pre test.now found }
    ensures { IsAnyOf (headers_of tree.now)
        (IsAboveOfKind (headers_of tree.now) false
        (declared_by low.entry.header.now.name low.entry.member.now)) (F.post test.now) result }
{
    a_tree_is_a_hierarchy(tree);
    let mut next = tree.superclass(low.place);
    while let Some(place) = next {
        if own_passes(tree, place, low.member, test) {
            return true;
        }
        next = tree.superclass(place);
    }
    false
}

// Whether one of those of superinterfaces does.
fn any_superinterface<F: Fn(Found) -> bool>(tree: &Tree, low: Method<'_>, test: &F) -> bool
    requires at { StandsAt (headers_of tree.now) low.header.now.name low.place low.header.now }
    requires test { (found : Found) (high : Declared)
        → IsMethodFound (headers_of tree.now) found high
        → F.pre test.now found }
    ensures { IsAnyOf (headers_of tree.now)
        (IsAboveOfKind (headers_of tree.now) true
        (declared_by low.entry.header.now.name low.entry.member.now)) (F.post test.now) result }
{
    a_tree_is_a_hierarchy(tree);
    for place in tree.superinterfaces(low.place) {
        if own_passes(tree, *place, low.member, test) {
            return true;
        }
    }
    false
}

// Whether the method of the class at a place that has the name and descriptor of a member passes a test.
fn own_passes<F: Fn(Found) -> bool>(tree: &Tree, place: Place, member: &Member, test: &F) -> bool
    requires place { IsSome (header_at (headers_of tree.now) place) }
    requires test { (found : Found) (high : Declared)
        → IsMethodFound (headers_of tree.now) found high
        → F.pre test.now found }
    ensures { (header : Header)
        → header_at (headers_of tree.now) place ≡ Some header
        → IsAnyOf (headers_of tree.now) (IsSameOf (headers_of tree.now) header.name member.now)
        (F.post test.now) result }
{
    a_tree_is_a_hierarchy(tree);
    match own_method(tree, place, &member.name, &member.desc) {
        Some(found) => test(found),
        None => false,
    }
}
