//! The classes that are initialised before a class (JVM Specification SE 8, 5.5).
ghost use Rattle.std.specs.Prelude.{◌≡◌, ◌∷◌, ℕ, [], false, suc, length, IfSome, IsSome, Some, None};
ghost use Rattle.std.specs.List.{list_any};
ghost use Rattle.std.specs.Option.{option_copied};
ghost use Rattle.class_model.specs.declared.header.Header.{Header as HeaderValue};
ghost use Rattle.class_tree.specs.Headers.{all_headers, headers_of, Name};
ghost use Rattle.class_tree.specs.Order.{header_at, place_of};
ghost use Rattle.member_link.specs.Machine.Beginnings.{come_first, first_unbegun, has_defaults, is_default};
ghost use Rattle.member_link.specs.Machine.Programs.{Program};
ghost use Rattle.member_link.specs.Machine.Worlds.{is_begun};
ghost use Rattle.member_link.specs.TreePrograms.{IsProgram};
ghost use Rattle.machine_run.specs.Inner.ComeFirst.{is_unbegun_at, super_names, unbegun_above, unbegun_default};

use class_model::{ACC_ABSTRACT, ACC_INTERFACE, ACC_STATIC, Header, Member, Text, has};
use class_tree::{Place, Tree, a_tree_is_a_hierarchy};
use machine_step::Memory;
use member_link::folder_number;

/// The first class of the folder that is not begun among those that come before the class of a header. It does not allocate.
pub(crate) fn first_unbegun(tree: &Tree, memory: &Memory, header: &Header) -> Option<usize>
    ensures first { (P : Program) → IsProgram tree.now P
        → result ≡ first_unbegun P memory.now (come_first P header.now) }
    ensures unbegun { IfSome result (λ class. is_begun memory.now class ≡ false) }
{
    if has(header.flags, ACC_INTERFACE) {
        return None;
    }
    match unbegun_super(tree, memory, header) {
        Some(class) => Some(class),
        None => first_above(
            tree,
            memory,
            header.interfaces.as_slice(),
            class_count(tree),
        ),
    }
}

// How many classes there are.
fn class_count(tree: &Tree) -> u128
    ensures { result ≡ length (all_headers (headers_of tree.now)) }
{
    tree.folder().len() as u128 + tree.library().len() as u128
}

// The superclass, if it is one of the folder that is not begun.
fn unbegun_super(tree: &Tree, memory: &Memory, header: &Header) -> Option<usize>
    ensures first { (P : Program) → IsProgram tree.now P
        → result ≡ first_unbegun P memory.now (super_names header.now.super_name) }
    ensures unbegun { IfSome result (λ class. is_begun memory.now class ≡ false) }
{
    match &header.super_name {
        Some(name) => unbegun_named(tree, memory, name),
        None => None,
    }
}

// The class of a name, if it is one of the folder that is not begun.
fn unbegun_named(tree: &Tree, memory: &Memory, name: &Text) -> Option<usize>
    ensures first { (P : Program) → IsProgram tree.now P
        → result ≡ first_unbegun P memory.now (name.now ∷ []) }
    ensures unbegun { IfSome result (λ class. is_begun memory.now class ≡ false) }
{
    match folder_number(tree, name) {
        Some(class) => {
            if memory.begun.contains(class) {
                None
            } else {
                Some(class)
            }
        }
        None => None,
    }
}

// ---- interfaces with default methods

// The first interface of the folder that is not begun and has a default method, among these in order, each behind its own
// superinterfaces, which are followed so far up.
#[cycle(interfaces)]
fn first_above(tree: &Tree, memory: &Memory, names: &[Text], left: u128) -> Option<usize>
    ensures first { (P : Program) → IsProgram tree.now P
        → result ≡ unbegun_above P memory.now left names.now }
    ensures unbegun { IfSome result (λ class. is_begun memory.now class ≡ false) }
{
    if left == 0 {
        return None;
    }
    let mut rest = names;
    while let Some((name, more)) = rest.split_first() {
        if let Some(class) = first_from(tree, memory, name, left - 1) {
            return Some(class);
        }
        rest = more;
    }
    None
}

// The same of one of them. Where none above it is to be begun these are not looked at one by one.
#[cycle(interfaces)]
fn first_from(tree: &Tree, memory: &Memory, name: &Text, left: u128) -> Option<usize>
    ensures first { (P : Program) → IsProgram tree.now P
        → result ≡ unbegun_above P memory.now (suc left) (name.now ∷ []) }
    ensures unbegun { IfSome result (λ class. is_begun memory.now class ≡ false) }
{
    a_tree_is_a_hierarchy(tree);
    let place = tree.place(name)?;
    let header = tree.header(place)?;
    if !has_unbegun_above(tree, memory, place) {
        return unbegun_at(tree, memory, place);
    }
    match first_above(tree, memory, header.interfaces.as_slice(), left) {
        Some(class) => Some(class),
        None => unbegun_at(tree, memory, place),
    }
}

// Whether a superinterface of the class at a place is one of the folder that is not begun and has a default method.
fn has_unbegun_above(tree: &Tree, memory: &Memory, place: Place) -> bool
    requires { IsSome (header_at (headers_of tree.now) place) }
    ensures { (P : Program) (header : HeaderValue) (left : ℕ) → IsProgram tree.now P
        → header_at (headers_of tree.now) place ≡ Some header
        → result ≡ false
        → unbegun_above P memory.now left header.interfaces ≡ None }
{
    a_tree_is_a_hierarchy(tree);
    is_one_unbegun(tree, memory, tree.superinterfaces(place))
}

// Whether one of these is.
fn is_one_unbegun(tree: &Tree, memory: &Memory, places: &[Place]) -> bool
    ensures { result ≡ list_any (is_unbegun_at (headers_of tree.now) memory.now) places.now }
{
    places
        .iter()
        .any(|place| is_unbegun_at(tree, memory, *place))
}

// The class at a place by its number, if it is one of the folder that is not begun and has a default method.
fn unbegun_at(tree: &Tree, memory: &Memory, place: Place) -> Option<usize>
    ensures first { (P : Program) (name : Name) → IsProgram tree.now P
        → place_of (headers_of tree.now) name ≡ Some place
        → result ≡ unbegun_default P memory.now (name ∷ []) }
    ensures unbegun { IfSome result (λ class. is_begun memory.now class ≡ false) }
{
    a_tree_is_a_hierarchy(tree);
    match place {
        Place::Folder(class) => {
            if is_unbegun_at(tree, memory, place) {
                Some(class)
            } else {
                None
            }
        }
        Place::Library(_) => None,
    }
}

// Whether it is.
fn is_unbegun_at(tree: &Tree, memory: &Memory, place: Place) -> bool
    ensures { result ≡ is_unbegun_at (headers_of tree.now) memory.now place }
{
    match place {
        Place::Folder(class) => {
            !memory.begun.contains(class) && has_defaults(tree.header(Place::Folder(class)))
        }
        Place::Library(_) => false,
    }
}

// Whether a class has a default method.
fn has_defaults(header: Option<&Header>) -> bool
    ensures { result ≡ has_defaults (option_copied header.entry) }
{
    match header {
        Some(header) => is_one_default(header.methods.as_slice()),
        None => false,
    }
}

// Whether one of these methods is a default method.
fn is_one_default(methods: &[Member]) -> bool
    ensures { result ≡ list_any is_default methods.now }
{
    methods.iter().any(|method| is_default(method))
}

// Whether a method is neither abstract nor static.
fn is_default(method: &Member) -> bool
    ensures { result ≡ is_default method.now }
{
    !has(method.flags, ACC_ABSTRACT) && !has(method.flags, ACC_STATIC)
}
