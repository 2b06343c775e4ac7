//! Assignability of types and of frames (JVM Specification SE 8, 4.10.1.2).
ghost use Rattle.std.specs.Prelude.{◌≡◌, ◌≤◌, ◌↔◌, List, length, take, slice_get, IsTrue};
ghost use Rattle.std.specs.List.{list_any};
ghost use Rattle.std.specs.Option.{option_copied};
ghost use Rattle.class_model.specs.Code.{verification_type};
ghost use Rattle.class_tree.specs.Headers.{Name, headers_of, class_named};
ghost use Rattle.class_tree.specs.Subtype.{IsReferenceComponent};
ghost use Rattle.member_link.specs.Assignability.{IsAssignable, IsNameAssignable};
ghost use Rattle.member_link.specs.Forms.{IsInterfaceNamed};
ghost use Rattle.member_link.specs.Rows.FrameAssignability.{AreAssignable, IsFrameAssignable, is_uninit_this};
ghost use Rattle.type_rules.specs.Changes.{AreSameBut};
ghost use Rattle.type_rules.specs.Inner.Changes.{IsUnitAssignable};

use class_model::{ACC_INTERFACE, FieldType, Frame, Header, LocalTypeList, VType, has};
use class_tree::{Tree, a_tree_is_a_hierarchy, innermost, is_above_arrays, is_array, is_below};

/// Whether a value of a type may stand where another is wanted (JVM Specification SE 8, 4.10.1.2). It takes no memory.
pub fn assignable(tree: &Tree, from: &VType, to: &VType) -> bool
    ensures { IsTrue result ↔ IsAssignable (headers_of tree.now) from.now to.now }
{
    match to {
        VType::Top => true,
        VType::Object(name) => is_object_of(tree, from, name.bytes()),
        _ => from == to,
    }
}

/// Whether a value of a type may stand where one of a field type is wanted.
pub(crate) fn is_value_of(tree: &Tree, from: &VType, to: &FieldType) -> bool
    ensures { IsTrue result
        ↔ IsAssignable (headers_of tree.now) from.now (verification_type to.now) }
{
    match to {
        FieldType::Named(name) => is_object_of(tree, from, name.bytes()),
        FieldType::Byte | FieldType::Char | FieldType::Short | FieldType::Bool | FieldType::Int =>
            matches!(from, VType::Int),
        FieldType::Long => matches!(from, VType::Long),
        FieldType::Float => matches!(from, VType::Float),
        FieldType::Double => matches!(from, VType::Double),
    }
}

/// Whether an object is assignable to a class or array.
pub(crate) fn is_object_of(tree: &Tree, from: &VType, to: &[u8]) -> bool
    ensures { IsTrue result ↔ IsAssignable (headers_of tree.now) from.now (VType.Object to.now) }
{
    match from {
        VType::Null => true,
        VType::Object(low) => is_name_assignable(tree, low.bytes(), to),
        _ => false,
    }
}

// Whether an object of a class or array is assignable to another. Classes are named, and arrays are their descriptors.
fn is_name_assignable(tree: &Tree, low: &[u8], high: &[u8]) -> bool
    ensures { IsTrue result ↔ IsNameAssignable (headers_of tree.now) low.now high.now }
{
    a_tree_is_a_hierarchy(tree);
    let (low, high) = innermost(low, high);
    is_innermost_assignable(tree, low, high)
}

// Whether an object of a type is assignable to another where not both have a component.
fn is_innermost_assignable(tree: &Tree, low: &[u8], high: &[u8]) -> bool
    requires { (low_component high_component : Name)
        → IsReferenceComponent low.now low_component
        → ¬ IsReferenceComponent high.now high_component }
    ensures { IsTrue result ↔ IsNameAssignable (headers_of tree.now) low.now high.now }
{
    a_tree_is_a_hierarchy(tree);
    if low == high {
        return true;
    }
    if is_array(low) {
        is_above_arrays(high)
    } else {
        is_interface_named(tree, high) || is_below(tree, low, high)
    }
}

// Whether an interface has this name.
fn is_interface_named(tree: &Tree, name: &[u8]) -> bool
    ensures { IsTrue result ↔ IsInterfaceNamed (headers_of tree.now) name.now }
{
    match class_of(tree, name) {
        Some(class) => has(class.flags, ACC_INTERFACE),
        None => false,
    }
}

// The class of a name.
fn class_of<'a>(tree: &'a Tree, name: &[u8]) -> Option<&'a Header>
    ensures { option_copied result ≡ class_named (headers_of tree.now) name.now }
{
    a_tree_is_a_hierarchy(tree);
    tree.header(tree.find(name)?)
}

/// Whether a frame may stand where another is stated (JVM Specification SE 8, 4.10.1.2). It takes no memory.
pub fn frame_assignable(tree: &Tree, from: &Frame, to: &Frame) -> bool
    ensures { IsTrue result ↔ IsFrameAssignable (headers_of tree.now) from.now to.now }
{
    are_locals_assignable(tree, &from.locals, &to.locals)
        && are_assignable(tree, from.stack.as_slice(), to.stack.as_slice())
        && (!has_uninit_this(&from.locals) || has_uninit_this(&to.locals))
}

/// Whether locals are known to fit a stated frame, where locals do that are the same but for the units from one number up
/// to before another. Only these are looked at. Where the answer is no, `frame_assignable` decides. It takes no memory.
pub fn are_changed_locals_assignable(
    tree: &Tree,
    locals: &LocalTypeList,
    to: &Frame,
    from: usize,
    end: usize,
) -> bool
    ensures { IsTrue result
        → (before : List VType) (stack : List VType)
        → AreSameBut from end before locals.now
        → IsFrameAssignable (headers_of tree.now)
        (record { locals = before; stack = stack }) to.now
        → IsFrameAssignable (headers_of tree.now)
        (record { locals = locals.now; stack = stack }) to.now }
{
    for at in from..end.min(locals.len()) {
        if !is_unit_assignable(tree, locals, &to.locals, at) {
            return false;
        }
    }
    true
}

// Whether a unit is assignable to the one in its place, and where it is an uninitialised this one is among the others too.
fn is_unit_assignable(tree: &Tree, from: &LocalTypeList, to: &LocalTypeList, at: usize) -> bool
    ensures { IsTrue result → IsUnitAssignable (headers_of tree.now) from.now to.now at }
{
    let (Some(low), Some(high)) = (from.get(at), to.get(at)) else {
        return false;
    };
    assignable(tree, low, high) && (!is_uninit_this(from, at) || has_uninit_this(to))
}

// Whether stacks are as deep as one another, and each entry is assignable to the one in its place.
fn are_assignable(tree: &Tree, from: &[VType], to: &[VType]) -> bool
    ensures { IsTrue result ↔ AreAssignable (headers_of tree.now) from.now to.now }
{
    from.len() == to.len()
        && from
            .iter()
            .zip(to)
            .all(|(from, to)| assignable(tree, from, to))
}

// The same of locals. Those from where on all of the second are `Top` are not walked.
fn are_locals_assignable(tree: &Tree, from: &LocalTypeList, to: &LocalTypeList) -> bool
    ensures { IsTrue result ↔ AreAssignable (headers_of tree.now) from.now to.now }
{
    from.len() == to.len() && are_first_assignable(tree, from, to, to.listed())
}

// The same of as many locals.
fn are_first_assignable(tree: &Tree, from: &LocalTypeList, to: &LocalTypeList, count: usize) -> bool
    requires { count ≤ length to.now }
    ensures { IsTrue result
        ↔ AreAssignable (headers_of tree.now) (take count from.now) (take count to.now) }
{
    for at in 0..count {
        let (Some(low), Some(high)) = (from.get(at), to.get(at)) else {
            return false;
        };
        if !assignable(tree, low, high) {
            return false;
        }
    }
    true
}

// Whether an uninitialised this is among the locals. Those that are `Top` to the end are not walked.
pub(crate) fn has_uninit_this(locals: &LocalTypeList) -> bool
    ensures { IsTrue result ↔ IsTrue (list_any is_uninit_this locals.now) }
{
    for at in 0..locals.listed() {
        if is_uninit_this(locals, at) {
            return true;
        }
    }
    false
}

// Whether a local is an uninitialised this.
fn is_uninit_this(locals: &LocalTypeList, at: usize) -> bool
    ensures { IsTrue result ↔ (slice_get locals.now at ≡ Some VType.UninitThis) }
{
    matches!(locals.get(at), Some(VType::UninitThis))
}
