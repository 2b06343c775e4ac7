//! What objects are instances of, and what they conform to (JVM Specification SE 8, 4.10.1.2 and 6.5). Names of classes and
//! descriptors of arrays are given as bytes.
ghost use Rattle.std.specs.Prelude.{◌≡◌, drop};
ghost use Rattle.std.specs.List.{list_any};
ghost use Rattle.std.specs.Option.{option_copied};
ghost use Rattle.member_link.specs.Machine.Programs.{Program, name_of_class};
ghost use Rattle.member_link.specs.Machine.Shapes.{both_conform, class_conforms, class_of_shape, component_named, components_conform, is_instance, shape_conforms};
ghost use Rattle.machine_step.specs.Inner.QuestionWords.{behind_bracket};
ghost use Rattle.member_link.specs.TreePrograms.{IsProgram};

use class_model::Text;
use class_tree::{OBJECT, Tree};
use machine_heap::component_text;
use machine_values::Shape;
use member_link::{class_name, is_interface_named, is_type_below, without_last};

/// Whether an object of a shape is an instance of a class or array type. It does not allocate.
pub fn is_instance(tree: &Tree, shape: &Shape, name: &[u8]) -> bool
    ensures { (P : Program) → IsProgram tree.now P
        → result ≡ is_instance P shape.now name.now }
{
    match shape {
        Shape::Folder(class) => is_type_below(tree, name_or_empty(tree, *class), name),
        Shape::Array { desc, .. } => is_type_below(tree, desc.bytes(), name),
        Shape::External { class, also } => {
            is_type_below(tree, class.bytes(), name) || is_one_below(tree, also.as_slice(), name)
        }
    }
}

/// Whether an object of a shape conforms to a class or array type. It does not allocate.
pub(crate) fn shape_conforms(tree: &Tree, shape: &Shape, name: &[u8]) -> bool
    ensures { (P : Program) → IsProgram tree.now P
        → result ≡ shape_conforms P shape.now name.now }
{
    if is_interface_named(tree, name) {
        return true;
    }
    match shape {
        Shape::Array { desc, .. } => {
            is_type_below(tree, desc.bytes(), name)
                || components_conform(tree, component_text(desc.bytes()), component_text(name))
        }
        Shape::Folder(_) | Shape::External { .. } => is_instance(tree, shape, name),
    }
}

/// Whether a class or array conforms to another: to java/lang/Object each does, also a class that is
/// nowhere. It does not allocate.
pub(crate) fn class_conforms(tree: &Tree, low: &[u8], high: &[u8]) -> bool
    ensures { (P : Program) → IsProgram tree.now P
        → result ≡ class_conforms P low.now high.now }
{
    is_interface_named(tree, high) || high == OBJECT || is_type_below(tree, low, high)
}

// Whether the one of these classes is below a type.
fn is_one_below(tree: &Tree, classes: &[Text], name: &[u8]) -> bool
    ensures { (P : Program) → IsProgram tree.now P
        → result ≡ list_any (λ class. P.links.below class name.now) classes.now }
{
    let mut rest = classes;
    while let Some((class, more)) = rest.split_first() {
        if is_type_below(tree, class.bytes(), name) {
            return true;
        }
        rest = more;
    }
    false
}

// The name of the class of the folder of a number, empty where there is none.
fn name_or_empty(tree: &Tree, class: usize) -> &[u8]
    ensures { (P : Program) → IsProgram tree.now P → result.now ≡ name_of_class P class }
{
    match class_name(tree, class) {
        Some(name) => name.bytes(),
        None => b"",
    }
}

// ---- components of arrays

// Whether descriptors of what two arrays hold conform.
fn components_conform(tree: &Tree, low: &[u8], high: &[u8]) -> bool
    ensures { (P : Program) → IsProgram tree.now P
        → result ≡ components_conform P low.now high.now }
{
    let (mut low, mut high) = (low, high);
    loop {
        if both_conform(tree, component_named(low), component_named(high)) {
            return true;
        }
        let Some(low_rest) = behind_bracket(low) else {
            return false;
        };
        let Some(high_rest) = behind_bracket(high) else {
            return false;
        };
        low = low_rest;
        high = high_rest;
    }
}

// Whether both are there and conform.
fn both_conform(tree: &Tree, low: Option<&[u8]>, high: Option<&[u8]>) -> bool
    ensures { (P : Program) → IsProgram tree.now P
        → result ≡ both_conform P (option_copied low.entry) (option_copied high.entry) }
{
    match low {
        Some(low) => match high {
            Some(high) => class_conforms(tree, low, high),
            None => false,
        },
        None => false,
    }
}

/// The component of an array of references, by what its elements are. It does not allocate.
pub(crate) fn component_named(bytes: &[u8]) -> Option<&[u8]>
    ensures { option_copied result ≡ component_named bytes.now }
{
    let Some((first, rest)) = bytes.split_first() else {
        return None;
    };
    if *first == b'[' {
        Some(bytes)
    } else if *first == b'L' {
        Some(without_last(rest))
    } else {
        None
    }
}

// What stands behind a bracket at the front.
fn behind_bracket(bytes: &[u8]) -> Option<&[u8]>
    ensures { option_copied result ≡ behind_bracket bytes.now }
{
    let Some((first, rest)) = bytes.split_first() else {
        return None;
    };
    if *first == b'[' { Some(rest) } else { None }
}
