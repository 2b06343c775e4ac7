//! Quiet classes.
ghost use Rattle.std.specs.Prelude.{◌≡◌, ◌≢◌, ◌↔◌, IfOk, IsTrue};
ghost use Rattle.std.specs.List.{AllByRecursion};
ghost use Rattle.std.specs.Option.{option_copied};
ghost use Rattle.class_model.specs.declared.header.Header.{Header};
ghost use Rattle.class_tree.specs.Headers.{headers_of, named};
ghost use Rattle.class_tree.specs.Names.{object};
ghost use Rattle.expanded_code.specs.Quiet.{IsQuiet, declares_initialiser};
ghost use Rattle.inline_expand.specs.Inner.QuietWords.{IsQuietItself, IsSilent, IsSilentAt, IsInterfaceThere};

use class_model::{CLINIT, Header, NoMemory, Text};
use class_tree::{OBJECT, Place, Tree, a_tree_is_a_hierarchy, chain};
use std::alloc::Global;

/// Whether a class of the folder is quiet: its chain is of the folder, and neither it nor a class or interface of the folder
/// above it declares a class initialiser.
pub(crate) fn is_quiet(alloc: Global, tree: &Tree, class: &Text) -> Result<bool, NoMemory>
    ensures { IfOk result (λ is. IsTrue is ↔ IsQuiet (headers_of tree.now) class.now) }
{
    a_tree_is_a_hierarchy(tree);
    let _folder = tree.folder();
    let Some(_header) = folder_class(tree, class) else {
        return Ok(false);
    };
    let names = chain(alloc, tree, class)?;
    Ok(are_quiet(tree, names.as_slice()))
}

// Whether each of these classes but java/lang/Object is quiet by itself.
fn are_quiet(tree: &Tree, classes: &[Text]) -> bool
    ensures { IsTrue result
        ↔ AllByRecursion (λ name. name ≢ object → IsQuietItself (headers_of tree.now) name) classes.now }
{
    for class in classes {
        if !is_quiet_but_object(tree, class) {
            return false;
        }
    }
    true
}

// Whether a class is quiet by itself, if it is not java/lang/Object.
fn is_quiet_but_object(tree: &Tree, class: &Text) -> bool
    ensures { IsTrue result
        ↔ (class.now ≢ object → IsQuietItself (headers_of tree.now) class.now) }
{
    class.bytes() == OBJECT || is_quiet_itself(tree, class)
}

/// Whether a class is of the folder and declares no class initialiser, and its interfaces are silent.
pub(crate) fn is_quiet_itself(tree: &Tree, class: &Text) -> bool
    ensures { IsTrue result ↔ IsQuietItself (headers_of tree.now) class.now }
{
    a_tree_is_a_hierarchy(tree);
    let Some(header) = folder_class(tree, class) else {
        return false;
    };
    !declares_initialiser(header) && are_silent(tree, header.interfaces.as_slice())
}

/// The class of a name, if it is of the folder.
pub(crate) fn folder_class<'t>(tree: &'t Tree, class: &Text) -> Option<&'t Header>
    ensures { option_copied result ≡ named class.now (headers_of tree.now).folder }
{
    let Some(place) = tree.place(class) else {
        return None;
    };
    match place {
        Place::Folder(_) => tree.header(place),
        Place::Library(_) => None,
    }
}

// Whether interfaces are silent.
fn are_silent(tree: &Tree, interfaces: &[Text]) -> bool
    requires { AllByRecursion (IsInterfaceThere (headers_of tree.now)) interfaces.now }
    ensures { IsTrue result ↔ AllByRecursion (IsSilent (headers_of tree.now)) interfaces.now }
{
    for interface in interfaces {
        if !is_silent(tree, interface) {
            return false;
        }
    }
    true
}

// Whether neither an interface nor one above it, of the folder, declares a class initialiser.
fn is_silent(tree: &Tree, interface: &Text) -> bool
    requires { IsInterfaceThere (headers_of tree.now) interface.now }
    ensures { IsTrue result ↔ IsSilent (headers_of tree.now) interface.now }
{
    a_tree_is_a_hierarchy(tree);
    let _folder = tree.folder();
    let Some(place) = tree.place(interface) else {
        return true;
    };
    is_silent_at(tree, place) && are_silent_at(tree, tree.superinterfaces(place))
}

// Whether the classes at places declare no class initialiser, where they are of the folder.
fn are_silent_at(tree: &Tree, places: &[Place]) -> bool
    ensures { IsTrue result ↔ AllByRecursion (IsSilentAt (headers_of tree.now)) places.now }
{
    for place in places {
        if !is_silent_at(tree, *place) {
            return false;
        }
    }
    true
}

// Whether the class at a place declares no class initialiser, if it is of the folder.
fn is_silent_at(tree: &Tree, place: Place) -> bool
    ensures { IsTrue result ↔ IsSilentAt (headers_of tree.now) place }
{
    match (place, tree.header(place)) {
        (Place::Folder(_), Some(header)) => !declares_initialiser(header),
        _ => true,
    }
}

// Whether a class declares a class initialiser.
fn declares_initialiser(header: &Header) -> bool
    ensures { result ≡ declares_initialiser header.now }
{
    let methods = header.methods.as_slice();
    methods.iter().any(|method| CLINIT == method.name.bytes())
}
