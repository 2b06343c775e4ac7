//! Fields that instructions name (JVM Specification SE 8, 5.4.3.2), and their numbers in objects.
ghost use Rattle.std.specs.Prelude.{◌≡◌, IfOk};
ghost use Rattle.class_tree.specs.Headers.{headers_of};
ghost use Rattle.flow_code.specs.FlatCode.{FlatCode};
ghost use Rattle.member_link.specs.DeclaredMembers.{Declared};
ghost use Rattle.member_link.specs.Found.{IsFieldFound};
ghost use Rattle.member_link.specs.Machine.Layouts.{capped};
ghost use Rattle.member_link.specs.Machine.Links.{AreLinksOf, reference_to};
ghost use Rattle.member_link.specs.Machine.Programs.{Links};
ghost use Rattle.plan_flow.specs.Inner.FieldWords.{is_in_folder};
ghost use Rattle.plan_flow.specs.PlanScope.{field_number, field_of, is_of_library, scope_of};

use crate::constants::member_of;
use class_model::NoMemory;
use class_tree::{Place, Tree, a_tree_is_a_hierarchy};
use flow_code::Flat;
use member_link::{Found, Reference, a_look_up_finds_one_field, find_field, slot_number};

/// The field that a constant of a class names, by the class's number, as the class that declares it does. None, where the
/// constant names none, or look-up finds none (JVM Specification SE 8, 5.4.3.2).
///
/// # Errors
/// `NoMemory`, where memory runs out.
pub fn field_of(tree: &Tree, class: usize, index: u16) -> Result<Option<Reference>, NoMemory>
    ensures { IfOk result (λ field. (links : Links) (flat : FlatCode)
        → AreLinksOf (headers_of tree.now) links
        → field ≡ field_of (scope_of tree.now links flat) class index) }
{
    match member_of(tree, class, index)? {
        Some(named) => {
            let field = field_found(tree, &named)?;
            Ok(field)
        }
        None => Ok(None),
    }
}

// The field that a reference finds.
fn field_found(tree: &Tree, named: &Reference) -> Result<Option<Reference>, NoMemory>
    ensures { IfOk result (λ field. (links : Links)
        → AreLinksOf (headers_of tree.now) links
        → field ≡ links.field named.now) }
{
    a_tree_is_a_hierarchy(tree);
    a_look_up_finds_one_field();
    match find_field(tree, &named.class, &named.name, &named.desc) {
        Some(found) => Ok(Some(declared_at(tree, found)?)),
        None => Ok(None),
    }
}

// A field that is found, by the class that declares it.
fn declared_at(tree: &Tree, found: Found) -> Result<Reference, NoMemory>
    requires { (field : Declared) × IsFieldFound (headers_of tree.now) found field }
    ensures { IfOk result (λ reference. (field : Declared)
        → IsFieldFound (headers_of tree.now) found field
        → reference ≡ reference_to field) }
{
    let Some(header) = tree.header(found.place) else {
        unreachable!()
    };
    let Some(member) = header.fields.get(found.member) else {
        unreachable!()
    };
    Ok(Reference {
        class: header.name.copy()?,
        name: member.name.copy()?,
        desc: member.desc.copy()?,
    })
}

/// The number of a field among those of a site's object, or `usize::MAX` where it is as great or greater. It does not
/// allocate, and goes up the superclasses of the site's class.
pub fn field_number(tree: &Tree, flat: &Flat, site: u16, field: &Reference) -> Option<usize>
    ensures { (links : Links) → result
        ≡ capped usize.MAX (field_number (scope_of tree.now links flat.now) site field.now) }
{
    match flat.sites().get(usize::from(site)) {
        Some(one) => slot_number(tree, tree.place(&one.class), field),
        None => None,
    }
}

/// Whether a class of the library declares a field.
pub(crate) fn is_of_library(tree: &Tree, field: &Reference) -> bool
    ensures { (links : Links) (flat : FlatCode)
        → result ≡ is_of_library (scope_of tree.now links flat) field.now }
{
    !is_in_folder(tree.place(&field.class))
}

// Whether a class is one of the folder.
fn is_in_folder(place: Option<Place>) -> bool
    ensures { result ≡ is_in_folder place }
{
    match place {
        Some(Place::Folder(_)) => true,
        Some(Place::Library(_)) => false,
        None => false,
    }
}
