//! Classes of the folder by their numbers.
ghost use Rattle.std.specs.Prelude.{◌≡◌, ◌↔◌, ℕ, Some};
ghost use Rattle.class_tree.specs.Headers.{headers_of};
ghost use Rattle.class_tree.specs.Order.{place_of};
ghost use Rattle.class_tree.specs.declared.place.Place.TheVariants.{Folder};

use class_model::Text;
use class_tree::{Place, Tree};

/// The number in the folder of the class of a name, if it is of the folder.
pub fn folder_number(tree: &Tree, class: &Text) -> Option<usize>
    ensures { (number : ℕ)
        → (result ≡ Some number) ↔ (place_of (headers_of tree.now) class.now ≡ Some (Folder number)) }
{
    let Some(place) = tree.place(class) else {
        return None;
    };
    match place {
        Place::Folder(number) => Some(number),
        Place::Library(_) => None,
    }
}
