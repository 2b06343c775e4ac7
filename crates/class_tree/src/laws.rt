//! Laws: functions that do nothing, whose contracts say what always holds.
ghost use Rattle.std.specs.Prelude.{◌≡◌, ◌≢◌, ◌↔◌, ℕ, Bool, List, IsTrue};
ghost use Rattle.class_model.specs.Names.{init};
ghost use Rattle.class_model.specs.declared.class_file.ClassFile.{ClassFile};
ghost use Rattle.class_model.specs.declared.header.Header.{Header};
ghost use Rattle.class_tree.specs.Alike.{IsAlike, AreAlike};
ghost use Rattle.class_tree.specs.Headers.{Name, Classes, Headers, headers_of};
ghost use Rattle.class_tree.specs.Hierarchy.{IsHierarchy};
ghost use Rattle.class_tree.specs.Order.{member_place, place_of};
ghost use Rattle.class_tree.specs.Problems.{Problem};
ghost use Rattle.class_tree.specs.Subtype.{IsSubtype};
ghost use Rattle.class_tree.specs.Trees.{IsArranged, IsInOrder, IsProblem, IsTree};

use crate::tree::Tree;

/// Classes of which all that a tree asks holds are a hierarchy: each stands at its place under its name, those above it are there and are
/// never itself, and its superinterfaces are the interfaces above it.
pub fn classes_of_a_tree_are_a_hierarchy()
    ensures { (classes : Classes) → IsTree classes → IsHierarchy (headers_of classes) }
{}

/// So are the classes of a tree.
pub fn a_tree_is_a_hierarchy(tree: &Tree)
    ensures { IsHierarchy (headers_of tree.now) }
{
    classes_of_a_tree_are_a_hierarchy();
    // all that is asked holds of them
    let _ = tree.folder();
}

/// A folder and its library have at most one first problem, and where no name stands twice they are arranged in one way.
pub fn a_folder_is_told_once()
    ensures problem { (folder : List ClassFile) (library : List Header) (one other : Problem)
        → IsProblem folder library one
        → IsProblem folder library other
        → one ≡ other }
    ensures arranged { (folder : List ClassFile) (library : List Header) (one other : Classes)
        → IsArranged folder library one
        → IsInOrder (headers_of one)
        → IsArranged folder library other
        → one ≡ other }
{}

/// In a hierarchy a test tells of any two types whether the one is a subtype of the other.
pub fn a_hierarchy_decides_subtypes()
    ensures { (headers : Headers)
        → IsHierarchy headers
        → (sub : Name → Name → Bool)
        × ((low high : Name) → IsTrue (sub low high) ↔ IsSubtype headers low high) }
{}

/// Classes that are alike are a hierarchy together, and have the same subtypes.
pub fn alike_classes_have_one_hierarchy()
    ensures hierarchy { (one other : Headers)
        → AreAlike one other
        → IsHierarchy one ↔ IsHierarchy other }
    ensures subtypes { (one other : Headers) (low high : Name)
        → AreAlike one other
        → IsSubtype one low high ↔ IsSubtype other low high }
    ensures places { (one other : Headers) (name : Name)
        → AreAlike one other
        → place_of one name ≡ place_of other name }
{}

/// Classes that are alike number their fields alike, and their methods but for instance initialisers.
pub fn alike_classes_number_members_alike()
    ensures fields { (one other : Header) (name desc : List ℕ)
        → IsAlike one other
        → member_place name desc one.fields ≡ member_place name desc other.fields }
    ensures methods { (one other : Header) (name desc : List ℕ)
        → IsAlike one other
        → name ≢ init
        → member_place name desc one.methods ≡ member_place name desc other.methods }
{}
