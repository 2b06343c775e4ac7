//! Laws of hierarchies: functions that do nothing, whose contracts say that each question of linking has an answer.
ghost use Rattle.std.specs.Prelude.{◌↔◌, ℕ, Bool, List, Option, IsTrue};
ghost use Rattle.class_tree.specs.Headers.{Name, Headers, headers_of};
ghost use Rattle.class_tree.specs.Hierarchy.{IsHierarchy};
ghost use Rattle.class_tree.specs.Subtype.{IsSubtype};
ghost use Rattle.member_link.specs.DeclaredMembers.{Declared};
ghost use Rattle.member_link.specs.Fields.{FindsField};
ghost use Rattle.member_link.specs.Machine.Links.{AreLinksOf};
ghost use Rattle.member_link.specs.Machine.Programs.{Links};
ghost use Rattle.member_link.specs.Methods.{FindsMethod};
ghost use Rattle.member_link.specs.References.{Reference};
ghost use Rattle.member_link.specs.Selection.{Choice, Selects};
ghost use Rattle.member_link.specs.SpecialStart.{StartsSpecial};
ghost use Rattle.member_link.specs.declared.selection.CallForm.{CallForm};

use class_tree::{Tree, a_tree_is_a_hierarchy};

/// Every hierarchy has its links: functions that tell of any two types whether the one is a subtype of the other, which
/// field and which method a reference finds, if any, what a selection chooses, and where that of a special call starts.
pub fn a_hierarchy_has_links()
    ensures subtypes { (headers : Headers)
        → IsHierarchy headers
        → (sub : Name → Name → Bool)
        × ((low high : Name) → IsTrue (sub low high) ↔ IsSubtype headers low high) }
    ensures fields { (headers : Headers)
        → IsHierarchy headers
        → (field : Reference → Option Declared)
        × ((reference : Reference)
        → FindsField headers reference.class reference.name reference.desc (field reference)) }
    ensures methods { (headers : Headers)
        → IsHierarchy headers
        → (method : Reference → Option Declared)
        × ((reference : Reference)
        → FindsMethod headers reference.class reference.name reference.desc (method reference)) }
    ensures selections { (headers : Headers)
        → IsHierarchy headers
        → (select : Name → Declared → CallForm → Choice)
        × ((receiver : Name) (resolved : Declared) (form : CallForm)
        → Selects headers receiver resolved form (select receiver resolved form)) }
    ensures starts { (headers : Headers)
        → IsHierarchy headers
        → (start : Name → Name → Name)
        × ((current named : Name) → StartsSpecial headers current named (start current named)) }
{
    class_tree::a_hierarchy_decides_subtypes();
}

/// So has the hierarchy of a tree.
pub fn a_tree_has_links(tree: &Tree)
    ensures { (links : Links) × AreLinksOf (headers_of tree.now) links }
{
    a_tree_is_a_hierarchy(tree);
    a_hierarchy_has_links();
}
