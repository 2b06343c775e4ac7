//! Laws of classes that are alike: functions that do nothing, whose contracts say what always holds.
ghost use Rattle.std.specs.Prelude.{◌≡◌, ◌≢◌, ◌↔◌, ℕ, List, Option};
ghost use Rattle.class_model.specs.Names.{init};
ghost use Rattle.class_tree.specs.Alike.{AreAlike};
ghost use Rattle.class_tree.specs.Headers.{Name, Headers};
ghost use Rattle.member_link.specs.DeclaredMembers.{Declared};
ghost use Rattle.member_link.specs.FoundNames.{FindsFieldNamed};
ghost use Rattle.member_link.specs.Methods.{FindsMethod};
ghost use Rattle.member_link.specs.Overriding.{Overrides};
ghost use Rattle.member_link.specs.References.{Reference};
ghost use Rattle.member_link.specs.Selection.{Choice, Selects};
ghost use Rattle.member_link.specs.SpecialStart.{StartsSpecial};
ghost use Rattle.member_link.specs.declared.selection.CallForm.{CallForm};
ghost use Rattle.member_link.specs.declared.selection.CallForm.TheVariants.{Special};

/// In classes that are alike each look-up finds the same field, but for its flags, and the same method, but for instance
/// initialisers; the same methods override; selections choose the same; and those of special calls start at the same class.
pub fn alike_classes_have_one_look_up()
    ensures fields { (one other : Headers) (class : Name) (name desc : List ℕ)
        (answer : Option Reference)
        → AreAlike one other
        → FindsFieldNamed one class name desc answer
        ↔ FindsFieldNamed other class name desc answer }
    ensures methods { (one other : Headers) (class : Name) (name desc : List ℕ)
        (found : Option Declared)
        → AreAlike one other
        → name ≢ init
        → FindsMethod one class name desc found ↔ FindsMethod other class name desc found }
    ensures overriding { (one other : Headers) (low high : Declared)
        → AreAlike one other
        → Overrides one low high ↔ Overrides other low high }
    ensures selections { (one other : Headers) (receiver : Name) (resolved : Declared)
        (form : CallForm) (choice : Choice)
        → AreAlike one other
        → resolved.member.name ≢ init
        → Selects one receiver resolved form choice ↔ Selects other receiver resolved form choice }
    ensures special_selections { (one other : Headers) (receiver : Name) (resolved : Declared)
        (choice : Choice)
        → AreAlike one other
        → Selects one receiver resolved Special choice
        ↔ Selects other receiver resolved Special choice }
    ensures starts { (one other : Headers) (current named start : Name)
        → AreAlike one other
        → StartsSpecial one current named start ↔ StartsSpecial other current named start }
{
    class_tree::alike_classes_have_one_hierarchy();
}
