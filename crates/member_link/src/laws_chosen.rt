//! Laws of look-up and selection: functions that do nothing, whose contracts say what always holds.
ghost use Rattle.std.specs.Prelude.{◌≡◌, ℕ, List, Some, IsFalse};
ghost use Rattle.class_model.specs.Members.{has, STATIC};
ghost use Rattle.class_tree.specs.Headers.{Name, Headers};
ghost use Rattle.class_tree.specs.Hierarchy.{IsHierarchy};
ghost use Rattle.class_tree.specs.Subtype.{IsSubtype};
ghost use Rattle.member_link.specs.Choices.{IsRunnable};
ghost use Rattle.member_link.specs.DeclaredMembers.{Declared, IsMethod};
ghost use Rattle.member_link.specs.Fields.{FindsField};
ghost use Rattle.member_link.specs.FoundAbove.{IsFieldAbove, IsMethodAbove};
ghost use Rattle.member_link.specs.Methods.{FindsMethod};
ghost use Rattle.member_link.specs.Selection.{Selects, chosen_method};
ghost use Rattle.member_link.specs.SpecialStart.{StartsSpecial};
ghost use Rattle.member_link.specs.declared.selection.CallForm.{CallForm};

/// What a selection chooses, where the method that was found is not static and is declared at or above the receiver's class:
/// a method that is neither abstract nor static, of a class or interface at or above the receiver's class, with the name
/// and descriptor of the one that was found.
pub fn a_choice_can_be_run()
    ensures { (headers : Headers) (receiver : Name) (resolved method : Declared)
        (form : CallForm)
        → IsHierarchy headers
        → IsMethod headers resolved
        → IsFalse (has resolved.member.flags STATIC)
        → IsSubtype headers receiver resolved.class
        → Selects headers receiver resolved form (chosen_method method)
        → IsRunnable headers receiver resolved method }
{}

/// The selection of a special call starts at one class.
pub fn a_special_call_starts_once()
    ensures { (headers : Headers) (current named one other : Name)
        → StartsSpecial headers current named one
        → StartsSpecial headers current named other
        → one ≡ other }
{}

/// A field that is found in a class of a hierarchy is declared there or above it, with the name and descriptor.
pub fn a_found_field_is_above()
    ensures { (headers : Headers) (class : Name) (name desc : List ℕ) (field : Declared)
        → IsHierarchy headers
        → FindsField headers class name desc (Some field)
        → IsFieldAbove headers class name desc field }
{}

/// A method that is found in a class or array of a hierarchy is declared there or above it, with the name, and with the
/// descriptor unless it is found under every one.
pub fn a_found_method_is_above()
    ensures { (headers : Headers) (class : Name) (name desc : List ℕ) (method : Declared)
        → IsHierarchy headers
        → FindsMethod headers class name desc (Some method)
        → IsMethodAbove headers class name desc method }
{}
