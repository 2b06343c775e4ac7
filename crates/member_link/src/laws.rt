//! Laws: functions that do nothing, whose contracts say what always holds.
ghost use Rattle.std.specs.Prelude.{◌≡◌, ℕ, List, Option, Some, None, IsTrue};
ghost use Rattle.class_model.specs.declared.frame.VType.TheVariants.{Object};
ghost use Rattle.class_model.specs.declared.header.Header.{Header};
ghost use Rattle.class_tree.specs.Headers.{Name, Headers, class_named};
ghost use Rattle.class_tree.specs.Names.{object, is_interface};
ghost use Rattle.class_tree.specs.Subtype.{IsArray, IsAboveArrays};
ghost use Rattle.member_link.specs.Assignability.{IsAssignable, int_array};
ghost use Rattle.member_link.specs.DeclaredMembers.{Declared};
ghost use Rattle.member_link.specs.Fields.{FindsField};
ghost use Rattle.member_link.specs.Methods.{FindsMethod};
ghost use Rattle.member_link.specs.Selection.{Choice, Selects};
ghost use Rattle.member_link.specs.declared.selection.CallForm.{CallForm};

/// The look-up of a field in a class finds one field, or always none.
pub fn a_look_up_finds_one_field()
    ensures { (headers : Headers) (class : Name) (name desc : List ℕ)
        (one other : Option Declared)
        → FindsField headers class name desc one
        → FindsField headers class name desc other
        → one ≡ other }
{}

/// The look-up of a method in a class finds one method, or always none.
pub fn a_look_up_finds_one_method()
    ensures { (headers : Headers) (class : Name) (name desc : List ℕ)
        (one other : Option Declared)
        → FindsMethod headers class name desc one
        → FindsMethod headers class name desc other
        → one ≡ other }
{}

/// A selection chooses one method, or always none for one reason.
pub fn a_selection_chooses_one()
    ensures { (headers : Headers) (receiver : Name) (resolved : Declared) (form : CallForm)
        (one other : Choice)
        → Selects headers receiver resolved form one
        → Selects headers receiver resolved form other
        → one ≡ other }
{}

/// Assignability of verification types is not transitive, where no class has the name of an array: an int[] is assignable
/// to java/lang/Object, and that to each interface, but the int[] to none that is not above all arrays.
pub fn assignability_is_not_transitive()
    ensures { (headers : Headers) (interface : Name) (header : Header)
        → ((name : Name) → IsArray name → class_named headers name ≡ None)
        → class_named headers interface ≡ Some header
        → IsTrue (is_interface header)
        → ¬ IsAboveArrays interface
        → IsAssignable headers (Object int_array) (Object object)
        × IsAssignable headers (Object object) (Object interface)
        × ¬ IsAssignable headers (Object int_array) (Object interface) }
{}
