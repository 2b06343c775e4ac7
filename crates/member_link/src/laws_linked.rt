//! Laws of linked folders: functions that do nothing, whose contracts say what always holds.
ghost use Rattle.std.specs.Prelude.{◌↔◌, ℕ, Option};
ghost use Rattle.class_model.specs.Checks.{AllHold};
ghost use Rattle.class_model.specs.declared.pool.Const.{Const};
ghost use Rattle.class_tree.specs.Headers.{Name, Classes};
ghost use Rattle.member_link.specs.Forms.{IsStaticForm, IsInstanceForm, FitsCall};
ghost use Rattle.member_link.specs.Linked.{IsLinked};
ghost use Rattle.member_link.specs.LinkedPlaces.{IsLinkedByPlace, ClassPasses, FieldPasses, MethodPasses};
ghost use Rattle.member_link.specs.References.{Reference};
ghost use Rattle.member_link.specs.Uses.{UseScope, HasAnyForm, named_class_checks, field_use_checks, method_use_checks};

/// A folder is linked exactly where each class declares what passes, and each instruction, each entry of the exception
/// table and each stated frame of each method with code names what passes, by place.
pub fn a_linked_folder_passes_by_place()
    ensures { (classes : Classes) → IsLinked classes ↔ IsLinkedByPlace classes }
{}

/// A class that is named passes exactly where it is there and accessible.
pub fn a_named_class_passes()
    ensures { (s : UseScope) (name : Name)
        → AllHold (named_class_checks s name) ↔ ClassPasses s name }
{}

/// A reference to a field passes exactly where its classes are there, the named class is accessible, and the one field that
/// it finds is of the form and accessible.
pub fn a_field_reference_passes()
    ensures of_static { (s : UseScope) (reference : Reference)
        → AllHold (field_use_checks s IsStaticForm reference)
        ↔ FieldPasses s IsStaticForm reference }
    ensures of_instance { (s : UseScope) (reference : Reference)
        → AllHold (field_use_checks s IsInstanceForm reference)
        ↔ FieldPasses s IsInstanceForm reference }
    ensures of_handle { (s : UseScope) (reference : Reference)
        → AllHold (field_use_checks s HasAnyForm reference) ↔ FieldPasses s HasAnyForm reference }
{}

/// A reference to a method passes exactly where its classes are there, the named class is accessible, and the one method
/// that it finds is of the form and accessible.
pub fn a_method_reference_passes()
    ensures of_call { (s : UseScope) (opcode : ℕ) (constant : Option Const)
        (reference : Reference)
        → AllHold (method_use_checks s (FitsCall s.headers opcode constant) reference)
        ↔ MethodPasses s (FitsCall s.headers opcode constant) reference }
    ensures of_handle { (s : UseScope) (reference : Reference)
        → AllHold (method_use_checks s (λ reference. HasAnyForm) reference)
        ↔ MethodPasses s (λ reference. HasAnyForm) reference }
{}
