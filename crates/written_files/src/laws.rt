//! Laws of written classes.
ghost use Rattle.std.specs.Prelude.{◌≡◌, ◌++◌, ℕ, List, Some};
ghost use Rattle.std.specs.List.{AllByRecursion};
ghost use Rattle.class_model.specs.Checks.{AllHold};
ghost use Rattle.class_model.specs.ClassOf.{class_file_checks};
ghost use Rattle.class_model.specs.Header.{header_of, method_member};
ghost use Rattle.class_model.specs.Members.{Signature};
ghost use Rattle.class_model.specs.Methods.{home_of, method_checks};
ghost use Rattle.class_model.specs.Pool.{Constants};
ghost use Rattle.class_model.specs.PoolChecks.{IsFieldDescriptor, entries_checks};
ghost use Rattle.class_model.specs.declared.class_file.ClassFile.{ClassFile};
ghost use Rattle.class_model.specs.declared.class_file.Method.{Method};
ghost use Rattle.class_model.specs.declared.frame.Frame.{Frame};
ghost use Rattle.class_tree.specs.Headers.{Classes, Headers, IsThere, Name, headers_of};
ghost use Rattle.class_tree.specs.Layouts.{instance_fields};
ghost use Rattle.making_code.specs.Constants.{Need, grow, needs_at};
ghost use Rattle.making_code.specs.ConstructorCode.{IsConstructorMethod};
ghost use Rattle.making_code.specs.FieldConstructor.{constructor_method_needs};
ghost use Rattle.making_code.specs.Items.{WItem};
ghost use Rattle.member_link.specs.Machine.Classes.{run_method_of};
ghost use Rattle.member_link.specs.Machine.Programs.{Links};
ghost use Rattle.member_link.specs.References.{DescriptorNames, FieldTypeNames};
ghost use Rattle.member_link.specs.Scope.{Scope};
ghost use Rattle.plan_flow.specs.PlanScope.{PlanScope};
ghost use Rattle.plan_flow.specs.Written.WrittenConstants.{code_needs};
ghost use Rattle.plan_flow.specs.Written.WrittenPrograms.{constructor_method};
ghost use Rattle.type_rules.specs.Grown.{AreGrownHeaders};
ghost use Rattle.type_rules.specs.Typed.{Typed};
ghost use Rattle.written_files.specs.CheckedConstructors.{IsNewMethod};
ghost use Rattle.written_files.specs.FieldConstructors.{IsConstructorIn, IsDescribed, constructor_member};
ghost use Rattle.written_files.specs.GrownPools.{AddsChecked, AreSound};
ghost use Rattle.written_files.specs.LinkedConstructors.{HasLinkedMembers, IsLinkedMethod};
ghost use Rattle.written_files.specs.SoundCode.{IsSoundItem};
ghost use Rattle.written_files.specs.SoundConstructors.{HasSoundTexts};

use code_bytes::the_chosen_spelling_is_of_the_table;
use member_link::{a_look_up_finds_one_field, a_look_up_finds_one_method};
use type_rules::{a_grown_class_has_a_grown_header, a_grown_class_keeps_its_instructions};

/// Frames type the field constructor of a class where it stands in the written class (JVM Specification SE 8, 4.10.1.6), access to protected
/// members with it (4.10.1.8): it calls the constructor of the superclass on its uninitialised `this`, and stores into fields of its own class.
pub fn a_field_constructor_is_typed()
    ensures { (headers : Headers) (constructor : Name → List ℕ) (file : ClassFile) (s : Scope)
        → IsConstructorIn headers constructor file s
        → (frames : List Frame) × Typed s frames }
{
    the_chosen_spelling_is_of_the_table();
    a_grown_class_has_a_grown_header();
    class_model::constants_compare_by_value();
}

/// Every reference of that constructor passes (JVM Specification SE 8, 5.4.3 and 5.4.4), where the constructor that it calls may be called.
pub fn a_field_constructor_is_linked()
    ensures { (headers : Headers) (constructor : Name → List ℕ) (file : ClassFile) (s : Scope)
        (is : IsConstructorIn headers constructor file s)
        → HasLinkedMembers headers constructor file is.above s
        → IsLinkedMethod s }
{
    the_chosen_spelling_is_of_the_table();
    a_grown_class_has_a_grown_header();
    a_look_up_finds_one_field();
    a_look_up_finds_one_method();
    class_model::constants_compare_by_value();
}

/// To the machine it is the code of the definition, whatever the headers of the written folder.
pub fn a_field_constructor_runs_its_instructions()
    ensures { (classes : Classes) (links : Links) (constructor : Name → List ℕ) (file : ClassFile)
        (s : Scope)
        → IsConstructorIn (headers_of classes) constructor file s
        → AreGrownHeaders (headers_of classes) s.headers
        → run_method_of links s.headers s.class s.method
        ≡ constructor_method classes links constructor file }
{
    the_chosen_spelling_is_of_the_table();
    a_grown_class_has_a_grown_header();
    a_grown_class_keeps_its_instructions();
    class_model::constants_compare_by_value();
}

/// It is a method of the class by its name, its descriptor and its flags, wherever the pool has its constants.
pub fn a_field_constructor_is_a_member()
    ensures { (headers : Headers) (constructor : Name → List ℕ) (class : Name)
        (before pool more : Constants) (method : Method)
        → grow 65535 before (constructor_method_needs headers constructor class) ≡ Some pool
        → IsConstructorMethod headers constructor class pool method
        → method_member (pool ++ more) method ≡ constructor_member constructor class }
{
    class_model::constants_compare_by_value();
}

/// The classes that its descriptor names are there, where those of the fields' types are.
pub fn a_field_constructor_names_classes_that_are_there()
    ensures { (headers among : Headers) (constructor : Name → List ℕ) (class : Name)
        → IsDescribed headers constructor class
        → AllByRecursion (λ field. IsFieldDescriptor field.desc) (instance_fields headers class)
        → AllByRecursion (λ field. FieldTypeNames (IsThere among) field.desc)
        (instance_fields headers class)
        → DescriptorNames (IsThere among) (constructor class) }
{
    class_model::parameters_are_spelled();
}

/// A class file whose pool grows by constants that are well formed passes all checks of a class file (JVM Specification SE 8, 4.4).
pub fn a_grown_pool_passes()
    ensures added { (major limit : ℕ) (pool grown : Constants) (needs : List Need)
        → AreSound needs
        → grow limit pool needs ≡ Some grown
        → AddsChecked major pool grown }
    ensures class { (limit : ℕ) (class : ClassFile) (grown : Constants) (needs : List Need)
        → AllHold (class_file_checks class)
        → AreSound needs
        → grow limit class.pool needs ≡ Some grown
        → AllHold (class_file_checks (record class { pool = grown })) }
{
    class_model::constants_compare_by_value();
    class_model::a_class_file_holds_over_a_grown_pool();
}

/// The field constructor passes all that a method of a class file is asked (JVM Specification SE 8, 4.6, 4.7.3 and 4.9.1).
pub fn a_field_constructor_passes_its_checks()
    ensures { (headers : Headers) (constructor : Name → List ℕ) (file : ClassFile) (s : Scope)
        (before : List Signature) (at : ℕ)
        → IsConstructorIn headers constructor file s
        → IsNewMethod (constructor (header_of file).name) s before
        → AllHold (method_checks (home_of s.class) before at s.method) }
{
    the_chosen_spelling_is_of_the_table();
    a_grown_class_has_a_grown_header();
    class_model::constants_compare_by_value();
    class_model::parameters_are_spelled();
}

/// What is needed of a constant of a pool that was checked is well formed.
pub fn what_a_checked_pool_needs_is_sound()
    ensures { (major : ℕ) (pool : Constants) (index : ℕ)
        → AllHold (entries_checks major pool 10 pool)
        → AreSound (needs_at pool index) }
{}

/// What is needed for the field constructor of a class is well formed, by the texts of its class file.
pub fn what_a_field_constructor_needs_is_sound()
    ensures { (headers : Headers) (constructor : Name → List ℕ) (file : ClassFile)
        → HasSoundTexts headers constructor file
        → AreSound (constructor_method_needs headers constructor (header_of file).name) }
{}

/// What written code needs is well formed, where the pools that its instructions come from were checked.
pub fn what_written_code_needs_is_sound()
    ensures { (s : PlanScope) (constructor : Name → List ℕ) (items : List WItem)
        → AllByRecursion (IsSoundItem s constructor) items
        → AreSound (code_needs s constructor items) }
{}
