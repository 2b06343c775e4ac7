//! Laws of written classes as class files: functions that do nothing, whose contracts say what always holds.
ghost use Rattle.std.specs.Prelude.{◌≡◌, ◌≤◌, ℕ, List, Some};
ghost use Rattle.std.specs.List.{AllByRecursion};
ghost use Rattle.class_model.specs.Pool.{Constants};
ghost use Rattle.class_model.specs.declared.class_file.ClassFile.{ClassFile};
ghost use Rattle.class_tree.specs.Headers.{Headers, IsClassFile, Name};
ghost use Rattle.making_code.specs.Constants.{Need, grow};
ghost use Rattle.making_code.specs.FieldConstructor.{constructor_method_needs};
ghost use Rattle.making_code.specs.Items.{WItem};
ghost use Rattle.plan_flow.specs.PlanScope.{PlanScope};
ghost use Rattle.plan_flow.specs.Written.WrittenConstants.{code_needs};
ghost use Rattle.written_files.specs.GrownPools.{AreSound};
ghost use Rattle.written_files.specs.ShortNeeds.{AreFitting, HasShortTexts, IsFittingPool, IsShortItem};
ghost use Rattle.written_files.specs.WrittenClasses.{AreAddedConstants, IsFitting, IsWrittenClass};

use crate::laws::a_grown_pool_passes;
use class_bytes::a_value_is_the_class_file_of_its_bytes;

/// A class file is a value that fits its items: its counts and numbers are small, its Code is kept as parts, and its checks hold. Nothing is
/// asked of the contents of its attributes, which may be other numbers than bytes.
pub fn a_class_file_fits_its_items()
    ensures { (file : ClassFile) → IsClassFile file → IsFitting file }
{}

/// What is written of a class file is one (JVM Specification SE 8, 4.1 to 4.9), where the constants that are added pass and fit, codes that are
/// written pass what is asked of a Code, and methods that are added pass what is asked of methods.
pub fn a_written_class_is_a_class_file()
    ensures { (file also : ClassFile)
        → IsClassFile file
        → IsWrittenClass file also
        → IsClassFile also }
{
    a_class_file_fits_its_items();
    class_model::a_class_file_holds_over_a_grown_pool();
    class_model::checks_do_not_depend_on_places();
    a_value_is_the_class_file_of_its_bytes();
}

/// Constants that are well formed and fit their items may be added to a pool (JVM Specification SE 8, 4.4), one part after the other.
pub fn fitting_constants_are_added()
    ensures added { (major limit : ℕ) (pool grown : Constants) (needs : List Need)
        → limit ≤ 65535
        → AreSound needs
        → AreFitting needs
        → IsFittingPool major pool
        → grow limit pool needs ≡ Some grown
        → AreAddedConstants major pool grown }
    ensures none { (major : ℕ) (pool : Constants)
        → IsFittingPool major pool
        → AreAddedConstants major pool pool }
    ensures both { (major : ℕ) (pool middle grown : Constants)
        → IsFittingPool major pool
        → AreAddedConstants major pool middle
        → AreAddedConstants major middle grown
        → AreAddedConstants major pool grown }
    ensures pool { (major : ℕ) (pool grown : Constants)
        → IsFittingPool major pool
        → AreAddedConstants major pool grown
        → IsFittingPool major grown }
{
    a_grown_pool_passes();
}

/// What written code needs fits its items, where the pools that its instructions come from do.
pub fn what_written_code_needs_fits()
    ensures { (s : PlanScope) (constructor : Name → List ℕ) (items : List WItem)
        → AllByRecursion (IsShortItem s constructor) items
        → AreFitting (code_needs s constructor items) }
{}

/// What is needed for the field constructor of a class fits its items, where its names and descriptors are short.
pub fn what_a_field_constructor_needs_fits()
    ensures { (headers : Headers) (constructor : Name → List ℕ) (class : Name)
        → HasShortTexts headers constructor class
        → AreFitting (constructor_method_needs headers constructor class) }
{}
