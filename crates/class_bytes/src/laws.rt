//! Laws: functions that do nothing, whose contracts say what always holds.
ghost use Rattle.std.specs.Prelude.{ℕ, List};
ghost use Rattle.class_model.specs.Checks.{AllHold};
ghost use Rattle.class_model.specs.ClassOf.{ClassOf};
ghost use Rattle.class_model.specs.Cutting.{IsBytes};
ghost use Rattle.class_model.specs.Header.{HeaderOf, header_of};
ghost use Rattle.class_model.specs.Spelling.{class_bytes};
ghost use Rattle.class_model.specs.Values.{IsValue};
ghost use Rattle.class_model.specs.declared.class_file.ClassFile.{ClassFile};
ghost use Rattle.class_bytes.specs.Counts.{FitsCounts};
ghost use Rattle.class_bytes.specs.Numbers.{FitsNumbers};
ghost use Rattle.pool_bytes.specs.Reading.{Stands, pool_checks, rest_at};

use class_model::a_cut_pool_is_spelled;
use pool_bytes::a_pool_is_read_back;

/// A class file that is read is read as a library's and its pool by itself: neither is refused.
pub fn a_class_file_has_a_header_and_a_pool()
    ensures header { (bytes : List ℕ) (class : ClassFile)
        → ClassOf bytes class
        → HeaderOf bytes (header_of class) }
    ensures pool { (bytes : List ℕ) (class : ClassFile)
        → ClassOf bytes class
        → AllHold (pool_checks 52 (rest_at bytes 8))
        × ((end : ℕ) × Stands 52 bytes 8 class.pool end) }
{}

/// A class file value that was made is read from its bytes, where its lists and numbers fit their items and its checks hold.
pub fn a_value_is_the_class_file_of_its_bytes()
    ensures { (class : ClassFile)
        → FitsCounts class
        → FitsNumbers class
        → IsValue class
        → ClassOf (class_bytes class) class }
{
    a_pool_is_read_back();
}

/// The lists of a class file fit the items that count them.
pub fn a_class_file_fits_its_counts()
    ensures { (bytes : List ℕ) (class : ClassFile)
        → IsBytes bytes
        → ClassOf bytes class
        → FitsCounts class }
{
    a_cut_pool_is_spelled();
}
