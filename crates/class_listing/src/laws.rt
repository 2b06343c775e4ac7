//! Laws: functions that do nothing, whose contracts say what always holds.
ghost use Rattle.std.specs.Prelude.{ℕ, List};
ghost use Rattle.class_model.specs.ClassOf.{ClassOf};
ghost use Rattle.class_model.specs.declared.class_file.ClassFile.{ClassFile};
ghost use Rattle.class_listing.specs.Listings.{HasCodes};

use code_bytes::a_class_file_has_read_methods;

/// A class file that was read has a listing: each of its codes has instructions.
pub fn a_class_file_has_codes()
    ensures { (bytes : List ℕ) (class : ClassFile) → ClassOf bytes class → HasCodes class }
{
    a_class_file_has_read_methods();
}
