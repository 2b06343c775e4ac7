//! Laws: functions that do nothing, whose contracts say what always holds.
ghost use Rattle.std.specs.Prelude.{ℕ, List, length, ◌≤◌};
ghost use Rattle.std.specs.List.{AllByRecursion};
ghost use Rattle.class_tree.specs.Headers.{IsClassFile, IsLibraryClass};
ghost use Rattle.work_gen.specs.BaseLibrary.{base_headers};
ghost use Rattle.work_gen.specs.Generated.{choices, generated_folder};

use class_bytes::{a_class_file_has_a_header_and_a_pool, a_value_is_the_class_file_of_its_bytes};

/// Each class of generated work is read from its bytes.
pub fn generated_classes_are_class_files()
    ensures { (number size : ℕ)
        → size ≤ 1000
        → AllByRecursion IsClassFile (generated_folder (choices number size)) }
{
    a_value_is_the_class_file_of_its_bytes();
}

/// Each header of the library of `base_library` is that of a class file.
pub fn base_headers_are_library_classes()
    ensures { AllByRecursion IsLibraryClass base_headers }
{
    a_class_file_has_a_header_and_a_pool();
}
