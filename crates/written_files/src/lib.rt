//! What written classes are as class files: functions that do nothing, whose contracts say what always holds.
#![tactic(auto)]

mod class_laws;
mod laws;

pub use class_laws::{
    a_class_file_fits_its_items, a_written_class_is_a_class_file, fitting_constants_are_added,
    what_a_field_constructor_needs_fits, what_written_code_needs_fits,
};
pub use laws::{
    a_field_constructor_is_a_member, a_field_constructor_is_linked, a_field_constructor_is_typed,
    a_field_constructor_names_classes_that_are_there, a_field_constructor_passes_its_checks,
    a_field_constructor_runs_its_instructions, a_grown_pool_passes,
    what_a_checked_pool_needs_is_sound, what_a_field_constructor_needs_is_sound,
    what_written_code_needs_is_sound,
};
