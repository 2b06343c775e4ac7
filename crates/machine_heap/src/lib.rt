//! The heap of the bounded machine (JVM Specification SE 8, 2.4, 2.5.3 and 5.1): objects by their references, their monitors, and
//! the references of constants.
#![tactic(auto)]

mod array_heap;
mod blanks;
mod classes;
mod comparison;
mod heap;
mod kept;
mod laws;
mod values;

pub use array_heap::ArrayHeap;
pub use blanks::{blank, blank_elements, blank_fields, component_text};
pub use heap::{Heap, Put};
pub use laws::{
    a_constant_has_one_reference, a_monitor_changes_one_count, a_new_object_changes_no_other,
    a_write_changes_one_value,
};
pub use machine_values::{Constant, Object, Ref, Shape, Value, ValueList};
pub use values::{
    Narrowing, blank_of_kind, has_kind, have_kinds, is_wide, locals_of, narrow, narrow_int,
};
