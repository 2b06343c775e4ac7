//! Field constructors: which class of a folder may have one, and its descriptor. A field constructor sets all instance fields of an
//! object at once, so that an object can be made of values that stand in local variables.
#![tactic(auto)]

mod constructors;
mod folder_numbers;
mod free;
mod handles;
mod object_fields;

pub use constructors::Constructors;
pub use folder_numbers::folder_number;
pub use object_fields::field_texts;
