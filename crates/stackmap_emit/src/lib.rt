//! The frames that written code states: which stand at which offsets, the constants that they need, and the attribute that they are.
#![tactic(auto)]

mod attribute;
mod blocks;
mod classes;
mod depths;
mod laws;
mod led;
mod noting;
mod place;
mod placing;
mod walk;
mod wide_laws;

pub use attribute::frames_attribute;
pub use laws::{a_laid_method_states_its_frames, what_types_items_types_the_laid_method};
pub use place::{WrittenCode, place_frames};
pub use walk::WrittenFrames;
pub use wide_laws::items_that_are_made_wide_are_those_of_the_wide_form;
