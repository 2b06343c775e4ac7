//! What operations of the bounded machine do with their operands, its memory and its events (JVM Specification SE 8, 2.6, 2.11, 5.5 and
//! 6.5), as member_link defines them.
#![tactic(auto)]

mod arithmetic;
mod arrays;
mod begun;
mod calls;
mod completed;
mod computing;
mod counting;
mod elements;
mod fields;
mod floats;
mod known;
mod memory;
mod monitors;
mod nested_arrays;
mod numbering;
mod objects;
mod questions;
mod receivers;
mod showing;
mod statics;
mod working;
mod world;

pub use arithmetic::{Divided, divide, pure, pure_operands};
pub use arrays::{MOST_ELEMENTS, blank_array, index_in};
pub use begun::ClassNumberList;
pub use completed::{Asked, Completed};
pub use floats::{float_fits, float_operands};
pub use known::KnownRefs;
pub use memory::Memory;
pub use monitors::MonitorHeap;
pub use numbering::copy_texts;
pub use questions::conforming::{
    arguments_conform, named_conforms, narrowing_of_text, reference_conforms, text_conforms,
};
pub use questions::shapes::is_instance;
pub use showing::{show_asked, show_got, show_length, show_made, show_result, show_threw};
pub use statics::{StaticField, StaticValueList};
pub use working::{arity, work};
pub use world::{Acted, Outcome, World, WorldState};
