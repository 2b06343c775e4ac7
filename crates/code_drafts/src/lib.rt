//! Written code of a plan: the instructions of a flat code in which objects stay virtual where the plan says so, with the constants that
//! they need (the definitions are in plan_flow's `Written`).
#![tactic(auto)]

mod carried;
mod decided;
mod draft;
mod edges;
mod field_locals;
mod finishing;
mod kept;
mod laws;
mod numbers;
mod placing;
mod putting;
mod setting;
mod stack_cells;
mod starts;
mod template;
mod templates;

pub use decided::is_decided;
pub use draft::{BlockKind, DraftBlock, DraftCatch, DraftItem, Target};
pub use edges::{edges_are_led, effect_at, state_on};
pub use kept::KeptItems;
pub use laws::{
    code_of_a_plan_makes_what_the_plan_says, items_of_a_plan_are_emitted_code,
    items_of_a_plan_go_wide,
};
pub use placing::{Numbered, number_items};
pub use setting::Setting;
pub use starts::block_starts;
pub use template::{Template, template_of};
pub use templates::{write_as_it_is, write_left, write_test};
