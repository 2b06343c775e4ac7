//! Plans of flat code: at which points an object that does not escape is not made, and where it is made (after Stadler,
//! Würthinger and Mössenböck, "Partial Escape Analysis and Scalar Replacement for Java", CGO 2014; the definitions are this
//! project's profile).
#![tactic(auto)]

mod arithmetic;
mod asked;
mod beneath;
mod blocks;
mod changes;
mod constants;
mod edge;
mod edge_states;
mod edges;
mod effects;
mod fields;
mod fronts;
mod handler_targets;
mod head_states;
mod heads;
mod iteration;
mod laws;
mod least;
mod needs;
mod plan;
mod planned_edges;
mod point_states;
mod rows;
mod saving;
mod settling;
mod shuffles;
mod slots;
mod sources;
mod table;
mod targets;
mod work_list;

pub use asked::is_site_below;
pub use constants::{class_named, member_of};
pub use edge::{Edge, EdgeKind, EdgeList};
pub use edges::target;
pub use effects::effect;
pub use fields::{field_number, field_of};
pub use laws::{effect_grows, flat_code_has_one_least_plan, must_grows, no_valid_plan_keeps_more};
pub use least::least_plan;
pub use needs::must;
pub use plan::{Plan, PlanEdge};
pub use rows::operand;
pub use saving::gain;
pub use slots::held;
pub use table::site_at;
