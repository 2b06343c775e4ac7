//! Flat code: the instructions of a method that may be rewritten, as points with their types and handlers, and the reasons
//! why a method is kept as it is.
#![tactic(auto)]

mod flat;
mod handlers;
mod point;
mod reason;

pub use flat::Flat;
pub use handlers::{FlatHandler, FlatHandlerList};
pub use point::{FlatInstr, Point, PointList, Site, SiteList};
pub use reason::{KeptFault, Reason};
