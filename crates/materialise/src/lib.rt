//! Making objects of what local variables hold: the order in which they are made, and the code that makes them with its constants.
#![tactic(auto)]

mod constants;
mod copies;
mod making;
mod meant;
mod objects;
mod ordering;
mod stack;
mod units;

pub use constants::{Reference, add_class, add_member, add_name_and_type, add_string, add_text};
pub use making::{InstrList, make_code, write_make_code};
pub use meant::add_meant;
pub use ordering::{SiteList16, make_order};
pub use stack::{RestackList, Restacked, restack};
pub use units::Units;
