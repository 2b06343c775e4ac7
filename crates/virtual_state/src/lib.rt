//! States of virtual objects: what the places of a frame hold where objects that do not escape are not made, and how such
//! states are ordered and joined (after Stadler, Würthinger and Mössenböck, "Partial Escape Analysis and Scalar
//! Replacement for Java", CGO 2014; the definitions are this project's profile).
#![tactic(auto)]

mod closing;
mod compare;
mod depth;
mod front;
mod laws;
mod listed;
mod lost;
mod making;
mod marks;
mod merge;
mod removal;
mod shared;
mod sites;
mod slot;
mod spread;
mod state;
mod table;

pub use closing::closure;
pub use compare::below;
pub use depth::{enter, leave};
pub use front::FrontSlots;
pub use laws::{
    below_is_a_partial_order, chains_end, differing_sites_are_taken_away, joins_are_least,
    sets_are_taken_one_by_one,
};
pub use lost::differing;
pub use merge::join;
pub use removal::without;
pub use sites::SiteSet;
pub use slot::{Slot, SlotList, VObject, VObjectList};
pub use state::VState;
