//! What the bounded machine is made of: values, objects, frames, actions of the library and events that it sees, as values
//! (JVM Specification SE 8, chapter 2). What the machine does with them is defined in member_link.
#![tactic(auto)]

mod action;
mod count_list;
mod event;
mod frame;
mod object;
mod slot_list;
mod value;

pub use action::{Action, ActionList, Given, GivenList};
pub use count_list::{CountList, HeldCount};
pub use event::{End, Event, EventKind, EventList, First, Seen, SeenList, SeenRef, Shown};
pub use frame::{MethodFrame, RunFrame, RunFrameList};
pub use object::{Constant, Object, Shape};
pub use slot_list::{LocalList, SlotList, ValueList};
pub use value::{Ref, RefList, Value};
