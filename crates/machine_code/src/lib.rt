//! Code that is ready to run (JVM Specification SE 8, 2.6, 4.7.3, 5.4.3 and 6.5): operations with what they name resolved, methods that
//! are prepared before they first run, and what operations do in a frame alone, as member_link defines it.
#![tactic(auto)]

mod jumps;
mod locals;
mod prepared;
mod prepared_method;
mod prepared_table;
mod resolving;
mod shuffles;
mod stack;
mod traits;
mod translating;

pub use jumps::{
    jump_by_int, jump_by_ints, jump_by_null, jump_by_references, lookup_target, table_target,
};
pub use locals::{if_kind, increment, local_value, store};
pub use prepared::Prepared;
pub use prepared_method::{Locks, MethodTraits, PreparedHandler, PreparedMethod};
pub use resolving::objects::resolve_new;
pub use shuffles::shuffle;
pub use stack::{drop_top, entry, operands, push_top};
pub use traits::method_traits;
