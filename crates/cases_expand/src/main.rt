//! Asks the cases of the files that the words name: which classes are candidates, which calls have callees, and the flat code of methods with
//! callees in place of their calls; and what rewriting a method is made of: pools that grow, layouts, flat code, its least plan, and states of
//! virtual objects. Files, settings and classes are as in `cases_class`.
//!
//! The questions are named as the calls that they ask; methods are given by their class and number:
//! - `candidate NAME`;
//! - `callee HOST CLASS METHOD AT`, of the call at an offset in a host of a class: the class, name and descriptor of the callee;
//! - `expand CLASS METHOD`: the local units of the flat code, each site with its point, its class and the local units of its fields, and behind a
//!   bar the instructions of the points, with the class of each that is of another class than the host; or the reason why the method is kept;
//! - `alone CLASS METHOD`: the same of the flat code of the method by itself;
//! - `typed CLASS METHOD POINT`: the types before a point of it;
//! - `handlers CLASS METHOD POINT`: the handlers of a point, each with its point and the class that it catches, or `*`;
//! - `pool_edit LIMIT CONSTANTS + STEPS`, of a pool of these constants, in the notation of `edits`. A step adds a constant, or behind `try:` takes
//!   it back at once. The answer is what each gave, the count, what was appended, and the finished pool;
//! - `layout ITEMS`, with `, ` between items, in the notation of `layouts`: the bytes, where the items start, and the exception table; and
//!   `lengths ITEMS`: how many bytes, the last start, and how many entries; or the reason why there is none;
//! - `flat CODE`, of flat code in the notation of `points`: what its look-ups answer; and `handler_list HANDLERS`: the list, and a copy that grew;
//! - `least_plan CODE`: whether the least plan saves something, and its points, as `plans` says; `plan_gain CODE`: the first alone;
//! - `state STATE`, `copy STATE`, `changed STATE with STATE`, `join STATE with STATE`, `without STATE with STATE` (without the sites by which it
//!   differs from that), `monitor STATE with SITE SIGNS` (entered for each `+` and left for each `-`), of states in the notation of
//!   `state_text`: the state that this makes; and `shared` in front of one of the last five: which objects that has in common with the first;
//! - `below STATE with STATE`, `differing STATE with STATE`, `closure STATE with SITES`, `look_up STATE with NUMBER` and `sites SITES with NUMBER`;
//! - `make_code AT SITES in STATE ; CODE`, of a point of flat code in the notation of `points`: the make code of these sites, its constants
//!   behind those of an empty pool, and with ` within LIMIT` behind the sites in a pool that has at most that count, or why there is none;
//!   `make_order` of the same: the order in which their objects are made; and `restack`: each stack place that the code saves, with its unit.
//!   The state `plan` is that of the least plan at the point;
//! - `chains COUNT SITE with SITE`, of two states of so many sites, of which each has the monitor of one entered.
//!
//! An answer is `-` where there is nothing, as where items are no code or points no flat code.
#![tactic(auto)]

mod answers;
mod edits;
mod flat_code;
mod flats;
mod instrs;
mod layouts;
mod making;
mod plans;
mod points;
mod state_text;
mod states;

use answers::answer;
use cases_notation::compare_files;
use std::process::ExitCode;

fn main(rt: HostRuntime) -> ExitCode {
    compare_files(
        &rt,
        |alloc, setting, question| answer(alloc, setting, question),
    )
}
