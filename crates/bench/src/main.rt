//! What the scripts of `bench/` time and no command of `pea` shows. The words are `WHAT COUNT TIMES`, once or more: so many of a thing, so many
//! times over. Each prints a number of what was done in all. `WHAT` is:
//! - `ask`: the class files of the folder `in` and of its library `lib` are read and their hierarchy built, and questions of subtypes are
//!   asked about at most so many of them, so many times; it counts those that are answered by yes (`bench/trees.sh`);
//! - `grow` or `edits`: so many constants are added to a pool and looked up, or a constant of a pool of so many is looked up and another one
//!   appended and taken back; it counts the additions (`bench/rewriting.sh`, as what follows);
//! - `layouts` or `decodes`: a code of so many items is laid out, or its bytes are decoded; it counts bytes, or instructions;
//! - `joins`, `below` or `kept`: two states of so many virtual objects and sixteen times as many fields are joined, or compared, or equal
//!   ones are joined and the joins kept; it counts joins that keep the last site, answers by yes, or joins.
#![tactic(auto)]

mod edits;
mod layouts;
mod states;
mod trees;

use edits::{edit_pool, grow_pools};
use layouts::{decode_laid, lay_out};
use states::{ask_below, join_states, keep_joins};
use std::env;
use std::process::ExitCode;
use trees::ask;

fn main(rt: HostRuntime) -> ExitCode {
    match run(&rt) {
        Some(()) => ExitCode::SUCCESS,
        None => ExitCode::FAILURE,
    }
}

// Does what the words say. None where they say nothing, or memory, a folder or the output fails.
fn run(rt: &HostRuntime) -> Option<()> {
    let words = env::args(rt).ok()?.skip(1);
    let words = words.collect::<Vec<String>>(rt.alloc()).ok()?;
    for three in words.chunks(3) {
        let [what, count, times] = three else {
            return None;
        };
        let count = count.parse::<u32>().ok()?;
        let times = times.parse::<u32>().ok()?;
        let counted = count_of(rt, what, count, times)?;
        println!(rt; "{counted}").ok()?;
    }
    Some(())
}

// Does one of these things with so many, so many times, and counts.
fn count_of(rt: &HostRuntime, what: &str, count: u32, times: u32) -> Option<u64> {
    let alloc = rt.alloc();
    let short = u16::try_from(count).ok();
    match what {
        "ask" => ask(rt, count, times),
        "layouts" => lay_out(alloc, count, times),
        "decodes" => decode_laid(alloc, count, times),
        "grow" => grow_pools(alloc, short?, times),
        "edits" => edit_pool(alloc, short?, times),
        "joins" => join_states(alloc, short?, times),
        "below" => ask_below(alloc, short?, times),
        "kept" => keep_joins(alloc, short?, times),
        _ => None,
    }
}
