//! What is answered to questions about states of virtual objects.
use crate::state_text::{objects_in, sites_in, slots_in, state_in, state_text};
use cases_notation::word_and_rest;
use cases_rewrite::{chain_of, changed, entered, joined, left, without_differing};
use std::alloc::Global;
use std::mem;
use std::rc::Rc;
use virtual_state::{VState, below, closure, differing};

/// What is answered to a question about a state, or a set of sites, and what stands behind ` with `.
pub(crate) fn state_answer(alloc: Global, call: &str, about: &str) -> Option<String> {
    let (about, other) = about.split_once(" with ").unwrap_or((about, ""));
    match call {
        "sites" => sites_answer(alloc, about, other.parse::<u16>().ok()?),
        "chains" => chains_answer(alloc, about, other.parse::<u16>().ok()?),
        "shared" => {
            let (call, about) = word_and_rest(about);
            stated(alloc, call, about, other, true)
        }
        _ => stated(alloc, call, about, other, false),
    }
}

// What is answered to a question about the state of a text, or about what a call shares with it.
fn stated(
    alloc: Global,
    call: &str,
    state: &str,
    other: &str,
    asks_shared: bool,
) -> Option<String> {
    let state = state_in(alloc, state)?;
    let answer = if asks_shared {
        shared_answer(alloc, call, &state, other)
    } else {
        asked_of(alloc, call, &state, other)
    };
    drop(state);
    answer
}

// What is answered to a question about a state.
fn asked_of(alloc: Global, call: &str, state: &VState, other: &str) -> Option<String> {
    match call {
        "state" => state_text(alloc, state),
        "look_up" => look_ups(alloc, state, other.parse::<u16>().ok()?),
        "below" | "differing" => compared(alloc, call, state, other),
        "closure" => closure_answer(alloc, state, other),
        _ => text_after(alloc, call, state, other),
    }
}

// What is answered to a question about a state and another one.
fn compared(alloc: Global, call: &str, state: &VState, other: &str) -> Option<String> {
    let other = state_in(alloc, other)?;
    let answer = if call == "below" {
        below_answer(alloc, state, &other)
    } else {
        differing_answer(alloc, state, &other)
    };
    drop(other);
    answer
}

// The text of the state that a call makes of another one.
fn text_after(alloc: Global, call: &str, state: &VState, other: &str) -> Option<String> {
    let after = state_after(alloc, call, state, other)?;
    let text = state_text(alloc, &after);
    drop(after);
    text
}

// The state that a call makes of another one.
fn state_after(alloc: Global, call: &str, state: &VState, other: &str) -> Option<VState> {
    match call {
        "copy" => state.copy().ok(),
        "changed" => changed_to(alloc, state, other),
        "join" | "without" => with_other(alloc, call, state, other),
        "monitor" => monitored(alloc, state, other),
        _ => None,
    }
}

// The join of a state and another one, or the state without the sites by which it differs from that.
fn with_other(alloc: Global, call: &str, state: &VState, other: &str) -> Option<VState> {
    let other = state_in(alloc, other)?;
    let made = if call == "join" {
        joined(alloc, state, &other)
    } else {
        without_differing(alloc, state, &other)
    };
    drop(other);
    made.ok()?
}

// The state of other slots, and of objects in place of those of their sites.
fn changed_to(alloc: Global, state: &VState, other: &str) -> Option<VState> {
    let (slots, objects) = word_and_rest(other);
    changed(
        alloc,
        state,
        slots_in(alloc, slots)?,
        objects_in(alloc, objects)?,
    )
    .ok()?
}

// The state where the monitor of a site's object is entered, for each `+`, and left, for each `-`.
fn monitored(alloc: Global, state: &VState, steps: &str) -> Option<VState> {
    let (site, steps) = steps.split_once(' ')?;
    let site = site.parse::<u16>().ok()?;
    let mut after = state.copy().ok()?;
    for step in steps.bytes() {
        let next = stepped(alloc, &after, site, step)?;
        drop(mem::replace(&mut after, next));
    }
    Some(after)
}

fn stepped(alloc: Global, state: &VState, site: u16, step: u8) -> Option<VState> {
    match step {
        b'+' => entered(alloc, state, site).ok()?,
        _ => left(alloc, state, site).ok()?,
    }
}

// For each of the sites 0 to 2, whether the state that a call makes shares its object with the state that it is made of (s), has another
// object (n), or one of them has none (-).
fn shared_answer(alloc: Global, call: &str, state: &VState, other: &str) -> Option<String> {
    let after = state_after(alloc, call, state, other)?;
    let text = shared_text(alloc, &after, state);
    drop(after);
    text
}

fn shared_text(alloc: Global, after: &VState, state: &VState) -> Option<String> {
    let mut out = String::new(alloc);
    for site in 0..3 {
        out.push_str(shared(after, state, site)).ok()?;
    }
    Some(out)
}

fn shared(after: &VState, state: &VState, site: u16) -> &'static str {
    match (after.object(site), state.object(site)) {
        (Some(object), Some(other)) => { if Rc::ptr_eq(object, other) { "s" } else { "n" } }
        _ => "-",
    }
}

// The slot of a number, whether the object of that site is present, how often its monitor is entered, and its fields 0 and 2.
fn look_ups(alloc: Global, state: &VState, number: u16) -> Option<String> {
    format!(in alloc;
        "{:?} {} {:?} {:?} {:?}",
        state.slot(usize::from(number)),
        state.present(number),
        state.depth(number),
        state.field(number, 0),
        state.field(number, 2)
    )
    .ok()
}

fn below_answer(alloc: Global, state: &VState, other: &VState) -> Option<String> {
    let is_below = below(state, other);
    format!(in alloc; "{is_below}").ok()
}

fn differing_answer(alloc: Global, state: &VState, other: &VState) -> Option<String> {
    let sites = differing(alloc, state, other).ok()?;
    format!(in alloc; "{:?}", sites.as_slice()).ok()
}

fn closure_answer(alloc: Global, state: &VState, words: &str) -> Option<String> {
    let closed = closure(alloc, state, &sites_in(alloc, words)?).ok()?;
    format!(in alloc; "{:?}", closed.as_slice()).ok()
}

// A set of sites, how many it has, whether it has none, its site of a number, and whether it has the site of that number.
fn sites_answer(alloc: Global, words: &str, number: u16) -> Option<String> {
    let sites = sites_in(alloc, words)?;
    format!(in alloc;
        "{:?} {} {} {:?} {}",
        sites.as_slice(),
        sites.len(),
        sites.is_empty(),
        sites.get(usize::from(number)),
        sites.has(number)
    )
    .ok()
}

// ---- many sites

// What is answered about the join of two chains of so many sites, of which the monitors of these are entered.
fn chains_answer(alloc: Global, about: &str, other: u16) -> Option<String> {
    let (sites, one) = about.split_once(' ')?;
    let sites = sites.parse::<u16>().ok()?;
    let one = chain_of(alloc, sites, one.parse::<u16>().ok()?).ok()??;
    let answer = chain_answer(alloc, sites, &one, other);
    drop(one);
    answer
}

fn chain_answer(alloc: Global, sites: u16, one: &VState, other: u16) -> Option<String> {
    let other = chain_of(alloc, sites, other).ok()??;
    let answer = join_of_chains(alloc, sites, one, &other);
    drop(other);
    answer
}

// How many sites the join of two states has, whether each is below it, and whether it is below the first.
fn join_of_chains(alloc: Global, sites: u16, one: &VState, other: &VState) -> Option<String> {
    let above = joined(alloc, one, other).ok()??;
    let count = count_present(&above, sites);
    let (is_above, is_above_other) = (below(one, &above), below(other, &above));
    let is_below = below(&above, one);
    drop(above);
    format!(in alloc; "{count} {is_above} {is_above_other} {is_below}").ok()
}

// How many of the first sites are present.
fn count_present(state: &VState, sites: u16) -> u16 {
    let mut count: u16 = 0;
    for site in 0..sites {
        count = count.saturating_add(u16::from(state.present(site)));
    }
    count
}
