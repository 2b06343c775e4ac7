//! States of virtual objects.
use cases_rewrite::{chain_of, joined};
use std::alloc::Global;
use virtual_state::{VState, below};

/// Joins two states of so many sites and sixteen times as many fields, which differ in one site, so many times, and counts the
/// sites that are left.
pub(crate) fn join_states(alloc: Global, sites: u16, times: u32) -> Option<u64> {
    let one = chain_of(alloc, sites, sites).ok()??;
    let other = chain_of(alloc, sites, sites / 2).ok()??;
    let mut left: u64 = 0;
    for _ in 0..times {
        let above = joined(alloc, &one, &other).ok()??;
        left = left.wrapping_add(above.present(sites.saturating_sub(1)) as u64);
    }
    Some(left)
}

/// Asks so many times whether a state of so many sites and sixteen times as many fields is below one that is equal, and one that
/// has half of its sites, and counts what is answered by yes.
pub(crate) fn ask_below(alloc: Global, sites: u16, times: u32) -> Option<u64> {
    let one = chain_of(alloc, sites, sites).ok()??;
    let same = chain_of(alloc, sites, sites).ok()??;
    let other = chain_of(alloc, sites, sites / 2).ok()??;
    let above = joined(alloc, &one, &other).ok()??;
    let mut yes: u64 = 0;
    for _ in 0..times {
        yes = yes.wrapping_add(is_below(&one, &same, &above, yes) as u64);
    }
    Some(yes)
}

// Whether a state is below one of two, by the answers so far, so that no answer can be found before the loop.
fn is_below(one: &VState, same: &VState, above: &VState, yes: u64) -> bool {
    if yes % 2 == 0 {
        below(one, same)
    } else {
        below(one, above)
    }
}

/// Joins two equal states of so many sites and sixteen times as many fields so many times, keeps the joins, and counts them.
pub(crate) fn keep_joins(alloc: Global, sites: u16, times: u32) -> Option<u64> {
    let one = chain_of(alloc, sites, sites).ok()??;
    let same = chain_of(alloc, sites, sites).ok()??;
    let mut kept: Vec<VState> = Vec::new(alloc);
    for _ in 0..times {
        kept.push(joined(alloc, &one, &same).ok()??).ok()?;
    }
    Some(kept.len() as u64)
}
