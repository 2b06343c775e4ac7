//! States of virtual objects as texts: the slots of the places, and each object with its site, how often its monitor is entered, and
//! its fields, as `-1? 0:3- 1:00-`. A slot is `-` for plain, `?` for unusable, and a digit for the object of that site; `.` stands
//! for no places.
use cases_rewrite::state_of;
use class_model::ListOf;
use std::alloc::Global;
use virtual_state::{SiteSet, Slot, SlotList, VObject, VObjectList, VState};

/// The state that a text says, whose objects are those of the sites from 0 on. None where it is none or memory runs out, as in what
/// follows.
pub(crate) fn state_in(alloc: Global, text: &str) -> Option<VState> {
    let (slots, objects) = text.split_once(' ').unwrap_or((text, ""));
    state_of(alloc, slots_in(alloc, slots)?, objects_in(alloc, objects)?).ok()?
}

/// The slots that letters say.
pub(crate) fn slots_in(alloc: Global, letters: &str) -> Option<SlotList> {
    let mut slots = ListOf::new(alloc);
    for letter in letters.bytes() {
        if letter != b'.' {
            slots.push(slot(letter)).ok()?;
        }
    }
    Some(slots)
}

fn slot(letter: u8) -> Slot {
    match letter {
        b'-' => Slot::Plain,
        b'?' => Slot::Unusable,
        digit => Slot::Virt(u16::from(digit.wrapping_sub(b'0'))),
    }
}

/// The objects that words say.
pub(crate) fn objects_in(alloc: Global, words: &str) -> Option<VObjectList> {
    let mut objects = ListOf::new(alloc);
    for word in words.split(' ') {
        if let Some((site, held)) = word.split_once(':') {
            objects.push(object(alloc, site, held)?).ok()?;
        }
    }
    Some(objects)
}

// The object of a site that holds so much: how often its monitor is entered, a digit, and its fields.
fn object(alloc: Global, site: &str, held: &str) -> Option<VObject> {
    let (depth, fields) = held.split_at_checked(1)?;
    Some(VObject {
        site: site.parse::<u16>().ok()?,
        fields: slots_in(alloc, fields)?,
        depth: depth.parse::<u16>().ok()?,
    })
}

/// The set of the sites whose numbers are among words.
pub(crate) fn sites_in(alloc: Global, words: &str) -> Option<SiteSet> {
    let mut sites = SiteSet::new(alloc);
    for word in words.split(' ') {
        if let Ok(site) = word.parse::<u16>() {
            sites.add(site).ok()?;
        }
    }
    Some(sites)
}

/// The text of a state.
pub(crate) fn state_text(alloc: Global, state: &VState) -> Option<String> {
    let mut out = String::new(alloc);
    push_state(&mut out, state)?;
    Some(out)
}

/// Appends the text of a state.
pub(crate) fn push_state(out: &mut String, state: &VState) -> Option<()> {
    if state.is_empty() {
        out.push_str(".").ok()?;
    }
    for at in 0..state.len() {
        push_slot(out, state.slot(at)?)?;
    }
    for site in 0..10 {
        if let Some(object) = state.object(site) {
            write!(out, " {site}:{}", object.depth).ok()?;
            push_slots(out, object.fields.as_slice())?;
        }
    }
    Some(())
}

fn push_slots(out: &mut String, slots: &[Slot]) -> Option<()> {
    for slot in slots {
        push_slot(out, *slot)?;
    }
    Some(())
}

fn push_slot(out: &mut String, slot: Slot) -> Option<()> {
    match slot {
        Slot::Plain => out.push_str("-").ok(),
        Slot::Unusable => out.push_str("?").ok(),
        Slot::Virt(site) => write!(out, "{site}").ok(),
    }
}
