//! What is answered to questions about layouts of code.
use crate::instrs::instr_in;
use cases_rewrite::emitted_of;
use class_model::ListOf;
use code_layout::{Catch, CatchList, EmitItem, EmitItemList, Laid, layout};
use flow_code::KeptFault;
use std::alloc::Global;

/// What laying out items answers: the bytes, the offsets where they start and the exception table, or of `lengths` how many bytes and
/// entries there are, and the last offset; or why there is none.
pub(crate) fn layout_answer(alloc: Global, call: &str, about: &str) -> Option<String> {
    let Some(emitted) = emitted_of(items_in(alloc, about)?) else {
        return String::from_str(alloc, "-").ok();
    };
    let laid = layout(alloc, &emitted);
    drop(emitted);
    let text = match &laid {
        Ok(laid) if call == "lengths" => lengths_text(alloc, laid),
        Ok(laid) => laid_text(alloc, laid),
        Err(KeptFault::Kept(reason)) => format!(in alloc; "{reason:?}").ok(),
        Err(KeptFault::NoMemory) => None,
    };
    drop(laid);
    text
}

fn laid_text(alloc: Global, laid: &Laid) -> Option<String> {
    let (code, starts) = (laid.code.as_slice(), laid.starts.as_slice());
    format!(in alloc; "{code:?} at {starts:?}, {:?}", laid.handlers.as_slice()).ok()
}

fn lengths_text(alloc: Global, laid: &Laid) -> Option<String> {
    let last = laid.starts.as_slice().last().copied().unwrap_or(0);
    format!(in alloc; "{} {last} {}", laid.code.len(), laid.handlers.len()).ok()
}

// ---- items

// The items that a text says, with `, ` between them. Behind an instruction stand `near`, for the jump inside a test against null, ` catching
// 2`, for so many handlers, and ` times 3`, for so many items that are the same.
fn items_in(alloc: Global, text: &str) -> Option<EmitItemList> {
    let mut items = ListOf::new(alloc);
    match push_items(alloc, &mut items, text) {
        Some(()) => Some(items),
        None => {
            drop(items);
            None
        }
    }
}

fn push_items(alloc: Global, items: &mut EmitItemList, text: &str) -> Option<()> {
    for part in text.split(", ") {
        let (part, times) = part.split_once(" times ").unwrap_or((part, "1"));
        for _ in 0..times.parse::<u32>().ok()? {
            items.push(item_in(alloc, part)?).ok()?;
        }
    }
    Some(())
}

fn item_in(alloc: Global, text: &str) -> Option<EmitItem> {
    let (text, count) = text.split_once(" catching ").unwrap_or((text, "0"));
    let count = count.parse::<u32>().ok()?;
    let (instr, near) = match text.strip_suffix(" near") {
        Some(instr) => (instr, true),
        None => (text, false),
    };
    let instr = instr_in(alloc, instr)?;
    let catches = catches_of(alloc, count)?;
    Some(EmitItem {
        instr,
        near,
        catches,
    })
}

// So many handlers, which go to the items 0 and 1 in turn, and whose classes are the constants of their numbers.
fn catches_of(alloc: Global, count: u32) -> Option<CatchList> {
    let mut catches = ListOf::new(alloc);
    for number in 0..count {
        catches
            .push(Catch {
                to: number % 2,
                catch_type: (number % 65_536) as u16,
            })
            .ok()?;
    }
    Some(catches)
}
