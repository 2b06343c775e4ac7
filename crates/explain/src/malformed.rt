//! Class files that break the format.
use crate::lines::Lines;
use crate::side::Side;
use crate::spot::part_of;
use crate::spot_words::put_part;
use class_model::{FileRule, NoMemory};
use std::alloc::Global;

/// Explains that the bytes of a file break a rule of the class file format at a place: the rule, and the part of the file.
pub fn explain_malformed(
    alloc: Global,
    side: Side,
    name: &str,
    bytes: &[u8],
    at: u64,
    rule: FileRule,
) -> Result<String, NoMemory> {
    let mut lines = Lines::new(alloc);
    lines.put("pea: error: ");
    lines.put(side.word());
    lines.put("/");
    lines.name(name.as_bytes());
    lines.put(" breaks the class file format: ");
    lines.put(rule.text());
    lines.put("\n  at byte ");
    lines.number(at);
    lines.put(", in ");
    put_part(&mut lines, bytes, at, part_of(bytes, at));
    lines.put("\n");
    lines.finish()
}
