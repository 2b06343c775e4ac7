//! Methods that do not verify.
ghost use Rattle.member_link.specs.Linked.{IsLinked};

use crate::frames::put_frame;
use crate::lines::Lines;
use crate::mnemonics::mnemonic_at;
use crate::places::{class_of, code_at, method_at};
use crate::wanted::{Failing, put_wanted};
use class_model::{Member, MethodAt, NoMemory, Text};
use class_tree::Tree;
use std::alloc::Global;
use type_rules::TypeRule;
use verify_folder::{FrameBefore, frame_before};

/// Explains why a method of a linked folder does not verify: the instruction, the frame before it, and what the rule wants.
pub fn explain_verification(
    alloc: Global,
    tree: &Tree,
    class: &Text,
    method: &Member,
    offset: u32,
    rule: TypeRule,
) -> Result<String, NoMemory>
    requires { IsLinked tree.now }
{
    let mut lines = Lines::new(alloc);
    lines.put("pea: error: ");
    lines.member(class.bytes(), method.name.bytes(), method.desc.bytes());
    lines.put(" does not verify at offset ");
    lines.number(u64::from(offset));
    if let Some(at) = method_at(tree, class, method) {
        put_mnemonic(&mut lines, tree, at, offset);
        lines.put(rule.text());
        lines.put("\n");
        put_reason(alloc, &mut lines, tree, at, offset, rule);
    }
    lines.finish()
}

fn put_mnemonic(lines: &mut Lines, tree: &Tree, at: MethodAt, offset: u32) {
    if let Some(part) = code_at(tree, at) {
        if (offset as usize) < part.code.len() {
            lines.put(", ");
            lines.put(mnemonic_at(part.code.as_slice(), offset as usize));
        }
    }
    lines.put(": ");
}

fn put_reason(
    alloc: Global,
    lines: &mut Lines,
    tree: &Tree,
    at: MethodAt,
    offset: u32,
    rule: TypeRule,
)
    requires { IsLinked tree.now }
{
    let Ok(before) = frame_before(alloc, tree, at, offset) else {
        return;
    };
    put_before(lines, &before, rule);
    if let (Some(file), Some(part)) = (class_of(tree, at), code_at(tree, at)) {
        let failing = Failing {
            tree,
            file,
            part,
            before: &before,
            offset,
        };
        put_wanted(alloc, lines, &failing, rule);
    }
}

// The frame before the instruction: the stated one, else what flows in; both where they differ.
fn put_before(lines: &mut Lines, before: &FrameBefore, rule: TypeRule) {
    if rule == TypeRule::Mismatch {
        if let Some(flows) = &before.flows {
            put_frame(lines, "  what flows in", flows);
        }
    }
    match (&before.stated, &before.flows) {
        (Some(stated), _) => put_frame(lines, "  the stated frame", stated),
        (None, Some(flows)) => put_frame(lines, "  the frame before it", flows),
        (None, None) => {}
    }
}
