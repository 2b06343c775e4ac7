//! What a rule of types wants of an instruction.
use crate::frames::put_difference;
use crate::lines::Lines;
use crate::pool_texts::class_name;
use crate::taken::put_taken;
use class_model::{ClassFile, CodePart, Handler, Instr, Placed};
use class_tree::{THROWABLE, Tree, is_below};
use code_bytes::decode;
use std::alloc::Global;
use type_rules::TypeRule;
use verify_folder::FrameBefore;

/// The code of a method that does not verify, the offset of the instruction, in bytes, and the frame before it.
#[derive(Clone, Copy)]
pub(crate) struct Failing<'a> {
    pub tree: &'a Tree,
    pub file: &'a ClassFile,
    pub part: &'a CodePart,
    pub before: &'a FrameBefore,
    pub offset: u32,
}

/// Writes what the rule that is broken wants.
pub(crate) fn put_wanted(alloc: Global, lines: &mut Lines, failing: &Failing<'_>, rule: TypeRule) {
    match rule {
        TypeRule::CatchType => put_caught(lines, failing),
        TypeRule::Mismatch => put_mismatch(lines, failing),
        TypeRule::Handler => put_handlers(lines, failing),
        TypeRule::Depth => put_depth(lines, failing.part),
        TypeRule::NoFrame | TypeRule::FallsOff => {
            lines.put(
                "  a goto, switch, return or athrow lets nothing flow on, and all else does\n",
            );
        }
        TypeRule::Stack | TypeRule::Local | TypeRule::Kind | TypeRule::Target => {
            put_instruction(alloc, lines, failing);
        }
    }
}

// The handlers whose range begins at the offset and whose class is no throwable.
fn put_caught(lines: &mut Lines, failing: &Failing<'_>) {
    for handler in failing.part.handlers.as_slice() {
        if u32::from(handler.start) == failing.offset && !catches(failing, handler) {
            put_handler(lines, failing.file, handler);
        }
    }
}

// Whether the class that a handler catches is a throwable.
fn catches(failing: &Failing<'_>, handler: &Handler) -> bool {
    match class_name(&failing.file.pool, handler.catch_type) {
        Some(name) => {
            name.bytes() == THROWABLE || is_below(failing.tree, name.bytes(), THROWABLE)
        }
        None => true,
    }
}

fn put_mismatch(lines: &mut Lines, failing: &Failing<'_>) {
    if let Some(flows) = &failing.before.flows {
        if let Some(stated) = &failing.before.stated {
            put_difference(lines, failing.tree, flows, stated);
        }
    }
}

// The handlers around the instruction.
fn put_handlers(lines: &mut Lines, failing: &Failing<'_>) {
    for handler in failing.part.handlers.as_slice() {
        if covers(handler, failing.offset) {
            put_handler(lines, failing.file, handler);
        }
    }
}

fn covers(handler: &Handler, offset: u32) -> bool {
    u32::from(handler.start) <= offset && offset < u32::from(handler.end)
}

fn put_handler(lines: &mut Lines, file: &ClassFile, handler: &Handler) {
    lines.put("  the handler at offset ");
    lines.number(u64::from(handler.at));
    lines.put(" catches ");
    match class_name(&file.pool, handler.catch_type) {
        Some(name) => lines.name(name.bytes()),
        None => lines.put("every throwable"),
    }
    lines.put("\n");
}

fn put_depth(lines: &mut Lines, part: &CodePart) {
    lines.put("  max_stack is ");
    lines.number(u64::from(part.max_stack));
    lines.put(", where a long or a double counts as 2\n");
}

// What the instruction takes, and where it goes to.
fn put_instruction(alloc: Global, lines: &mut Lines, failing: &Failing<'_>) {
    if let Ok(instructions) = decode(alloc, failing.part.code.as_slice()) {
        put_at(lines, failing, instructions.as_slice());
    }
}

fn put_at(lines: &mut Lines, failing: &Failing<'_>, instructions: &[Placed]) {
    for placed in instructions {
        if placed.at == failing.offset {
            put_taken(lines, failing.file, &placed.instr);
            put_target(lines, &placed.instr);
        }
    }
}

fn put_target(lines: &mut Lines, instr: &Instr) {
    match instr {
        Instr::If(_, to)
        | Instr::If2(_, to)
        | Instr::IfSame(_, to)
        | Instr::IfNull(_, to)
        | Instr::Goto(to) => {
            lines.put("  its target is offset ");
            lines.number(u64::from(*to));
            lines.put("\n");
        }
        _ => {}
    }
}
