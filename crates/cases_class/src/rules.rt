//! What the type rules answer: assignability, and the rule of an instruction.
ghost use Rattle.std.specs.Prelude.{◌≡◌, Some};
ghost use Rattle.member_link.specs.Linked.{IsLinked};
ghost use Rattle.type_rules.specs.Rule.{FitsPool};
ghost use Rattle.member_link.specs.Scope.{scope_at};

use cases_notation::{Setting, frame_of, last_method, text_of_frame, type_of};
use class_model::{Frame, MethodAt, Placed, Text, VType};
use class_tree::Tree;
use member_link::check_links;
use std::alloc::Global;
use type_rules::{MethodRules, RuleFault, Ruled, assignable, frame_assignable, has_code, rule};

/// Whether each of some types is assignable to each of others, or how often that is so and how often not.
pub(crate) fn assignability(alloc: Global, tree: &Tree, about: &str) -> Option<String> {
    let (lows, highs) = about.split_once(" to ")?;
    let mut counts = Counts { yes: 0, no: 0 };
    for low in lows.split(' ') {
        let from = type_of(alloc, low)?;
        counts.ask(alloc, tree, &from, highs)?;
    }
    let Counts { yes, no } = counts;
    match (yes, no) {
        (_, 0) => String::from_str(alloc, "true").ok(),
        (0, _) => String::from_str(alloc, "false").ok(),
        _ => format!(in alloc; "{yes} true and {no} false").ok(),
    }
}

// How often a type is assignable to another, and how often not.
#[derive(Clone, Copy)]
struct Counts {
    yes: u32,
    no: u32,
}

impl Counts {
    // Counts to how many of some types a type is assignable.
    fn ask(&mut self, alloc: Global, tree: &Tree, from: &VType, highs: &str) -> Option<()> {
        for high in highs.split(' ') {
            let to = type_of(alloc, high)?;
            if assignable(tree, from, &to) {
                self.yes = self.yes.wrapping_add(1);
            } else {
                self.no = self.no.wrapping_add(1);
            }
        }
        Some(())
    }
}

/// Whether a frame is assignable to another.
pub(crate) fn frame_assignability(alloc: Global, tree: &Tree, about: &str) -> Option<String> {
    let (from, to) = about.split_once(" to ")?;
    let is_assignable = frame_assignable(tree, &frame_of(alloc, from)?, &frame_of(alloc, to)?);
    format!(in alloc; "{is_assignable}").ok()
}

/// What the rule of the last of some uses answers behind frames: the frame behind it, `end` where control does not go on, or
/// the rule that fails; or what it answers behind a frame of which that is another than of the first.
pub(crate) fn rule_answer(alloc: Global, setting: &Setting<'_>, about: &str) -> Option<String> {
    let (uses, frames) = about.split_once(" behind ")?;
    let tree = setting.tree_using(alloc, uses)?;
    let told = last_answer(alloc, &tree, setting.class, frames);
    // let go by a call, so that its drop is proved once
    drop(tree);
    told
}

// The same of the last method of the class of this name.
fn last_answer(alloc: Global, tree: &Tree, class: &str, frames: &str) -> Option<String> {
    let class = Text::of_bytes(alloc, class.as_bytes()).ok()?;
    answer_behind(alloc, tree, last_method(tree, &class)?, frames)
}

// What the rule answers behind each of some frames.
fn answer_behind(alloc: Global, tree: &Tree, at: MethodAt, frames: &str) -> Option<String> {
    let mut first: Option<String> = None;
    for before in frames.split(" ; ") {
        let told = answer_at(alloc, tree, at, before)?;
        match &first {
            None => first = Some(told),
            Some(of_first) if *of_first == told => {}
            Some(_) => return format!(in alloc; "{told} behind {before}").ok(),
        }
    }
    first
}

// What the rule of the last instruction but the return answers behind a frame.
fn answer_at(alloc: Global, tree: &Tree, at: MethodAt, before: &str) -> Option<String> {
    let frame = frame_of(alloc, before)?;
    let Ok(()) = check_links(alloc, tree) else {
        return None;
    };
    if !has_code(tree, at) {
        return None;
    }
    let Ok(rules) = MethodRules::new(alloc, tree, at) else {
        return None;
    };
    let instrs = rules.instructions();
    // the last instruction is a return
    let asked = instrs.len().wrapping_sub(2);
    for (number, instr) in instrs.as_slice().iter().enumerate() {
        if number == asked {
            return asked_both_ways(alloc, tree, at, &rules, instr, &frame);
        }
    }
    None
}

// What the rule of an instruction of a method answers behind a frame, asked both ways.
fn asked_both_ways(
    alloc: Global,
    tree: &Tree,
    at: MethodAt,
    rules: &MethodRules<'_>,
    instr: &Placed,
    frame: &Frame,
) -> Option<String>
    requires linked { IsLinked tree.now }
    requires method { scope_at tree.now at ≡ Some rules.now }
    requires fits { FitsPool rules.now instr.now.instr }
{
    let told = text_of_answer(alloc, frame, rules.rule(alloc, instr, frame))?;
    let same = text_of_answer(alloc, frame, rule(alloc, tree, at, instr, frame))?;
    if told == same {
        Some(told)
    } else {
        format!(in alloc; "{told}, and of the tree {same}").ok()
    }
}

// The frame behind an instruction, `end`, or the rule that fails. Handlers see the locals before it, and no stack.
fn text_of_answer(
    alloc: Global,
    before: &Frame,
    answer: Result<Ruled, RuleFault>,
) -> Option<String> {
    match answer {
        Ok(ruled) => {
            let told = text_of_ruled(alloc, before, &ruled);
            // let go by a call, so that its drop is proved once
            drop(ruled);
            told
        }
        Err(RuleFault::Fails(rule)) => format!(in alloc; "{rule:?}").ok(),
        Err(RuleFault::NoMemory) => None,
    }
}

// The frame behind an instruction, or `end`; or the frame that handlers see, where it is another than they should see.
fn text_of_ruled(alloc: Global, before: &Frame, ruled: &Ruled) -> Option<String> {
    if ruled.thrown.locals != before.locals || !ruled.thrown.stack.is_empty() {
        let thrown = text_of_frame(alloc, &ruled.thrown)?;
        return format!(in alloc; "thrown {thrown}").ok();
    }
    match &ruled.next {
        Some(next) => text_of_frame(alloc, next),
        None => String::from_str(alloc, "end").ok(),
    }
}
