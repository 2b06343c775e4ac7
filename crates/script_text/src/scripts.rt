//! Scripts, read line by line.
ghost use Rattle.std.specs.Prelude.{◌≡◌, ◌++◌, ℕ, Option, IfErr, IfOk, OnOk};
ghost use Rattle.std.specs.Option.{option_copied};
ghost use Rattle.machine_values.specs.declared.action.Action.{Action};
ghost use Rattle.script_text.specs.Scripts.{IsScript, lines_of};
ghost use Rattle.script_text.specs.Faults.{IsFaultOf};
ghost use Rattle.script_text.specs.Inner.Lines.{AddsLine, IsLineFault, ReadsLine, is_blank_line};

use crate::actions::action_of;
use crate::words::cut_at;
use class_model::{ListOf, NoMemory};
use machine_values::{Action, ActionList};
use std::alloc::Global;

/// Why bytes were not read as a script.
#[derive(Clone, Copy, PartialEq, Eq)]
pub enum ScriptFault {
    /// The first line outside the grammar, counted from 1.
    BadScript { line: u64 },
    /// Memory ran out.
    NoMemory,
}

/// The actions of a script.
///
/// # Errors
///
/// `BadScript` with the number of the first line outside the grammar, and `NoMemory` where memory runs out.
pub fn read_script(alloc: Global, bytes: &[u8]) -> Result<ActionList, ScriptFault>
    ensures read { IfOk result (IsScript bytes.now) }
    ensures fault { IfErr result (IsFaultOf bytes.now) }
{
    let mut actions = ListOf::new(alloc);
    let mut left = Some(bytes);
    let mut number: u64 = 0;
    while let Some(rest) = left {
        let (line, after) = cut_at(b'\n', rest);
        number += 1;
        add_line(alloc, &mut actions, line, number)?;
        left = after;
    }
    Ok(actions)
}

/// Appends the action of a line, if it has one.
fn add_line(
    alloc: Global,
    actions: &mut ActionList,
    line: &[u8],
    number: u64,
) -> Result<(), ScriptFault>
    ensures added { OnOk result (AddsLine line.now actions.old actions.new) }
    ensures fault { IfErr result (IsLineFault line.now number) }
{
    match line_of(alloc, line) {
        Ok(Line::Empty) => Ok(()),
        Ok(Line::Action(action)) => match actions.push(action) {
            Ok(()) => Ok(()),
            Err(NoMemory) => Err(ScriptFault::NoMemory),
        },
        Ok(Line::Outside) => Err(ScriptFault::BadScript { line: number }),
        Err(NoMemory) => Err(ScriptFault::NoMemory),
    }
}

/// What a line was read as.
#[derive(Drop)]
pub(crate) enum Line {
    /// An empty line or a comment.
    Empty,
    Action(Action),
    /// A line outside the grammar.
    Outside,
}

/// What a line is.
fn line_of(alloc: Global, line: &[u8]) -> Result<Line, NoMemory>
    ensures { IfOk result (ReadsLine line.now) }
{
    if is_blank(line) {
        return Ok(Line::Empty);
    }
    let answer = action_of(alloc, line)?;
    match answer {
        Some(action) => Ok(Line::Action(action)),
        None => Ok(Line::Outside),
    }
}

/// Whether a line is empty or a comment.
fn is_blank(line: &[u8]) -> bool
    ensures { result ≡ is_blank_line line.now }
{
    match line {
        [] => true,
        [first, ..] => *first == b'#',
    }
}
