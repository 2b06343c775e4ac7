//! Asks the cases of the files that the words name, and compares what is answered. It prints each case that is answered
//! otherwise, with its line, and the number of cases of each file.
//!
//! A line of a file that begins with `#` is a comment, and one that begins with two spaces goes on with the line before it.
//! Any other has statements, with ` ; ` between them. They are done in order, over one host in memory, and what a file leaves
//! stands for the next. A statement is a setting or a case: a question, ` => ` and the answer. A case is the last of its line,
//! and in its answer ` ; ` stands for itself.
//!
//! The settings are:
//! - `host`, a new host without files; `host failing 3`, one whose calls of these numbers fail, counted from 0;
//! - `base ROOT`, which puts the class files of the base library there; `base ROOT 2`, its first two;
//! - `generated ROOT NUMBER SIZE`, which puts the class files of generated work there, and its script as `generated.txt` under the root
//!   without a name;
//! - `put ROOT/FILE CONTENT`, which puts a file there;
//! - `class ROOT/FILE CLASS`, which puts a class file there, written in the notation of cases_notation;
//! - `script FILE LINES`, which puts a script under the root without a name, its lines with ` | ` between them;
//! - `bytes NAME CONTENT`, which names a content.
//!
//! A content is words, each of which appends bytes to those before: hex digits; `"first`, a text; `'first`, the Utf8 constant
//! of a text; and `=NAME`, a content that has a name. `length:7` cuts what stands before to this length, or fills it with zeros,
//! and `byte:7:35` has the hex digits 35 in the place of its byte 7. In a text and in a name of a file `\20` is the byte of
//! these hex digits.
//!
//! The questions are:
//! - `run WORDS`, the command of these words, cut at each space, so that two spaces make an empty word. The answer is the code
//!   and the status, and behind ` | ` what was printed, if anything was;
//! - `explain WORDS`, what the command of these words explains, or `nothing`;
//! - `progress WORDS`, the progress that the command of these words shows, with ` | ` between, or `nothing`;
//! - `files ROOT/FILE ..`, the name of the content of each file: `-` where no file is there, and `?` where the content has no
//!   name;
//! - `faults List`, or of another kind of call: how often calls of this kind have failed;
//! - `content CONTENT`, its name, or `?`;
//! - `meaning KIND RULE`, what a rule of the kind `file`, `link` or `type` says in words where it is broken;
//! - `code STATUS`, the code of a status without names;
//! - `vanishing WORDS`, the code and the status of the command over a host whose files are gone between their listing and their
//!   reads, and whether it was asked to write and to print;
//! - `base_library`, how many classes it has;
//! - `actions FILE`, what the actions of this script, which is under the root without a name, are printed as, or its first line outside
//!   the grammar;
//! - `events`, what is printed of events with values that no run gives, and of an end that no verified folder gives;
//! - `heap DESC LENGTH`, what a heap answers of an array that it makes: its reference, its elements, what comes of a write behind them,
//!   and whether its monitor was left;
//! - `begins ACTION`, what the first step of a run comes to and, at its beginning, this action; and the same in a world that stays typed.
//!
//! An answer has `\0a` where a byte is no printable ASCII, or is a backslash.
#![tactic(auto)]

mod answers;
mod base_library;
mod contents;
mod generated;
mod machine;
mod meanings;
mod script_texts;
mod setting;
mod statuses;
mod texts;
mod vanishing;

use answers::answer;
use cases_notation::{Line, lines_of, print_difference, question_of};
use setting::Setting;
use std::process::ExitCode;
use std::{env, fs};

fn main(rt: HostRuntime) -> ExitCode {
    match compare_files(&rt) {
        Some(()) => ExitCode::SUCCESS,
        None => ExitCode::FAILURE,
    }
}

// Asks the cases of all files. None where the words or a file cannot be read or memory runs out.
fn compare_files(rt: &HostRuntime) -> Option<()> {
    let names = env::args(rt)
        .ok()?
        .skip(1)
        .collect::<Vec<String>>(rt.alloc())
        .ok()?;
    let mut setting = Setting::empty(rt.alloc())?;
    let is_done = compare_all(rt, &mut setting, names.as_slice());
    drop(setting);
    is_done
}

fn compare_all(rt: &HostRuntime, setting: &mut Setting, names: &[String]) -> Option<()> {
    for name in names {
        compare_file(rt, setting, name)?;
    }
    Some(())
}

// Asks the cases of a file, and prints those that are answered otherwise and how many there are.
fn compare_file(rt: &HostRuntime, setting: &mut Setting, name: &str) -> Option<()> {
    let text = fs::read_to_string(rt, name).ok()?;
    let lines = lines_of(rt.alloc(), &text)?;
    drop(text);
    let counted = compare_lines(rt, setting, name, lines.as_slice());
    drop(lines);
    let count = counted?;
    println!(rt; "{name}: {count}").ok()
}

// How many cases some lines of a file are, which it asks.
fn compare_lines(
    rt: &HostRuntime,
    setting: &mut Setting,
    name: &str,
    lines: &[Line],
) -> Option<u64> {
    let mut count: u64 = 0;
    for line in lines {
        let place = format!(in rt.alloc(); "{name}:{}", line.number).ok()?;
        count = count.wrapping_add(compare_line(rt, setting, &place, &line.text)?);
    }
    Some(count)
}

fn compare_line(rt: &HostRuntime, setting: &mut Setting, place: &str, line: &str) -> Option<u64> {
    let (settings, last) = settings_and_last(line);
    let mut count: u64 = 0;
    for statement in settings.split(" ; ") {
        count = count.wrapping_add(take_statement(rt, setting, place, statement)?);
    }
    Some(count.wrapping_add(take_statement(rt, setting, place, last)?))
}

// The statements of a line but for the last one, and that.
fn settings_and_last(line: &str) -> (&str, &str) {
    let question = question_of(line).unwrap_or(line);
    match question.rsplit_once(" ; ") {
        Some((settings, _)) => {
            let behind = settings.len().saturating_add(" ; ".len());
            (settings, line.get(behind..).unwrap_or(""))
        }
        None => ("", line),
    }
}

// Does a setting, or asks a case. How many cases it is: one or none. None where memory or the output fails.
fn take_statement(
    rt: &HostRuntime,
    setting: &mut Setting,
    place: &str,
    statement: &str,
) -> Option<u64> {
    if statement.is_empty() || !is_case(rt, setting, place, statement)? {
        return Some(0);
    }
    let came = question_of(statement).and_then(|question| answer(rt.alloc(), setting, question));
    print_difference(rt, place, statement, came)?;
    Some(1)
}

// Whether a statement is a case. A setting is done, and printed with its place where it cannot be.
fn is_case(rt: &HostRuntime, setting: &mut Setting, place: &str, statement: &str) -> Option<bool> {
    match setting.take(rt.alloc(), statement) {
        Some(is_setting) => Some(!is_setting),
        None => {
            println!(rt; "{place}: no setting: {statement}").ok()?;
            Some(false)
        }
    }
}
