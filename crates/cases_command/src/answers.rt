//! What is answered to a question, as a text.
use crate::base_library::class_count;
use crate::contents::Contents;
use crate::machine::machine_answer;
use crate::meanings::meaning;
use crate::script_texts::{actions, events};
use crate::setting::Setting;
use crate::statuses::{call_of, status_of, text_of};
use crate::texts::{root_and_name, shown};
use crate::vanishing::Vanishing;
use cases_notation::word_and_rest;
use host_tree::{Host, MemoryHost, Progress};
use pea_top::pea;
use std::alloc::Global;

/// What is answered to a question. None where it is none, or memory runs out.
pub(crate) fn answer(alloc: Global, setting: &mut Setting, question: &str) -> Option<String> {
    let (asked, about) = word_and_rest(question);
    match asked {
        "run" => run(alloc, &mut setting.host, about),
        "explain" => explain(alloc, &mut setting.host, about),
        "progress" => progress(alloc, &mut setting.host, about),
        "files" => files(alloc, setting, about),
        "faults" => number_text(alloc, setting.host.faults(call_of(about)?)),
        "content" => content_name(alloc, &setting.contents, about),
        "code" => status_code(alloc, about),
        "vanishing" => vanishing(alloc, about),
        "meaning" => meaning_text(alloc, about),
        "base_library" => number_text(alloc, class_count(alloc)? as u64),
        "actions" => actions(alloc, &setting.host, about),
        "events" => events(alloc),
        _ => machine_answer(alloc, asked, about),
    }
}

fn number_text(alloc: Global, number: u64) -> Option<String> {
    format!(in alloc; "{number}").ok()
}

fn content_name(alloc: Global, contents: &Contents, content: &str) -> Option<String> {
    let bytes = contents.written(alloc, content)?;
    String::from_str(alloc, contents.name_of(&bytes)).ok()
}

fn status_code(alloc: Global, word: &str) -> Option<String> {
    let status = status_of(word)?;
    let code = status.code();
    drop(status);
    number_text(alloc, u64::from(code))
}

fn meaning_text(alloc: Global, words: &str) -> Option<String> {
    let (kind, name) = words.split_once(' ')?;
    String::from_str(alloc, meaning(kind, name)?).ok()
}

// The words of a command, cut at spaces.
fn words_of(alloc: Global, text: &str) -> Option<Vec<String>> {
    let mut words = Vec::new(alloc);
    for word in text.split(' ') {
        words.push(String::from_str(alloc, word).ok()?).ok()?;
    }
    Some(words)
}

// The code and the status of a command, and what it printed. None where that is not behind what was printed before.
fn run(alloc: Global, host: &mut MemoryHost, words: &str) -> Option<String> {
    let before = Vec::from_slice(alloc, host.printed()).ok()?;
    let told = told_by(alloc, host, words)?;
    printed_behind(alloc, told, host.printed().strip_prefix(before.as_slice())?)
}

// The code and the status of a command.
fn told_by<H: Host>(alloc: Global, host: &mut H, words: &str) -> Option<String> {
    let words = words_of(alloc, words)?;
    let status = pea(alloc, &words, host);
    drop(words);
    let told = text_of(alloc, &status);
    drop(status);
    told
}

// What was told of a command, and what it printed, if anything was.
fn printed_behind(alloc: Global, told: String, printed: &[u8]) -> Option<String> {
    if printed.is_empty() {
        return Some(told);
    }
    let printed = shown(alloc, printed)?;
    format!(in alloc; "{told} | {printed}").ok()
}

// Does what a command says.
fn perform(alloc: Global, host: &mut MemoryHost, words: &str) -> Option<()> {
    let words = words_of(alloc, words)?;
    let status = pea(alloc, &words, host);
    drop(status);
    drop(words);
    Some(())
}

// What a command explained, or `nothing`. None where that is not behind what was explained before.
fn explain(alloc: Global, host: &mut MemoryHost, words: &str) -> Option<String> {
    let before = Vec::from_slice(alloc, host.explained()).ok()?;
    perform(alloc, host, words)?;
    let explained = host.explained().strip_prefix(before.as_slice())?;
    if explained.is_empty() {
        return String::from_str(alloc, "nothing").ok();
    }
    shown(alloc, explained)
}

// The progress that a command showed, with ` | ` between, or `nothing`. None where that is not behind what was shown before.
fn progress(alloc: Global, host: &mut MemoryHost, words: &str) -> Option<String> {
    let before = host.shown().len();
    perform(alloc, host, words)?;
    let mut told = String::new(alloc);
    push_progress(&mut told, host.shown().get(before..)?)?;
    Some(told)
}

fn push_progress(told: &mut String, shown: &[Progress]) -> Option<()> {
    if shown.is_empty() {
        return told.push_str("nothing").ok();
    }
    for progress in shown {
        let front = if told.is_empty() { "" } else { " | " };
        write!(told, "{front}{progress}").ok()?;
    }
    Some(())
}

// The names of the contents of files.
fn files(alloc: Global, setting: &Setting, paths: &str) -> Option<String> {
    let mut names = String::new(alloc);
    for path in paths.split(' ') {
        push_file(alloc, &mut names, setting, path)?;
    }
    Some(names)
}

// Appends the name of the content of a file, behind a space if anything stands before.
fn push_file(alloc: Global, names: &mut String, setting: &Setting, path: &str) -> Option<()> {
    if !names.is_empty() {
        names.push_str(" ").ok()?;
    }
    let (root, name) = root_and_name(alloc, path)?;
    let content = match setting.host.file(&root, &name) {
        Some(bytes) => setting.contents.name_of(bytes),
        None => "-",
    };
    names.push_str(content).ok()
}

// The code and the status of a command over a host whose files vanish, and which calls came to it behind the reads.
fn vanishing(alloc: Global, words: &str) -> Option<String> {
    let mut host = Vanishing {
        reads: 0,
        is_written: false,
        is_printed: false,
    };
    let told = told_by(alloc, &mut host, words)?;
    let written = host.is_written;
    let printed = host.is_printed;
    format!(in alloc; "{told} written={written} printed={printed}").ok()
}
