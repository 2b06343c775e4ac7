//! What is answered to questions about edits of constant pools. A constant is `class@2` or `long@8`, and else a text.
use cases_rewrite::{appended_and_taken_back, push_constant};
use class_model::{Const, Pool, Text};
use pool_edit::{AddFault, PoolEdit};
use std::alloc::Global;

/// What each step of an edit of a pool answers, the count behind them, the constants that were appended, with their indices, and those of
/// the finished pool.
pub(crate) fn edit_answer(alloc: Global, about: &str) -> Option<String> {
    let (limit, about) = about.split_once(' ')?;
    let (constants, steps) = about.split_once(" +")?;
    let limit = limit.parse::<u16>().ok()?;
    let pool = pool_of(alloc, constants)?;
    let answer = pool_answer(alloc, &pool, limit, steps);
    drop(pool);
    answer
}

fn pool_answer(alloc: Global, pool: &Pool, limit: u16, steps: &str) -> Option<String> {
    let mut edit = PoolEdit::over(alloc, pool, limit).ok()?;
    let edited = edit_text(alloc, &mut edit, steps);
    let finished = edit.finish().ok()?;
    let answer = finished_text(edited, &finished);
    drop(finished);
    answer
}

// What the steps of an edit answer, the count behind them, and the constants that were appended.
fn edit_text(alloc: Global, edit: &mut PoolEdit, steps: &str) -> Option<String> {
    let mut out = steps_text(alloc, edit, steps)?;
    push_added(&mut out, edit)?;
    Some(out)
}

// The same and the constants of the finished pool.
fn finished_text(edited: Option<String>, finished: &Pool) -> Option<String> {
    let mut out = edited?;
    push_pool(&mut out, finished)?;
    Some(out)
}

fn pool_of(alloc: Global, constants: &str) -> Option<Pool> {
    let mut pool = Pool::new(alloc);
    match push_constants(alloc, &mut pool, constants) {
        Some(()) => Some(pool),
        None => {
            drop(pool);
            None
        }
    }
}

fn push_constants(alloc: Global, pool: &mut Pool, constants: &str) -> Option<()> {
    for word in constants.split(' ') {
        push_constant(pool, constant(alloc, word)?).ok()?;
    }
    Some(())
}

fn constant(alloc: Global, word: &str) -> Option<Const> {
    if let Some(index) = word.strip_prefix("class@") {
        return Some(Const::Class(index.parse::<u16>().ok()?));
    }
    if let Some(number) = word.strip_prefix("long@") {
        return Some(Const::Long(number.parse::<i64>().ok()?));
    }
    Some(Const::Utf8(Text::of_bytes(alloc, word.as_bytes()).ok()?))
}

fn steps_text(alloc: Global, edit: &mut PoolEdit, steps: &str) -> Option<String> {
    let mut out = String::from_str(alloc, "at").ok()?;
    for step in steps.split(' ') {
        if !step.is_empty() {
            push_step(alloc, &mut out, edit, step)?;
        }
    }
    Some(out)
}

// Appends what a step answers: the index of a constant that is added, or, behind `try:`, that and the count before the constant is
// taken back.
fn push_step(alloc: Global, out: &mut String, edit: &mut PoolEdit, step: &str) -> Option<()> {
    let Some(word) = step.strip_prefix("try:") else {
        return push_index(out, edit.add(constant(alloc, step)?));
    };
    let (index, count) = appended_and_taken_back(edit, constant(alloc, word)?).ok()?;
    write!(out, " {index}/{count}").ok()
}

fn push_index(out: &mut String, added: Result<u16, AddFault>) -> Option<()> {
    match added {
        Ok(index) => write!(out, " {index}").ok(),
        Err(AddFault::PoolFull) => out.push_str(" full").ok(),
        Err(AddFault::NoMemory) => None,
    }
}

/// Appends the count, and the constants that were appended.
pub(crate) fn push_added(out: &mut String, edit: &PoolEdit) -> Option<()> {
    write!(out, ", count {}, added", edit.count()).ok()?;
    for at in 0..edit.added().len() {
        let (constant, index) = edit.added().get_index(at)?;
        push_word(out, constant)?;
        write!(out, "={index}").ok()?;
    }
    Some(())
}

// Appends the constants of a pool from index 1 on.
fn push_pool(out: &mut String, pool: &Pool) -> Option<()> {
    out.push_str(", pool").ok()?;
    for index in 1..pool.count() {
        match pool.get(index) {
            Some(constant) => push_word(out, constant)?,
            None => out.push_str(" -").ok()?,
        }
    }
    Some(())
}

// Appends the word of a constant.
fn push_word(out: &mut String, constant: &Const) -> Option<()> {
    match constant {
        Const::Class(index) => write!(out, " class@{index}").ok(),
        Const::Long(number) => write!(out, " long@{number}").ok(),
        Const::Utf8(text) => write!(out, " {}", str::from_utf8(text.bytes()).ok()?).ok(),
        Const::NameAndType(name, desc) => write!(out, " pair@{name},{desc}").ok(),
        Const::Methodref(class, member) => write!(out, " method@{class},{member}").ok(),
        _ => None,
    }
}
