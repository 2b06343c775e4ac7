//! What is answered to questions about the code that makes virtual objects.
use crate::edits::push_added;
use crate::plans::{Method, method_in};
use crate::state_text::{sites_in, state_in};
use cases_notation::{Setting, word_and_rest};
use cases_rewrite::{made_code, saved_places};
use class_model::Pool;
use flow_code::KeptFault;
use materialise::{InstrList, make_order};
use pool_edit::PoolEdit;
use std::alloc::Global;
use virtual_state::{SiteSet, VState};

/// The make code of sites at a point, with its constants; the order in which their objects are made; or what the code saves of the stack.
pub(crate) fn making_answer(
    alloc: Global,
    setting: &Setting<'_>,
    call: &str,
    about: &str,
) -> Option<String> {
    let (asked, code) = about.split_once(" ; ")?;
    let method = method_in(alloc, setting, code)?;
    let answer = method_answer(alloc, &method, call, asked);
    drop(method);
    answer
}

fn method_answer(alloc: Global, method: &Method, call: &str, asked: &str) -> Option<String> {
    let (numbers, state) = asked.split_once(" in ")?;
    let (at, sites) = word_and_rest(numbers);
    let at = at.parse::<usize>().ok()?;
    let state = state_at(alloc, method, at, state)?;
    let answer = state_answer(alloc, method, call, at, &state, sites);
    drop(state);
    answer
}

// The state that a text says, or that of the least plan at a point.
fn state_at(alloc: Global, method: &Method, at: usize, text: &str) -> Option<VState> {
    if text != "plan" {
        return state_in(alloc, text);
    }
    let plan = method.code.least_plan(alloc, &method.tree).ok()?;
    let state = match plan.state(at) {
        Some(state) => state.copy().ok(),
        None => None,
    };
    drop(plan);
    state
}

fn state_answer(
    alloc: Global,
    method: &Method,
    call: &str,
    at: usize,
    state: &VState,
    words: &str,
) -> Option<String> {
    let (words, limit) = words.split_once(" within ").unwrap_or((words, "65535"));
    let sites = sites_in(alloc, words)?;
    match call {
        "make_order" => order_text(alloc, state, &sites),
        "restack" => saved_text(alloc, method, at, state, &sites),
        _ => code_answer(alloc, method, at, state, &sites, limit.parse::<u16>().ok()?),
    }
}

fn order_text(alloc: Global, state: &VState, sites: &SiteSet) -> Option<String> {
    let order = make_order(alloc, state, sites).ok()?;
    format!(in alloc; "{:?}", order.as_slice()).ok()
}

// Each stack place that is saved, with its unit.
fn saved_text(
    alloc: Global,
    method: &Method,
    at: usize,
    state: &VState,
    sites: &SiteSet,
) -> Option<String> {
    let saved = saved_places(alloc, method.code.flat(), at, state, sites).ok()??;
    let mut out = String::from_str(alloc, "saved").ok()?;
    for one in saved.as_slice() {
        write!(out, " {}:{}", one.place, one.unit).ok()?;
    }
    Some(out)
}

// ---- code

fn code_answer(
    alloc: Global,
    method: &Method,
    at: usize,
    state: &VState,
    sites: &SiteSet,
    limit: u16,
) -> Option<String> {
    let pool = Pool::new(alloc);
    let edit = PoolEdit::over(alloc, &pool, limit);
    drop(pool);
    let mut edit = edit.ok()?;
    let answer = edited_text(alloc, method, at, state, sites, &mut edit);
    drop(edit);
    answer
}

fn edited_text(
    alloc: Global,
    method: &Method,
    at: usize,
    state: &VState,
    sites: &SiteSet,
    edit: &mut PoolEdit,
) -> Option<String> {
    let flat = method.code.flat();
    let made = made_code(alloc, &method.tree, flat, at, state, sites, edit);
    let mut out = made_text(alloc, &made)?;
    drop(made);
    push_added(&mut out, edit)?;
    Some(out)
}

fn made_text(alloc: Global, made: &Result<Option<InstrList>, KeptFault>) -> Option<String> {
    match made {
        Ok(Some(instrs)) => instrs_text(alloc, instrs),
        Ok(None) => None,
        Err(KeptFault::Kept(reason)) => format!(in alloc; "{reason:?}").ok(),
        Err(KeptFault::NoMemory) => None,
    }
}

fn instrs_text(alloc: Global, instrs: &InstrList) -> Option<String> {
    let mut out = String::new(alloc);
    for instr in instrs.as_slice() {
        if !out.is_empty() {
            out.push_str(" ; ").ok()?;
        }
        write!(out, "{instr:?}").ok()?;
    }
    Some(out)
}
