//! What is answered to questions about least plans of flat code that a text says.
use crate::points::{Parts, host_of, parts_in, tree_of};
use crate::state_text::push_state;
use cases_notation::Setting;
use cases_rewrite::{PlanCode, without_sites};
use class_tree::Tree;
use plan_flow::{Edge, EdgeKind, Plan};
use std::alloc::Global;
use virtual_state::{SiteSet, VState, below, differing};

/// A hierarchy, and the flat code of a method of one of its classes.
#[derive(Drop)]
pub(crate) struct Method {
    pub tree: Tree,
    pub code: PlanCode,
}

/// Whether the least plan of flat code saves something, which alone is asked by `plan_gain`, and what it has of each point: `unreached`, or the state before it, `+0` for each
/// site that is made there, and the edges, `>` or, to a handler, `!`, the target, and `+0` for each site that is made on it. What is not as
/// the definition of valid plans wants is behind `?`.
pub(crate) fn plan_answer(
    alloc: Global,
    setting: &Setting<'_>,
    call: &str,
    about: &str,
) -> Option<String> {
    let method = method_in(alloc, setting, about)?;
    let answer = method_answer(alloc, &method, call);
    drop(method);
    answer
}

fn method_answer(alloc: Global, method: &Method, call: &str) -> Option<String> {
    let plan = method.code.least_plan(alloc, &method.tree).ok()?;
    let answer = if call == "plan_gain" {
        gain_text(alloc, method, &plan)
    } else {
        plan_text(alloc, method, &plan)
    };
    drop(plan);
    answer
}

fn gain_text(alloc: Global, method: &Method, plan: &Plan) -> Option<String> {
    let gains = method.code.gain(plan);
    format!(in alloc; "{gains}").ok()
}

/// The hierarchy of the setting, and the flat code that a text says of the last method of its class.
pub(crate) fn method_in(alloc: Global, setting: &Setting<'_>, about: &str) -> Option<Method> {
    let tree = tree_of(alloc, setting, about)?;
    let Some(code) = code_in(alloc, setting, &tree, about) else {
        drop(tree);
        return None;
    };
    Some(Method { tree, code })
}

fn code_in(alloc: Global, setting: &Setting<'_>, tree: &Tree, about: &str) -> Option<PlanCode> {
    let host = host_of(alloc, setting, tree)?;
    let Parts {
        locals,
        sites,
        points,
    } = parts_in(alloc, tree, host, about)?;
    PlanCode::of(host, locals, points, sites)
}

fn plan_text(alloc: Global, method: &Method, plan: &Plan) -> Option<String> {
    let mut out = gain_text(alloc, method, plan)?;
    for at in 0..method.code.len() {
        out.push_str(" ; ").ok()?;
        push_point(alloc, &mut out, method, plan, at)?;
    }
    Some(out)
}

fn push_point(
    alloc: Global,
    out: &mut String,
    method: &Method,
    plan: &Plan,
    at: usize,
) -> Option<()> {
    let (Some(state), Some(made)) = (plan.state(at), plan.made_at(at)) else {
        return out.push_str("unreached").ok();
    };
    push_state(out, state)?;
    if !made.is_empty() {
        push_made(out, " ", made)?;
    }
    push_asked(alloc, out, method, at, state, made)?;
    let left = without_sites(alloc, state, made).ok()?;
    let is_pushed = push_edges(alloc, out, method, plan, at, &left);
    drop(left);
    is_pushed
}

// Appends the sites whose objects a point with this state asks to be made, where these are others.
fn push_asked(
    alloc: Global,
    out: &mut String,
    method: &Method,
    at: usize,
    state: &VState,
    made: &SiteSet,
) -> Option<()> {
    let asked = method.code.must(alloc, &method.tree, at, state).ok()?;
    if asked.as_slice() == made.as_slice() {
        return Some(());
    }
    push_made(out, " ?", &asked)
}

// Appends the edges of a point with this state, which asks that nothing more is made.
fn push_edges(
    alloc: Global,
    out: &mut String,
    method: &Method,
    plan: &Plan,
    at: usize,
    left: &VState,
) -> Option<()> {
    let Some(edges) = method.code.effect(alloc, &method.tree, at, left).ok()? else {
        return out.push_str(" ?asks").ok();
    };
    let is_pushed = push_all_edges(alloc, out, plan, at, edges.as_slice());
    drop(edges);
    is_pushed
}

fn push_all_edges(
    alloc: Global,
    out: &mut String,
    plan: &Plan,
    at: usize,
    edges: &[Edge],
) -> Option<()> {
    for (number, edge) in edges.iter().enumerate() {
        out.push_str(if number == 0 { " " } else { "" }).ok()?;
        push_edge(alloc, out, plan, edge, plan.made_on(at, number))?;
    }
    match plan.made_on(at, edges.len()) {
        Some(_) => out.push_str("?more").ok(),
        None => Some(()),
    }
}

// Appends an edge, and the sites that are made on it.
fn push_edge(
    alloc: Global,
    out: &mut String,
    plan: &Plan,
    edge: &Edge,
    made: Option<&SiteSet>,
) -> Option<()> {
    let mark = match edge.by {
        EdgeKind::Handler(_) => '!',
        EdgeKind::Next | EdgeKind::Jump(_) => '>',
    };
    write!(out, "{mark}{}", edge.to).ok()?;
    let (Some(made), Some(target)) = (made, plan.state(edge.to)) else {
        return out.push_str("?nowhere").ok();
    };
    push_made(out, "", made)?;
    if leads_to(alloc, &edge.state, made, target)? {
        Some(())
    } else {
        out.push_str("?below").ok()
    }
}

// Whether a state is below another one, from which it differs by these sites.
fn leads_to(alloc: Global, state: &VState, made: &SiteSet, target: &VState) -> Option<bool> {
    let lost = differing(alloc, state, target).ok()?;
    Some(below(state, target) && lost.as_slice() == made.as_slice())
}

// Appends the sites that are made, behind a text.
fn push_made(out: &mut String, front: &str, sites: &SiteSet) -> Option<()> {
    out.push_str(front).ok()?;
    for site in sites.as_slice() {
        write!(out, "+{site}").ok()?;
    }
    Some(())
}
