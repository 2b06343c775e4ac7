//! Classes in an order in which each stands behind those that it names.
ghost use Rattle.std.specs.Prelude.{◌≡◌, ◌<◌, ℕ, length, IfOk, OnOk, MatchBool, MatchOption};
ghost use Rattle.class_tree.specs.Inner.Graphs.{IsWithin, IsTopological, IsOneOf};
ghost use Rattle.class_tree.specs.Inner.Placing.{AreBehindTargets, CanFollow, CannotFollow};

use crate::graph::NodeSet;
use crate::lists::Lists;
use class_model::{ListOf, NoMemory};
use std::alloc::Global;

/// Nodes in an order in which each stands behind its targets, as many as can be. It takes time linear in the graph.
pub(crate) fn topological(alloc: Global, graph: &Lists<usize>) -> Result<ListOf<usize>, NoMemory>
    requires { IsWithin graph.now }
    ensures { IfOk result (λ order. IsTopological graph.now order) }
{
    let hint = hint(alloc, graph)?;
    let mut placed = NodeSet::new(alloc, graph.len())?;
    place_hinted(graph, hint.as_slice(), &mut placed)?;
    place_rest(graph, &mut placed)?;
    Ok(placed.into_list())
}

// Places the nodes of a hint, as far as each can follow there.
fn place_hinted(graph: &Lists<usize>, hint: &[usize], placed: &mut NodeSet) -> Result<(), NoMemory>
    requires size { placed.old.size ≡ length graph.now }
    requires order { AreBehindTargets graph.now placed.old.nodes }
    ensures size { OnOk result (placed.new.size ≡ length graph.now) }
    ensures order { OnOk result (AreBehindTargets graph.now placed.new.nodes) }
{
    for node in hint {
        if *node < graph.len() && can_follow(graph, placed, *node) {
            placed.push(*node)?;
        }
    }
    Ok(())
}

// Places nodes until none can follow. Behind a right hint, one look at each node finds none.
fn place_rest(graph: &Lists<usize>, placed: &mut NodeSet) -> Result<(), NoMemory>
    requires size { placed.old.size ≡ length graph.now }
    requires order { AreBehindTargets graph.now placed.old.nodes }
    ensures { OnOk result (IsTopological graph.now placed.new.nodes) }
{
    while let Some(node) = next(graph, placed) {
        placed.push(node)?;
    }
    Ok(())
}

// The first node that can follow.
fn next(graph: &Lists<usize>, placed: &NodeSet) -> Option<usize>
    ensures { MatchOption result
        ((node : ℕ) → node < length graph.now → CannotFollow graph.now placed.now.nodes node)
        (λ node. (node < length graph.now) × CanFollow graph.now placed.now.nodes node) }
{
    for node in 0..graph.len() {
        if can_follow(graph, placed, node) {
            return Some(node);
        }
    }
    None
}

// Whether a node is not placed yet and its targets are.
fn can_follow(graph: &Lists<usize>, placed: &NodeSet, node: usize) -> bool
    requires { node < length graph.now }
    ensures { MatchBool result (CanFollow graph.now placed.now.nodes node)
        (CannotFollow graph.now placed.now.nodes node) }
{
    if placed.has(node) {
        return false;
    }
    graph.get(node).iter().all(|to| placed.has(*to))
}

// Nodes in an order in which each stands behind its targets, by the number of targets that each still waits for. What
// is proved of the order above rests on none of this.
fn hint(alloc: Global, graph: &Lists<usize>) -> Result<Vec<usize>, NoMemory> {
    let sources = Sources::new(alloc, graph)?;
    let mut waits = Vec::with_capacity(alloc, graph.len())?;
    let mut order = Vec::with_capacity(alloc, graph.len())?;
    for node in 0..graph.len() {
        let count = graph.get(node).len();
        waits.push(count)?;
        if count == 0 {
            order.push(node)?;
        }
    }
    for at in 0..graph.len() {
        let Some(node) = order.get(at).copied() else {
            break;
        };
        release(sources.get(node), waits.as_mut_slice(), &mut order)?;
    }
    Ok(order)
}

// Lets each of these wait for one target less, and appends those that wait for none.
fn release(sources: &[usize], waits: &mut [usize], order: &mut Vec<usize>) -> Result<(), NoMemory> {
    for source in sources {
        if let Some(count) = waits.get_mut(*source) {
            *count = count.saturating_sub(1);
            if *count == 0 {
                order.push(*source)?;
            }
        }
    }
    Ok(())
}

// For each node those of which it is a target, one node's behind another's.
#[derive(Drop)]
struct Sources {
    // where the sources of each node end
    ends: Vec<usize>,
    nodes: Vec<usize>,
}

impl Sources {
    fn new(alloc: Global, graph: &Lists<usize>) -> Result<Self, NoMemory> {
        let mut ends = vec![in alloc; 0; graph.len()]?;
        let count = starts_of(graph, ends.as_mut_slice());
        let mut nodes = vec![in alloc; 0; count]?;
        for node in 0..graph.len() {
            for to in graph.get(node) {
                add_source(ends.as_mut_slice(), nodes.as_mut_slice(), *to, node);
            }
        }
        Ok(Sources { ends, nodes })
    }

    // The sources of a node.
    fn get(&self, node: usize) -> &[usize] {
        let start = match node.checked_sub(1) {
            Some(before) => self.ends.get(before).copied().unwrap_or(0),
            None => 0,
        };
        let end = self.ends.get(node).copied().unwrap_or(0);
        self.nodes.get(start..end).unwrap_or(&[])
    }
}

// Where the sources of each node are to start, out of zeros, and how many there are of all nodes.
fn starts_of(graph: &Lists<usize>, starts: &mut [usize]) -> usize {
    for node in 0..graph.len() {
        for to in graph.get(node) {
            if let Some(count) = starts.get_mut(*to) {
                *count = count.saturating_add(1);
            }
        }
    }
    let mut sum: usize = 0;
    for start in starts {
        let count = *start;
        *start = sum;
        sum = sum.saturating_add(count);
    }
    sum
}

// Adds a source of a node at the end of those that it has.
fn add_source(ends: &mut [usize], nodes: &mut [usize], to: usize, source: usize) {
    if let Some(end) = ends.get_mut(to) {
        if let Some(slot) = nodes.get_mut(*end) {
            *slot = source;
        }
        *end = end.saturating_add(1);
    }
}
