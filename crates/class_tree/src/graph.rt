//! Which classes each class names above it, by numbers.
ghost use Rattle.std.specs.Prelude.{◌≡◌, ◌<◌, ◌≤◌, ◌==◌, ◌↔◌, ℕ, [], ◌∷◌, ◌++◌, length, filter_map, slice_index, option_to_list, IfOk, OnOk, IsTrue};
ghost use Rattle.std.specs.List.{list_any};
ghost use Rattle.class_tree.specs.Inner.Graphs.{IsOneOf, IsNoneOf, IsPath, IsWithin};
ghost use Rattle.class_tree.specs.Inner.Nodes.{graph_of, number_of};
ghost use Rattle.class_tree.specs.Inner.Placing.{HasAdded};
ghost use Rattle.class_tree.specs.Steps.{supers};
ghost use Rattle.class_tree.specs.Trees.{IsInOrder};

use crate::headers::Headers;
use crate::lists::Lists;
use class_model::{Header, ListOf, NoMemory, Text};
use std::alloc::Global;
use std::marker::Model;

/// For each class the numbers of its superclass and interfaces, as far as they are there.
pub(crate) fn supers_graph(alloc: Global, headers: &Headers<'_>) -> Result<Lists<usize>, NoMemory>
    requires { IsInOrder headers.now }
    ensures { IfOk result (λ graph. graph ≡ graph_of headers.now) }
{
    let mut graph = Lists::new(alloc, headers.len())?;
    for number in 0..headers.len() {
        if let Some(header) = headers.get(number) {
            graph.push(supers_of(alloc, headers, header)?.as_slice())?;
        }
    }
    Ok(graph)
}

// The numbers of the superclass and the interfaces of a class, as far as they are there.
fn supers_of(
    alloc: Global,
    headers: &Headers<'_>,
    header: &Header,
) -> Result<ListOf<usize>, NoMemory>
    requires { IsInOrder headers.now }
    ensures { IfOk result
        (λ numbers. numbers ≡ filter_map (number_of headers.now) (supers header.now)) }
{
    let mut numbers = ListOf::new(alloc);
    if let Some(name) = &header.super_name {
        push_number(&mut numbers, headers, name)?;
    }
    for name in header.interfaces.as_slice() {
        push_number(&mut numbers, headers, name)?;
    }
    Ok(numbers)
}

// Appends the number of a class, if it is there.
fn push_number(
    numbers: &mut ListOf<usize>,
    headers: &Headers<'_>,
    name: &Text,
) -> Result<(), NoMemory>
    requires { IsInOrder headers.now }
    ensures { OnOk result
        (numbers.new ≡ numbers.old ++ option_to_list (number_of headers.now name.now)) }
{
    if let Some(number) = headers.number_of(name.bytes()) {
        numbers.push(number)?;
    }
    Ok(())
}

/// Whether a path of one edge or more leads from a node to a node.
pub(crate) fn reaches(
    alloc: Global,
    graph: &Lists<usize>,
    from: usize,
    to: usize,
) -> Result<bool, NoMemory>
    requires within { IsWithin graph.now }
    requires node { from < length graph.now }
    ensures { IfOk result (λ yes. IsTrue yes ↔ IsPath graph.now from to) }
{
    let mut reached = NodeSet::new(alloc, graph.len())?;
    reached.add_all(graph.get(from))?;
    let mut at = 0;
    while at < reached.len() {
        let node = reached.get(at);
        reached.add_all(graph.get(node))?;
        at += 1;
    }
    Ok(reached.has(to))
}

/// Nodes of a graph in the order in which they were added, each once. Whether one is there is told in constant time.
#[derive(Drop)]
pub(crate) struct NodeSet {
    nodes: ListOf<usize>,
    // For each node of the graph, whether it is there.
    marks: Vec<bool>,
}

impl Model for NodeSet {
    ghost use Rattle.std.specs.Prelude.{length};
    ghost use Rattle.class_tree.specs.Inner.Placing.{Collected, AreMarksOf};

    ghost Value = { Collected };

    ghost view = { λ set. record { size = length set.marks.items; nodes = set.nodes } };

    ghost invariant = { λ set. AreMarksOf set.nodes set.marks.items };
}

impl NodeSet {
    /// No node, of a graph with this many.
    pub(crate) fn new(alloc: Global, size: usize) -> Result<Self, NoMemory>
        ensures { IfOk result (λ set. set ≡ record { size = size; nodes = [] }) }
    {
        let marks = vec![in alloc; false; size]?;
        Ok(NodeSet {
            nodes: ListOf::new(alloc),
            marks,
        })
    }

    /// How many nodes there are.
    pub(crate) fn len(&self) -> usize
        ensures len { result ≡ length self.now.nodes }
        ensures bound { result ≤ self.now.size }
    {
        self.nodes.len()
    }

    /// Whether a node is there.
    pub(crate) fn has(&self, node: usize) -> bool
        ensures { result ≡ list_any (λ one. one == node) self.now.nodes }
    {
        self.marks.get(node).copied().unwrap_or(false)
    }

    /// The node that was added at this place.
    pub(crate) fn get(&self, at: usize) -> usize
        requires { at < length self.now.nodes }
        ensures { result ≡ slice_index self.now.nodes at }
    {
        self.nodes.as_slice()[at]
    }

    /// Adds a node that is not there.
    pub(crate) fn push(&mut self, node: usize) -> Result<(), NoMemory>
        requires node { node < self.old.size }
        requires new { IsNoneOf self.old.nodes node }
        ensures ok { OnOk result
            (self.new ≡ record self.old { nodes = self.old.nodes ++ node ∷ [] }) }
        ensures bound { length self.new.nodes ≤ self.new.size }
    {
        self.nodes.push(node)?;
        self.marks[node] = true;
        Ok(())
    }

    /// Adds those nodes that are not there.
    pub(crate) fn add_all(&mut self, nodes: &[usize]) -> Result<(), NoMemory>
        requires { (node : ℕ) → IsOneOf nodes.now node → node < self.old.size }
        ensures size { OnOk result (self.new.size ≡ self.old.size) }
        ensures nodes { OnOk result (HasAdded self.old.nodes self.new.nodes nodes.now) }
    {
        for node in nodes {
            if !self.has(*node) {
                self.push(*node)?;
            }
        }
        Ok(())
    }

    /// The nodes, in the order in which they were added.
    pub(crate) fn into_list(self) -> ListOf<usize>
        ensures { result ≡ self.nodes }
    {
        self.nodes
    }
}
