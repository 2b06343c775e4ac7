//! Calls of the machine that no command makes, over the hierarchy of no classes.
use cases_notation::Input;
use class_model::{Text, is_array_type};
use class_tree::Tree;
use machine_heap::{Heap, Ref, Shape, Value};
use machine_run::{act, step};
use machine_step::{Acted, Outcome, World};
use machine_values::Action;
use never_stuck::{acts_typed, stays_typed};
use script_text::read_script;
use std::alloc::Global;
use type_rules::TypedFolder;

/// What is answered to a question about the machine. None where it is none, or memory runs out.
pub(crate) fn machine_answer(alloc: Global, asked: &str, about: &str) -> Option<String> {
    let tree = Input::empty(alloc).build(alloc).ok()?;
    let answer = match asked {
        "heap" => heap_answer(alloc, &tree, about),
        "begins" => beginning(alloc, &tree, about),
        _ => None,
    };
    drop(tree);
    answer
}

// What a heap answers of a new array of a descriptor and a length.
fn heap_answer(alloc: Global, tree: &Tree, array: &str) -> Option<String> {
    let (desc, len) = array.split_once(' ')?;
    let len = len.parse::<u32>().ok()?;
    let desc = Text::of_bytes(alloc, desc.as_bytes()).ok()?;
    if !is_array_type(desc.bytes()) {
        return None;
    }
    let mut heap = Heap::new(alloc);
    let made = heap.alloc(tree, Shape::Array { desc, len }).ok();
    let answer = match made {
        Some(at) => array_answer(alloc, &mut heap, at, len),
        None => None,
    };
    drop(heap);
    answer
}

// The elements of an array, what a write behind them answers, and what leaving its monitor does.
fn array_answer(alloc: Global, heap: &mut Heap, at: Ref, len: u32) -> Option<String> {
    let put = heap.put(at, len as usize, Value::Null);
    let is_left = heap.leave(at);
    let values = heap.object(at)?.values.as_slice();
    format!(in alloc; "{at:?} {values:?} {put:?} {is_left}").ok()
}

// What the first step of a run comes to and, at its beginning, the action of a line; and both in a typed world.
fn beginning(alloc: Global, tree: &Tree, line: &str) -> Option<String> {
    let actions = read_script(alloc, line.as_bytes()).ok()?;
    let typed = TypedFolder::new(alloc);
    let answer = match actions.as_slice().first() {
        Some(action) => action_answer(alloc, tree, &typed, action),
        None => None,
    };
    drop(typed);
    drop(actions);
    answer
}

fn action_answer(
    alloc: Global,
    tree: &Tree,
    typed: &TypedFolder,
    action: &Action,
) -> Option<String> {
    let stepped = first_step(alloc, tree)?;
    let acted = first_action(alloc, tree, action)?;
    let typed_stepped = first_typed_step(alloc, tree, typed)?;
    let typed_acted = first_typed_action(alloc, tree, typed, action)?;
    format!(in alloc; "{stepped:?} {acted:?} {typed_stepped:?} {typed_acted:?}").ok()
}

fn first_step(alloc: Global, tree: &Tree) -> Option<Outcome> {
    let mut world = World::start(alloc, tree).ok()?;
    let stepped = step(alloc, tree, &mut world).ok();
    drop(world);
    stepped
}

fn first_action(alloc: Global, tree: &Tree, action: &Action) -> Option<Acted> {
    let mut world = World::start(alloc, tree).ok()?;
    let acted = act(alloc, tree, &mut world, action).ok();
    drop(world);
    acted
}

fn first_typed_step(alloc: Global, tree: &Tree, typed: &TypedFolder) -> Option<Outcome> {
    let mut world = World::start(alloc, tree).ok()?;
    let stepped = stays_typed(alloc, tree, typed, &mut world).ok();
    drop(world);
    stepped
}

fn first_typed_action(
    alloc: Global,
    tree: &Tree,
    typed: &TypedFolder,
    action: &Action,
) -> Option<Acted> {
    let mut world = World::start(alloc, tree).ok()?;
    let acted = acts_typed(alloc, tree, typed, &mut world, action).ok();
    drop(world);
    acted
}
