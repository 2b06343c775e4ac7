//! The superinterfaces of each class, in depth-first order.
ghost use Rattle.std.specs.Prelude.{◌≡◌, ◌<◌, ◌∷◌, ◌++◌, ℕ, [], length, map, set, unwrap_or, option_map, option_to_list, is_some, replicate, slice_index_or, IfOk, IfSome, IsSome, IsTrue, OnOk};
ghost use Rattle.std.specs.List.{All};
ghost use Rattle.class_model.specs.Checks.{AllHold};
ghost use Rattle.class_tree.specs.Inner.Graphs.{IsTopological, IsOneOf};
ghost use Rattle.class_tree.specs.Inner.InterfaceNumbers.{with_number, with_numbers, with_lists, AreMarks, AreLists, AreNumberLists, IsOnce};
ghost use Rattle.class_tree.specs.Inner.Nodes.{graph_of, place_at, AreInterfaceLists};
ghost use Rattle.class_tree.specs.Steps.{hierarchy_checks};
ghost use Rattle.class_tree.specs.Trees.{IsInOrder};

use crate::headers::Headers;
use crate::list_hints::{ListHints, list_hints, start_of};
use crate::lists::Lists;
use crate::place::Place;
use class_model::{Header, ListOf, NoMemory};
use std::alloc::Global;

/// The superinterfaces of each class, each once, by the number of the class. The order is of all classes, each behind
/// those that it names.
pub(crate) fn interface_lists(
    alloc: Global,
    headers: &Headers<'_>,
    graph: &Lists<usize>,
    order: &[usize],
) -> Result<Lists<Place>, NoMemory>
    requires in_order { IsInOrder headers.now }
    requires graph { graph.now ≡ graph_of headers.now }
    requires topological { IsTopological graph.now order.now }
    requires all { (node : ℕ) → node < length graph.now → IsOneOf order.now node }
    requires hierarchy { AllHold (hierarchy_checks headers.now) }
    ensures { IfOk result (λ lists. AreInterfaceLists headers.now lists) }
{
    let numbers = number_lists(alloc, headers, graph, order)?;
    let places = numbers.into_places(alloc, headers)?;
    Ok(places)
}

/// The places of the classes of these numbers.
pub(crate) fn places(
    alloc: Global,
    headers: &Headers<'_>,
    numbers: &[usize],
) -> Result<ListOf<Place>, NoMemory>
    ensures { IfOk result (λ places. places ≡ map (place_at headers.now) numbers.now) }
{
    let mut places = Vec::with_capacity(alloc, numbers.len())?;
    for number in numbers {
        places.push(headers.place(*number))?;
    }
    Ok(ListOf::from_vec(places))
}

// The superinterfaces of each class, as numbers.
fn number_lists(
    alloc: Global,
    headers: &Headers<'_>,
    graph: &Lists<usize>,
    order: &[usize],
) -> Result<Lists<usize>, NoMemory>
    requires in_order { IsInOrder headers.now }
    requires graph { graph.now ≡ graph_of headers.now }
    requires topological { IsTopological graph.now order.now }
    requires all { (node : ℕ) → node < length graph.now → IsOneOf order.now node }
    requires hierarchy { AllHold (hierarchy_checks headers.now) }
    ensures { IfOk result (λ lists. AreNumberLists headers.now lists) }
{
    let ListHints { items, starts } = list_hints(alloc, headers, graph, order)?;
    let mut lists = empty_lists(alloc, items, headers.len())?;
    let mut table = vec![in alloc; false; headers.len()]?;
    let marks = table.as_mut_slice();
    for number in order {
        let header = headers.get(*number).unwrap();
        let (superclass, interfaces) = split_supers(header, graph.get(*number));
        let guess = start_of(starts.as_slice(), *number);
        put_list(
            alloc, *number, superclass, interfaces, guess, &mut lists, marks,
        )?;
    }
    Ok(lists)
}

// As many empty lists, and items that lists may be found among.
fn empty_lists(alloc: Global, items: Vec<usize>, count: usize) -> Result<Lists<usize>, NoMemory>
    ensures { IfOk result (λ lists. lists ≡ replicate count []) }
{
    let mut lists = Lists::among(alloc, items, count)?;
    for _ in 0..count {
        lists.push(&[])?;
    }
    Ok(lists)
}

// The number of the superclass, if there is one, and those of the interfaces.
fn split_supers<'a>(header: &Header, supers: &'a [usize]) -> (Option<usize>, &'a [usize])
    requires { IsSome header.now.super_name → 0 < length supers.now }
    ensures parts { supers.now ≡ option_to_list result.0 ++ result.1.now }
    ensures superclass { is_some result.0 ≡ is_some header.now.super_name }
{
    match (&header.super_name, supers) {
        (Some(_), [superclass, interfaces @ ..]) => (Some(*superclass), interfaces),
        _ => (None, supers),
    }
}

// Puts the superinterfaces of a class in the place of the list of its number. A class that names no interface shares the list of
// its superclass; what stands already among the items from the guessed place on is shared too.
fn put_list(
    alloc: Global,
    number: usize,
    superclass: Option<usize>,
    interfaces: &[usize],
    guess: usize,
    lists: &mut Lists<usize>,
    marks: &mut [bool],
) -> Result<(), NoMemory>
    requires lists { AreLists (length marks.old) lists.old }
    requires marks { AreMarks marks.old [] }
    requires number { number < length marks.old }
    requires superclass { IfSome superclass (λ above. above < length marks.old) }
    requires interfaces { All (λ one. one < length marks.old) interfaces.now }
    requires above { IfSome superclass (λ above. IsOnce (slice_index_or lists.old above [])) }
    requires only { All (λ one. IsOnce (one ∷ slice_index_or lists.old one [])) interfaces.now }
    ensures list { OnOk result
        (lists.new
        ≡ set lists.old number
        (with_numbers []
        (with_lists lists.old interfaces.now
        ++ unwrap_or
        (option_map (λ above. slice_index_or lists.old above []) superclass)
        []))) }
    ensures marks { OnOk result (AreMarks marks.new []) }
{
    if let (Some(above), []) = (superclass, interfaces) {
        lists.share(number, above);
        return Ok(());
    }
    if let [only] = interfaces {
        if has_none(lists, superclass) && lists.share_behind(number, *only, *only, guess) {
            return Ok(());
        }
    }
    let list = list_of_class(alloc, superclass, interfaces, lists, marks)?;
    lists.replace(number, list.as_slice(), guess)?;
    Ok(())
}

// Whether the list of a superclass, if there is one, is empty.
fn has_none(lists: &Lists<usize>, superclass: Option<usize>) -> bool
    requires { IfSome superclass (λ number. number < length lists.now) }
    ensures { IsTrue result
        → unwrap_or (option_map (λ number. slice_index_or lists.now number []) superclass) [] ≡ [] }
{
    match superclass {
        Some(number) => lists.get(number).is_empty(),
        None => true,
    }
}

// The superinterfaces of a class: each interface that it names and then those of the interface, and those of the
// superclass. The superclass of an interface, java/lang/Object, has none.
fn list_of_class(
    alloc: Global,
    superclass: Option<usize>,
    interfaces: &[usize],
    lists: &Lists<usize>,
    marks: &mut [bool],
) -> Result<ListOf<usize>, NoMemory>
    requires lists { AreLists (length marks.old) lists.now }
    requires marks { AreMarks marks.old [] }
    requires superclass { IfSome superclass (λ number. number < length marks.old) }
    requires interfaces { All (λ number. number < length marks.old) interfaces.now }
    ensures list { IfOk result (λ list.
        list
        ≡ with_numbers []
        (with_lists lists.now interfaces.now
        ++ unwrap_or (option_map (λ number. slice_index_or lists.now number []) superclass)
        [])) }
    ensures marks { OnOk result (AreMarks marks.new []) }
{
    let mut list = ListOf::new(alloc);
    for number in interfaces {
        push_new(&mut list, marks, *number)?;
        append_new(&mut list, marks, lists.get(*number))?;
    }
    if let Some(number) = superclass {
        append_new(&mut list, marks, lists.get(number))?;
    }
    unmark(marks, list.as_slice());
    Ok(list)
}

// Appends each of the numbers that the list does not have yet.
fn append_new(
    list: &mut ListOf<usize>,
    marks: &mut [bool],
    numbers: &[usize],
) -> Result<(), NoMemory>
    requires marks { AreMarks marks.old list.old }
    requires numbers { All (λ number. number < length marks.old) numbers.now }
    ensures list { OnOk result (list.new ≡ with_numbers list.old numbers.now) }
    ensures marks { OnOk result (AreMarks marks.new list.new) }
{
    for number in numbers {
        push_new(list, marks, *number)?;
    }
    Ok(())
}

// Appends a number where the list does not have it yet.
fn push_new(list: &mut ListOf<usize>, marks: &mut [bool], number: usize) -> Result<(), NoMemory>
    requires marks { AreMarks marks.old list.old }
    requires number { number < length marks.old }
    ensures list { OnOk result (list.new ≡ with_number list.old number) }
    ensures marks { OnOk result (AreMarks marks.new list.new) }
{
    if !marks[number] {
        list.push(number)?;
        marks[number] = true;
    }
    Ok(())
}

// Clears the marks of a list.
fn unmark(marks: &mut [bool], list: &[usize])
    requires { AreMarks marks.old list.now }
    ensures { AreMarks marks.new [] }
{
    for number in list {
        marks[*number] = false;
    }
}
