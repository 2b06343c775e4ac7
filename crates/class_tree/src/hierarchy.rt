//! The second step: what each class is asked of those above it.
ghost use Rattle.std.specs.Prelude.{◌≡◌, ◌≢◌, ◌↔◌, ◌-◌, ◌<◌, ◌≤◌, ◌==◌, ℕ, true, false, map, filter_map, length, slice_get, slice_index_or, option_and_then, nat_le, Some, None, IfOk, IfSome, IsTrue, IsFalse};
ghost use Rattle.std.specs.List.{AllByRecursion, list_all};
ghost use Rattle.std.specs.Option.{option_copied, option_map_or};
ghost use Rattle.class_model.specs.declared.header.Header.{Header};
ghost use Rattle.class_tree.specs.Answers.{Answers};
ghost use Rattle.class_tree.specs.Inner.Graphs.{IsOneOf, IsPath, IsTopological};
ghost use Rattle.class_tree.specs.Headers.{all_headers, class_named};
ghost use Rattle.class_tree.specs.Names as names;
ghost use Rattle.class_tree.specs.Inner.Nodes.{graph_of, number_of};
ghost use Rattle.class_tree.specs.Steps.{supers, hierarchy_checks, folder_checks, library_checks, IsExtensible, FitsKinds};
ghost use Rattle.class_tree.specs.Subtype.{IsBelow};
ghost use Rattle.class_tree.specs.Trees.{IsInOrder};

use crate::fault::{LinkFault, LinkRule};
use crate::graph::reaches;
use crate::headers::Headers;
use crate::lists::Lists;
use crate::names::{OBJECT, is_interface};
use crate::place::Place;
use crate::question::ask;
use class_model::{ACC_FINAL, Header, NoMemory, has};
use std::alloc::Global;

/// Asks each class of the folder, and then each of the library, of those above it. The order is of as many classes as
/// stand behind those that they name: none of them is on a circle.
pub(crate) fn check_hierarchy(
    alloc: Global,
    headers: &Headers<'_>,
    graph: &Lists<usize>,
    order: &[usize],
) -> Result<(), LinkFault>
    requires in_order { IsInOrder headers.now }
    requires graph { graph.now ≡ graph_of headers.now }
    requires topological { IsTopological graph.now order.now }
    ensures { Answers (hierarchy_checks headers.now) result }
{
    let placed = placed_nodes(alloc, graph.len(), order)?;
    let object = headers.number_of(OBJECT);
    for number in 0..headers.len() {
        let is_placed = placed[number];
        let is_on_circle = !is_placed && reaches(alloc, graph, number, number)?;
        let is_object = object == Some(number);
        check_class(alloc, headers, graph, number, is_on_circle, is_object)?;
    }
    Ok(())
}

// Whether each node below this number stands in an order.
fn placed_nodes(alloc: Global, len: usize, order: &[usize]) -> Result<Vec<bool>, NoMemory>
    requires { (node : ℕ) → IsOneOf order.now node → node < len }
    ensures len { IfOk result (λ placed. length placed.items ≡ len) }
    ensures placed { IfOk result (λ placed.
        (node : ℕ) → IsTrue (slice_index_or placed.items node false) → IsOneOf order.now node) }
{
    let mut placed = vec![in alloc; false; len]?;
    for node in order {
        placed[*node] = true;
    }
    Ok(placed)
}

// Asks the class of a number, which is above itself or not, and is java/lang/Object or not.
fn check_class(
    alloc: Global,
    headers: &Headers<'_>,
    graph: &Lists<usize>,
    number: usize,
    is_on_circle: bool,
    is_object: bool,
) -> Result<(), LinkFault>
    requires in_order { IsInOrder headers.now }
    requires graph { graph.now ≡ graph_of headers.now }
    requires number { number < length (all_headers headers.now) }
    requires circle { IsTrue is_on_circle ↔ IsPath graph.now number number }
    requires object { IsTrue is_object ↔ (number_of headers.now names.object ≡ Some number) }
    ensures folder { (header : Header)
        → slice_get headers.now.folder number ≡ Some header
        → Answers (folder_checks headers.now header) result }
    ensures library { (header : Header)
        → length headers.now.folder ≤ number
        → slice_get headers.now.library (number - length headers.now.folder) ≡ Some header
        → Answers (library_checks headers.now header) result }
{
    let Some(header) = headers.get(number) else {
        return Ok(());
    };
    let above = graph.get(number);
    match headers.place(number) {
        Place::Folder(_) => check_folder_class(
            alloc,
            headers,
            header,
            above,
            is_on_circle,
            is_object,
        ),
        Place::Library(_) => check_library_class(alloc, headers, header, above, is_on_circle),
    }
}

// Asks a class of the folder. The numbers are of those above it that are there.
fn check_folder_class(
    alloc: Global,
    headers: &Headers<'_>,
    header: &Header,
    above: &[usize],
    is_on_circle: bool,
    is_object: bool,
) -> Result<(), LinkFault>
    requires above { above.now ≡ filter_map (number_of headers.now) (supers header.now) }
    requires circle { IsTrue is_on_circle ↔ IsBelow headers.now header.now.name header.now.name }
    requires object { IsTrue is_object ↔ (header.now.name ≡ names.object) }
    ensures { Answers (folder_checks headers.now header.now) result }
{
    let name = &header.name;
    ask(alloc, are_there(header, above), name, LinkRule::Missing)?;
    ask(alloc, !is_on_circle, name, LinkRule::Circle)?;
    ask(
        alloc,
        is_extensible(headers, header, above),
        name,
        LinkRule::FinalSuper,
    )?;
    ask(
        alloc,
        fits_folder_kinds(headers, header, above, is_object),
        name,
        LinkRule::KindOfSuper,
    )
}

// Asks a class of the library. The numbers are of those above it that are there.
fn check_library_class(
    alloc: Global,
    headers: &Headers<'_>,
    header: &Header,
    above: &[usize],
    is_on_circle: bool,
) -> Result<(), LinkFault>
    requires above { above.now ≡ filter_map (number_of headers.now) (supers header.now) }
    requires circle { IsTrue is_on_circle ↔ IsBelow headers.now header.now.name header.now.name }
    ensures { Answers (library_checks headers.now header.now) result }
{
    let name = &header.name;
    ask(alloc, are_there(header, above), name, LinkRule::Missing)?;
    ask(
        alloc,
        are_outside(headers, above),
        name,
        LinkRule::LibraryLeans,
    )?;
    ask(alloc, !is_on_circle, name, LinkRule::Circle)?;
    ask(
        alloc,
        fits_kinds(headers, header, above),
        name,
        LinkRule::KindOfSuper,
    )
}

// Whether all that a class names above it are there, by the numbers of those that are.
fn are_there(header: &Header, above: &[usize]) -> bool
    ensures { result ≡ (length above.now == length (supers header.now)) }
{
    let interfaces = header.interfaces.as_slice();
    match &header.super_name {
        None => above.len() == interfaces.len(),
        Some(_) => above.len() == interfaces.len() + 1,
    }
}

// Whether no class of these numbers is one of the folder.
fn are_outside(headers: &Headers<'_>, numbers: &[usize]) -> bool
    ensures { result ≡ list_all (λ number. nat_le (length headers.now.folder) number) numbers.now }
{
    numbers.iter().all(|number| is_outside(headers, *number))
}

/// Whether the class of a number is none of the folder.
pub(crate) fn is_outside(headers: &Headers<'_>, number: usize) -> bool
    ensures { result ≡ nat_le (length headers.now.folder) number }
{
    match headers.place(number) {
        Place::Folder(_) => false,
        Place::Library(_) => true,
    }
}

// The superclass of a class, all above which are there under these numbers.
fn superclass<'a>(headers: &'a Headers<'_>, header: &Header, above: &[usize]) -> Option<&'a Header>
    requires { map (number_of headers.now) (supers header.now) ≡ map Some above.now }
    ensures { option_copied result
        ≡ option_and_then (class_named headers.now) header.now.super_name }
{
    match (&header.super_name, above) {
        (Some(_), [number, ..]) => headers.get(*number),
        _ => None,
    }
}

// The numbers of the interfaces of a class, all above which are there under these.
fn interfaces<'a>(headers: &Headers<'_>, header: &Header, above: &'a [usize]) -> &'a [usize]
    requires { map (number_of headers.now) (supers header.now) ≡ map Some above.now }
    ensures { map (number_of headers.now) header.now.interfaces ≡ map Some result.now }
{
    match (&header.super_name, above) {
        (Some(_), [_, interfaces @ ..]) => interfaces,
        _ => above,
    }
}

// Whether the superclass is no final class.
fn is_extensible(headers: &Headers<'_>, header: &Header, above: &[usize]) -> bool
    requires { map (number_of headers.now) (supers header.now) ≡ map Some above.now }
    ensures { IsTrue result ↔ IsExtensible headers.now header.now }
{
    match superclass(headers, header, above) {
        Some(superclass) => !has(superclass.flags, ACC_FINAL),
        None => true,
    }
}

// Whether the kinds fit, and the class is not java/lang/Object.
fn fits_folder_kinds(
    headers: &Headers<'_>,
    header: &Header,
    above: &[usize],
    is_object: bool,
) -> bool
    requires above { map (number_of headers.now) (supers header.now) ≡ map Some above.now }
    requires object { IsTrue is_object ↔ (header.now.name ≡ names.object) }
    ensures { IsTrue result
        ↔ (FitsKinds headers.now header.now × (header.now.name ≢ names.object)) }
{
    fits_kinds(headers, header, above) && !is_object
}

// Whether the superclass is no interface, each interface is one, and the superclass of an interface and of no other
// than java/lang/Object is this.
fn fits_kinds(headers: &Headers<'_>, header: &Header, above: &[usize]) -> bool
    requires { map (number_of headers.now) (supers header.now) ≡ map Some above.now }
    ensures { IsTrue result ↔ FitsKinds headers.now header.now }
{
    extends_no_interface(headers, header, above)
        && implements_interfaces(headers, header, above)
        && fits_root(header)
}

// Whether the superclass is no interface.
fn extends_no_interface(headers: &Headers<'_>, header: &Header, above: &[usize]) -> bool
    requires { map (number_of headers.now) (supers header.now) ≡ map Some above.now }
    ensures { IsTrue result
        ↔ IfSome header.now.super_name (λ name.
        IfSome (class_named headers.now name) (λ class. IsFalse (names.is_interface class))) }
{
    match superclass(headers, header, above) {
        Some(superclass) => !is_interface(superclass),
        None => true,
    }
}

// Whether each interface is one.
fn implements_interfaces(headers: &Headers<'_>, header: &Header, above: &[usize]) -> bool
    requires { map (number_of headers.now) (supers header.now) ≡ map Some above.now }
    ensures { IsTrue result
        ↔ AllByRecursion
        (λ name.
        IfSome (class_named headers.now name) (λ class. IsTrue (names.is_interface class)))
        header.now.interfaces }
{
    are_interfaces(headers, interfaces(headers, header, above))
}

// Whether each class of these numbers is an interface.
fn are_interfaces(headers: &Headers<'_>, numbers: &[usize]) -> bool
    ensures { result
        ≡ list_all
        (λ number.
        option_map_or names.is_interface (slice_get (all_headers headers.now) number) true)
        numbers.now }
{
    numbers
        .iter()
        .all(|number| is_interface_at(headers, *number))
}

// Whether the class of a number is an interface.
fn is_interface_at(headers: &Headers<'_>, number: usize) -> bool
    ensures { result
        ≡ option_map_or names.is_interface (slice_get (all_headers headers.now) number) true }
{
    match headers.get(number) {
        Some(header) => is_interface(header),
        None => true,
    }
}

// Whether an interface has the superclass java/lang/Object, and a class with none is java/lang/Object.
fn fits_root(header: &Header) -> bool
    ensures { IsTrue result
        ↔ ((IsTrue (names.is_interface header.now) → header.now.super_name ≡ Some names.object)
        × (header.now.super_name ≡ None → header.now.name ≡ names.object)) }
{
    match &header.super_name {
        Some(name) => !is_interface(header) || name.bytes() == OBJECT,
        None => !is_interface(header) && header.name.bytes() == OBJECT,
    }
}
