//! The superclass of each class.
ghost use Rattle.std.specs.Prelude.{◌≡◌, filter_map, map, slice_get, option_map, IfOk};
ghost use Rattle.std.specs.List.{AllByRecursion};
ghost use Rattle.class_model.specs.Checks.{AllHold};
ghost use Rattle.class_tree.specs.Headers.{all_headers, IsThere};
ghost use Rattle.class_tree.specs.Inner.Nodes.{graph_of, number_of, place_at, super_place};
ghost use Rattle.class_tree.specs.Steps.{supers, hierarchy_checks};

use crate::headers::Headers;
use crate::lists::Lists;
use crate::place::Place;
use class_model::{Header, NoMemory};
use std::alloc::Global;

/// The place of the superclass of each class, by the number of the class.
pub(crate) fn super_places(
    alloc: Global,
    headers: &Headers<'_>,
    graph: &Lists<usize>,
) -> Result<Vec<Option<Place>>, NoMemory>
    requires graph { graph.now ≡ graph_of headers.now }
    requires hierarchy { AllHold (hierarchy_checks headers.now) }
    ensures { IfOk result
        (λ places. places.items ≡ map (super_place headers.now) (all_headers headers.now)) }
{
    let mut places = Vec::with_capacity(alloc, headers.len())?;
    for number in 0..headers.len() {
        if let Some(header) = headers.get(number) {
            places.push(super_place(headers, header, graph.get(number)))?;
        }
    }
    Ok(places)
}

// The place of the superclass of a class, by the numbers of those above it, which are all there.
fn super_place(headers: &Headers<'_>, header: &Header, above: &[usize]) -> Option<Place>
    requires there { AllByRecursion (IsThere headers.now) (supers header.now) }
    requires above { above.now ≡ filter_map (number_of headers.now) (supers header.now) }
    ensures { result ≡ super_place headers.now header.now }
{
    match &header.super_name {
        Some(_) => first_place(headers, above),
        None => None,
    }
}

// The place of the first of these numbers.
fn first_place(headers: &Headers<'_>, numbers: &[usize]) -> Option<Place>
    ensures { result ≡ option_map (place_at headers.now) (slice_get numbers.now 0) }
{
    let number = numbers.get(0)?;
    Some(headers.place(*number))
}
