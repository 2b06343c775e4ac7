//! Numbers of the folder's classes by which the classes below each, as superclasses lead to it, have the numbers behind its own.
ghost use Rattle.std.specs.Prelude.{◌≡◌, Some, IsTrue};
ghost use Rattle.class_model.specs.declared.header.Header.{Header};
ghost use Rattle.class_tree.specs.Headers.{headers_of};
ghost use Rattle.class_tree.specs.Order.{header_at};
ghost use Rattle.class_tree.specs.declared.place.Place.TheVariants.{Folder};
ghost use Rattle.member_link.specs.Inner.Spans.{AreSpans, IsSpan, IsWithinSuper};

use class_model::NoMemory;
use class_tree::{Place, Tree};
use std::alloc::Global;

/// The number of a class, and the last of those of the classes below it: theirs are the numbers between.
#[derive(Clone, Copy)]
pub(crate) struct Span {
    pub first: usize,
    pub last: usize,
}

/// The spans of the classes of the folder by their indices, and their indices by their numbers.
#[derive(Drop)]
pub(crate) struct Spans {
    pub of_classes: Vec<Span>,
    pub indices: Vec<usize>,
}

/// Whether each class of the folder has a number of its own, in front of its span's end and within the span of its superclass.
pub(crate) fn are_spans(tree: &Tree, spans: &Spans) -> bool
    ensures { IsTrue result → AreSpans (headers_of tree.now) spans.now }
{
    for index in 0..tree.folder().len() {
        if !is_span(tree, spans, index) {
            return false;
        }
    }
    true
}

// Whether a class has.
fn is_span(tree: &Tree, spans: &Spans, index: usize) -> bool
    ensures { IsTrue result → IsSpan (headers_of tree.now) spans.now index }
{
    match spans.of_classes.get(index) {
        Some(span) => {
            span.first <= span.last
                && spans.indices.get(span.first) == Some(&index)
                && is_within_super(tree, spans, index, *span)
        }
        None => false,
    }
}

// Whether the span of a class is within that of its superclass, where that is one of the folder.
fn is_within_super(tree: &Tree, spans: &Spans, index: usize, span: Span) -> bool
    ensures { IsTrue result → IsWithinSuper (headers_of tree.now) spans.now index span }
{
    match tree.superclass(Place::Folder(index)) {
        Some(Place::Folder(above)) => match spans.of_classes.get(above) {
            Some(high) => high.first < span.first && span.last <= high.last,
            None => false,
        },
        _ => true,
    }
}

/// A guess at the spans, of which nothing is proved: whoever asks lets `are_spans` check them.
pub(crate) fn guess_spans(alloc: Global, tree: &Tree) -> Result<Spans, NoMemory> {
    let supers = super_indices(alloc, tree)?;
    let upwards = upwards(alloc, supers.as_slice())?;
    let sizes = sizes(alloc, supers.as_slice(), upwards.as_slice())?;
    let of_classes = numbered(
        alloc,
        supers.as_slice(),
        upwards.as_slice(),
        sizes.as_slice(),
    )?;
    let indices = indices(alloc, of_classes.as_slice())?;
    Ok(Spans {
        of_classes,
        indices,
    })
}

// The index of the superclass of each class of the folder, where that is one of the folder.
fn super_indices(alloc: Global, tree: &Tree) -> Result<Vec<Option<usize>>, NoMemory> {
    let mut supers = Vec::new(alloc);
    for index in 0..tree.folder().len() {
        supers.push(match tree.superclass(Place::Folder(index)) {
            Some(Place::Folder(above)) => Some(above),
            _ => None,
        })?;
    }
    Ok(supers)
}

// The indices of the classes, each before that of its superclass.
fn upwards(alloc: Global, supers: &[Option<usize>]) -> Result<Vec<usize>, NoMemory> {
    let mut waited_for = subclass_counts(alloc, supers)?;
    let mut order = lowest(alloc, waited_for.as_slice())?;
    for at in 0..supers.len() {
        let index = order.get(at).copied().unwrap_or(supers.len());
        if let Some(Some(above)) = supers.get(index).copied() {
            if is_last(waited_for.as_mut_slice(), above) {
                order.push(above)?;
            }
        }
    }
    Ok(order)
}

// How many classes each class is the superclass of.
fn subclass_counts(alloc: Global, supers: &[Option<usize>]) -> Result<Vec<usize>, NoMemory> {
    let mut counts = vec![in alloc; 0usize; supers.len()]?;
    for above in supers {
        if let Some(above) = above {
            if let Some(count) = counts.get_mut(*above) {
                *count = count.wrapping_add(1);
            }
        }
    }
    Ok(counts)
}

// The indices of the classes that are the superclass of none.
fn lowest(alloc: Global, counts: &[usize]) -> Result<Vec<usize>, NoMemory> {
    let mut order = Vec::new(alloc);
    for (index, count) in counts.iter().enumerate() {
        if *count == 0 {
            order.push(index)?;
        }
    }
    Ok(order)
}

// Counts one subclass less that a class waits for, and tells whether that was the last one.
fn is_last(waited_for: &mut [usize], index: usize) -> bool {
    match waited_for.get_mut(index) {
        Some(count) => {
            *count = count.wrapping_sub(1);
            *count == 0
        }
        None => false,
    }
}

// How many classes each class and those below it are.
fn sizes(
    alloc: Global,
    supers: &[Option<usize>],
    upwards: &[usize],
) -> Result<Vec<usize>, NoMemory> {
    let mut sizes = vec![in alloc; 1usize; supers.len()]?;
    for index in upwards {
        let size = sizes.get(*index).copied().unwrap_or(0);
        if let Some(Some(above)) = supers.get(*index).copied() {
            if let Some(sum) = sizes.get_mut(above) {
                *sum = sum.wrapping_add(size);
            }
        }
    }
    Ok(sizes)
}

// The span of each class: its number is the next that is free in the span of its superclass.
fn numbered(
    alloc: Global,
    supers: &[Option<usize>],
    upwards: &[usize],
    sizes: &[usize],
) -> Result<Vec<Span>, NoMemory> {
    let mut spans = vec![in alloc; Span { first: 0, last: 0 }; supers.len()]?;
    let mut free = vec![in alloc; 0usize; supers.len()]?;
    let mut free_root = 0usize;
    for index in upwards.iter().rev() {
        let size = sizes.get(*index).copied().unwrap_or(0);
        let first = match supers.get(*index).copied() {
            Some(Some(above)) => take_numbers(free.as_mut_slice(), above, size),
            _ => {
                let first = free_root;
                free_root = free_root.wrapping_add(size);
                first
            }
        };
        set_span(
            spans.as_mut_slice(),
            free.as_mut_slice(),
            *index,
            first,
            size,
        );
    }
    Ok(spans)
}

// Takes so many numbers of those that are free in the span of a class: the first of them.
fn take_numbers(free: &mut [usize], index: usize, size: usize) -> usize {
    match free.get_mut(index) {
        Some(next) => {
            let first = *next;
            *next = first.wrapping_add(size);
            first
        }
        None => 0,
    }
}

// Gives a class its span. The numbers behind its own are free.
fn set_span(spans: &mut [Span], free: &mut [usize], index: usize, first: usize, size: usize) {
    if let Some(span) = spans.get_mut(index) {
        *span = Span {
            first,
            last: first.wrapping_add(size).wrapping_sub(1),
        };
    }
    if let Some(next) = free.get_mut(index) {
        *next = first.wrapping_add(1);
    }
}

// The indices of classes by their numbers.
fn indices(alloc: Global, spans: &[Span]) -> Result<Vec<usize>, NoMemory> {
    let mut indices = vec![in alloc; 0; spans.len()]?;
    for (index, span) in spans.iter().enumerate() {
        if let Some(slot) = indices.get_mut(span.first) {
            *slot = index;
        }
    }
    Ok(indices)
}
