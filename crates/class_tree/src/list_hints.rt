//! Where lists of superinterfaces may stand in one another. Nothing is proved of what is found here but that it is safe: whoever
//! takes it compares.
use crate::headers::Headers;
use crate::lists::Lists;
use class_model::NoMemory;
use std::alloc::Global;

/// Items, and for each class where among them its superinterfaces may stand: from this place on.
#[derive(Drop)]
pub(crate) struct ListHints {
    pub items: Vec<usize>,
    pub starts: Vec<usize>,
}

// No place.
const NONE: usize = usize::MAX;

/// The place of the list of a number.
pub(crate) fn start_of(starts: &[usize], number: usize) -> usize {
    starts.get(number).copied().unwrap_or(NONE)
}

/// The superinterfaces of the lowest classes, and the places of those of the classes above them, where all of these stand one
/// behind another. The order is of classes behind those that they name.
pub(crate) fn list_hints(
    alloc: Global,
    headers: &Headers<'_>,
    graph: &Lists<usize>,
    order: &[usize],
) -> Result<ListHints, NoMemory> {
    let count = graph.len();
    let mut hints = ListHints {
        items: Vec::new(alloc),
        starts: vec![in alloc; NONE; count]?,
    };
    let mut search = Search {
        stack: Vec::new(alloc),
        places: vec![in alloc; NONE; count]?,
        alike: vec![in alloc; NONE; count]?,
    };
    for number in order.iter().rev() {
        if let Some(supers) = Supers::of(headers, graph, *number) {
            if supers.has_interface() && start_of(hints.starts.as_slice(), *number) == NONE {
                let other = start_of(search.alike.as_slice(), supers.first());
                let start = start_of_alike(graph, &hints, *number, other);
                set_at(hints.starts.as_mut_slice(), *number, start);
                if start == NONE {
                    search.walk(headers, graph, *number, &mut hints)?;
                }
            }
        }
    }
    Ok(hints)
}

// The place of the list of another class, if both name the same classes.
fn start_of_alike(graph: &Lists<usize>, hints: &ListHints, number: usize, other: usize) -> usize {
    if number < graph.len() && other < graph.len() && graph.get(number) == graph.get(other) {
        start_of(hints.starts.as_slice(), other)
    } else {
        NONE
    }
}

// Sets an item, if it is there.
fn set_at(items: &mut [usize], at: usize, value: usize) {
    if let Some(item) = items.get_mut(at) {
        *item = value;
    }
}

// The classes that a class names, its interfaces first.
#[derive(Clone, Copy)]
struct Supers<'a> {
    numbers: &'a [usize],
    has_superclass: bool,
}

impl<'a> Supers<'a> {
    fn of(headers: &Headers<'_>, graph: &'a Lists<usize>, number: usize) -> Option<Supers<'a>> {
        let header = headers.get(number)?;
        if number >= graph.len() {
            return None;
        }
        Some(Supers {
            numbers: graph.get(number),
            has_superclass: header.super_name.is_some(),
        })
    }

    fn has_interface(self) -> bool {
        if self.has_superclass {
            self.numbers.len() > 1
        } else {
            !self.numbers.is_empty()
        }
    }

    // The first interface, or else the superclass.
    fn first(self) -> usize {
        match self.get(0) {
            Some(Super::Interface(number) | Super::Superclass(number)) => number,
            None => NONE,
        }
    }

    fn get(self, at: usize) -> Option<Super> {
        let place = if self.has_superclass {
            at.saturating_add(1)
        } else {
            at
        };
        match self.numbers.get(place) {
            Some(number) => Some(Super::Interface(*number)),
            None if self.has_superclass && place == self.numbers.len() => {
                self.numbers.first().copied().map(Super::Superclass)
            }
            None => None,
        }
    }
}

#[derive(Clone, Copy)]
enum Super {
    Interface(usize),
    Superclass(usize),
}

// A class whose superinterfaces are being listed from a place on, how many of those that it names were, and the least place
// at which one of them stood already.
#[derive(Clone, Copy)]
struct Open {
    number: usize,
    start: usize,
    next: usize,
    least: usize,
}

impl Open {
    fn new(number: usize, start: usize) -> Self {
        Open {
            number,
            start,
            next: 0,
            least: NONE,
        }
    }
}

// A depth-first search upwards.
#[derive(Drop)]
struct Search {
    stack: Vec<Open>,
    // where each class stands among the items that were listed last with it
    places: Vec<usize>,
    // by the first interface that it names, the last class whose list has a place
    alike: Vec<usize>,
}

impl Search {
    // Lists the superinterfaces of a class.
    fn walk(
        &mut self,
        headers: &Headers<'_>,
        graph: &Lists<usize>,
        number: usize,
        hints: &mut ListHints,
    ) -> Result<(), NoMemory> {
        let begin = hints.items.len();
        self.stack.push(Open::new(number, begin))?;
        for _ in 0..u64::MAX {
            let Some(mut open) = self.stack.pop() else {
                break;
            };
            match Supers::of(headers, graph, open.number).and_then(|supers| supers.get(open.next)) {
                None => self.close(headers, graph, open, hints),
                Some(next) => {
                    open.next = open.next.saturating_add(1);
                    self.meet(open, next, begin, hints)?;
                }
            }
        }
        Ok(())
    }

    // Opens a class that another names, unless its list stands already among the items from a place on.
    fn meet(
        &mut self,
        mut open: Open,
        next: Super,
        begin: usize,
        hints: &mut ListHints,
    ) -> Result<(), NoMemory> {
        let number = match next {
            Super::Superclass(number) => {
                self.stack.push(open)?;
                number
            }
            Super::Interface(number) => {
                let place = start_of(self.places.as_slice(), number);
                if begin <= place && place < hints.items.len() {
                    open.least = open.least.min(place);
                    self.stack.push(open)?;
                    return Ok(());
                }
                set_at(self.places.as_mut_slice(), number, hints.items.len());
                hints.items.push(number)?;
                self.stack.push(open)?;
                number
            }
        };
        self.stack.push(Open::new(number, hints.items.len()))?;
        Ok(())
    }

    // Ends the list of a class. It is whole where none of it stood before it.
    fn close(
        &mut self,
        headers: &Headers<'_>,
        graph: &Lists<usize>,
        open: Open,
        hints: &mut ListHints,
    ) {
        let is_new = start_of(hints.starts.as_slice(), open.number) == NONE;
        if is_new && open.least >= open.start {
            set_at(hints.starts.as_mut_slice(), open.number, open.start);
            if let Some(supers) = Supers::of(headers, graph, open.number) {
                set_at(self.alike.as_mut_slice(), supers.first(), open.number);
            }
        }
        if let Some(below) = self.stack.last_mut() {
            below.least = below.least.min(open.least);
        }
    }
}
