//! The headers of a folder and its library.
ghost use Rattle.std.specs.Prelude.{◌≡◌, ◌+◌, ◌<◌, ◌≤◌, ℕ, List, length, count_by, bytes_eq, slice_get, Some, IfSome, IfNone, if◌then◌else◌};
ghost use Rattle.std.specs.Option.{option_copied};
ghost use Rattle.class_tree.specs.Headers.{all_headers};
ghost use Rattle.class_tree.specs.Inner.Nodes.{number_of, place_at};
ghost use Rattle.class_tree.specs.Order.{first_place, place_of};
ghost use Rattle.class_tree.specs.Trees.{AreHeadersInOrder, IsBefore, IsInOrder, times};

use crate::guesses::NameGuesses;
use crate::place::Place;
use class_model::Header;
use std::marker::Model;

/// The headers of a folder's classes and of its library's. Each class has a number: those of the folder from 0 on, and
/// then those of the library.
#[derive(Drop)]
pub(crate) struct Headers<'a> {
    folder: &'a [Header],
    library: &'a [Header],
    guesses: &'a NameGuesses,
}

impl<'a> Model for Headers<'a> {
    ghost use Rattle.class_tree.specs.Headers.{Headers};

    ghost Value = { Headers };

    ghost view = { λ headers.
        record { folder = headers.folder.now; library = headers.library.now } };
}

impl<'a> Headers<'a> {
    pub(crate) fn new(folder: &'a [Header], library: &'a [Header], guesses: &'a NameGuesses) -> Self
        ensures { result ≡ record { folder = folder.now; library = library.now } }
    {
        Headers {
            folder,
            library,
            guesses,
        }
    }

    /// The same headers.
    pub(crate) fn copy(&self) -> Headers<'a>
        ensures { result ≡ self.now }
    {
        Headers::new(self.folder, self.library, self.guesses)
    }

    /// How many classes there are.
    pub(crate) fn len(&self) -> usize
        ensures { result ≡ length (all_headers self.now) }
    {
        self.folder.len() + self.library.len()
    }

    /// The class of a number.
    pub(crate) fn get(&self, number: usize) -> Option<&Header>
        ensures { option_copied result ≡ slice_get (all_headers self.now) number }
    {
        match number.checked_sub(self.folder.len()) {
            None => self.folder.get(number),
            Some(place) => self.library.get(place),
        }
    }

    /// The first class in byte order of names, and the others.
    pub(crate) fn split_first(&self) -> Option<(&'a Header, Headers<'a>)>
        requires folder { AreHeadersInOrder self.now.folder }
        requires library { AreHeadersInOrder self.now.library }
        ensures folder { IfSome result (λ split. AreHeadersInOrder split.1.folder) }
        ensures library { IfSome result (λ split. AreHeadersInOrder split.1.library) }
        ensures fewer { IfSome result
            (λ split. length (all_headers split.1) < length (all_headers self.now)) }
        ensures counts { IfSome result (λ split.
            (name : List ℕ)
            → times name self.now
            ≡ times name split.1 + (if bytes_eq name split.0.now.name then 1 else 0)) }
        ensures first { IfSome result
            (λ split. (name : List ℕ) → IsBefore name split.0.now.name → times name self.now ≡ 0) }
        ensures none { IfNone result ((name : List ℕ) → times name self.now ≡ 0) }
    {
        match (self.folder, self.library) {
            ([], []) => None,
            ([first, rest @ ..], []) => Some((
                first,
                Headers::new(rest, self.library, self.guesses),
            )),
            ([], [first, rest @ ..]) => Some((
                first,
                Headers::new(self.folder, rest, self.guesses),
            )),
            ([one, ones @ ..], [other, others @ ..]) => {
                if one.name.bytes().cmp(other.name.bytes()).is_gt() {
                    Some((other, Headers::new(self.folder, others, self.guesses)))
                } else {
                    Some((one, Headers::new(ones, self.library, self.guesses)))
                }
            }
        }
    }

    /// The place of the class of a name.
    pub(crate) fn find(&self, name: &[u8]) -> Option<Place>
        requires { IsInOrder self.now }
        ensures { result ≡ place_of self.now name.now }
    {
        match self.guess(name) {
            Some(place) => Some(place),
            None => self.search(name),
        }
    }

    // The same, where the guess at its number is right.
    fn guess(&self, name: &[u8]) -> Option<Place>
        requires { IsInOrder self.now }
        ensures { IfSome result (λ place. place_of self.now name.now ≡ Some place) }
    {
        let number = self.guesses.get(name)?;
        let header = self.get(number)?;
        if header.name.bytes() == name {
            Some(self.place(number))
        } else {
            None
        }
    }

    // The place of the class of a name, by a search.
    fn search(&self, name: &[u8]) -> Option<Place>
        requires { IsInOrder self.now }
        ensures { result ≡ place_of self.now name.now }
    {
        match find_header(self.folder, name) {
            Some(place) => Some(Place::Folder(place)),
            None => find_header(self.library, name).map(Place::Library),
        }
    }

    /// The number of the class of a name.
    pub(crate) fn number_of(&self, name: &[u8]) -> Option<usize>
        requires { IsInOrder self.now }
        ensures { result ≡ number_of self.now name.now }
    {
        match self.find(name)? {
            Place::Folder(place) => Some(place),
            Place::Library(place) => Some(self.folder.len() + place),
        }
    }

    /// The place of the class of a number.
    pub(crate) fn place(&self, number: usize) -> Place
        ensures { result ≡ place_at self.now number }
    {
        match number.checked_sub(self.folder.len()) {
            None => Place::Folder(number),
            Some(place) => Place::Library(place),
        }
    }
}

/// The place of the class of a name in a list in byte order of names, each of which stands once.
pub(crate) fn find_header(headers: &[Header], name: &[u8]) -> Option<usize>
    requires in_order { AreHeadersInOrder headers.now }
    requires once { (name : List ℕ)
        → count_by (λ header. bytes_eq name header.name) headers.now ≤ 1 }
    ensures { result ≡ first_place (λ header. bytes_eq name.now header.name) headers.now }
{
    headers
        .binary_search_by(|header| header.name.bytes().cmp(name))
        .ok()
}
