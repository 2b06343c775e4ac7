//! The hierarchy as a value.
ghost use Rattle.std.specs.Prelude.{◌≡◌, ℕ, List, Option, Some, true, false, map, option_and_then, IsSome, IfSome};
ghost use Rattle.std.specs.Option.{option_copied, option_map_or};
ghost use Rattle.class_tree.specs.Headers.{Name, headers_of};
ghost use Rattle.class_tree.specs.Interfaces.{AreSuperinterfaces};
ghost use Rattle.class_tree.specs.Names as names;
ghost use Rattle.class_tree.specs.Inner.Nodes.{place_at};
ghost use Rattle.class_tree.specs.Order.{header_at, place_of, member_place, members_of};
ghost use Rattle.class_tree.specs.Trees.{IsTree};

use crate::guesses::NameGuesses;
use crate::headers::Headers;
use crate::links::Links;
use crate::members::{MemberKind, find_member, members_of};
use crate::names::is_interface;
use crate::place::Place;
use class_model::{ClassFile, Header, ListOf, Text};
use std::marker::Model;

/// A list of class files.
pub type ClassFileList = ListOf<ClassFile>;

/// A list of headers.
pub type HeaderList = ListOf<Header>;

/// The classes of a folder and of its library, which are a hierarchy. Contracts see both lists, in byte order of names.
pub struct Tree {
    pub(crate) folder: ClassFileList,
    pub(crate) library: HeaderList,
    // of the classes of the folder
    pub(crate) headers: Vec<Header>,
    pub(crate) guesses: NameGuesses,
    pub(crate) links: Links,
}

// Written out: a derived drop would be spelled out, field by field, in each function that drops one, and be proved there.
impl Drop for Tree {
    fn drop(self) {
        let Tree {
            folder: _,
            library: _,
            headers: _,
            guesses: _,
            links: _,
        } = self;
    }
}

impl Model for Tree {
    ghost use Rattle.class_tree.specs.Headers.{Classes};
    ghost use Rattle.class_tree.specs.Inner.Nodes.{AreLinks};

    ghost Value = { Classes };

    ghost view = { λ tree. record { folder = tree.folder; library = tree.library } };

    ghost invariant = { λ tree.
        AreLinks (record { folder = tree.folder; library = tree.library }) tree.headers.items
        tree.links };
}

impl Tree {
    /// The classes of the folder, in byte order of their names.
    pub fn folder(&self) -> &ClassFileList
        ensures same { result.now ≡ self.now.folder }
        ensures tree { IsTree self.now }
    {
        &self.folder
    }

    /// The classes of the library, in byte order of their names.
    pub fn library(&self) -> &HeaderList
        ensures same { result.now ≡ self.now.library }
        ensures tree { IsTree self.now }
    {
        &self.library
    }

    /// The place of the class of a name.
    pub fn place(&self, name: &Text) -> Option<Place>
        ensures { result ≡ place_of (headers_of self.now) name.now }
    {
        self.find(name.bytes())
    }

    /// The place of the class of a name that is given as bytes.
    pub fn find(&self, name: &[u8]) -> Option<Place>
        ensures tree { IsTree self.now }
        ensures same { result ≡ place_of (headers_of self.now) name.now }
    {
        self.all().find(name)
    }

    /// The header of the class at a place.
    pub fn header(&self, place: Place) -> Option<&Header>
        ensures { option_copied result ≡ header_at (headers_of self.now) place }
    {
        match place {
            Place::Folder(place) => self.headers.get(place),
            Place::Library(place) => self.library.get(place),
        }
    }

    /// The class at a place.
    pub(crate) fn class_at(&self, place: Place) -> &Header
        requires { IsSome (header_at (headers_of self.now) place) }
        ensures { header_at (headers_of self.now) place ≡ Some result.now }
    {
        match place {
            Place::Folder(place) => &self.headers[place],
            Place::Library(place) => &self.library.as_slice()[place],
        }
    }

    /// Whether the class at a place is an interface.
    pub(crate) fn is_interface(&self, place: Place) -> bool
        ensures { result
            ≡ option_map_or names.is_interface (header_at (headers_of self.now) place) false }
    {
        match self.header(place) {
            Some(header) => is_interface(header),
            None => false,
        }
    }

    /// The place of the superclass of the class at a place.
    pub fn superclass(&self, place: Place) -> Option<Place>
        ensures { result
            ≡ option_and_then
            (λ header. option_and_then (place_of (headers_of self.now)) header.super_name)
            (header_at (headers_of self.now) place) }
    {
        let _class = self.header(place)?;
        *self.links.superclasses.get(self.number(place))?
    }

    /// The superinterfaces of the class at a place, each once, in depth-first order: each before its own, those of the
    /// class before those of its superclass.
    pub fn superinterfaces(&self, place: Place) -> &[Place]
        requires { IsSome (header_at (headers_of self.now) place) }
        ensures { IfSome (header_at (headers_of self.now) place) (λ header.
            (names : List Name)
            × AreSuperinterfaces (headers_of self.now) header.name names
            × (map (place_of (headers_of self.now)) names ≡ map Some result.now)) }
    {
        self.links.interfaces.get(self.number(place))
    }

    /// The number of the first field of a name and descriptor that the class at a place declares, counted from 0.
    pub fn field(&self, place: Place, name: &Text, desc: &Text) -> Option<usize>
        ensures { result
            ≡ option_and_then (λ header. member_place name.now desc.now header.fields)
            (header_at (headers_of self.now) place) }
    {
        self.member(MemberKind::Field, place, name, desc)
    }

    /// The number of the first method of a name and descriptor that the class at a place declares, counted from 0.
    pub fn method(&self, place: Place, name: &Text, desc: &Text) -> Option<usize>
        ensures { result
            ≡ option_and_then (λ header. member_place name.now desc.now header.methods)
            (header_at (headers_of self.now) place) }
    {
        self.member(MemberKind::Method, place, name, desc)
    }

    /// The number of the first field or method of a name and descriptor that the class at a place declares, counted from 0.
    pub fn member(&self, kind: MemberKind, place: Place, name: &Text, desc: &Text) -> Option<usize>
        ensures { result
            ≡ option_and_then (λ header. member_place name.now desc.now (members_of kind header))
            (header_at (headers_of self.now) place) }
    {
        let header = self.header(place)?;
        find_member(
            members_of(header, kind),
            self.links.members(kind).get(self.number(place)),
            name.bytes(),
            desc.bytes(),
        )
    }

    // The headers of all classes.
    fn all(&self) -> Headers<'_>
        ensures same { result ≡ headers_of self.now }
        ensures tree { IsTree self.now }
    {
        Headers::new(
            self.headers.as_slice(),
            self.library.as_slice(),
            &self.guesses,
        )
    }

    // The number of the class at a place.
    fn number(&self, place: Place) -> usize
        requires { IsSome (header_at (headers_of self.now) place) }
        ensures { place_at (headers_of self.now) result ≡ place }
    {
        match place {
            Place::Folder(place) => place,
            Place::Library(place) => self.headers.len() + place,
        }
    }
}
