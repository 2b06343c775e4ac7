//! Classes whose objects may be kept in local variables.
ghost use Rattle.std.specs.Prelude.{◌≡◌, ◌≢◌, ◌↔◌, ◌≤◌, ◌++◌, Some, IfOk, IsTrue, length, replicate, slice_get};
ghost use Rattle.std.specs.Option.{option_copied};
ghost use Rattle.class_model.specs.Descriptors as descriptors;
ghost use Rattle.class_model.specs.Header.{header_of};
ghost use Rattle.class_model.specs.declared.header.Header.{Header};
ghost use Rattle.class_tree.specs.Headers.{Name, IsThere, class_named, headers_of};
ghost use Rattle.class_tree.specs.Names.{object};
ghost use Rattle.class_tree.specs.Order.{place_of};
ghost use Rattle.class_tree.specs.declared.place.Place.TheVariants.{Folder};
ghost use Rattle.expanded_code.specs.Candidates.{IsCandidate, declares_finalizer};
ghost use Rattle.inline_expand.specs.Inner.CandidateWords.{IsFileOf, IsFitAt, IsJudged, IsKept, IsKnown, IsLeft, own_descs, units_of_all};

use crate::final_stores::stored_finals;
use crate::quiet::{folder_class, is_quiet_itself};
use class_model::{
    ACC_ABSTRACT, ACC_INTERFACE, ACC_STATIC, ClassFile, Header, ListOf, NoMemory, Text, TextList,
    has,
};
use class_tree::{OBJECT, Place, Tree, a_tree_is_a_hierarchy};
use field_constructors::{Constructors, folder_number};
use std::alloc::Global;
use std::marker::Model;

const FINALIZE: &[u8] = b"finalize";

const NO_PARAMETERS: &[u8] = b"()V";

const MOST_UNITS: usize = 64;

const MOST_CONSTANTS: u16 = 64_535;

const MOST_METHODS: usize = 65_534;

/// Whether the objects of a class of the folder may be kept in local variables.
///
/// It goes over the whole folder: for several classes make `Candidates` once.
pub fn candidate(alloc: Global, tree: &Tree, class: &Text) -> Result<bool, NoMemory>
    ensures { IfOk result (λ is. IsTrue is ↔ IsCandidate tree.now class.now) }
{
    let mut candidates = Candidates::new(alloc, tree)?;
    candidates.is_candidate(alloc, class)
}

/// The classes of a folder whose objects may be kept in local variables. Contracts see the classes of the tree.
pub struct Candidates<'t> {
    tree: &'t Tree,
    // by the number of a class of the folder: whether a method that is none of its instance initialisers stores into a final
    // field of it
    stored: Vec<bool>,
    constructors: Constructors<'t>,
    // by the number of a class of the folder
    judged: Vec<Judged>,
}

// Written out: a derived drop would be spelled out, field by field, in each function that drops one, and be proved there.
impl Drop for Candidates<'_> {
    fn drop(self) {
        let Candidates {
            tree: _,
            stored: _,
            constructors: _,
            judged: _,
        } = self;
    }
}

/// What is known of a class of the folder: whether the classes of its chain are fit and its fields narrow, and then the
/// descriptors of the fields.
pub(crate) enum Judged {
    Unknown,
    Unsound,
    Sound(TextList),
}

// Written out: a derived drop would be spelled out, field by field, in each function that drops one, and be proved there.
impl Drop for Judged {
    fn drop(self) {
        match self {
            Judged::Unknown => {}
            Judged::Unsound => {}
            Judged::Sound(_) => {}
        }
    }
}

// The classes of a chain up to one that is judged, upwards, and the descriptors of the fields of that one, if it is sound.
#[derive(Drop)]
struct Climbed {
    names: Vec<Text>,
    fields: Option<TextList>,
}

impl<'t> Model for Candidates<'t> {
    ghost use Rattle.std.specs.Prelude.{◌≡◌};
    ghost use Rattle.class_tree.specs.Headers.{Classes};
    ghost use Rattle.inline_expand.specs.Inner.CandidateWords.{AreFacts, AreKept};

    ghost Value = { Classes };

    ghost view = { λ candidates. candidates.tree.now };

    ghost invariant = { λ candidates.
        AreFacts candidates.tree.now candidates.stored.items
        × AreKept candidates.tree.now candidates.judged.items
        × (candidates.constructors ≡ candidates.tree.now) };
}

impl<'t> Candidates<'t> {
    /// Those of the folder of a tree: what is asked of all its methods and constants is found here.
    pub fn new(alloc: Global, tree: &'t Tree) -> Result<Self, NoMemory>
        ensures { IfOk result (λ candidates. candidates ≡ tree.now) }
    {
        let stored = stored_finals(alloc, tree)?;
        let constructors = Constructors::new(alloc, tree)?;
        let judged = unknown(alloc, tree.folder().len())?;
        Ok(Candidates {
            tree,
            stored,
            constructors,
            judged,
        })
    }

    /// Whether the objects of a class may be kept in local variables.
    pub fn is_candidate(&mut self, alloc: Global, class: &Text) -> Result<bool, NoMemory>
        ensures same { self.new ≡ self.old }
        ensures decides { IfOk result (λ is. IsTrue is ↔ IsCandidate self.old class.now) }
    {
        a_tree_is_a_hierarchy(self.tree);
        let _folder = self.tree.folder();
        let Some(header) = folder_class(self.tree, class) else {
            return Ok(false);
        };
        if has(header.flags, ACC_ABSTRACT) || has(header.flags, ACC_INTERFACE) {
            return Ok(false);
        }
        let fields = self.fields_of(alloc, class)?;
        Ok(fields.is_some())
    }

    /// The descriptors of the instance fields of a class, those of the highest class first, if the classes of its chain are
    /// fit and the fields narrow.
    ///
    /// # Errors
    /// `NoMemory`, where memory runs out.
    pub(crate) fn fields_of(
        &mut self,
        alloc: Global,
        class: &Text,
    ) -> Result<Option<TextList>, NoMemory>
        requires { IsThere (headers_of self.old) class.now }
        ensures same { self.new ≡ self.old }
        ensures judged { IfOk result (IsJudged self.old class.now) }
    {
        let Climbed {
            mut names,
            mut fields,
        } = self.climb(alloc, class)?;
        while let Some(name) = names.pop() {
            fields = self.judge(alloc, &name, fields)?;
            self.keep(alloc, &name, fields.as_ref())?;
        }
        Ok(fields)
    }

    // The classes of a chain up to one that is judged.
    fn climb(&self, alloc: Global, class: &Text) -> Result<Climbed, NoMemory>
        requires { IsThere (headers_of self.now) class.now }
        ensures { IfOk result
            (λ climbed. IsLeft self.now class.now climbed.names.items climbed.fields) }
    {
        a_tree_is_a_hierarchy(self.tree);
        let mut names = Vec::new(alloc);
        let mut next = self.tree.place(class);
        while let Some(place) = next {
            let Some(header) = self.tree.header(place) else {
                unreachable!();
            };
            if let Some(fields) = self.known(alloc, place)? {
                return Ok(Climbed { names, fields });
            }
            names.push(header.name.copy()?)?;
            next = self.tree.superclass(place);
        }
        Ok(Climbed {
            names,
            fields: None,
        })
    }

    // What is known of the class at a place.
    fn known(&self, alloc: Global, place: Place) -> Result<Option<Option<TextList>>, NoMemory>
        ensures { IfOk result (IsKnown self.now place) }
    {
        let Place::Folder(number) = place else {
            return Ok(None);
        };
        match judged_at(self.judged.as_slice(), number) {
            Some(Judged::Sound(fields)) => Ok(Some(Some(copy_of(alloc, fields.as_slice())?))),
            Some(Judged::Unsound) => Ok(Some(None)),
            Some(Judged::Unknown) | None => Ok(None),
        }
    }

    // Keeps what is judged of a class.
    fn keep(
        &mut self,
        alloc: Global,
        class: &Text,
        fields: Option<&TextList>,
    ) -> Result<(), NoMemory>
        requires { IsJudged self.old class.now (option_copied fields) }
        ensures { self.new ≡ self.old }
    {
        a_tree_is_a_hierarchy(self.tree);
        let Some(number) = folder_number(self.tree, class) else {
            return Ok(());
        };
        match fields {
            Some(fields) => self.put(number, Judged::Sound(copy_of(alloc, fields.as_slice())?)),
            None => self.put(number, Judged::Unsound),
        }
        Ok(())
    }

    // Keeps what is known of the class of a number.
    fn put(&mut self, number: usize, judged: Judged)
        requires { (name : Name)
            → place_of (headers_of self.old) name ≡ Some (Folder number)
            → IsKept self.old name judged }
        ensures { self.new ≡ self.old }
    {
        if number < self.judged.len() {
            self.judged[number] = judged;
        }
    }

    // The descriptors of the fields of a class, if it is sound, by those of its superclass.
    fn judge(
        &self,
        alloc: Global,
        class: &Text,
        above: Option<TextList>,
    ) -> Result<Option<TextList>, NoMemory>
        requires there { IsThere (headers_of self.now) class.now }
        requires above { (header : Header) (super : Name)
            → class_named (headers_of self.now) class.now ≡ Some header
            → class.now ≢ object
            → header.super_name ≡ Some super
            → IsJudged self.now super above }
        ensures { IfOk result (IsJudged self.now class.now) }
    {
        a_tree_is_a_hierarchy(self.tree);
        let _folder = self.tree.folder();
        if class.bytes() == OBJECT {
            return Ok(Some(ListOf::new(alloc)));
        }
        let Some(number) = folder_number(self.tree, class) else {
            return Ok(None);
        };
        match above {
            Some(fields) => self.judge_class(alloc, class, number, fields),
            None => Ok(None),
        }
    }

    // The descriptors of the fields of the class of this number in the folder, if it is sound, by those of its superclass, which is
    // sound.
    fn judge_class(
        &self,
        alloc: Global,
        class: &Text,
        number: usize,
        above: TextList,
    ) -> Result<Option<TextList>, NoMemory>
        requires number { place_of (headers_of self.now) class.now ≡ Some (Folder number) }
        requires above { (header : Header) (super : Name)
            → class_named (headers_of self.now) class.now ≡ Some header
            → class.now ≢ object
            → header.super_name ≡ Some super
            → IsJudged self.now super (Some above) }
        ensures { IfOk result (IsJudged self.now class.now) }
    {
        a_tree_is_a_hierarchy(self.tree);
        let _folder = self.tree.folder();
        let file = &self.tree.folder().as_slice()[number];
        let Some(header) = folder_class(self.tree, class) else {
            return Ok(None);
        };
        if !self.is_fit(class, number, file, header) {
            return Ok(None);
        }
        let fields = with_own_fields(above, header)?;
        if !are_narrow(fields.as_slice()) {
            return Ok(None);
        }
        let constructor = self
            .constructors
            .of_fields(alloc, number, fields.as_slice())?;
        if constructor.is_none() {
            return Ok(None);
        }
        Ok(Some(fields))
    }

    // Whether a class by itself is fit, but for its field constructor.
    fn is_fit(&self, class: &Text, number: usize, file: &ClassFile, header: &Header) -> bool
        requires file { IsFileOf self.now class.now number file.now }
        requires header { header.now ≡ header_of file.now }
        ensures { IsTrue result ↔ IsFitAt self.now class.now number file.now }
    {
        if self.stored[number] {
            return false;
        }
        if declares_finalizer(header) {
            return false;
        }
        if !has_room(file) {
            return false;
        }
        is_quiet_itself(self.tree, class)
    }
}

// Whether constants and a method may be added to a class file.
fn has_room(file: &ClassFile) -> bool
    ensures { IsTrue result
        ↔ ((length file.now.pool ≤ 64535) × (length file.now.methods ≤ 65534)) }
{
    file.pool.count() <= MOST_CONSTANTS && file.methods.len() <= MOST_METHODS
}

// What is known of the class of a number.
fn judged_at(judged: &[Judged], number: usize) -> Option<&Judged>
    ensures { option_copied result ≡ slice_get judged.now number }
{
    judged.get(number)
}

// As many classes, of which nothing is known.
fn unknown(alloc: Global, count: usize) -> Result<Vec<Judged>, NoMemory>
    ensures { IfOk result (λ judged. judged.items ≡ replicate count Judged.Unknown) }
{
    let mut judged = Vec::new(alloc);
    for _ in 0..count {
        judged.push(Judged::Unknown)?;
    }
    Ok(judged)
}

// Equal texts, which share their bytes.
fn copy_of(alloc: Global, texts: &[Text]) -> Result<TextList, NoMemory>
    ensures { IfOk result (λ copy. copy ≡ texts.now) }
{
    let mut copy = ListOf::new(alloc);
    for text in texts {
        copy.push(text.copy()?)?;
    }
    Ok(copy)
}

// The descriptors of fields, and of those that a class declares behind them.
fn with_own_fields(fields: TextList, class: &Header) -> Result<TextList, NoMemory>
    ensures { IfOk result (λ all. all ≡ fields ++ own_descs class.now) }
{
    let mut all = fields;
    for field in class.fields.as_slice() {
        if !has(field.flags, ACC_STATIC) {
            all.push(field.desc.copy()?)?;
        }
    }
    Ok(all)
}

// Whether fields of these descriptors take at most so many local units.
fn are_narrow(fields: &[Text]) -> bool
    ensures { IsTrue result ↔ (units_of_all fields.now ≤ 64) }
{
    let mut units = 0;
    for field in fields {
        units += units_of(field);
        if units > MOST_UNITS {
            return false;
        }
    }
    true
}

// The local units of a field with a descriptor.
fn units_of(desc: &Text) -> usize
    ensures same { result ≡ descriptors.units_of (descriptors.kind_of (descriptors.type_of desc.now)) }
    ensures few { result ≤ 2 }
{
    match desc.bytes().first() {
        Some(b'D' | b'J') => 2,
        _ => 1,
    }
}

// Whether a class declares a finalizer (Java Language Specification SE 8, 12.6).
fn declares_finalizer(class: &Header) -> bool
    ensures { result ≡ declares_finalizer class.now }
{
    let methods = class.methods.as_slice();
    methods.iter().any(|method| FINALIZE == method.name.bytes()
        && NO_PARAMETERS == method.desc.bytes())
}
