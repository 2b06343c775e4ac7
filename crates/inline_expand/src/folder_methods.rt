//! The methods of a folder by their names and descriptors.
ghost use Rattle.std.specs.Prelude.{◌≡◌, ◌<◌, ℕ, [], ◌∷◌, length, slice_get, slice_index_or, Some, IfOk, OnOk};
ghost use Rattle.class_model.specs.declared.header.Header.{Header};
ghost use Rattle.class_tree.specs.Headers.{headers_of};
ghost use Rattle.inline_expand.specs.Inner.FolderMethods.{AreAlike, AreBuckets, AreKept, front, key, slot_of};

use class_model::{ListOf, Member, NoMemory};
use class_tree::{Place, Tree, a_tree_is_a_hierarchy};
use member_link::{Found, own_method};
use std::alloc::Global;
use std::marker::Model;

/// A list of methods that are found.
pub(crate) type FoundList = ListOf<Found>;

// How many slots there are.
const SLOTS: usize = 65_536;

/// The methods of a folder, in buckets by their names and descriptors. Contracts see the classes.
pub(crate) struct FolderMethods<'t> {
    tree: &'t Tree,
    buckets: Vec<FoundList>,
}

// Written out: a derived drop would be spelled out, field by field, in each function that drops one, and be proved there.
impl Drop for FolderMethods<'_> {
    fn drop(self) {
        let FolderMethods {
            tree: _,
            buckets: _,
        } = self;
    }
}

impl<'t> Model for FolderMethods<'t> {
    ghost use Rattle.class_tree.specs.Headers.{Classes, headers_of};
    ghost use Rattle.inline_expand.specs.Inner.FolderMethods.{AreBuckets};

    ghost Value = { Classes };

    ghost view = { λ methods. methods.tree.now };

    ghost invariant = { λ methods. AreBuckets (headers_of methods.tree.now) methods.buckets.items };
}

impl<'t> FolderMethods<'t> {
    /// Those of the folder of a tree.
    ///
    /// # Errors
    /// `NoMemory`, where memory runs out.
    pub(crate) fn of(alloc: Global, tree: &'t Tree) -> Result<FolderMethods<'t>, NoMemory>
        ensures { IfOk result (λ methods. methods ≡ tree.now) }
    {
        let mut buckets = empty_buckets(alloc)?;
        keep_folder(tree, buckets.as_mut_slice())?;
        Ok(FolderMethods { tree, buckets })
    }

    /// The classes.
    pub(crate) fn tree(&self) -> &'t Tree
        ensures { result.now ≡ self.now }
    {
        self.tree
    }

    /// Methods of the folder, among them each that has the name and descriptor of a method.
    pub(crate) fn alike(&self, method: &Member) -> &FoundList
        ensures { AreAlike (headers_of self.now) method.now result.now }
    {
        let slot = slot_of(self.buckets.len(), method);
        &self.buckets[slot]
    }
}

// Buckets without methods.
fn empty_buckets(alloc: Global) -> Result<Vec<FoundList>, NoMemory>
    ensures some { IfOk result (λ buckets. 0 < length buckets.items) }
    ensures none { IfOk result (λ buckets. (slot : ℕ) → slice_index_or buckets.items slot [] ≡ []) }
{
    let mut buckets = Vec::with_capacity(alloc, SLOTS)?;
    for _slot in 0..SLOTS {
        buckets.push(FoundList::new(alloc))?;
    }
    Ok(buckets)
}

// Keeps the methods of the folder.
fn keep_folder(tree: &Tree, buckets: &mut [FoundList]) -> Result<(), NoMemory>
    requires some { 0 < length buckets.old }
    requires none { (slot : ℕ) → slice_index_or buckets.old slot [] ≡ [] }
    ensures { OnOk result (AreBuckets (headers_of tree.now) buckets.new) }
{
    for class in 0..tree.folder().len() {
        keep_class(tree, buckets, class)?;
    }
    Ok(())
}

// Keeps the methods of a class of the folder.
fn keep_class(tree: &Tree, buckets: &mut [FoundList], class: usize) -> Result<(), NoMemory>
    requires class { class < length tree.now.folder }
    requires some { 0 < length buckets.old }
    ensures { OnOk result ((header : Header)
        → slice_get (headers_of tree.now).folder class ≡ Some header
        → AreKept (headers_of tree.now) class header.methods buckets.old buckets.new) }
{
    let Some(header) = tree.header(Place::Folder(class)) else {
        unreachable!()
    };
    keep_methods(tree, buckets, class, header.methods.as_slice())
}

// Keeps these methods of a class of the folder.
fn keep_methods(
    tree: &Tree,
    buckets: &mut [FoundList],
    class: usize,
    methods: &[Member],
) -> Result<(), NoMemory>
    requires class { class < length tree.now.folder }
    requires some { 0 < length buckets.old }
    ensures { OnOk result (AreKept (headers_of tree.now) class methods.now buckets.old buckets.new) }
{
    for method in methods {
        keep(tree, buckets, class, method)?;
    }
    Ok(())
}

// Keeps the method of a class of the folder that has the name and descriptor of one.
fn keep(
    tree: &Tree,
    buckets: &mut [FoundList],
    class: usize,
    method: &Member,
) -> Result<(), NoMemory>
    requires class { class < length tree.now.folder }
    requires some { 0 < length buckets.old }
    ensures { OnOk result (AreKept (headers_of tree.now) class (method.now ∷ []) buckets.old buckets.new) }
{
    a_tree_is_a_hierarchy(tree);
    let Some(found) = own_method(tree, Place::Folder(class), &method.name, &method.desc) else {
        return Ok(());
    };
    let slot = slot_of(buckets.len(), method);
    buckets[slot].push(found)
}

// The slot of a method among so many.
fn slot_of(count: usize, method: &Member) -> usize
    requires { 0 < count }
    ensures same { result ≡ slot_of count method.now }
    ensures within { result < count }
{
    key_from(key_from(0, method.name.bytes()), front(method.desc.bytes())) % count
}

// How many bytes of a descriptor its key is made of: a longer one is not read whole for each method.
const MOST_KEYED: usize = 1024;

// The bytes at the front of a descriptor, which make its key.
fn front(desc: &[u8]) -> &[u8]
    ensures { result.now ≡ front desc.now }
{
    if desc.len() > MOST_KEYED {
        &desc[..MOST_KEYED]
    } else {
        desc
    }
}

// A key of bytes, which goes on from that of others.
fn key_from(start: usize, bytes: &[u8]) -> usize
    requires { start < 4294967296 }
    ensures same { result ≡ key start bytes.now }
    ensures within { result < 4294967296 }
{
    let mut key = start;
    for byte in bytes {
        key = (key * 31 + *byte as usize) % 4294967296;
    }
    key
}
