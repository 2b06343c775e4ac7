//! Which methods of the folder are known to override no final method of the folder.
ghost use Rattle.std.specs.Prelude.{◌≡◌, ◌<◌, ◌+◌, ◌↔◌, ℕ, [], ◌∷◌, length, slice_get, IfOk, OnOk, IsTrue, Some};
ghost use Rattle.std.specs.List.{All};
ghost use Rattle.class_model.specs.Members as members;
ghost use Rattle.class_model.specs.declared.header.Header.{Header};
ghost use Rattle.class_model.specs.declared.header.Member.{Member};
ghost use Rattle.class_tree.specs.Headers.{headers_of};
ghost use Rattle.class_tree.specs.Order.{header_at};
ghost use Rattle.class_tree.specs.Trees.{IsTree};
ghost use Rattle.class_tree.specs.declared.place.Place.TheVariants.{Folder};
ghost use Rattle.member_link.specs.DeclaredMembers as declared;
ghost use Rattle.member_link.specs.Inner.FinalEnds.{front, signature_key, package_key, key_in, AreKnown, AreRaised, AreSweptBelow, Grows, IsFree, IsRaised, IsSweptFrom, Reaches};
ghost use Rattle.member_link.specs.Inner.Spans.{AreSpans};

use crate::flags::{is_inherited, is_open};
use crate::packages::package_of;
use crate::spans::{Span, Spans, are_spans, guess_spans};
use class_model::{ACC_FINAL, ACC_INTERFACE, Header, Member, NoMemory, has};
use class_tree::{Place, Tree, a_tree_is_a_hierarchy};
use indexmap::IndexMap;
use std::alloc::Global;
use std::hash::{FoldHasher, Hasher};

/// By the index of each class of the folder, how many methods at the front of its methods are known to override no final method
/// of the folder: all but for a class that has one that does.
pub(crate) fn known_methods(alloc: Global, tree: &Tree) -> Result<Vec<usize>, NoMemory>
    ensures { IfOk result (λ known. AreKnown (headers_of tree.now) known.items) }
{
    let spans = guess_spans(alloc, tree)?;
    let mut known = vec![in alloc; 0; tree.folder().len()]?;
    if are_spans(tree, &spans) {
        sweep(alloc, tree, &spans, known.as_mut_slice())?;
    }
    Ok(known)
}

// Goes over the classes of the folder, and counts the methods of each that are known.
fn sweep(alloc: Global, tree: &Tree, spans: &Spans, known: &mut [usize]) -> Result<(), NoMemory>
    requires tree { IsTree tree.now }
    requires spans { AreSpans (headers_of tree.now) spans.now }
    requires known { AreKnown (headers_of tree.now) known.old }
    ensures { OnOk result (AreKnown (headers_of tree.now) known.new) }
{
    let mut ends = IndexMap::new(alloc);
    raise_interfaces(&mut ends, tree, spans.indices.len())?;
    sweep_numbers(&mut ends, tree, spans, known)
}

// Goes over the classes by their numbers, each after its superclass.
fn sweep_numbers(
    ends: &mut IndexMap<u64, usize>,
    tree: &Tree,
    spans: &Spans,
    known: &mut [usize],
) -> Result<(), NoMemory>
    requires tree { IsTree tree.now }
    requires spans { AreSpans (headers_of tree.now) spans.now }
    requires raised { AreRaised (headers_of tree.now) ends.old.entries (length spans.now.indices.items) }
    requires known { AreKnown (headers_of tree.now) known.old }
    ensures { OnOk result (AreKnown (headers_of tree.now) known.new) }
{
    for number in 0..spans.indices.len() {
        sweep_number(ends, tree, spans, known, number)?;
    }
    Ok(())
}

// Goes over the class of a number.
fn sweep_number(
    ends: &mut IndexMap<u64, usize>,
    tree: &Tree,
    spans: &Spans,
    known: &mut [usize],
    number: usize,
) -> Result<(), NoMemory>
    requires tree { IsTree tree.now }
    requires spans { AreSpans (headers_of tree.now) spans.now }
    requires number { number < length spans.now.indices.items }
    requires swept { AreSweptBelow (headers_of tree.now) spans.now ends.old.entries number }
    requires known { AreKnown (headers_of tree.now) known.old }
    ensures swept { OnOk result (AreSweptBelow (headers_of tree.now) spans.now ends.new.entries (number + 1)) }
    ensures known { OnOk result (AreKnown (headers_of tree.now) known.new) }
{
    a_tree_is_a_hierarchy(tree);
    let index = spans.indices[number];
    let Some(header) = tree.header(Place::Folder(index)) else {
        return Ok(());
    };
    let span = spans.of_classes[index];
    if span.first != number {
        return Ok(());
    }
    known[index] = sweep_class(ends, header, span)?;
    Ok(())
}

// Goes over the methods of a class, and counts those at the front that are known.
fn sweep_class(
    ends: &mut IndexMap<u64, usize>,
    header: &Header,
    span: Span,
) -> Result<usize, NoMemory>
    ensures grows { OnOk result (Grows ends.old.entries ends.new.entries) }
    ensures known { IfOk result (λ known. (index : ℕ) (member : Member)
        → slice_get header.now.methods index ≡ Some member
        → index < known
        → IsTrue (declared.is_inherited member)
        → IsFree ends.old.entries (package_key header.now.name) span member) }
    ensures swept { OnOk result
        (All (IsSweptFrom ends.old.entries ends.new.entries (package_key header.now.name) span)
        header.now.methods) }
{
    let home = package_key(header.name.bytes());
    let mut known = 0;
    for index in 0..header.methods.as_slice().len() {
        let method = &header.methods.as_slice()[index];
        let is_known = sweep_method(ends, home, span, method)?;
        if is_known && known == index {
            known = index + 1;
        }
    }
    Ok(known)
}

// Whether a method is known to override no final method. Raises the ends of those that it would override below it: itself where
// it is final, and the ones above that it overrides.
fn sweep_method(
    ends: &mut IndexMap<u64, usize>,
    home: u64,
    span: Span,
    method: &Member,
) -> Result<bool, NoMemory>
    ensures grows { OnOk result (Grows ends.old.entries ends.new.entries) }
    ensures known { IfOk result (λ known. IsTrue known
        → IsTrue (declared.is_inherited method.now)
        → IsFree ends.old.entries home span method.now) }
    ensures swept { OnOk result
        (IsSweptFrom ends.old.entries ends.new.entries home span method.now) }
{
    if !is_inherited(method.flags) {
        return Ok(true);
    }
    let is_known = is_free(ends, home, span, method);
    let is_final = has(method.flags, ACC_FINAL);
    if is_open(method.flags) {
        if is_final || !is_known {
            raise(ends, signature_key(method), span.last)?;
        }
    } else if is_final {
        raise(ends, key_in(home, method), span.last)?;
    }
    Ok(is_known)
}

// Raises the ends of the final methods of interfaces, so that they reach each number.
fn raise_interfaces(
    ends: &mut IndexMap<u64, usize>,
    tree: &Tree,
    end: usize,
) -> Result<(), NoMemory>
    ensures { OnOk result (AreRaised (headers_of tree.now) ends.new.entries end) }
{
    for index in 0..tree.folder().len() {
        if let Some(header) = tree.header(Place::Folder(index)) {
            if has(header.flags, ACC_INTERFACE) {
                raise_methods(ends, header.methods.as_slice(), end)?;
            }
        }
    }
    Ok(())
}

// Raises the ends of the final ones of these methods.
fn raise_methods(
    ends: &mut IndexMap<u64, usize>,
    methods: &[Member],
    end: usize,
) -> Result<(), NoMemory>
    ensures grows { OnOk result (Grows ends.old.entries ends.new.entries) }
    ensures raised { OnOk result (All (IsRaised ends.new.entries end) methods.now) }
{
    for method in methods {
        if has(method.flags, ACC_FINAL) {
            raise(ends, signature_key(method), end)?;
        }
    }
    Ok(())
}

// Whether no end reaches a class of this package and span that has the name and descriptor of a method.
fn is_free(ends: &IndexMap<u64, usize>, home: u64, span: Span, method: &Member) -> bool
    ensures { IsTrue result ↔ IsFree ends.now.entries home span method.now }
{
    !reaches(ends, signature_key(method), span.first)
        && !reaches(ends, key_in(home, method), span.first)
}

// Whether the end of a key is at a number or behind it.
fn reaches(ends: &IndexMap<u64, usize>, key: u64, number: usize) -> bool
    ensures { IsTrue result ↔ Reaches ends.now.entries key number }
{
    match ends.get(&key) {
        Some(end) => number <= *end,
        None => false,
    }
}

// Makes the end of a key one that is at a number or behind it.
fn raise(ends: &mut IndexMap<u64, usize>, key: u64, end: usize) -> Result<(), NoMemory>
    ensures grows { OnOk result (Grows ends.old.entries ends.new.entries) }
    ensures raised { OnOk result (Reaches ends.new.entries key end) }
{
    if !reaches(ends, key, end) {
        ends.insert(key, end)?;
    }
    Ok(())
}

// The key of the name and descriptor of a method.
#[tactic(auto, unfolding(crate::specs::Inner::FinalEnds::texts_key))]
fn signature_key(method: &Member) -> u64
    ensures { result ≡ signature_key method.now }
{
    let mut hasher = FoldHasher::default();
    hasher.write(front(method.name.bytes()));
    hasher.write(front(method.desc.bytes()));
    hasher.finish()
}

// The key of the name and descriptor of a method, and of a package.
fn key_in(home: u64, method: &Member) -> u64
    ensures { result ≡ key_in home method.now }
{
    signature_key(method) ^ home
}

// The key of the package of a class.
#[tactic(auto, unfolding(crate::specs::Inner::FinalEnds::text_key))]
fn package_key(class: &[u8]) -> u64
    ensures { result ≡ package_key class.now }
{
    let mut hasher = FoldHasher::default();
    hasher.write(package_of(class));
    hasher.finish()
}

// How many bytes of a text its key is made of: a longer one is not read whole for each method.
const MOST_KEYED: usize = 1024;

// The bytes at the front of a text, which make its key.
fn front(text: &[u8]) -> &[u8]
    ensures { result.now ≡ front text.now }
{
    if text.len() > MOST_KEYED {
        &text[..MOST_KEYED]
    } else {
        text
    }
}
