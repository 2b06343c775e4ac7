//! What descriptors the texts of a pool are (JVM Specification SE 8, 4.3): each text is parsed once,
//! however many constants name it.
ghost use Rattle.std.specs.Prelude.{◌≡◌, ◌↔◌, ◌≤◌, length, Some, IfSome, IsTrue};
ghost use Rattle.std.specs.Option.{option_copied};
ghost use Rattle.class_model.specs.Pool.{constant_at, IsPool};
ghost use Rattle.class_model.specs.PoolChecks.{utf8_at, descriptor_at, IsFieldDescriptor, IsMethodDescriptor, ReturnsVoid};
ghost use Rattle.pool_bytes.specs.Inner.Kinds.{IsKind, IsKindAt};

use crate::raw::{RawConst, RawPool};
use class_model::{is_field_descriptor, method_shape};
use std::marker::Model;

/// What descriptors a text is.
#[derive(Clone, Copy)]
pub(crate) struct TextKind {
    pub(crate) is_field: bool,
    pub(crate) is_method: bool,
    // it has no result, or is no method descriptor
    pub(crate) is_void: bool,
}

/// A text of which it is known what descriptors it is. Contracts see its bytes.
#[derive(Drop)]
pub(crate) struct KnownText<'a> {
    bytes: &'a [u8],
    kind: TextKind,
}

impl<'a> Model for KnownText<'a> {
    ghost use Rattle.std.specs.Prelude.{ℕ, List};
    ghost use Rattle.pool_bytes.specs.Inner.Kinds.{IsKind};

    ghost Value = { List ℕ };

    ghost view = { λ text. text.bytes.now };

    ghost invariant = { λ text. IsKind text.bytes.now text.kind };
}

impl KnownText<'_> {
    /// Whether it is a field descriptor.
    pub(crate) fn is_field_descriptor(&self) -> bool
        ensures { IsTrue result ↔ IsFieldDescriptor self.now }
    {
        self.kind.is_field
    }

    /// Whether it is a method descriptor.
    pub(crate) fn is_method_descriptor(&self) -> bool
        ensures { IsTrue result ↔ IsMethodDescriptor self.now }
    {
        self.kind.is_method
    }

    /// Whether there is no result, if it is a method descriptor.
    pub(crate) fn is_void_or_no_method(&self) -> bool
        ensures { IsTrue result ↔ (IsMethodDescriptor self.now → ReturnsVoid self.now) }
    {
        self.kind.is_void
    }
}

// What descriptors a text is.
fn kind_of(text: &[u8]) -> TextKind
    ensures { IsKind text.now result }
{
    let is_field = is_field_descriptor(text);
    match method_shape(text) {
        Some(shape) => TextKind {
            is_field,
            is_method: true,
            is_void: shape.is_void,
        },
        None => TextKind {
            is_field,
            is_method: false,
            is_void: true,
        },
    }
}

/// A pool whose constants are checked. Contracts see the pool.
#[derive(Drop)]
pub(crate) struct Checker<'a> {
    pool: &'a RawPool<'a>,
    // by index, what a text is; empty where there was no memory
    kinds: Vec<Option<TextKind>>,
}

impl<'a> Model for Checker<'a> {
    ghost use Rattle.class_model.specs.Pool.{Constants};
    ghost use Rattle.pool_bytes.specs.Inner.Kinds.{AreKinds};

    ghost Value = { Constants };

    ghost view = { λ checker. checker.pool.now };

    ghost invariant = { λ checker. AreKinds checker.pool.now checker.kinds.items };
}

impl<'a> Checker<'a> {
    /// Parses each text of a pool.
    pub(crate) fn new(pool: &'a RawPool<'a>) -> Self
        ensures { result ≡ pool.now }
    {
        let mut checker = Checker::unknown(pool);
        for index in 1..pool.count() {
            checker.note(index);
        }
        checker
    }

    // A pool of whose texts nothing is known.
    fn unknown(pool: &'a RawPool<'a>) -> Self
        ensures { result ≡ pool.now }
    {
        let alloc = pool.allocator();
        let kinds = match vec![in alloc; None; usize::from(pool.count())] {
            Ok(kinds) => kinds,
            Err(_) => Vec::new(alloc),
        };
        Checker { pool, kinds }
    }

    // Remembers what the text at an index is, if one is there.
    fn note(&mut self, index: u16)
        ensures { self.new ≡ self.old }
    {
        if let Some(text) = self.pool.utf8(index) {
            let kind = kind_of(text);
            self.keep(index, kind);
        }
    }

    // Keeps what the text at an index is.
    fn keep(&mut self, index: u16, kind: TextKind)
        requires { IsKindAt self.old index kind }
        ensures { self.new ≡ self.old }
    {
        let index = usize::from(index);
        if index < self.kinds.len() {
            self.kinds[index] = Some(kind);
        }
    }

    // What is remembered of the text at an index.
    fn known(&self, index: u16) -> Option<TextKind>
        ensures { IfSome result (IsKindAt self.now index) }
    {
        *self.kinds.get(usize::from(index))?
    }

    /// The pool.
    pub(crate) fn pool(&self) -> &RawPool<'a>
        ensures { result.now ≡ self.now }
    {
        self.pool
    }

    /// One more than the last index of the pool.
    pub(crate) fn count(&self) -> u16
        ensures count { result ≡ length self.now }
        ensures positive { 1 ≤ result }
        ensures pool { IsPool self.now }
    {
        self.pool.count()
    }

    /// The constant at an index, if one is there.
    pub(crate) fn get(&self, index: u16) -> Option<&RawConst<'a>>
        ensures constant { option_copied result ≡ constant_at self.now index }
        ensures pool { IsPool self.now }
    {
        self.pool.get(index)
    }

    /// The bytes of the Utf8 constant at an index.
    pub(crate) fn utf8(&self, index: u16) -> Option<&[u8]>
        ensures { option_copied result ≡ utf8_at self.now index }
    {
        self.pool.utf8(index)
    }

    /// The text of the Utf8 constant at an index.
    pub(crate) fn text(&self, index: u16) -> Option<KnownText<'_>>
        ensures { result ≡ utf8_at self.now index }
    {
        let bytes = self.utf8(index)?;
        let kind = self.kind(index, bytes);
        Some(KnownText { bytes, kind })
    }

    // What the text at an index is.
    fn kind(&self, index: u16, text: &[u8]) -> TextKind
        requires { Some text.now ≡ utf8_at self.now index }
        ensures { IsKind text.now result }
    {
        if let Some(kind) = self.known(index) {
            return kind;
        }
        kind_of(text)
    }

    /// The descriptor of the NameAndType constant at an index.
    pub(crate) fn descriptor(&self, member: u16) -> Option<KnownText<'_>>
        ensures { result ≡ descriptor_at self.now member }
    {
        let (_, descriptor) = self.pool.name_and_type(member)?;
        self.text(descriptor)
    }
}
