//! The shapes of the method descriptors among the texts of a pool, and which of these are field descriptors (JVM
//! Specification SE 8, 4.3.2 and 4.3.3): each text is parsed once, however many members and calls name it.
ghost use Rattle.std.specs.Prelude.{◌≡◌, ◌↔◌, List, ℕ, Some, IfSome, IsTrue};
ghost use Rattle.class_model.specs.PoolChecks.{descriptor_at, utf8_at, IsFieldDescriptor};
ghost use Rattle.class_bytes.specs.Inner.KnownShapes.{IsShapeAt};
ghost use Rattle.class_bytes.specs.Inner.Shapes.{IsShape};

use class_model::{MethodShape, Pool, a_descriptor_of_a_text, is_field_descriptor, method_shape};
use std::alloc::Global;
use std::marker::Model;

/// The shape of a text, if it is a method descriptor, and whether it is a field descriptor.
#[derive(Clone, Copy)]
pub(crate) struct KnownShape {
    pub(crate) shape: Option<MethodShape>,
    pub(crate) is_field_type: bool,
}

/// The shapes of the texts of a pool. Contracts see the pool.
#[derive(Drop)]
pub(crate) struct KnownShapes<'a> {
    pool: &'a Pool,
    // by index; empty where there was no memory
    shapes: Vec<Option<KnownShape>>,
}

impl<'a> Model for KnownShapes<'a> {
    ghost use Rattle.class_model.specs.Pool.{Constants};
    ghost use Rattle.class_bytes.specs.Inner.KnownShapes.{AreShapes};

    ghost Value = { Constants };

    ghost view = { λ known. known.pool.now };

    ghost invariant = { λ known. AreShapes known.pool.now known.shapes.items };
}

impl<'a> KnownShapes<'a> {
    /// Parses each text of a pool.
    pub(crate) fn of(alloc: Global, pool: &'a Pool) -> Self
        ensures { result ≡ pool.now }
    {
        let mut known = KnownShapes::unknown(alloc, pool);
        for index in 1..pool.count() {
            let shape = KnownShape {
                shape: shape_at(pool, index),
                is_field_type: is_field_type_at(pool, index),
            };
            known.keep(index, shape);
        }
        known
    }

    // A pool of whose texts nothing is known.
    fn unknown(alloc: Global, pool: &'a Pool) -> Self
        ensures { result ≡ pool.now }
    {
        let shapes = match vec![in alloc; None; usize::from(pool.count())] {
            Ok(shapes) => shapes,
            Err(_) => Vec::new(alloc),
        };
        KnownShapes { pool, shapes }
    }

    // Keeps the shape of the text at an index.
    fn keep(&mut self, index: u16, shape: KnownShape)
        requires { IsShapeAt self.old index shape }
        ensures { self.new ≡ self.old }
    {
        let index = usize::from(index);
        if index < self.shapes.len() {
            self.shapes[index] = Some(shape);
        }
    }

    // What is known of the text at an index.
    fn known(&self, index: u16) -> Option<KnownShape>
        ensures { IfSome result (IsShapeAt self.now index) }
    {
        *self.shapes.get(usize::from(index))?
    }

    /// The shape of the method descriptor at an index, if one is there.
    pub(crate) fn at(&self, index: u16) -> Option<MethodShape>
        ensures { IsShape (utf8_at self.now index) result }
    {
        match self.known(index) {
            Some(known) => known.shape,
            None => shape_at(self.pool, index),
        }
    }

    /// Whether the text at an index, which is this one, is a field descriptor.
    pub(crate) fn is_field_type(&self, index: u16, text: &[u8]) -> bool
        requires { utf8_at self.now index ≡ Some text.now }
        ensures { IsTrue result ↔ IsFieldDescriptor text.now }
    {
        match self.known(index) {
            Some(known) => known.is_field_type,
            None => is_field_descriptor(text),
        }
    }

    /// The shape of the descriptor of the NameAndType constant at an index, if it is a method descriptor.
    pub(crate) fn of_member(&self, member: u16) -> Option<MethodShape>
        ensures { IsShape (descriptor_at self.now member) result }
    {
        let (_, descriptor) = self.pool.name_and_type(member)?;
        self.at(descriptor)
    }
}

// The shape of the method descriptor at an index of a pool, if one is there.
fn shape_at(pool: &Pool, index: u16) -> Option<MethodShape>
    ensures { IsShape (utf8_at pool.now index) result }
{
    let text = pool.utf8(index)?;
    a_descriptor_of_a_text();
    method_shape(text.bytes())
}

// Whether the text at an index of a pool, if one is there, is a field descriptor.
fn is_field_type_at(pool: &Pool, index: u16) -> bool
    ensures { (text : List ℕ)
        → utf8_at pool.now index ≡ Some text
        → IsTrue result ↔ IsFieldDescriptor text }
{
    match pool.utf8(index) {
        Some(text) => is_field_descriptor(text.bytes()),
        None => false,
    }
}
