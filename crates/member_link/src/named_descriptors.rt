//! Whether the classes that the descriptors of methods name are there (JVM Specification SE 8, 4.3.3): one that
//! equals the one before it is not parsed again.
ghost use Rattle.std.specs.Prelude.{◌≡◌, ◌↔◌, IfOk, IfSome, IsTrue};
ghost use Rattle.class_tree.specs.Headers.{headers_of, IsThere};
ghost use Rattle.member_link.specs.References.{DescriptorNames};

use crate::names::is_descriptor_there;
use class_model::{NoMemory, Text};
use class_tree::Tree;
use std::alloc::Global;
use std::marker::Model;

/// A method's descriptor, and whether the classes that it names are there.
#[derive(Clone, Copy)]
pub(crate) struct NamedDescriptor<'a> {
    desc: &'a Text,
    is_there: bool,
}

/// The descriptor of a method that was checked last. Contracts see the headers of the classes.
#[derive(Drop)]
pub(crate) struct NamedDescriptors<'a> {
    tree: &'a Tree,
    last: Option<NamedDescriptor<'a>>,
}

impl<'a> Model for NamedDescriptors<'a> {
    ghost use Rattle.std.specs.Prelude.{IfSome};
    ghost use Rattle.class_tree.specs.Headers.{Headers, headers_of};
    ghost use Rattle.member_link.specs.Inner.NamedDescriptors.{IsAnswered};

    ghost Value = { Headers };

    ghost view = { λ named. headers_of named.tree.now };

    ghost invariant = { λ named. IfSome named.last (IsAnswered (headers_of named.tree.now)) };
}

impl<'a> NamedDescriptors<'a> {
    /// Those of methods of the classes of a tree, none of which is checked yet.
    pub(crate) fn new(tree: &'a Tree) -> Self
        ensures { result ≡ headers_of tree.now }
    {
        NamedDescriptors { tree, last: None }
    }

    /// Whether the classes that a method's descriptor names are there.
    pub(crate) fn are_there(&mut self, alloc: Global, desc: &'a Text) -> Result<bool, NoMemory>
        ensures same { self.new ≡ self.old }
        ensures told { IfOk result
            (λ there. IsTrue there ↔ DescriptorNames (IsThere self.old) desc.now) }
    {
        if let Some(is_there) = self.find(desc) {
            return Ok(is_there);
        }
        let is_there = is_descriptor_there(alloc, self.tree, desc)?;
        self.last = Some(NamedDescriptor { desc, is_there });
        Ok(is_there)
    }

    // What the last answer was, if it was of an equal descriptor.
    fn find(&self, desc: &Text) -> Option<bool>
        ensures { IfSome result
            (λ there. IsTrue there ↔ DescriptorNames (IsThere self.now) desc.now) }
    {
        let last = self.last?;
        if last.desc.bytes() == desc.bytes() {
            Some(last.is_there)
        } else {
            None
        }
    }
}
