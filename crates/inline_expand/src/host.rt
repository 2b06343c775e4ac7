//! A method with code.
ghost use Rattle.std.specs.Prelude.{◌≡◌, ◌<◌, Ok, IfOk, IfSome, length};
ghost use Rattle.class_model.specs.Checks.{AllHold};
ghost use Rattle.class_model.specs.Instructions.{decoded};
ghost use Rattle.class_tree.specs.Headers.{headers_of};
ghost use Rattle.code_bytes.specs.Decoding.{decoding_checks};
ghost use Rattle.expanded_code.specs.Alone.{number_at};
ghost use Rattle.inline_expand.specs.Inner.Hosts.{HasUnits};
ghost use Rattle.member_link.specs.Scope.{instructions, is_init, scope_at};

use class_model::{
    ClassFile, CodePart, Handler, INIT, Method, MethodAt, NoMemory, OffsetIndex, Placed,
    PlacedList, Pool,
};
use class_tree::Tree;
use code_bytes::{
    a_class_file_has_read_methods, instructions_are_consecutive, instructions_of, is_text,
};
use std::alloc::Global;
use std::marker::Model;
use type_rules::code_of;

/// A method with code, with its instructions and their numbers by their offsets. Contracts see its scope.
pub(crate) struct Host<'a> {
    tree: &'a Tree,
    class: &'a ClassFile,
    method: &'a Method,
    part: &'a CodePart,
    instrs: PlacedList,
    index: OffsetIndex,
}

// Written out: a derived drop would be spelled out, field by field, in each function that drops one, and be proved there.
impl Drop for Host<'_> {
    fn drop(self) {
        let Host {
            tree: _,
            class: _,
            method: _,
            part: _,
            instrs: _,
            index: _,
        } = self;
    }
}

impl<'a> Model for Host<'a> {
    ghost use Rattle.class_tree.specs.Headers.{headers_of};
    ghost use Rattle.inline_expand.specs.Inner.Hosts.{IsHost};
    ghost use Rattle.member_link.specs.Scope.{Scope};

    ghost Value = { Scope };

    ghost view = { λ host.
        record {
          headers = headers_of host.tree.now;
          class = host.class.now;
          method = host.method.now;
          part = host.part.now;
        } };

    ghost invariant = { λ host.
        IsHost (record {
          headers = headers_of host.tree.now;
          class = host.class.now;
          method = host.method.now;
          part = host.part.now;
        }) host.instrs host.index };
}

impl<'a> Host<'a> {
    /// The method under these numbers; none where it is not there or has no code.
    pub(crate) fn at(
        alloc: Global,
        tree: &'a Tree,
        at: MethodAt,
    ) -> Result<Option<Host<'a>>, NoMemory>
        ensures scope { IfOk result (λ host. host ≡ scope_at tree.now at) }
        ensures units { IfOk result (λ host. IfSome host HasUnits) }
    {
        a_class_file_has_read_methods();
        let Some(class) = tree.folder().get(at.class) else {
            return Ok(None);
        };
        let Some(method) = class.methods.get(at.method) else {
            return Ok(None);
        };
        let Some(part) = code_of(method.attrs.as_slice()) else {
            return Ok(None);
        };
        Ok(Some(Host::new(alloc, tree, class, method, part)?))
    }

    // A method with this code.
    fn new(
        alloc: Global,
        tree: &'a Tree,
        class: &'a ClassFile,
        method: &'a Method,
        part: &'a CodePart,
    ) -> Result<Host<'a>, NoMemory>
        requires { AllHold (decoding_checks part.now.code) }
        ensures { IfOk result (λ host. host ≡ record {
          headers = headers_of tree.now;
          class = class.now;
          method = method.now;
          part = part.now;
        }) }
    {
        let instrs = decode(alloc, part.code.as_slice())?;
        let index = OffsetIndex::of(alloc, instrs.as_slice())?;
        Ok(Host {
            tree,
            class,
            method,
            part,
            instrs,
            index,
        })
    }

    /// Its instructions, by offset.
    pub(crate) fn instrs(&self) -> &[Placed]
        ensures { result.now ≡ instructions self.now }
    {
        self.instrs.as_slice()
    }

    /// The number of the instruction at an offset, in bytes; where none starts there, how many there
    /// are.
    pub(crate) fn number(&self, at: u32) -> u32
        ensures { result ≡ number_at self.now at }
    {
        match self.index.find(u64::from(at)) {
            Some(number) => number as u32,
            None => self.instrs.len() as u32,
        }
    }

    /// The constant pool of its class.
    pub(crate) fn pool(&self) -> &'a Pool
        ensures { result.now ≡ self.now.class.pool }
    {
        &self.class.pool
    }

    /// Its exception table.
    pub(crate) fn handlers(&self) -> &'a [Handler]
        ensures { result.now ≡ self.now.part.handlers }
    {
        self.part.handlers.as_slice()
    }

    /// The classes around it.
    pub(crate) fn tree(&self) -> &'a Tree
        ensures { headers_of result.now ≡ self.now.headers }
    {
        self.tree
    }

    /// Its class file.
    pub(crate) fn class(&self) -> &'a ClassFile
        ensures { result.now ≡ self.now.class }
    {
        self.class
    }

    /// The method itself.
    pub(crate) fn method(&self) -> &'a Method
        ensures { result.now ≡ self.now.method }
    {
        self.method
    }

    /// Whether it is an instance initialiser.
    pub(crate) fn is_initialiser(&self) -> bool
        ensures { result ≡ is_init self.now }
    {
        is_text(&self.class.pool, INIT, self.method.name)
    }

    /// The content of its Code attribute.
    pub(crate) fn part(&self) -> &'a CodePart
        ensures { result.now ≡ self.now.part }
    {
        self.part
    }

    /// How many local units it has.
    pub(crate) fn max_locals(&self) -> u16
        ensures { result ≡ self.now.part.max_locals }
    {
        self.part.max_locals
    }
}

// The instructions of a code that was read.
fn decode(alloc: Global, code: &[u8]) -> Result<PlacedList, NoMemory>
    requires { AllHold (decoding_checks code.now) }
    ensures instrs { IfOk result (λ instrs. decoded code.now ≡ Ok instrs) }
    ensures few { IfOk result (λ instrs. length instrs < 65536) }
{
    instructions_are_consecutive();
    instructions_of(alloc, code)
}
