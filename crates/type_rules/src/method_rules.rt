//! A method whose instructions are asked.
ghost use Rattle.std.specs.Prelude.{◌≡◌, ◌↔◌, length, Some, IfOk, IfSome, IsSome, IsTrue};
ghost use Rattle.std.specs.List.{AllByRecursion};
ghost use Rattle.std.specs.Option.{option_copied};
ghost use Rattle.class_model.specs.Header.{header_of};
ghost use Rattle.class_tree.specs.Headers.{headers_of, IsClassFile};
ghost use Rattle.class_tree.specs.Order.{header_at};
ghost use Rattle.code_bytes.specs.Codes.{HasOperands, IsReadMethod};
ghost use Rattle.member_link.specs.Linked.{IsLinked};
ghost use Rattle.member_link.specs.Signatures.{result_of};
ghost use Rattle.type_rules.specs.Inner.NewClasses.{class_made};
ghost use Rattle.type_rules.specs.Inner.ParsedCalls.{DescribesReference};
ghost use Rattle.type_rules.specs.Rule.{FitsPool};
ghost use Rattle.member_link.specs.Scope.{class_of_new, instructions, is_init, own_descriptor, scope_at, scope_of};
ghost use Rattle.member_link.specs.Inner.Scope.{current};
ghost use Rattle.type_rules.specs.Stated.{entry, stated_at};

use crate::call_descriptors::{CallDescriptors, member_of};
use crate::code::code_of;
use crate::descriptors::a_descriptor_is_read_back;
use class_model::{
    ClassFile, CodePart, Descriptor, FieldType, Frame, Header, INIT, Instr, Method, MethodAt,
    NoMemory, PlacedList, Text,
};
use class_tree::{Place, Tree};
use code_bytes::{a_class_file_has_read_methods, is_text};
use member_link::MethodBody;
use std::alloc::Global;
use std::marker::Model;

/// A method with code of a linked folder, and what the rules of its instructions ask of it. Contracts see its class file,
/// its code and the classes around it.
pub struct MethodRules<'a> {
    pub(crate) tree: &'a Tree,
    pub(crate) class: &'a ClassFile,
    // the place and the header of the class
    pub(crate) place: Place,
    pub(crate) header: &'a Header,
    pub(crate) method: &'a Method,
    pub(crate) part: &'a CodePart,
    pub(crate) body: MethodBody<'a>,
    pub(crate) calls: CallDescriptors<'a>,
}

// Written out: what is derived would stand in each function that drops one, field by field, and be proved there.
impl Drop for MethodRules<'_> {
    fn drop(self) {
        let MethodRules {
            tree: _,
            class: _,
            place: _,
            header: _,
            method: _,
            part: _,
            body: _,
            calls: _,
        } = self;
    }
}

impl<'a> Model for MethodRules<'a> {
    ghost use Rattle.class_tree.specs.Headers.{headers_of};
    ghost use Rattle.type_rules.specs.Inner.Known.{IsKnown};
    ghost use Rattle.member_link.specs.Scope.{Scope};

    ghost Value = { Scope };

    ghost view = { λ rules.
        record {
          headers = headers_of rules.tree.now;
          class = rules.class.now;
          method = rules.method.now;
          part = rules.part.now;
        } };

    ghost invariant = { λ rules.
        IsKnown rules.tree.now
        (record {
          headers = headers_of rules.tree.now;
          class = rules.class.now;
          method = rules.method.now;
          part = rules.part.now;
        }) rules.place rules.header.now rules.body rules.calls };
}

impl<'a> MethodRules<'a> {
    /// The method at its numbers, counted from 0, which has code.
    ///
    /// # Errors
    /// `NoMemory`, where memory runs out.
    pub fn new(alloc: Global, tree: &'a Tree, at: MethodAt) -> Result<Self, NoMemory>
        requires linked { IsLinked tree.now }
        requires has_code { IsSome (scope_at tree.now at) }
        ensures { IfOk result (λ rules. scope_at tree.now at ≡ Some rules) }
    {
        a_class_file_has_read_methods();
        let place = Place::Folder(at.class);
        let Some(class) = tree.folder().get(at.class) else {
            unreachable!()
        };
        let Some(header) = tree.header(place) else {
            unreachable!()
        };
        let Some(method) = class.methods.get(at.method) else {
            unreachable!()
        };
        of_method(alloc, tree, class, place, header, method)
    }

    /// Its instructions, by offset. The constants that they name are of the kinds that they may name.
    pub fn instructions(&self) -> &PlacedList
        ensures are { result.now ≡ instructions self.now }
        ensures fit { AllByRecursion (λ placed. FitsPool self.now placed.instr) result.now }
    {
        self.body.instructions()
    }

    /// The classes around it.
    pub fn tree(&self) -> &Tree
        ensures { headers_of result.now ≡ self.now.headers }
    {
        self.tree
    }

    /// Its class file.
    pub fn class(&self) -> &ClassFile
        ensures { result.now ≡ self.now.class }
    {
        self.class
    }

    /// The header of its class file.
    pub fn header(&self) -> &Header
        ensures { result.now ≡ header_of self.now.class }
    {
        self.header
    }

    /// The method itself.
    pub fn method(&self) -> &Method
        ensures { result.now ≡ self.now.method }
    {
        self.method
    }

    /// The content of its Code attribute.
    pub fn part(&self) -> &CodePart
        ensures { result.now ≡ self.now.part }
    {
        self.part
    }

    /// The length of its code, in bytes.
    pub fn code_len(&self) -> u32
        ensures { result ≡ length self.now.part.code }
    {
        self.body.code_len()
    }

    /// The frame that its code begins with.
    pub fn entry(&self) -> &Frame
        ensures { result.now ≡ entry self.now }
    {
        self.body.entry()
    }

    /// The frame that its code states for an offset, in bytes, if it states one there.
    pub fn stated_at(&self, at: u32) -> Option<&Frame>
        ensures { option_copied result ≡ stated_at self.now at }
    {
        self.body.stated_at(at)
    }

    /// The descriptor of the method that the constant at an index refers to, if it was parsed.
    pub(crate) fn call_descriptor(&self, index: u16) -> Option<&Descriptor>
        ensures { IfSome result
            (λ parsed. DescribesReference self.now.class.pool index parsed.now) }
    {
        let member = member_of(self.class.pool.get(index)?)?;
        self.calls.of_member(member)
    }

    /// Whether a class is the current one.
    pub(crate) fn is_current(&self, name: &[u8]) -> bool
        ensures { IsTrue result ↔ (name.now ≡ current self.now) }
    {
        name == self.header.name.bytes()
    }

    /// The class of the `new` at an offset, in bytes, if one stands there.
    pub(crate) fn class_of_new(&self, at: u32) -> Option<&Text>
        ensures { option_copied result ≡ class_of_new self.now at }
    {
        let placed = self.body.instruction_at(at)?;
        self.class_made(&placed.instr)
    }

    // The class that an instruction makes an object of, if it is a `new`.
    fn class_made(&self, instr: &Instr) -> Option<&Text>
        ensures { option_copied result ≡ class_made self.now instr.now }
    {
        match instr {
            Instr::New(index) => self.class.pool.class_name(*index),
            _ => None,
        }
    }

    /// What the method gives, if it gives a value.
    pub(crate) fn result(&self) -> Option<&FieldType>
        ensures { option_copied result ≡ result_of (own_descriptor self.now) }
    {
        a_descriptor_is_read_back();
        self.body.descriptor().result.as_ref()
    }

    /// Whether the method is an instance initialiser.
    pub(crate) fn is_init(&self) -> bool
        ensures { result ≡ is_init self.now }
    {
        is_text(&self.class.pool, INIT, self.method.name)
    }
}

// A method with code of a class file, which has this header at this place.
fn of_method<'a>(
    alloc: Global,
    tree: &'a Tree,
    class: &'a ClassFile,
    place: Place,
    header: &'a Header,
    method: &'a Method,
) -> Result<MethodRules<'a>, NoMemory>
    requires class_file { IsClassFile class.now }
    requires stands { header_at (headers_of tree.now) place ≡ Some header.now }
    requires header { header.now ≡ header_of class.now }
    requires read { IsReadMethod class.now.pool method.now }
    requires operands { AllByRecursion (HasOperands class.now.pool class.now.major)
        method.now.attrs }
    requires has_code { IsSome (scope_of (headers_of tree.now) class.now method.now) }
    ensures { IfOk result
        (λ rules. scope_of (headers_of tree.now) class.now method.now ≡ Some rules) }
{
    let Some(part) = code_of(method.attrs.as_slice()) else {
        unreachable!()
    };
    let body = MethodBody::new(alloc, class, method, part)?;
    let calls = match CallDescriptors::of(alloc, &class.pool, body.instructions().as_slice()) {
        Ok(calls) => calls,
        Err(fault) => {
            // let go by a call, so that its drop is proved once
            drop(body);
            return Err(fault);
        }
    };
    Ok(MethodRules {
        tree,
        class,
        place,
        header,
        method,
        part,
        body,
        calls,
    })
}
