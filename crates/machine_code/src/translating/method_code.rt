//! The method whose code is translated.
ghost use Rattle.std.specs.Prelude.{◌≡◌};
ghost use Rattle.std.specs.Option.{option_copied};
ghost use Rattle.class_model.specs.Header.{header_of};
ghost use Rattle.machine_code.specs.Inner.Translating.{rows_in, scope_in};
ghost use Rattle.member_link.specs.Signatures.{result_of};
ghost use Rattle.member_link.specs.Scope.{is_init, is_clinit, own_descriptor};

use class_model::{ClassFile, CodePart, FieldType, Header, Method, Pool, Text};
use class_tree::Tree;
use std::marker::Model;

/// A method with code, and what its operations ask of it. Contracts see its class file, its code and the classes around it.
#[derive(Drop)]
pub(crate) struct MethodCode<'a> {
    pub(crate) tree: &'a Tree,
    pub(crate) class: &'a ClassFile,
    pub(crate) method: &'a Method,
    pub(crate) part: &'a CodePart,
    // the header of the class
    pub(crate) header: &'a Header,
    // what the method gives, if it gives a value
    pub(crate) result: Option<FieldType>,
    pub(crate) is_init: bool,
    pub(crate) is_clinit: bool,
}

impl<'a> Model for MethodCode<'a> {
    ghost use Rattle.machine_code.specs.Inner.Translating.{CodeIn, IsCodeIn};

    ghost Value = { CodeIn };

    ghost view = { λ code.
        record {
          classes = code.tree.now;
          class = code.class.now;
          method = code.method.now;
          part = code.part.now;
        } };

    ghost invariant = { λ code.
        IsCodeIn (record {
          classes = code.tree.now;
          class = code.class.now;
          method = code.method.now;
          part = code.part.now;
        }) code.header.now code.result code.is_init code.is_clinit };
}

impl<'a> MethodCode<'a> {
    /// The classes around it.
    pub(crate) fn tree(&self) -> &'a Tree
        ensures { result.now ≡ self.now.classes }
    {
        self.tree
    }

    /// The constants that its instructions name.
    pub(crate) fn pool(&self) -> &'a Pool
        ensures { result.now ≡ self.now.class.pool }
    {
        &self.class.pool
    }

    /// The name of its class.
    pub(crate) fn own_name(&self) -> &'a Text
        ensures { result.now ≡ (header_of self.now.class).name }
    {
        &self.header.name
    }

    /// The name of its class's superclass, if it has one.
    pub(crate) fn own_superclass(&self) -> Option<&'a Text>
        ensures { option_copied result ≡ (header_of self.now.class).super_name }
    {
        self.header.super_name.as_ref()
    }

    /// What the method gives, if it gives a value.
    pub(crate) fn result(&self) -> Option<&FieldType>
        ensures { option_copied result ≡ result_of (own_descriptor (scope_in self.now)) }
    {
        self.result.as_ref()
    }

    /// Whether it is an instance initialiser.
    pub(crate) fn is_init(&self) -> bool
        ensures { result ≡ is_init (scope_in self.now) }
    {
        self.is_init
    }

    /// Whether it is a class initialiser.
    pub(crate) fn is_clinit(&self) -> bool
        ensures { result ≡ is_clinit (scope_in self.now) }
    {
        self.is_clinit
    }
}
