//! What the constants of one class file refer to: each is resolved once.
ghost use Rattle.std.specs.Prelude.{◌≡◌, [], ◌∷◌, Some, IfOk, IfSome, IsTrue};
ghost use Rattle.std.specs.Option.{option_copied};
ghost use Rattle.class_model.specs.Pool.{constant_at};
ghost use Rattle.class_tree.specs.Answers.{Answers};
ghost use Rattle.class_tree.specs.Headers.{headers_of};
ghost use Rattle.member_link.specs.Declarations.{asked};
ghost use Rattle.member_link.specs.Inner.Resolutions.{Resolves};
ghost use Rattle.member_link.specs.Inner.Resolving.{resolved_scope};
ghost use Rattle.member_link.specs.Uses.{class_use_checks, type_name_checks};

use crate::alike::{is_alike, text_index};
use crate::ask::ask_at;
use crate::names::is_named_there;
use crate::resolution::Resolution;
use crate::resolving::resolve;
use class_model::{ClassFile, Const, Member, NoMemory, Text};
use class_tree::{LinkFault, LinkRule, Tree};
use std::alloc::Global;
use std::marker::Model;

/// A class file whose references are resolved: the class of this name. Contracts see the classes, the pool and the name.
#[derive(Drop)]
pub(crate) struct Resolver<'a> {
    tree: &'a Tree,
    class: &'a ClassFile,
    name: &'a Text,
    // by index, what a constant resolves to, as soon as it was asked for
    resolutions: Vec<Option<Resolution>>,
    // by the index of the text of a name or a descriptor, the constant that names it and was
    // resolved last: one that refers to the same resolves to the same
    guesses: Vec<u16>,
}

impl<'a> Model for Resolver<'a> {
    ghost use Rattle.class_tree.specs.Headers.{headers_of};
    ghost use Rattle.member_link.specs.Inner.Resolutions.{AreResolutions};
    ghost use Rattle.member_link.specs.Inner.Resolving.{Resolved};

    ghost Value = { Resolved };

    ghost view = { λ resolver.
        record {
          headers = headers_of resolver.tree.now;
          pool = resolver.class.now.pool;
          from = resolver.name.now;
        } };

    ghost invariant = { λ resolver.
        AreResolutions
        (record {
          headers = headers_of resolver.tree.now;
          pool = resolver.class.now.pool;
          from = resolver.name.now;
        }) resolver.resolutions.items };
}

impl<'a> Resolver<'a> {
    /// The class file of a class of this name.
    pub(crate) fn new(
        alloc: Global,
        tree: &'a Tree,
        class: &'a ClassFile,
        name: &'a Text,
    ) -> Result<Self, NoMemory>
        ensures { IfOk result (λ resolver. resolver
            ≡ record { headers = headers_of tree.now; pool = class.now.pool; from = name.now }) }
    {
        let count = usize::from(class.pool.count());
        let resolutions = vec![in alloc; None; count]?;
        let guesses = vec![in alloc; 0; count]?;
        Ok(Resolver {
            tree,
            class,
            name,
            resolutions,
            guesses,
        })
    }

    /// Asks that a test holds of a method of the class.
    pub(crate) fn ask(
        &self,
        alloc: Global,
        holds: bool,
        method: &Member,
        rule: LinkRule,
    ) -> Result<(), LinkFault>
        ensures { Answers (asked (resolved_scope self.now method.now).site rule (IsTrue holds)
            ∷ []) result }
    {
        ask_at(alloc, holds, self.name, method, rule)
    }

    /// The constant at an index.
    pub(crate) fn constant(&self, index: u16) -> Option<&Const>
        ensures { option_copied result ≡ constant_at self.now.pool index }
    {
        self.class.pool.get(index)
    }

    /// What the constant at an index resolves to.
    pub(crate) fn resolution(&mut self, alloc: Global, index: u16) -> Result<Resolution, NoMemory>
        ensures same { self.new ≡ self.old }
        ensures resolved { IfOk result (Resolves self.old index) }
    {
        if let Some(resolution) = self.known(index) {
            return Ok(resolution);
        }
        let resolution = match self.known_of_alike(index) {
            Some(resolution) => resolution,
            None => resolve(alloc, self.tree, &self.class.pool, self.name, index)?,
        };
        self.keep(index, resolution);
        self.guess(index);
        Ok(resolution)
    }

    // What is known of the constant at an index.
    fn known(&self, index: u16) -> Option<Resolution>
        ensures { IfSome result (Resolves self.now index) }
    {
        *self.resolutions.get(usize::from(index))?
    }

    // What is known of a constant that refers to what the one at an index does.
    fn known_of_alike(&self, index: u16) -> Option<Resolution>
        ensures { IfSome result (Resolves self.now index) }
    {
        let constant = self.constant(index)?;
        let guess = *self.guesses.get(self.slot(index)?)?;
        let guessed = self.constant(guess)?;
        if is_alike(&self.class.pool, guessed, constant) {
            self.known(guess)
        } else {
            None
        }
    }

    // Where the guess of the constants that refer to what the one at an index does stands.
    fn slot(&self, index: u16) -> Option<usize> {
        Some(usize::from(text_index(&self.class.pool, self.constant(index)?)?))
    }

    // Guesses that constants that refer to what the one at an index does are resolved next.
    fn guess(&mut self, index: u16)
        ensures { self.new ≡ self.old }
    {
        let Some(slot) = self.slot(index) else {
            return;
        };
        if slot < self.guesses.len() {
            self.guesses[slot] = index;
        }
    }

    // Keeps what the constant at an index resolves to.
    fn keep(&mut self, index: u16, resolution: Resolution)
        requires { Resolves self.old index resolution }
        ensures { self.new ≡ self.old }
    {
        let index = usize::from(index);
        if index < self.resolutions.len() {
            self.resolutions[index] = Some(resolution);
        }
    }
}

/// Asks that the class of a Class constant that a method names is there and accessible.
pub(crate) fn check_class(
    alloc: Global,
    resolver: &mut Resolver<'_>,
    member: &Member,
    index: u16,
) -> Result<(), LinkFault>
    ensures same { resolver.new ≡ resolver.old }
    ensures told { Answers
        (class_use_checks (resolved_scope resolver.old member.now) index) result }
{
    let Some(Const::Class(_)) = resolver.constant(index) else {
        return Ok(());
    };
    match resolver.resolution(alloc, index)? {
        Resolution::Broken(rule) => resolver.ask(alloc, false, member, rule),
        _ => Ok(()),
    }
}

/// Asks that the class of a name that a method's stated frame has is there.
pub(crate) fn check_name(
    alloc: Global,
    resolver: &Resolver<'_>,
    member: &Member,
    name: &Text,
) -> Result<(), LinkFault>
    ensures { Answers (type_name_checks (resolved_scope resolver.now member.now) name.now) result }
{
    let is_there = is_named_there(resolver.tree, name.bytes());
    resolver.ask(alloc, is_there, member, LinkRule::Missing)
}
