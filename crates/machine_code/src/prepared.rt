//! The methods of a folder with their code prepared, each before it first runs.
ghost use Rattle.std.specs.Prelude.{◌≡◌, IfOk};
ghost use Rattle.member_link.specs.Machine.Programs.{Program};
ghost use Rattle.machine_code.specs.Prepared.{IsPrepared, IsPreparedIf};
ghost use Rattle.member_link.specs.TreePrograms.{IsProgram};

use crate::prepared_method::PreparedMethod;
use crate::prepared_table::{Slots, make_room, put_in, take_out};
use crate::translating::methods::prepare_method;
use class_model::{MethodAt, NoMemory};
use class_tree::Tree;
use std::alloc::Global;
use std::marker::Model;

/// The methods of a tree's folder with their code prepared, each as soon as it is asked for. Contracts see the classes.
#[derive(Drop)]
pub struct Prepared<'t> {
    tree: &'t Tree,
    // by the number of the class, and by the number of the method
    classes: Vec<Slots>,
}

impl<'t> Model for Prepared<'t> {
    ghost use Rattle.class_tree.specs.Headers.{Classes};
    ghost use Rattle.machine_code.specs.Inner.PreparedTables.{ArePrepared};

    ghost Value = { Classes };

    ghost view = { λ prepared. prepared.tree.now };

    ghost invariant = { λ prepared. ArePrepared prepared.tree.now prepared.classes.items };
}

impl<'t> Prepared<'t> {
    /// No method is prepared yet. It does not allocate.
    pub fn new(alloc: Global, tree: &'t Tree) -> Prepared<'t>
        ensures { result ≡ tree.now }
    {
        Prepared {
            tree,
            classes: Vec::new(alloc),
        }
    }

    /// The classes.
    pub fn tree(&self) -> &'t Tree
        ensures { result.now ≡ self.now }
    {
        self.tree
    }

    /// Takes the prepared code of a method out, to be put back behind its use; none where the method has no code that runs.
    ///
    /// # Errors
    ///
    /// `NoMemory` where memory runs out.
    pub fn take(
        &mut self,
        alloc: Global,
        at: MethodAt,
    ) -> Result<Option<Box<PreparedMethod>>, NoMemory>
        ensures same { self.new ≡ self.old }
        ensures prepared { IfOk result (λ method. (P : Program) → IsProgram self.old P
            → IsPreparedIf P at method) }
    {
        match take_out(&mut self.classes, at) {
            Some(method) => Ok(Some(method)),
            None => self.prepare(alloc, at),
        }
    }

    // Prepares a method, and makes room for it.
    fn prepare(
        &mut self,
        alloc: Global,
        at: MethodAt,
    ) -> Result<Option<Box<PreparedMethod>>, NoMemory>
        ensures same { self.new ≡ self.old }
        ensures prepared { IfOk result (λ method. (P : Program) → IsProgram self.old P
            → IsPreparedIf P at method) }
    {
        let method = prepare_method(alloc, self.tree, at)?;
        if method.is_some() {
            make_room(alloc, &mut self.classes, at)?;
        }
        Ok(method)
    }

    /// Puts the prepared code of a method back. It does not allocate.
    pub fn put(&mut self, at: MethodAt, method: Box<PreparedMethod>)
        requires { (P : Program) → IsProgram self.old P → IsPrepared P at method.value }
        ensures { self.new ≡ self.old }
    {
        put_in(&mut self.classes, at, method);
    }
}
