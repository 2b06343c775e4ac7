//! Virtual objects that states share.
ghost use Rattle.std.specs.Prelude.{◌≡◌, IfOk};

use crate::slot::VObject;
use class_model::NoMemory;
use std::alloc::Global;
use std::marker::Model;
use std::rc::Rc;

/// A virtual object that several states may hold. Contracts see the object.
#[derive(Drop)]
pub(crate) struct SharedObject {
    object: Rc<VObject>,
}

impl Model for SharedObject {
    ghost use Rattle.virtual_state.specs.declared.slot.VObject.{VObject};

    ghost Value = { VObject };

    ghost view = { λ shared. shared.object.value };
}

impl SharedObject {
    /// An object that one state holds.
    pub(crate) fn new(alloc: Global, object: VObject) -> Result<Self, NoMemory>
        ensures { IfOk result (λ shared. shared ≡ object) }
    {
        let object = Rc::new(alloc, object)?;
        Ok(SharedObject { object })
    }

    /// The same object, which is shared.
    pub(crate) fn share(&self) -> Result<Self, NoMemory>
        ensures { IfOk result (λ shared. shared ≡ self.now) }
    {
        let object = self.object.clone()?;
        Ok(SharedObject { object })
    }

    /// The object.
    pub(crate) fn get(&self) -> &VObject
        ensures { result.now ≡ self.now }
    {
        self.object.as_ref()
    }

    /// The object as it is kept.
    pub(crate) fn lend(&self) -> &Rc<VObject>
        ensures { result.now.value ≡ self.now }
    {
        &self.object
    }
}
