//! A part of the verification types of local units.
ghost use Rattle.std.specs.Prelude.{◌≡◌, ◌<◌, [], length, slice_get, OnOk, OnErr, IfOk};
ghost use Rattle.std.specs.Option.{option_copied};
ghost use Rattle.class_model.specs.LocalTypes.{type_in};
ghost use Rattle.class_model.specs.Inner.LocalTypes.{IsPut, IsKept};

use crate::frame::{VType, copy_types};
use crate::memory::NoMemory;
use std::alloc::Global;
use std::marker::Model;
use std::rc::Rc;

/// The verification types of successive local units, as many as are listed; those behind are `Top`. Contracts see the
/// listed ones. A copy shares the types.
pub struct LocalPart {
    types: Rc<Vec<VType>>,
}

// Written out: a derived drop would be spelled out, field by field, in each function that drops one, and be proved there.
impl Drop for LocalPart {
    fn drop(self) {
        let LocalPart { types: _ } = self;
    }
}

impl Model for LocalPart {
    ghost use Rattle.std.specs.Prelude.{List};
    ghost use Rattle.class_model.specs.declared.frame.VType.{VType};

    ghost Value = { List VType };

    ghost view = { λ part. part.types.value.items };
}

impl LocalPart {
    /// A part that lists nothing.
    pub fn new(alloc: Global) -> Result<Self, NoMemory>
        ensures { IfOk result (λ part. part ≡ []) }
    {
        let types = Rc::new(alloc, Vec::new(alloc))?;
        Ok(LocalPart { types })
    }

    /// How many types are listed.
    pub fn len(&self) -> usize
        ensures { result ≡ length self.now }
    {
        self.types.len()
    }

    /// The type of a unit, counted from 0, if it is listed.
    pub fn get(&self, at: usize) -> Option<&VType>
        ensures { option_copied result ≡ slice_get self.now at }
    {
        self.types.get(at)
    }

    /// An equal part, which shares the types.
    pub fn copy(&self) -> Result<Self, NoMemory>
        ensures { IfOk result (λ copy. copy ≡ self.now) }
    {
        let types = self.types.clone()?;
        Ok(LocalPart { types })
    }

    /// Gives a unit another type. Where the types are shared, they are copied first.
    pub fn put(&mut self, at: usize, unit: VType) -> Result<(), NoMemory>
        ensures ok { OnOk result (IsPut (type_in self.old) (type_in self.new) at unit) }
        ensures err { OnErr result (IsKept (type_in self.old) (type_in self.new)) }
    {
        if let Some(types) = Rc::get_mut(&mut self.types) {
            return put_type(types, at, unit);
        }
        let alloc = *self.types.allocator();
        let mut types = copy_types(alloc, self.types.as_slice())?;
        put_type(&mut types, at, unit)?;
        self.types = Rc::new(alloc, types)?;
        Ok(())
    }
}

// Gives a unit among listed ones another type; `Top` is listed for those before it that were not.
fn put_type(types: &mut Vec<VType>, at: usize, unit: VType) -> Result<(), NoMemory>
    ensures ok { OnOk result (IsPut (type_in types.old.items) (type_in types.new.items) at unit) }
    ensures err { OnErr result (IsKept (type_in types.old.items) (type_in types.new.items)) }
{
    if at < types.len() {
        types[at] = unit;
        return Ok(());
    }
    while types.len() < at {
        types.push(VType::Top)?;
    }
    types.push(unit)?;
    Ok(())
}
