//! The heap (JVM Specification SE 8, 2.5.3).
ghost use Rattle.std.specs.Prelude.{◌≡◌, ◌<◌, ◌↔◌, ◌^◌, ◌-◌, [], length, true, false, OnOk, OnErr, IfOk, IsSome};
ghost use Rattle.std.specs.Option.{option_copied};
ghost use Rattle.class_tree.specs.Headers.{headers_of};
ghost use Rattle.machine_heap.specs.Blanks.{IsAllocatable, blank_for};
ghost use Rattle.machine_heap.specs.Objects.{ConstantsAreThere, value_at};
ghost use Rattle.machine_values.specs.Heaps.{allocated, constant_in, constant_made, entered, left, monitor_count, object_at, with_value};

use crate::blanks::blanks_for;
use crate::classes::constant_object;
use crate::kept::KeptConstants;
use class_model::NoMemory;
use class_tree::Tree;
use machine_values::{Constant, Object, Ref, Shape, Value, ValueList};
use std::alloc::Global;
use std::marker::Model;

/// The objects of a run by their references, which are numbers counted from 0, and the references of constants. Contracts see
/// both as lists. It keeps its allocator.
#[derive(Drop)]
pub struct Heap {
    objects: Vec<Object>,
    kept: KeptConstants,
}

/// What becomes of a value that is written to the heap.
#[derive(Clone, Copy, PartialEq, Eq, Debug)]
pub enum Put {
    /// It is written.
    Done,
    /// There is no such object, or it has fewer values; nothing is written.
    Outside,
}

impl Model for Heap {
    ghost use Rattle.std.specs.Prelude.{length};
    ghost use Rattle.machine_heap.specs.Inner.Kept.{AreBelow};
    ghost use Rattle.machine_values.specs.Heaps.{Heap};

    ghost Value = { Heap };

    ghost view = { λ heap. record { objects = heap.objects.items; constants = heap.kept } };

    ghost invariant = { λ heap. AreBelow (length heap.objects.items) heap.kept };
}

impl Heap {
    /// A heap without objects. It does not allocate.
    pub fn new(alloc: Global) -> Heap
        ensures { result ≡ record { objects = []; constants = [] } }
    {
        Heap {
            objects: Vec::new(alloc),
            kept: KeptConstants::new(alloc),
        }
    }

    /// How many objects there are.
    pub fn len(&self) -> usize
        ensures len { result ≡ length self.now.objects }
        ensures constants { ConstantsAreThere self.now }
    {
        self.objects.len()
    }

    /// The object of a reference. It does not allocate.
    pub fn object(&self, at: Ref) -> Option<&Object>
        ensures { option_copied result ≡ object_at self.now at }
    {
        self.objects.get(at.number as usize)
    }

    /// How often the monitor of an object is entered, which is 0 where no object is (JVM Specification SE 8, 2.11.10). It does not
    /// allocate.
    pub fn monitor_count(&self, at: Ref) -> u64
        ensures { result ≡ monitor_count self.now at }
    {
        match self.objects.get(at.number as usize) {
            Some(object) => object.monitor,
            None => 0,
        }
    }

    /// Writes the value of an object's field or element, by its number among the object's values. It does not allocate.
    pub fn put(&mut self, at: Ref, index: usize, value: Value) -> Put
        ensures answer { (result ≡ Put.Done) ↔ IsSome (value_at self.old at index) }
        ensures done { result ≡ Put.Done → self.new ≡ with_value self.old at index value }
        ensures outside { result ≡ Put.Outside → self.new ≡ self.old }
    {
        match self.objects.get_mut(at.number as usize) {
            Some(object) if index < object.values.len() => {
                object.values.set(index, value);
                Put::Done
            }
            _ => Put::Outside,
        }
    }

    /// Enters the monitor of an object once more (JVM Specification SE 8, 2.11.10). The object is there, and the count is below its
    /// type's end. It does not allocate.
    pub fn enter(&mut self, at: Ref)
        requires there { IsSome (object_at self.old at) }
        requires few { monitor_count self.old at < 2 ^ 64 - 1 }
        ensures { self.new ≡ entered self.old at }
    {
        if let Some(object) = self.objects.get_mut(at.number as usize) {
            object.monitor += 1;
        }
    }

    /// Leaves the monitor of an object once. It answers false exactly where the monitor is not entered, and then nothing changes. It
    /// does not allocate.
    pub fn leave(&mut self, at: Ref) -> bool
        ensures answer { (result ≡ false) ↔ (monitor_count self.old at ≡ 0) }
        ensures left { result ≡ true → self.new ≡ left self.old at }
        ensures same { result ≡ false → self.new ≡ self.old }
    {
        match self.objects.get_mut(at.number as usize) {
            Some(object) if object.monitor > 0 => {
                object.monitor -= 1;
                true
            }
            _ => false,
        }
    }

    /// A new object, whose values are zero or null by their declared types and whose monitor is not entered, and its reference
    /// (JVM Specification SE 8, 2.3 and 2.4). A class is one of the tree's folder by its number, and an array's descriptor is an
    /// array type.
    ///
    /// # Errors
    ///
    /// `NoMemory` where memory runs out; the heap stays as it was.
    pub fn alloc(&mut self, tree: &Tree, shape: Shape) -> Result<Ref, NoMemory>
        requires { IsAllocatable tree.now shape }
        ensures heap { OnOk result
            (self.new
            ≡ (allocated self.old shape (blank_for (headers_of tree.now) shape)).heap) }
        ensures reference { IfOk result (λ at.
            at ≡ (allocated self.old shape (blank_for (headers_of tree.now) shape)).reference) }
        ensures err { OnErr result (self.new ≡ self.old) }
    {
        let values = blanks_for(*self.objects.allocator(), tree, &shape)?;
        self.alloc_with(shape, values)
    }

    /// A new object with these values, whose monitor is not entered, and its reference.
    ///
    /// # Errors
    ///
    /// `NoMemory` where memory runs out; the heap stays as it was.
    pub fn alloc_with(&mut self, shape: Shape, values: ValueList) -> Result<Ref, NoMemory>
        ensures heap { OnOk result (self.new ≡ (allocated self.old shape values).heap) }
        ensures reference { IfOk result (λ at. at ≡ (allocated self.old shape values).reference) }
        ensures err { OnErr result (self.new ≡ self.old) }
    {
        let number = self.objects.len() as u64;
        self.objects.push(Object {
            shape,
            values,
            monitor: 0,
        })?;
        Ok(Ref { number })
    }

    /// The constant that a reference is, if it is one. It does not allocate.
    pub fn constant_of(&self, at: Ref) -> Option<&Constant>
        ensures { option_copied result ≡ constant_in self.now.constants at }
    {
        self.kept.constant_of(at)
    }

    /// The reference of a constant: the one that it has, else that of a new object of the constant's class.
    ///
    /// # Errors
    ///
    /// `NoMemory` where memory runs out; the heap stays as it was.
    pub fn constant(&mut self, value: &Constant) -> Result<Ref, NoMemory>
        ensures heap { OnOk result (self.new ≡ (constant_made self.old value.now).heap) }
        ensures reference { IfOk result
            (λ at. at ≡ (constant_made self.old value.now).reference) }
        ensures err { OnErr result (self.new ≡ self.old) }
    {
        if let Some(at) = self.kept.reference_of(value) {
            return Ok(at);
        }
        let object = constant_object(*self.objects.allocator(), value)?;
        let constant = value.copy()?;
        let at = Ref {
            number: self.objects.len() as u64,
        };
        self.objects.reserve(1)?;
        self.kept.push(constant, at)?;
        self.objects.push_reserved(object);
        Ok(at)
    }
}
