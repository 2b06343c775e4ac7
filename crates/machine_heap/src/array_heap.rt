//! A heap whose arrays have lengths that are ints.
ghost use Rattle.std.specs.Prelude.{◌≡◌, ◌<◌, ◌↔◌, ◌^◌, ◌-◌, [], true, false, IsSome, IfSome, OnOk, OnErr, IfOk};
ghost use Rattle.std.specs.Option.{option_copied};
ghost use Rattle.machine_heap.specs.Objects.{value_at};
ghost use Rattle.machine_values.specs.Heaps.{allocated, constant_made, entered, left, monitor_count, object_at, with_value};
ghost use Rattle.machine_heap.specs.ShortArrays.{IsShort};

use crate::heap::{Heap, Put};
use class_model::NoMemory;
use machine_values::{Constant, Object, Ref, Shape, Value, ValueList};
use std::alloc::Global;
use std::marker::Model;

/// A heap in which each array has at most 2^31 - 1 elements, so that its length is an int. Contracts see the heap.
#[derive(Drop)]
pub struct ArrayHeap {
    heap: Heap,
}

impl Model for ArrayHeap {
    ghost use Rattle.machine_values.specs.Heaps.{Heap};
    ghost use Rattle.machine_heap.specs.ShortArrays.{HasShortArrays};

    ghost Value = { Heap };

    ghost view = { λ heap. heap.heap };

    ghost invariant = { λ heap. HasShortArrays heap.heap };
}

impl ArrayHeap {
    /// A heap without objects. It does not allocate.
    pub fn new(alloc: Global) -> ArrayHeap
        ensures { result ≡ record { objects = []; constants = [] } }
    {
        ArrayHeap {
            heap: Heap::new(alloc),
        }
    }

    /// The heap.
    pub fn heap(&self) -> &Heap
        ensures { result.now ≡ self.now }
    {
        &self.heap
    }

    /// The object of a reference. It does not allocate.
    pub fn object(&self, at: Ref) -> Option<&Object>
        ensures same { option_copied result ≡ object_at self.now at }
        ensures short { IfSome result (λ object. IsShort object.now.shape) }
    {
        self.heap.object(at)
    }

    /// Writes the value of an object's field or element, by its number among the object's values. It does not allocate.
    pub fn put(&mut self, at: Ref, index: usize, value: Value) -> Put
        ensures answer { (result ≡ Put.Done) ↔ IsSome (value_at self.old at index) }
        ensures done { result ≡ Put.Done → self.new ≡ with_value self.old at index value }
        ensures outside { result ≡ Put.Outside → self.new ≡ self.old }
    {
        self.heap.put(at, index, value)
    }

    /// Enters the monitor of an object once more. The object is there, and the count is below its type's end. It does not allocate.
    pub fn enter(&mut self, at: Ref)
        requires there { IsSome (object_at self.old at) }
        requires few { monitor_count self.old at < 2 ^ 64 - 1 }
        ensures { self.new ≡ entered self.old at }
    {
        self.heap.enter(at);
    }

    /// Leaves the monitor of an object once. It answers false exactly where the monitor is not entered, and then nothing changes. It
    /// does not allocate.
    pub fn leave(&mut self, at: Ref) -> bool
        ensures answer { (result ≡ false) ↔ (monitor_count self.old at ≡ 0) }
        ensures left { result ≡ true → self.new ≡ left self.old at }
        ensures same { result ≡ false → self.new ≡ self.old }
    {
        self.heap.leave(at)
    }

    /// A new object with these values, whose monitor is not entered, and its reference. An array's length is that of an int.
    ///
    /// # Errors
    ///
    /// `NoMemory` where memory runs out; the heap stays as it was.
    pub fn alloc_with(&mut self, shape: Shape, values: ValueList) -> Result<Ref, NoMemory>
        requires { IsShort shape }
        ensures heap { OnOk result (self.new ≡ (allocated self.old shape values).heap) }
        ensures reference { IfOk result (λ at. at ≡ (allocated self.old shape values).reference) }
        ensures err { OnErr result (self.new ≡ self.old) }
    {
        self.heap.alloc_with(shape, values)
    }

    /// The reference of a constant: the one that it has, else that of a new object of the constant's class.
    ///
    /// # Errors
    ///
    /// `NoMemory` where memory runs out; the heap stays as it was.
    pub fn constant(&mut self, value: &Constant) -> Result<Ref, NoMemory>
        ensures heap { OnOk result (self.new ≡ (constant_made self.old value.now).heap) }
        ensures reference { IfOk result
            (λ at. at ≡ (constant_made self.old value.now).reference) }
        ensures err { OnErr result (self.new ≡ self.old) }
    {
        self.heap.constant(value)
    }
}
