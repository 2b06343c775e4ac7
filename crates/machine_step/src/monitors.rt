//! A heap that knows which monitors are entered.
ghost use Rattle.std.specs.Prelude.{◌≡◌, ◌<◌, ◌↔◌, ◌^◌, ◌-◌, [], map, length, true, false, IsSome, OnOk, OnErr, IfOk};
ghost use Rattle.std.specs.Option.{option_copied};
ghost use Rattle.machine_heap.specs.Objects.{value_at};
ghost use Rattle.machine_values.specs.Heaps.{allocated, constant_in, constant_made, entered, left, monitor_count, object_at, with_value};
ghost use Rattle.machine_heap.specs.ShortArrays.{IsShort};

use crate::counting::known_counts;
use crate::known::KnownRefs;
use class_model::NoMemory;
use indexmap::IndexSet;
use machine_heap::{ArrayHeap, Heap, Put};
use machine_values::{Constant, CountList, Object, Ref, Shape, Value, ValueList};
use std::alloc::Global;
use std::marker::Model;

/// A heap beside the references whose monitors are entered, so that these are found without a look at each object. Contracts
/// see the heap.
#[derive(Drop)]
pub struct MonitorHeap {
    heap: ArrayHeap,
    // the references whose monitors are entered
    held: IndexSet<u64>,
}

impl Model for MonitorHeap {
    ghost use Rattle.machine_values.specs.Heaps.{Heap};
    ghost use Rattle.machine_step.specs.Inner.Monitors.{AreHeld};

    ghost Value = { Heap };

    ghost view = { λ heap. heap.heap };

    ghost invariant = { λ heap. AreHeld heap.heap heap.held.keys };
}

impl MonitorHeap {
    /// A heap without objects. It does not allocate.
    pub fn new(alloc: Global) -> MonitorHeap
        ensures { result ≡ record { objects = []; constants = [] } }
    {
        MonitorHeap {
            heap: ArrayHeap::new(alloc),
            held: IndexSet::new(alloc),
        }
    }

    /// The heap.
    pub fn heap(&self) -> &Heap
        ensures { result.now ≡ self.now }
    {
        self.heap.heap()
    }

    /// The heap, whose arrays have lengths that are ints.
    pub fn array_heap(&self) -> &ArrayHeap
        ensures { result.now ≡ self.now }
    {
        &self.heap
    }

    /// The monitor counts of all known references, in time that grows with how many monitors are entered.
    ///
    /// # Errors
    ///
    /// `NoMemory` where memory runs out.
    pub fn monitor_counts(&self, alloc: Global, known: &KnownRefs) -> Result<CountList, NoMemory>
        ensures { IfOk result (λ counts. counts ≡ map (monitor_count self.now) known.now) }
    {
        known_counts(alloc, self.heap.heap(), known, self.held.as_slice())
    }

    /// Writes the value of an object's field or element, by its number among the object's values. It does not allocate.
    pub fn put(&mut self, at: Ref, index: usize, value: Value) -> Put
        ensures answer { (result ≡ Put.Done) ↔ IsSome (value_at self.old at index) }
        ensures done { result ≡ Put.Done → self.new ≡ with_value self.old at index value }
        ensures outside { result ≡ Put.Outside → self.new ≡ self.old }
    {
        self.heap.put(at, index, value)
    }

    /// Enters the monitor of an object once more.
    ///
    /// # Errors
    ///
    /// `NoMemory` where memory runs out; the heap stays as it was.
    pub fn enter(&mut self, at: Ref) -> Result<(), NoMemory>
        requires there { IsSome (object_at self.old at) }
        requires few { monitor_count self.old at < 2 ^ 64 - 1 }
        ensures ok { OnOk result (self.new ≡ entered self.old at) }
        ensures err { OnErr result (self.new ≡ self.old) }
    {
        self.held.insert(at.number)?;
        self.heap.enter(at);
        Ok(())
    }

    /// Leaves the monitor of an object once. It answers false exactly where the monitor is not entered, and then nothing changes. It
    /// does not allocate.
    pub fn leave(&mut self, at: Ref) -> bool
        ensures answer { (result ≡ false) ↔ (monitor_count self.old at ≡ 0) }
        ensures left { result ≡ true → self.new ≡ left self.old at }
        ensures same { result ≡ false → self.new ≡ self.old }
    {
        let leaves = self.heap.leave(at);
        if self.heap.heap().monitor_count(at) == 0 {
            self.held.swap_remove(&at.number);
        }
        leaves
    }

    /// A new object with these values, whose monitor is not entered, and its reference. An array's length is that of an int.
    ///
    /// # Errors
    ///
    /// `NoMemory` where memory runs out; the heap stays as it was.
    pub fn alloc_with(&mut self, shape: Shape, values: ValueList) -> Result<Ref, NoMemory>
        requires { IsShort shape }
        ensures heap { OnOk result (self.new ≡ (allocated self.old shape values).heap) }
        ensures reference { IfOk result (λ at. at ≡ (allocated self.old shape values).reference) }
        ensures err { OnErr result (self.new ≡ self.old) }
    {
        self.heap.alloc_with(shape, values)
    }

    /// The reference of a constant: the one that it has, else that of a new object of the constant's class.
    ///
    /// # Errors
    ///
    /// `NoMemory` where memory runs out; the heap stays as it was.
    pub fn constant(&mut self, value: &Constant) -> Result<Ref, NoMemory>
        ensures heap { OnOk result (self.new ≡ (constant_made self.old value.now).heap) }
        ensures reference { IfOk result
            (λ at. at ≡ (constant_made self.old value.now).reference) }
        ensures err { OnErr result (self.new ≡ self.old) }
    {
        self.heap.constant(value)
    }
}
