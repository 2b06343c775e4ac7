//! What a run remembers beside its frames.
ghost use Rattle.std.specs.Prelude.{◌≡◌, ◌+◌, ◌-◌, ◌^◌, ◌<◌, ◌↔◌, [], true, false, IsSome, OnOk, OnErr, IfOk};
ghost use Rattle.machine_heap.specs.Objects.{value_at};
ghost use Rattle.machine_values.specs.Heaps.{allocated, constant_made, left, monitor_count, object_at, with_value};
ghost use Rattle.member_link.specs.Machine.ObjectSteps.{with_entered};
ghost use Rattle.member_link.specs.Machine.Worlds.{with_heap, with_static};
ghost use Rattle.machine_step.specs.Room.{HasRoom};
ghost use Rattle.machine_heap.specs.ShortArrays.{IsShort};

use crate::begun::ClassNumberList;
use crate::monitors::MonitorHeap;
use crate::statics::StaticValueList;
use class_model::NoMemory;
use machine_heap::{Heap, Put};
use machine_values::{Constant, Ref, Shape, Value, ValueList};
use std::alloc::Global;
use std::marker::Model;
use std::mem::replace;

/// The heap, the static fields that were written, the classes that were begun, and how many objects were allocated and monitors
/// entered: what the library or the machine itself makes is not counted. Contracts see the record of the definitions.
#[derive(Drop)]
pub struct Memory {
    pub heap: MonitorHeap,
    pub statics: StaticValueList,
    pub begun: ClassNumberList,
    pub allocations: u128,
    pub entries: u64,
}

impl Model for Memory {
    ghost use Rattle.member_link.specs.Machine.Worlds.{Memory};

    ghost Value = { Memory };

    ghost view = { λ memory. record {
      heap = memory.heap;
      statics = memory.statics;
      begun = memory.begun;
      allocations = memory.allocations;
      entries = memory.entries;
    } };
}

impl Memory {
    /// No object, no written field, no begun class, and nothing counted. It does not allocate.
    pub fn new(alloc: Global) -> Memory
        ensures { result
            ≡ record {
              heap = record { objects = []; constants = [] };
              statics = [];
              begun = [];
              allocations = 0;
              entries = 0;
            } }
    {
        Memory {
            heap: MonitorHeap::new(alloc),
            statics: StaticValueList::new(alloc),
            begun: ClassNumberList::new(alloc),
            allocations: 0,
            entries: 0,
        }
    }

    /// Forgets all: what a world remembers in which memory ran out, so that its counts stay within their bounds. It does not
    /// allocate.
    pub fn clear(&mut self, alloc: Global)
        ensures { self.new
            ≡ record {
              heap = record { objects = []; constants = [] };
              statics = [];
              begun = [];
              allocations = 0;
              entries = 0;
            } }
    {
        // let go by a call, so that its drop is proved once
        drop(replace(self, Memory::new(alloc)));
    }

    /// The heap.
    pub fn heap(&self) -> &Heap
        ensures { result.now ≡ self.now.heap }
    {
        self.heap.heap()
    }

    /// Enters the monitor of an object once more, which is counted.
    ///
    /// # Errors
    ///
    /// `NoMemory` where memory runs out; all stays as it was.
    pub fn enter(&mut self, at: Ref) -> Result<(), NoMemory>
        requires there { IsSome (object_at self.old.heap at) }
        requires room { HasRoom self.old }
        ensures ok { OnOk result (self.new ≡ with_entered self.old at) }
        ensures err { OnErr result (self.new ≡ self.old) }
    {
        self.heap.enter(at)?;
        self.entries += 1;
        Ok(())
    }

    /// Leaves the monitor of an object once. It answers false exactly where the monitor is not entered, and then nothing changes. It
    /// does not allocate.
    pub fn leave(&mut self, at: Ref) -> bool
        ensures answer { (result ≡ false) ↔ (monitor_count self.old.heap at ≡ 0) }
        ensures left { result ≡ true → self.new ≡ with_heap self.old (left self.old.heap at) }
        ensures same { result ≡ false → self.new ≡ self.old }
    {
        self.heap.leave(at)
    }

    /// Writes the value of an object's field or element, by its number among the object's values. It does not allocate.
    pub fn put(&mut self, at: Ref, index: usize, value: Value) -> Put
        ensures answer { (result ≡ Put.Done) ↔ IsSome (value_at self.old.heap at index) }
        ensures done { result ≡ Put.Done
            → self.new ≡ with_heap self.old (with_value self.old.heap at index value) }
        ensures outside { result ≡ Put.Outside → self.new ≡ self.old }
    {
        self.heap.put(at, index, value)
    }

    /// A new object with these values, whose monitor is not entered, and its reference. It is not counted. An array's
    /// length is that of an int.
    ///
    /// # Errors
    ///
    /// `NoMemory` where memory runs out; all stays as it was.
    pub fn allocate(&mut self, shape: Shape, values: ValueList) -> Result<Ref, NoMemory>
        requires { IsShort shape }
        ensures memory { OnOk result
            (self.new ≡ with_heap self.old (allocated self.old.heap shape values).heap) }
        ensures reference { IfOk result
            (λ at. at ≡ (allocated self.old.heap shape values).reference) }
        ensures err { OnErr result (self.new ≡ self.old) }
    {
        self.heap.alloc_with(shape, values)
    }

    /// A new object with these values, whose monitor is not entered, and its reference. It is counted. An array's length
    /// is that of an int. A run that `HasRoom` counts far less than 2^128 objects.
    ///
    /// # Errors
    ///
    /// `NoMemory` where memory runs out; all stays as it was.
    pub fn allocate_counted(&mut self, shape: Shape, values: ValueList) -> Result<Ref, NoMemory>
        requires short { IsShort shape }
        requires few { self.old.allocations < 2 ^ 128 - 1 }
        ensures memory { OnOk result
            (self.new
            ≡ record self.old {
              heap = (allocated self.old.heap shape values).heap;
              allocations = self.old.allocations + 1;
            }) }
        ensures reference { IfOk result
            (λ at. at ≡ (allocated self.old.heap shape values).reference) }
        ensures err { OnErr result (self.new ≡ self.old) }
    {
        let at = self.heap.alloc_with(shape, values)?;
        self.allocations += 1;
        Ok(at)
    }

    /// The reference of a constant: the one that it has, else that of a new object of the constant's class, which is not counted.
    ///
    /// # Errors
    ///
    /// `NoMemory` where memory runs out; all stays as it was.
    pub fn constant(&mut self, value: &Constant) -> Result<Ref, NoMemory>
        ensures memory { OnOk result
            (self.new ≡ with_heap self.old (constant_made self.old.heap value.now).heap) }
        ensures reference { IfOk result
            (λ at. at ≡ (constant_made self.old.heap value.now).reference) }
        ensures err { OnErr result (self.new ≡ self.old) }
    {
        self.heap.constant(value)
    }

    /// Writes a static field of a class of the folder, by the numbers of both.
    ///
    /// # Errors
    ///
    /// `NoMemory` where memory runs out; all stays as it was.
    pub fn put_static(&mut self, class: usize, field: usize, value: Value) -> Result<(), NoMemory>
        ensures ok { OnOk result (self.new ≡ with_static self.old class field value) }
        ensures err { OnErr result (self.new ≡ self.old) }
    {
        self.statics.put(class, field, value)
    }
}
