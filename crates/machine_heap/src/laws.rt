//! Laws: functions that do nothing, whose contracts say what always holds.
ghost use Rattle.std.specs.Prelude.{◌≡◌, ◌≢◌, ◌⊎◌, ◌+◌, ◌-◌, ℕ, List, length, Some, IsSome};
ghost use Rattle.std.specs.Option.{option_map};
ghost use Rattle.machine_heap.specs.Objects.{value_at};
ghost use Rattle.machine_values.specs.Heaps.{Heap, allocated, constant_made, entered, kept_in, left, monitor_count, object_at, with_value};
ghost use Rattle.machine_values.specs.declared.object.Constant.{Constant};
ghost use Rattle.machine_values.specs.declared.object.Shape.{Shape};
ghost use Rattle.machine_values.specs.declared.value.Value.{Value};

/// A new object is found under its reference, and nothing else changes: no object that was there, and no count of a monitor.
pub fn a_new_object_changes_no_other()
    ensures made { (heap : Heap) (shape : Shape) (values : List Value)
        → object_at (allocated heap shape values).heap (allocated heap shape values).reference
        ≡ Some (record { shape = shape; values = values; monitor = 0 }) }
    ensures others { (heap : Heap) (shape : Shape) (values : List Value) (at : ℕ)
        → at ≢ (allocated heap shape values).reference
        → object_at (allocated heap shape values).heap at ≡ object_at heap at }
    ensures monitors { (heap : Heap) (shape : Shape) (values : List Value) (at : ℕ)
        → monitor_count (allocated heap shape values).heap at ≡ monitor_count heap at }
{}

/// A value that is written is read again, and nothing else changes: no other value, no shape, and no count of a monitor.
pub fn a_write_changes_one_value()
    ensures value { (heap : Heap) (at index : ℕ) (value : Value)
        → IsSome (value_at heap at index)
        → value_at (with_value heap at index value) at index ≡ Some value }
    ensures others { (heap : Heap) (at index other slot : ℕ) (value : Value)
        → (at ≢ other) ⊎ (index ≢ slot)
        → value_at (with_value heap at index value) other slot ≡ value_at heap other slot }
    ensures shapes { (heap : Heap) (at index other : ℕ) (value : Value)
        → option_map (λ object. object.shape) (object_at (with_value heap at index value) other)
        ≡ option_map (λ object. object.shape) (object_at heap other) }
    ensures monitors { (heap : Heap) (at index other : ℕ) (value : Value)
        → monitor_count (with_value heap at index value) other ≡ monitor_count heap other }
{}

/// A monitor that is entered or left counts one more or less, and nothing else changes: no shape, no value, and no other object.
pub fn a_monitor_changes_one_count()
    ensures entered { (heap : Heap) (at : ℕ)
        → IsSome (object_at heap at)
        → monitor_count (entered heap at) at ≡ monitor_count heap at + 1 }
    ensures left { (heap : Heap) (at : ℕ)
        → IsSome (object_at heap at)
        → monitor_count (left heap at) at ≡ monitor_count heap at - 1 }
    ensures others_entered { (heap : Heap) (at other : ℕ)
        → at ≢ other
        → object_at (entered heap at) other ≡ object_at heap other }
    ensures others_left { (heap : Heap) (at other : ℕ)
        → at ≢ other
        → object_at (left heap at) other ≡ object_at heap other }
    ensures shapes_entered { (heap : Heap) (at other : ℕ)
        → option_map (λ object. object.shape) (object_at (entered heap at) other)
        ≡ option_map (λ object. object.shape) (object_at heap other) }
    ensures shapes_left { (heap : Heap) (at other : ℕ)
        → option_map (λ object. object.shape) (object_at (left heap at) other)
        ≡ option_map (λ object. object.shape) (object_at heap other) }
    ensures values_entered { (heap : Heap) (at other : ℕ)
        → option_map (λ object. object.values) (object_at (entered heap at) other)
        ≡ option_map (λ object. object.values) (object_at heap other) }
    ensures values_left { (heap : Heap) (at other : ℕ)
        → option_map (λ object. object.values) (object_at (left heap at) other)
        ≡ option_map (λ object. object.values) (object_at heap other) }
{}

/// A constant has the reference that was made for it, which stays, and its object changes no other.
pub fn a_constant_has_one_reference()
    ensures kept { (heap : Heap) (constant : Constant)
        → kept_in (constant_made heap constant).heap.constants constant
        ≡ Some (constant_made heap constant).reference }
    ensures others { (heap : Heap) (constant other : Constant) (reference : ℕ)
        → kept_in heap.constants other ≡ Some reference
        → kept_in (constant_made heap constant).heap.constants other ≡ Some reference }
    ensures objects { (heap : Heap) (constant : Constant) (at : ℕ)
        → at ≢ length heap.objects
        → object_at (constant_made heap constant).heap at ≡ object_at heap at }
    ensures monitors { (heap : Heap) (constant : Constant) (at : ℕ)
        → monitor_count (constant_made heap constant).heap at ≡ monitor_count heap at }
{}
