//! The static fields that were written.
ghost use Rattle.std.specs.Prelude.{◌≡◌, ◌↔◌, IsTrue, [], OnOk, OnErr};
ghost use Rattle.member_link.specs.Machine.Worlds.{written_static, put_static_in};
ghost use Rattle.machine_step.specs.contracts.statics.StaticFieldPartialEq.TheImpl.{ghosts as comparison};

use class_model::NoMemory;
use indexmap::IndexMap;
use machine_values::Value;
use std::alloc::Global;
use std::marker::Model;

/// A static field of a class of the folder, by the numbers of both.
#[derive(Clone, Copy, PartialEq, Eq, Hash)]
pub struct StaticField {
    pub class: usize,
    pub field: usize,
}

// The comparison of fields, by which a map finds them, holds of equal ones alone.
fn fields_compare_by_value()
    ensures { (one other : StaticField) → IsTrue (comparison.eq one other) ↔ (one ≡ other) }
{}

/// Static fields and their values, in the order of their first writes. Contracts see the list. A field is found, written and
/// appended in constant time.
#[derive(Drop)]
pub struct StaticValueList {
    values: IndexMap<StaticField, Value>,
}

impl Model for StaticValueList {
    ghost use Rattle.std.specs.Prelude.{List, map};
    ghost use Rattle.member_link.specs.Machine.Worlds.{StaticValue};
    ghost use Rattle.machine_step.specs.Inner.Statics.{static_of};

    ghost Value = { List StaticValue };

    ghost view = { λ list. map static_of list.values.entries };
}

impl StaticValueList {
    /// No field.
    pub fn new(alloc: Global) -> StaticValueList
        ensures { result ≡ [] }
    {
        StaticValueList {
            values: IndexMap::new(alloc),
        }
    }

    /// The value of a field that was written.
    pub fn get(&self, class: usize, field: usize) -> Option<Value>
        ensures { result ≡ written_static self.now class field }
    {
        fields_compare_by_value();
        self.values.get(&StaticField { class, field }).copied()
    }

    /// Writes a field, which comes last if it was not written before.
    ///
    /// # Errors
    ///
    /// `NoMemory` where memory runs out; the fields stay as they were.
    pub fn put(&mut self, class: usize, field: usize, value: Value) -> Result<(), NoMemory>
        ensures ok { OnOk result (self.new ≡ put_static_in self.old class field value) }
        ensures err { OnErr result (self.new ≡ self.old) }
    {
        fields_compare_by_value();
        self.values.insert(StaticField { class, field }, value)?;
        Ok(())
    }
}
