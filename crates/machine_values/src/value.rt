//! Values of locals, operand stacks, fields and elements (JVM Specification SE 8, 2.3 and 2.4).
use class_model::ListOf;
use std::marker::Model;

/// A reference to an object of a heap, by its number there. Contracts see the number.
#[derive(Clone, Copy, PartialEq, Eq, Debug)]
pub struct Ref {
    pub number: u64,
}

impl Model for Ref {
    ghost use Rattle.std.specs.Prelude.{ℕ};

    ghost Value = { ℕ };

    ghost view = { λ reference. reference.number };

    ghost inverse = { λ number. record { number = number } };
}

/// A list of references.
pub type RefList = ListOf<Ref>;

/// A value. What is narrower than int is an int (JVM Specification SE 8, 2.11.1).
#[derive(Clone, Copy, PartialEq, Eq, Debug)]
pub enum Value {
    Int(i32),
    Long(i64),
    /// The bits of a float.
    Float(u32),
    /// The bits of a double.
    Double(u64),
    Null,
    Ref(Ref),
}
