//! What the library does in a run.
use class_model::{ListOf, Text, TextList};

/// A value that the library gives: a reference is the number of one that it knows.
#[derive(Clone, Copy, PartialEq, Eq)]
pub enum Given {
    Int(i32),
    Long(i64),
    /// The bits of a float.
    Float(u32),
    /// The bits of a double.
    Double(u64),
    Null,
    Known(u64),
}

/// A list of given values.
pub type GivenList = ListOf<Given>;

/// An action of the library. References are numbers of those that it knows.
#[derive(Drop)]
pub enum Action {
    /// Calls a method of a class of the folder without selection, the receiver first where it is not static.
    Call {
        class: Text,
        name: Text,
        desc: Text,
        values: GivenList,
    },
    /// Makes an object of a class of the folder and calls an instance initialiser on it.
    Construct {
        class: Text,
        desc: Text,
        values: GivenList,
    },
    /// Returns to the pending event.
    Return(Option<Given>),
    /// Throws a throwable in place of an answer.
    Throw(u64),
    ArrayGet {
        at: u64,
        index: i32,
    },
    ArraySet {
        at: u64,
        index: i32,
        value: Given,
    },
    ArrayLength(u64),
    /// Makes an array of a descriptor.
    NewArray {
        desc: Text,
        length: i32,
    },
    /// Makes an object of a class of the library, which also implements interfaces.
    NewExternal {
        class: Text,
        also: TextList,
    },
    /// Ends the run.
    Stop,
}

/// A list of actions.
pub type ActionList = ListOf<Action>;
