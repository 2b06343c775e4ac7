//! What the library sees of a run.
use crate::count_list::CountList;
use crate::object::Constant;
use class_model::{ListOf, Text, TextList};

/// What a reference shows where it appears first: its class or array type, the interfaces that an object of the library also
/// implements, and the constant that it is.
#[derive(Drop)]
pub struct First {
    pub class: Text,
    pub also: TextList,
    pub constant: Option<Constant>,
}

/// A reference as the library knows it: the number of its first appearance.
#[derive(Drop)]
pub struct SeenRef {
    pub number: u64,
    pub first: Option<First>,
}

/// A value as the library sees it.
#[derive(Drop)]
pub enum Seen {
    Int(i32),
    Long(i64),
    /// The bits of a float.
    Float(u32),
    /// The bits of a double.
    Double(u64),
    Null,
    Ref(SeenRef),
}

/// A list of seen values.
pub type SeenList = ListOf<Seen>;

/// What an event is. The library answers the first five.
#[derive(Drop)]
pub enum EventKind {
    /// The call of a method that is not the folder's, the receiver first.
    Call {
        class: Text,
        name: Text,
        desc: Text,
        values: SeenList,
    },
    /// An `invokedynamic`: the class whose code has it, and the number of its bootstrap method.
    Dynamic {
        class: Text,
        bootstrap: u16,
        name: Text,
        desc: Text,
        values: SeenList,
    },
    /// A field of the library is read, and written; without a receiver a static one.
    Get {
        class: Text,
        name: Text,
        desc: Text,
        receiver: Option<Seen>,
    },
    Put {
        class: Text,
        name: Text,
        desc: Text,
        receiver: Option<Seen>,
        value: Seen,
    },
    /// Arithmetic of float and double, by its opcode.
    Float {
        opcode: u8,
        values: SeenList,
    },
    /// What a `Call` or `Construct` of the library ended with: a value, or an object that was thrown.
    Result(Option<Seen>),
    Threw(SeenRef),
    /// An element, a length in elements, and an object that the library made.
    Got(Seen),
    Length(u32),
    Made(SeenRef),
}

/// An event: its kind, how many objects were allocated and how many monitors entered so far, and how often the monitor of each
/// known reference is entered, by number.
#[derive(Drop)]
pub struct Event {
    pub kind: EventKind,
    pub allocations: u128,
    pub entries: u64,
    pub monitors: CountList,
}

/// A list of events.
pub type EventList = ListOf<Event>;

/// How a run ends.
#[derive(Clone, Copy, PartialEq, Eq)]
pub enum End {
    Stopped,
    /// The actions are used up at the library's turn.
    Waits,
    /// The steps are used up.
    Running,
    /// The action of this number, from 0, is none that the library may take.
    LibraryFault(u64),
    /// An exception left a class initialiser.
    InitThrew,
    ArrayTooLong,
    Stuck,
}

/// What a run shows.
#[derive(Drop)]
pub struct Shown {
    pub events: EventList,
    pub end: End,
}
