//! What an operation comes to with its operands, which stand on the stack until it is performed.
use class_model::{MethodAt, Text};
use machine_values::{Ref, Value};
use member_link::{Reference, Throwable};

/// What the library is asked. The values of a call, of a dynamic one and of floats are the operands.
#[derive(Drop)]
pub enum Asked {
    Call(Reference),
    Dynamic {
        class: Text,
        bootstrap: u16,
        name: Text,
        desc: Text,
    },
    /// A field and its receiver, without one a static field.
    Get(Reference, Option<Value>),
    Put(Reference, Option<Value>, Value),
    /// By the opcode.
    Float(u8),
}

/// What an operation comes to.
#[derive(Drop)]
pub enum Completed {
    /// It pushes a value or none, and control goes on behind it.
    Gives(Option<Value>),
    Raises(Throwable),
    Throws(Ref),
    /// A class of the folder is begun first, and the operation is still to be done.
    Begins(usize),
    /// A method of the folder is called; the operands are its arguments.
    Calls(MethodAt),
    Asks(Asked),
    Stuck,
    ArrayTooLong,
}
