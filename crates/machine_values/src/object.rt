//! Objects and constants of a heap (JVM Specification SE 8, 2.4 and 5.1).
ghost use Rattle.std.specs.Prelude.{◌≡◌, ◌↔◌, IfOk, IsTrue};

use crate::slot_list::ValueList;
use class_model::{NoMemory, Text, TextList};

/// What an object is.
#[derive(Drop)]
pub enum Shape {
    /// An object of a class of the folder, by the number of the class.
    Folder(usize),
    /// An array by its descriptor, with so many elements.
    Array { desc: Text, len: u32 },
    /// An object of a class of the library, and interfaces that its class implements besides those that are known of it.
    External { class: Text, also: TextList },
}

/// An object: the values of its fields, those of the highest class first, or of its elements; and how often its monitor is
/// entered.
#[derive(Drop)]
pub struct Object {
    pub shape: Shape,
    pub values: ValueList,
    pub monitor: u64,
}

/// A constant that is an object: a string, a class, a method type by its descriptor, or a method handle by its kind and the
/// class, name and descriptor of the member that it refers to.
#[derive(PartialEq, Eq, Hash, Drop)]
pub enum Constant {
    Str(Text),
    Class(Text),
    MethodType(Text),
    Handle(u8, Text, Text, Text),
}

impl Constant {
    /// Whether another constant has the same value: what `==` answers, said of the values.
    pub fn is_same(&self, other: &Constant) -> bool
        ensures { IsTrue result ↔ (self.now ≡ other.now) }
    {
        self == other
    }

    /// An equal constant, which shares the bytes of its texts.
    ///
    /// # Errors
    ///
    /// `NoMemory` where memory runs out.
    pub fn copy(&self) -> Result<Constant, NoMemory>
        ensures { IfOk result (λ copy. copy ≡ self.now) }
    {
        Ok(match self {
            Constant::Str(text) => Constant::Str(text.copy()?),
            Constant::Class(name) => Constant::Class(name.copy()?),
            Constant::MethodType(desc) => Constant::MethodType(desc.copy()?),
            Constant::Handle(kind, class, name, desc) => {
                Constant::Handle(*kind, class.copy()?, name.copy()?, desc.copy()?)
            }
        })
    }
}
