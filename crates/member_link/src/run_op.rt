//! Operations with what they name resolved, and with what they answered last. Contracts see through them what the operation is
//! (`specs/RunOps.antt`).
ghost use Rattle.std.specs.Prelude.{◌≡◌};

use crate::reference::Reference;
use class_model::{FieldType, Kind, MethodAt, PairList, TargetList, Text};
use machine_values::{Constant, Value};

/// A throwable that the machine raises.
#[derive(Clone, Copy, PartialEq, Eq)]
pub enum Throwable {
    NullPointer,
    Arithmetic,
    IndexOutside,
    ArrayStore,
    NegativeSize,
    ClassCast,
    IllegalMonitor,
    IllegalAccess,
    IncompatibleChange,
    AbstractCalled,
}

/// What an operation does, at a point of a method's code. Jumps name numbers of points. The first number of an operation of
/// arithmetic, of the stack, of elements or of a conditional jump is its opcode.
pub enum RunOp {
    Nop,
    /// An instruction whose constant lacks what it needs, whose opcode is none of its form, or that returns another kind than the
    /// method's result.
    Meaningless,
    Push(Value),
    PushConstant(Constant),
    Load(Kind, u16),
    Store(Kind, u16),
    Increment(u16, i32),
    Shuffle(u8),
    Pure(u8),
    Divide(u8),
    Float(u8),
    JumpInt(u8, u32),
    JumpInts(u8, u32),
    JumpReferences(u8, u32),
    JumpNull(u8, u32),
    Jump(u32),
    Table(Box<TableOp>),
    Lookup(Box<LookupOp>),
    ReturnNothing,
    ReturnValue(FieldType),
    Throw,
    GetStatic(Box<FieldOp>),
    PutStatic(Box<FieldOp>),
    GetField(Box<FieldOp>),
    PutField(Box<FieldOp>),
    CallStatic(Box<CallOp>),
    CallVirtual(Box<CallOp>),
    CallInterface(Box<CallOp>),
    CallSpecial(Box<CallOp>),
    CallDynamic(Box<DynamicOp>),
    New(Box<NewOp>),
    NewArray(Text),
    NewArrays(Text, u8),
    LoadElement(u8),
    StoreElement(u8),
    Length,
    Cast(Box<CastOp>),
    InstanceOf(Box<CastOp>),
    Enter,
    Leave,
}

// Written out: a derived drop would be spelled out, field by field, in each function that drops one, and be proved there.
impl Drop for RunOp {
    fn drop(self) {
        match self {
            RunOp::Nop => {}
            RunOp::Meaningless => {}
            RunOp::Push(_) => {}
            RunOp::PushConstant(_) => {}
            RunOp::Load(_, _) => {}
            RunOp::Store(_, _) => {}
            RunOp::Increment(_, _) => {}
            RunOp::Shuffle(_) => {}
            RunOp::Pure(_) => {}
            RunOp::Divide(_) => {}
            RunOp::Float(_) => {}
            RunOp::JumpInt(_, _) => {}
            RunOp::JumpInts(_, _) => {}
            RunOp::JumpReferences(_, _) => {}
            RunOp::JumpNull(_, _) => {}
            RunOp::Jump(_) => {}
            RunOp::Table(_) => {}
            RunOp::Lookup(_) => {}
            RunOp::ReturnNothing => {}
            RunOp::ReturnValue(_) => {}
            RunOp::Throw => {}
            RunOp::GetStatic(_) => {}
            RunOp::PutStatic(_) => {}
            RunOp::GetField(_) => {}
            RunOp::PutField(_) => {}
            RunOp::CallStatic(_) => {}
            RunOp::CallVirtual(_) => {}
            RunOp::CallInterface(_) => {}
            RunOp::CallSpecial(_) => {}
            RunOp::CallDynamic(_) => {}
            RunOp::New(_) => {}
            RunOp::NewArray(_) => {}
            RunOp::NewArrays(_, _) => {}
            RunOp::LoadElement(_) => {}
            RunOp::StoreElement(_) => {}
            RunOp::Length => {}
            RunOp::Cast(_) => {}
            RunOp::InstanceOf(_) => {}
            RunOp::Enter => {}
            RunOp::Leave => {}
        }
    }
}

/// A `tableswitch`: the lowest key, the point for every other key, and a point for each key from the lowest on.
pub struct TableOp {
    pub low: i32,
    pub other: u32,
    pub targets: TargetList,
}

// Written out: a derived drop would be spelled out, field by field, in each function that drops one, and be proved there.
impl Drop for TableOp {
    fn drop(self) {
        let TableOp {
            low: _,
            other: _,
            targets: _,
        } = self;
    }
}

/// A `lookupswitch`: the point for every other key, and keys with their points.
pub struct LookupOp {
    pub other: u32,
    pub pairs: PairList,
}

// Written out: a derived drop would be spelled out, field by field, in each function that drops one, and be proved there.
impl Drop for LookupOp {
    fn drop(self) {
        let LookupOp { other: _, pairs: _ } = self;
    }
}

/// A read or a store of a field.
pub struct FieldOp {
    pub named: Reference,
    /// Of a store: the class whose instance initialiser (for a static field class initialiser) the code is.
    pub initialises: Option<Text>,
    /// The field that is found, if one is.
    pub found: Option<FieldTarget>,
}

// Written out: a derived drop would be spelled out, field by field, in each function that drops one, and be proved there.
impl Drop for FieldOp {
    fn drop(self) {
        let FieldOp {
            named: _,
            initialises: _,
            found: _,
        } = self;
    }
}

/// A field that is found.
pub struct FieldTarget {
    /// By the class that declares it.
    pub field: Reference,
    pub is_static: bool,
    /// It is final, and the code none that may store into it.
    pub is_barred: bool,
    pub desc: FieldType,
    pub home: FieldHome,
    /// The last receiver's class, which conforms to the named class, and the field's number in its objects.
    pub seen: Option<SeenSlot>,
}

// Written out: a derived drop would be spelled out, field by field, in each function that drops one, and be proved there.
impl Drop for FieldTarget {
    fn drop(self) {
        let FieldTarget {
            field: _,
            is_static: _,
            is_barred: _,
            desc: _,
            home: _,
            seen: _,
        } = self;
    }
}

/// Where a field is declared: in the library, or in a class of the folder by its number, as the field of a number there.
#[derive(Clone, Copy, PartialEq, Eq)]
pub enum FieldHome {
    Library,
    Folder { class: usize, number: Option<usize> },
}

/// A class of the folder by its number, and the number of a field in its objects.
#[derive(Clone, Copy, PartialEq, Eq)]
pub struct SeenSlot {
    pub class: usize,
    pub slot: usize,
}

/// A call of a method.
pub struct CallOp {
    pub named: Reference,
    /// Of a special call: the class at which its selection starts.
    pub from: Option<Text>,
    /// The kinds of the arguments without a receiver.
    pub parameters: Vec<Kind>,
    /// The method that is found, if one is.
    pub found: Option<CallTarget>,
}

// Written out: a derived drop would be spelled out, field by field, in each function that drops one, and be proved there.
impl Drop for CallOp {
    fn drop(self) {
        let CallOp {
            named: _,
            from: _,
            parameters: _,
            found: _,
        } = self;
    }
}

/// A method that is found.
pub struct CallTarget {
    /// By the class that declares it.
    pub method: Reference,
    pub is_static: bool,
    /// The method as the library is asked for it: of a signature polymorphic one, by the descriptor of the call.
    pub asked: Reference,
    pub is_polymorphic: bool,
    /// The class of the folder that declares it, by its number.
    pub home: Option<usize>,
    /// What runs without a receiver's class: of a static call, and of a special one.
    pub fixed: Option<Callee>,
    /// The last receiver's class, of the folder, and what runs for it.
    pub seen: Option<SeenCallee>,
}

// Written out: a derived drop would be spelled out, field by field, in each function that drops one, and be proved there.
impl Drop for CallTarget {
    fn drop(self) {
        let CallTarget {
            method: _,
            is_static: _,
            asked: _,
            is_polymorphic: _,
            home: _,
            fixed: _,
            seen: _,
        } = self;
    }
}

/// What a call runs.
pub enum Callee {
    /// A method of the folder with code.
    Runs(MethodAt),
    /// The library is asked.
    Asks(Reference),
    Raises(Throwable),
    /// `java/lang/Object.<init>`, which does nothing.
    Nothing,
}

// Written out: a derived drop would be spelled out, field by field, in each function that drops one, and be proved there.
impl Drop for Callee {
    fn drop(self) {
        match self {
            Callee::Runs(_) => {}
            Callee::Asks(_) => {}
            Callee::Raises(_) => {}
            Callee::Nothing => {}
        }
    }
}

/// A class of the folder by its number, and what a call on its objects runs.
pub struct SeenCallee {
    pub class: usize,
    pub callee: Callee,
}

// Written out: a derived drop would be spelled out, field by field, in each function that drops one, and be proved there.
impl Drop for SeenCallee {
    fn drop(self) {
        let SeenCallee {
            class: _,
            callee: _,
        } = self;
    }
}

/// An `invokedynamic`: the class whose code has it, the number of its bootstrap method, name and descriptor.
pub struct DynamicOp {
    pub class: Text,
    pub bootstrap: u16,
    pub name: Text,
    pub desc: Text,
    pub parameters: Vec<Kind>,
}

// Written out: a derived drop would be spelled out, field by field, in each function that drops one, and be proved there.
impl Drop for DynamicOp {
    fn drop(self) {
        let DynamicOp {
            class: _,
            bootstrap: _,
            name: _,
            desc: _,
            parameters: _,
        } = self;
    }
}

/// A `new`: the named class, its number where it is the folder's, and what the fields of its objects hold at first.
pub struct NewOp {
    pub class: Text,
    pub home: Option<usize>,
    pub blanks: Vec<Value>,
}

// Written out: a derived drop would be spelled out, field by field, in each function that drops one, and be proved there.
impl Drop for NewOp {
    fn drop(self) {
        let NewOp {
            class: _,
            home: _,
            blanks: _,
        } = self;
    }
}

impl NewOp {
    /// What the fields of its objects hold at first. It does not allocate.
    pub fn into_blanks(self) -> Vec<Value>
        ensures { result ≡ self.blanks }
    {
        let NewOp {
            class: _,
            home: _,
            blanks,
        } = self;
        blanks
    }
}

/// A `checkcast` or `instanceof`: the named class or array.
pub struct CastOp {
    pub name: Text,
    /// The last object's class, and whether it is an instance.
    pub seen: Option<SeenAnswer>,
}

// Written out: a derived drop would be spelled out, field by field, in each function that drops one, and be proved there.
impl Drop for CastOp {
    fn drop(self) {
        let CastOp { name: _, seen: _ } = self;
    }
}

/// A class of the folder by its number, and the answer of a test of its objects.
#[derive(Clone, Copy, PartialEq, Eq)]
pub struct SeenAnswer {
    pub class: usize,
    pub answer: bool,
}
