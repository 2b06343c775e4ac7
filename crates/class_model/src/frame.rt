//! Frames of verification types (JVM Specification SE 8, 4.7.4 and 4.10.1.2).
ghost use Rattle.std.specs.Prelude.{◌≡◌, ◌↔◌, IsTrue, IfOk};

use crate::list::ListOf;
use crate::local_types::LocalTypeList;
use crate::memory::NoMemory;
use crate::text::Text;
use std::alloc::Global;

/// A verification type (JVM Specification SE 8, 4.7.4, 4.10.1.2).
#[derive(PartialEq, Eq)]
pub enum VType {
    Top,
    Int,
    Float,
    Long,
    Double,
    Null,
    UninitThis,
    /// A class by its name, or an array by its descriptor.
    Object(Text),
    /// An object made by the `new` at this offset, in bytes, and not initialised.
    Uninit(u32),
}

// Written out: a derived drop would be spelled out, field by field, in each function that drops one, and be proved there.
impl Drop for VType {
    fn drop(self) {
        match self {
            VType::Top => {}
            VType::Int => {}
            VType::Float => {}
            VType::Long => {}
            VType::Double => {}
            VType::Null => {}
            VType::UninitThis => {}
            VType::Object(_) => {}
            VType::Uninit(_) => {}
        }
    }
}

impl VType {
    /// An equal type. It shares the bytes of a name.
    pub fn copy(&self) -> Result<VType, NoMemory>
        ensures { IfOk result (λ copy. copy ≡ self.now) }
    {
        Ok(match self {
            VType::Top => VType::Top,
            VType::Int => VType::Int,
            VType::Float => VType::Float,
            VType::Long => VType::Long,
            VType::Double => VType::Double,
            VType::Null => VType::Null,
            VType::UninitThis => VType::UninitThis,
            VType::Object(name) => VType::Object(name.copy()?),
            VType::Uninit(at) => VType::Uninit(*at),
        })
    }
}

// Equal types.
pub(crate) fn copy_types(alloc: Global, types: &[VType]) -> Result<Vec<VType>, NoMemory>
    ensures { IfOk result (λ copy. copy.items ≡ types.now) }
{
    let mut copy = Vec::new(alloc);
    for one in types {
        copy.push(one.copy()?)?;
    }
    Ok(copy)
}

/// A list of verification types.
pub type VTypeList = ListOf<VType>;

/// A frame (JVM Specification SE 8, 4.10.1.4): the types of the locals by unit, where a long or double is followed by `Top`,
/// and of the stack's entries, the lowest first.
#[derive(PartialEq, Eq)]
pub struct Frame {
    pub locals: LocalTypeList,
    pub stack: VTypeList,
}

// Written out: a derived drop would be spelled out, field by field, in each function that drops one, and be proved there.
impl Drop for Frame {
    fn drop(self) {
        let Frame {
            locals: _,
            stack: _,
        } = self;
    }
}

impl Frame {
    /// Whether another frame has the same types: what `==` answers, said of the values.
    pub fn is_same(&self, other: &Frame) -> bool
        ensures { IsTrue result ↔ (self.now ≡ other.now) }
    {
        self == other
    }

    /// The types of the locals, and of the stack's entries.
    pub fn into_parts(self) -> (LocalTypeList, VTypeList)
        ensures locals { result.0 ≡ self.locals }
        ensures stack { result.1 ≡ self.stack }
    {
        let Frame { locals, stack } = self;
        (locals, stack)
    }

    /// An equal frame. It shares the types of the locals.
    pub fn copy(&self, alloc: Global) -> Result<Frame, NoMemory>
        ensures { IfOk result (λ copy. copy ≡ self.now) }
    {
        Ok(Frame {
            locals: self.locals.copy(alloc)?,
            stack: ListOf::from_vec(copy_types(alloc, self.stack.as_slice())?),
        })
    }
}

/// A frame that is stated (JVM Specification SE 8, 4.7.4) for an offset of a code, in bytes.
pub struct PlacedFrame {
    pub at: u32,
    pub frame: Frame,
}

// Written out: a derived drop would be spelled out, field by field, in each function that drops one, and be proved there.
impl Drop for PlacedFrame {
    fn drop(self) {
        let PlacedFrame { at: _, frame: _ } = self;
    }
}

/// A list of placed frames.
pub type PlacedFrameList = ListOf<PlacedFrame>;
