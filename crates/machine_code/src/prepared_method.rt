//! The code of a method with its operations prepared.
use class_model::Text;
use member_link::RunOp;

/// A handler of a method's exception table: the range of offsets, in bytes, around which it stands, the point at which it begins,
/// and the class that it catches; without one everything.
pub struct PreparedHandler {
    pub start: u32,
    pub end: u32,
    pub to: u32,
    pub class: Option<Text>,
}

// Written out: a derived drop would be spelled out, field by field, in each function that drops one, and be proved there.
impl Drop for PreparedHandler {
    fn drop(self) {
        let PreparedHandler {
            start: _,
            end: _,
            to: _,
            class: _,
        } = self;
    }
}

/// Which monitor a method enters as it is called.
#[derive(Clone, Copy, PartialEq, Eq)]
pub enum Locks {
    None,
    Receiver,
    Class,
}

/// What the flags and the name of a method say.
#[derive(Clone, Copy, PartialEq, Eq)]
pub struct MethodTraits {
    pub locks: Locks,
    /// It is a class initialiser.
    pub is_initialiser: bool,
    pub is_static: bool,
}

/// The code of a method: the operations at its points, the offset of each in bytes, the handlers in the order of the exception
/// table, and how many local units it has.
pub struct PreparedMethod {
    pub ops: Vec<RunOp>,
    pub offsets: Vec<u32>,
    pub handlers: Vec<PreparedHandler>,
    pub locals: u16,
}

// Written out: a derived drop would be spelled out, field by field, in each function that drops one, and be proved there.
impl Drop for PreparedMethod {
    fn drop(self) {
        let PreparedMethod {
            ops: _,
            offsets: _,
            handlers: _,
            locals: _,
        } = self;
    }
}
