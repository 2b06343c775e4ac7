//! The points of flat code.
use crate::handlers::FlatHandlerList;
use class_model::{FieldTypeList, Frame, Instr, ListOf, Text};

/// An instruction of flat code.
#[derive(Debug)]
pub enum FlatInstr {
    /// An instruction of a class of the folder, by the class's number: its indices mean the constant pool of that class, its
    /// jump targets are numbers of points, and its locals are units of the flat code.
    Of { class: usize, instr: Instr },
    /// A test of the reference in a local unit: null throws a `NullPointerException`.
    NullTest(u16),
}

// Written out: a derived drop would be spelled out, field by field, in each function that drops one, and be proved there.
impl Drop for FlatInstr {
    fn drop(self) {
        match self {
            FlatInstr::Of { class: _, instr: _ } => {}
            FlatInstr::NullTest(_) => {}
        }
    }
}

/// A point of flat code: its instruction, the types of the locals and of the stack before it, and the handlers of what it
/// throws, in their order.
pub struct Point {
    pub instr: FlatInstr,
    pub typed: Frame,
    pub handlers: FlatHandlerList,
}

// Written out: a derived drop would be spelled out, field by field, in each function that drops one, and be proved there.
impl Drop for Point {
    fn drop(self) {
        let Point {
            instr: _,
            typed: _,
            handlers: _,
        } = self;
    }
}

/// A list of points.
pub type PointList = ListOf<Point>;

/// A `new` whose object may be kept in locals: its point, the class, and the types of the fields of the class and of those
/// above it, the highest class first.
#[derive(Debug)]
pub struct Site {
    pub at: usize,
    pub class: Text,
    pub fields: FieldTypeList,
}

// Written out: a derived drop would be spelled out, field by field, in each function that drops one, and be proved there.
impl Drop for Site {
    fn drop(self) {
        let Site {
            at: _,
            class: _,
            fields: _,
        } = self;
    }
}

/// A list of sites.
pub type SiteList = ListOf<Site>;
