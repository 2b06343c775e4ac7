//! The code of a method whose instructions are read.
use crate::cut::{CutMember, CutPart};
use crate::home::Home;
use class_model::PlacedList;

/// The code of a method: its class, the method, the parts of its Code attribute, and the instructions.
#[derive(Clone, Copy)]
pub(crate) struct MethodCode<'a> {
    pub home: &'a Home<'a>,
    pub method: &'a CutMember<'a>,
    pub part: &'a CutPart<'a>,
    pub instrs: &'a PlacedList,
}
