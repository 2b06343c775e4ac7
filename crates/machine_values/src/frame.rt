//! The frames of a run (JVM Specification SE 8, 2.6).
use crate::slot_list::{LocalList, ValueList};
use crate::value::Ref;
use class_model::MethodAt;
use std::marker::Model;

/// The frame of a method: the number of the instruction at which it stands, its locals and operand stack, and the reference
/// whose monitor the method entered as a synchronized one. A frame that waits for a call or the library stands at its instruction, whose operands are
/// taken. Contracts see the top of the stack first.
#[derive(Drop)]
pub struct MethodFrame {
    pub at: MethodAt,
    pub place: u32,
    pub locals: LocalList,
    pub stack: ValueList,
    pub held: Option<Ref>,
}

impl Model for MethodFrame {
    ghost use Rattle.std.specs.Prelude.{reverse};
    ghost use Rattle.machine_values.specs.Frames.{MethodState};

    ghost Value = { MethodState };

    ghost view = { λ frame. record {
      at = frame.at;
      place = frame.place;
      locals = frame.locals;
      stack = reverse frame.stack;
      held = frame.held;
    } };
}

/// A frame of a run.
#[derive(Drop)]
pub enum RunFrame {
    /// The library's, with the object that it is constructing.
    Library { made: Option<Ref> },
    /// The beginning of a class of the folder, by its number.
    Beginning(usize),
    Method(MethodFrame),
}

/// The frames of a run. Contracts see the top one first.
#[derive(Drop)]
pub struct RunFrameList {
    pub frames: Vec<RunFrame>,
}

impl Model for RunFrameList {
    ghost use Rattle.std.specs.Prelude.{List, reverse};
    ghost use Rattle.machine_values.specs.declared.frame.RunFrame.{RunFrame};

    ghost Value = { List RunFrame };

    ghost view = { λ list. reverse list.frames.items };
}
