//! What an instruction does to a frame.
use class_model::Frame;

/// The frames behind an instruction (JVM Specification SE 8, 4.10.1.4).
#[derive(Drop)]
pub struct Ruled {
    /// The frame with which control falls through or jumps; `None` where it does neither.
    pub next: Option<Frame>,
    /// The frame that handlers see, with an empty stack.
    pub thrown: Frame,
}
