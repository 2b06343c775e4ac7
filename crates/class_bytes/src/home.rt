//! The class that a method stands in.
use crate::known_shapes::KnownShapes;
use class_model::{Pool, Text};

/// What the checks of a method ask of its class: its pool, its version, its flags and its name, and
/// the shapes of the method descriptors among the texts of its pool.
#[derive(Clone, Copy)]
pub(crate) struct Home<'a> {
    pub pool: &'a Pool,
    pub major: u16,
    pub flags: u16,
    pub name: Option<&'a Text>,
    pub shapes: &'a KnownShapes<'a>,
}
