//! What the machine asks of the classes of a tree and of the objects of a heap: the definitions' words.
pub(crate) mod conforming;
pub(crate) mod fields;
pub(crate) mod shapes;
