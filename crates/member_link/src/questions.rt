//! What the machine asks of the classes of a tree: the definitions' words, answered without a search over all classes.
pub(crate) mod callees;
pub(crate) mod classes;
pub(crate) mod members;
pub(crate) mod methods;
