//! Operations whose names are resolved once (JVM Specification SE 8, 5.4.3).
pub(crate) mod fields;
pub(crate) mod objects;
pub(crate) mod targets;
