//! The code of a method as operations (JVM Specification SE 8, 4.7.3 and 6.5).
pub(crate) mod code_in;
pub(crate) mod constants;
pub(crate) mod forms;
pub(crate) mod handlers;
pub(crate) mod members;
pub(crate) mod method_code;
pub(crate) mod methods;
pub(crate) mod numbers;
pub(crate) mod objects;
pub(crate) mod operations;
pub(crate) mod switches;
