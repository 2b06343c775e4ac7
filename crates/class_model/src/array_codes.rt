//! The codes of the primitive types that `newarray` makes arrays of (JVM Specification SE 8, table 6.5.newarray-A). Code names them as
//! `class_model::array_codes`, definitions and proofs as `Rattle.class_model.specs.declared.array_codes.TheConstants`.

pub const T_BOOLEAN: u8 = 4;

pub const T_CHAR: u8 = 5;

pub const T_FLOAT: u8 = 6;

pub const T_DOUBLE: u8 = 7;

pub const T_BYTE: u8 = 8;

pub const T_SHORT: u8 = 9;

pub const T_INT: u8 = 10;

pub const T_LONG: u8 = 11;
