//! The tags of constants (JVM Specification SE 8, table 4.4-A). Code names them as `class_model::constant_tags`, definitions and proofs
//! as `Rattle.class_model.specs.declared.constant_tags.TheConstants`.

pub const UTF8_TAG: u8 = 1;

pub const INTEGER_TAG: u8 = 3;

pub const FLOAT_TAG: u8 = 4;

pub const LONG_TAG: u8 = 5;

pub const DOUBLE_TAG: u8 = 6;

pub const CLASS_TAG: u8 = 7;

pub const STRING_TAG: u8 = 8;

pub const FIELDREF_TAG: u8 = 9;

pub const METHODREF_TAG: u8 = 10;

pub const INTERFACE_METHODREF_TAG: u8 = 11;

pub const NAME_AND_TYPE_TAG: u8 = 12;

pub const METHOD_HANDLE_TAG: u8 = 15;

pub const METHOD_TYPE_TAG: u8 = 16;

pub const INVOKE_DYNAMIC_TAG: u8 = 18;
