//! The kinds of method handles (JVM Specification SE 8, table 5.4.3.5-A). Code names them as `class_model::reference_kinds`,
//! definitions and proofs as `Rattle.class_model.specs.declared.reference_kinds.TheConstants`.

pub const REF_GET_FIELD: u8 = 1;

pub const REF_GET_STATIC: u8 = 2;

pub const REF_PUT_FIELD: u8 = 3;

pub const REF_PUT_STATIC: u8 = 4;

pub const REF_INVOKE_VIRTUAL: u8 = 5;

pub const REF_INVOKE_STATIC: u8 = 6;

pub const REF_INVOKE_SPECIAL: u8 = 7;

pub const REF_NEW_INVOKE_SPECIAL: u8 = 8;

pub const REF_INVOKE_INTERFACE: u8 = 9;
