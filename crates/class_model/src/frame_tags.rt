//! The tags of verification types and the kinds of stack map frames (JVM Specification SE 8, 4.7.4), by the names that the standard
//! gives them. Code names them as `class_model::frame_tags`, definitions and proofs as
//! `Rattle.class_model.specs.declared.frame_tags.TheConstants`.

pub const ITEM_TOP: u8 = 0;

pub const ITEM_INTEGER: u8 = 1;

pub const ITEM_FLOAT: u8 = 2;

pub const ITEM_DOUBLE: u8 = 3;

pub const ITEM_LONG: u8 = 4;

pub const ITEM_NULL: u8 = 5;

pub const ITEM_UNINITIALIZED_THIS: u8 = 6;

pub const ITEM_OBJECT: u8 = 7;

pub const ITEM_UNINITIALIZED: u8 = 8;

// A kind of frame that takes several numbers has its first and its last.

pub const SAME_FRAME: u8 = 0;

pub const SAME_FRAME_LAST: u8 = 63;

pub const SAME_LOCALS_1_STACK_ITEM_FRAME: u8 = 64;

pub const SAME_LOCALS_1_STACK_ITEM_FRAME_LAST: u8 = 127;

pub const RESERVED: u8 = 128;

pub const RESERVED_LAST: u8 = 246;

pub const SAME_LOCALS_1_STACK_ITEM_FRAME_EXTENDED: u8 = 247;

pub const CHOP_FRAME: u8 = 248;

pub const CHOP_FRAME_LAST: u8 = 250;

pub const SAME_FRAME_EXTENDED: u8 = 251;

pub const APPEND_FRAME: u8 = 252;

pub const APPEND_FRAME_LAST: u8 = 254;

pub const FULL_FRAME: u8 = 255;
