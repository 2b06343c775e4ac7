//! The parts of a class file as they are cut out of its bytes (JVM Specification SE 8, 4.1, 4.5 to 4.7).
//! The contents of attributes are lent and not copied.
use class_model::{HandlerList, IndexList, ListOf};

/// The first four bytes of each class file, as a number.
pub(crate) const MAGIC: u32 = 0xCAFE_BABE;

/// The version of a class file.
#[derive(Clone, Copy, PartialEq, Eq)]
pub(crate) struct Version {
    pub minor: u16,
    pub major: u16,
}

/// An attribute, whose content is not looked into.
#[derive(Clone, Copy)]
pub(crate) struct CutAttr<'a> {
    pub name: u16,
    pub content: &'a [u8],
}

/// A field or a method.
#[derive(Drop)]
pub(crate) struct CutMember<'a> {
    pub flags: u16,
    pub name: u16,
    pub desc: u16,
    pub attrs: ListOf<CutAttr<'a>>,
}

/// The content of a Code attribute.
#[derive(Drop)]
pub(crate) struct CutPart<'a> {
    pub max_stack: u16,
    pub max_locals: u16,
    pub code: &'a [u8],
    pub handlers: HandlerList,
    pub attrs: ListOf<CutAttr<'a>>,
}

/// A class file without its pool.
#[derive(Drop)]
pub(crate) struct CutBody<'a> {
    pub version: Version,
    pub flags: u16,
    pub this_class: u16,
    pub super_class: u16,
    pub interfaces: IndexList,
    pub fields: ListOf<CutMember<'a>>,
    pub methods: ListOf<CutMember<'a>>,
    pub attrs: ListOf<CutAttr<'a>>,
}
