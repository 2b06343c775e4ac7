//! The class file (JVM Specification SE 8, 4.1).
use crate::list::{ByteList, ListOf};
use crate::pool::Pool;

/// A list of indices of the constant pool.
pub type IndexList = ListOf<u16>;

/// An attribute that is kept as bytes (JVM Specification SE 8, 4.7): the index of its name, and its
/// content.
#[derive(Debug)]
pub struct InnerAttr {
    pub name: u16,
    pub bytes: ByteList,
}

// Written out: a derived drop would be spelled out, field by field, in each function that drops one, and be proved there.
impl Drop for InnerAttr {
    fn drop(self) {
        let InnerAttr { name: _, bytes: _ } = self;
    }
}

/// A list of attributes that are kept as bytes.
pub type InnerAttrList = ListOf<InnerAttr>;

/// An entry of an exception table (JVM Specification SE 8, 4.7.3): the range from `start` up to and
/// without `end`, the handler `at`, and the index of the caught class, or 0. Offsets are in bytes.
#[derive(Clone, Copy, PartialEq, Eq, Debug)]
pub struct Handler {
    pub start: u16,
    pub end: u16,
    pub at: u16,
    pub catch_type: u16,
}

/// An exception table.
pub type HandlerList = ListOf<Handler>;

/// The content of a Code attribute (JVM Specification SE 8, 4.7.3): the greatest depth of the stack in stack units, the
/// number of locals in local units (a long or double counts two of each), and the code in bytes. Its attributes are kept as
/// bytes, since none of them is a Code attribute.
#[derive(Debug)]
pub struct CodePart {
    pub max_stack: u16,
    pub max_locals: u16,
    pub code: ByteList,
    pub handlers: HandlerList,
    pub attrs: InnerAttrList,
}

// Written out: a derived drop would be spelled out, field by field, in each function that drops one, and be proved there.
impl Drop for CodePart {
    fn drop(self) {
        let CodePart {
            max_stack: _,
            max_locals: _,
            code: _,
            handlers: _,
            attrs: _,
        } = self;
    }
}

/// An attribute of a class, field or method. `Code` stands in methods alone.
#[derive(Debug)]
pub enum Attr {
    Raw { name: u16, bytes: ByteList },
    Code { name: u16, part: CodePart },
}

// Written out: a derived drop would be spelled out, field by field, in each function that drops one, and be proved there.
impl Drop for Attr {
    fn drop(self) {
        match self {
            Attr::Raw { name: _, bytes: _ } => {}
            Attr::Code { name: _, part: _ } => {}
        }
    }
}

/// A list of attributes.
pub type AttrList = ListOf<Attr>;

/// A field (JVM Specification SE 8, 4.5).
#[derive(Debug)]
pub struct Field {
    pub flags: u16,
    pub name: u16,
    pub desc: u16,
    pub attrs: AttrList,
}

// Written out: a derived drop would be spelled out, field by field, in each function that drops one, and be proved there.
impl Drop for Field {
    fn drop(self) {
        let Field {
            flags: _,
            name: _,
            desc: _,
            attrs: _,
        } = self;
    }
}

/// A list of fields.
pub type FieldList = ListOf<Field>;

/// A method (JVM Specification SE 8, 4.6).
#[derive(Debug)]
pub struct Method {
    pub flags: u16,
    pub name: u16,
    pub desc: u16,
    pub attrs: AttrList,
}

// Written out: a derived drop would be spelled out, field by field, in each function that drops one, and be proved there.
impl Drop for Method {
    fn drop(self) {
        let Method {
            flags: _,
            name: _,
            desc: _,
            attrs: _,
        } = self;
    }
}

/// A list of methods.
pub type MethodList = ListOf<Method>;

/// A method of a folder of classes: the number of its class in the folder, and its own in the class.
#[derive(Clone, Copy, PartialEq, Eq)]
pub struct MethodAt {
    pub class: usize,
    pub method: usize,
}

/// A class file (JVM Specification SE 8, 4.1). Members and classes are named by indices of its pool.
pub struct ClassFile {
    pub major: u16,
    pub minor: u16,
    pub pool: Pool,
    /// The access flags.
    pub flags: u16,
    /// The index of the Class constant of the class itself.
    pub this_class: u16,
    /// The index of the Class constant of its superclass, or 0.
    pub super_class: u16,
    pub interfaces: IndexList,
    pub fields: FieldList,
    pub methods: MethodList,
    pub attrs: AttrList,
}

// Written out: a derived drop would be spelled out, field by field, in each function that drops one, and be proved there.
impl Drop for ClassFile {
    fn drop(self) {
        let ClassFile {
            major: _,
            minor: _,
            pool: _,
            flags: _,
            this_class: _,
            super_class: _,
            interfaces: _,
            fields: _,
            methods: _,
            attrs: _,
        } = self;
    }
}
