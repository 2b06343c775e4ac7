//! What is kept of a library's class file.
use crate::list::ListOf;
use crate::text::Text;

/// A field or method: its access flags, name and descriptor.
#[derive(Debug)]
pub struct Member {
    pub flags: u16,
    pub name: Text,
    pub desc: Text,
}

// Written out: a derived drop would be spelled out, field by field, in each function that drops one, and be proved there.
impl Drop for Member {
    fn drop(self) {
        let Member {
            flags: _,
            name: _,
            desc: _,
        } = self;
    }
}

/// A list of members.
pub type MemberList = ListOf<Member>;

/// A list of texts.
pub type TextList = ListOf<Text>;

/// The head of a class file and its members, without pool, code and attributes.
#[derive(Debug)]
pub struct Header {
    pub name: Text,
    pub flags: u16,
    /// None where the superclass index is 0, as that of `java/lang/Object`.
    pub super_name: Option<Text>,
    pub interfaces: TextList,
    pub fields: MemberList,
    pub methods: MemberList,
}

// Written out: a derived drop would be spelled out, field by field, in each function that drops one, and be proved there.
impl Drop for Header {
    fn drop(self) {
        let Header {
            name: _,
            flags: _,
            super_name: _,
            interfaces: _,
            fields: _,
            methods: _,
        } = self;
    }
}
