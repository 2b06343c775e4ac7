//! The bytes of a constant pool that grows.
use class_model::NoMemory;
use std::alloc::Global;

/// The bytes of a pool to which constants are added, the index of the next, and whether a dynamic call is among them.
#[derive(Drop)]
pub(crate) struct PoolBytes {
    pub bytes: Vec<u8>,
    pub count: u16,
    pub has_dynamic: bool,
}

/// Which constant names a member.
#[derive(Clone, Copy)]
pub(crate) enum MemberTag {
    Field,
    Method,
    InterfaceMethod,
}

impl PoolBytes {
    pub(crate) fn new(alloc: Global) -> Self {
        PoolBytes {
            bytes: Vec::new(alloc),
            count: 1,
            has_dynamic: false,
        }
    }

    /// Adds a text.
    pub(crate) fn utf8(&mut self, text: &[u8]) -> Result<u16, NoMemory> {
        let index = self.push(1, &low_bits(text.len()).to_be_bytes())?;
        self.bytes.extend_from_slice(text)?;
        Ok(index)
    }

    /// Adds a class by its name.
    pub(crate) fn class(&mut self, name: &[u8]) -> Result<u16, NoMemory> {
        let name = self.utf8(name)?;
        self.push_one(7, name)
    }

    /// Adds a member of a class.
    pub(crate) fn member(
        &mut self,
        tag: MemberTag,
        class: &[u8],
        name: &[u8],
        desc: &[u8],
    ) -> Result<u16, NoMemory> {
        let class = self.class(class)?;
        let member = self.name_and_type(name, desc)?;
        let tag = match tag {
            MemberTag::Field => 9,
            MemberTag::Method => 10,
            MemberTag::InterfaceMethod => 11,
        };
        self.push_two(tag, class, member)
    }

    /// Adds a handle of a kind of a member.
    pub(crate) fn handle(&mut self, kind: u8, member: u16) -> Result<u16, NoMemory> {
        let [high, low] = member.to_be_bytes();
        self.push(15, &[kind, high, low])
    }

    /// Adds the type of methods of a descriptor.
    pub(crate) fn method_type(&mut self, desc: &[u8]) -> Result<u16, NoMemory> {
        let desc = self.utf8(desc)?;
        self.push_one(16, desc)
    }

    /// Adds a dynamic call of the first bootstrap method.
    pub(crate) fn dynamic(&mut self, name: &[u8], desc: &[u8]) -> Result<u16, NoMemory> {
        let member = self.name_and_type(name, desc)?;
        self.has_dynamic = true;
        self.push_two(18, 0, member)
    }

    /// Adds a string.
    pub(crate) fn string(&mut self, text: &[u8]) -> Result<u16, NoMemory> {
        let text = self.utf8(text)?;
        self.push_one(8, text)
    }

    /// Adds a number by its tag and bytes. One of eight bytes takes two indices.
    pub(crate) fn number(&mut self, tag: u8, bytes: &[u8]) -> Result<u16, NoMemory> {
        let index = self.push(tag, bytes)?;
        if bytes.len() == 8 {
            self.count = self.count.wrapping_add(1);
        }
        Ok(index)
    }

    fn name_and_type(&mut self, name: &[u8], desc: &[u8]) -> Result<u16, NoMemory> {
        let name = self.utf8(name)?;
        let desc = self.utf8(desc)?;
        self.push_two(12, name, desc)
    }

    // Adds a constant of a tag and the rest of its bytes, and gives its index.
    fn push(&mut self, tag: u8, rest: &[u8]) -> Result<u16, NoMemory> {
        self.bytes.push(tag)?;
        self.bytes.extend_from_slice(rest)?;
        let index = self.count;
        self.count = index.wrapping_add(1);
        Ok(index)
    }

    // Adds a constant that names one other.
    fn push_one(&mut self, tag: u8, index: u16) -> Result<u16, NoMemory> {
        self.push(tag, &index.to_be_bytes())
    }

    // Adds a constant that names two others.
    fn push_two(&mut self, tag: u8, one: u16, other: u16) -> Result<u16, NoMemory> {
        let [a, b] = one.to_be_bytes();
        let [c, d] = other.to_be_bytes();
        self.push(tag, &[a, b, c, d])
    }
}

/// The low 16 bits of a number.
pub(crate) fn low_bits(number: usize) -> u16 {
    (number & 0xFFFF) as u16
}
