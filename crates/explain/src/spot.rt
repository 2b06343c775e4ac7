//! Which part of a class file a place lies in (JVM Specification SE 8, chapter 4). The bytes may be those of no class file:
//! where they end too early, the part that they end in is meant.
use crate::pool_spot::utf8_at;
use class_model::Cursor;

/// A part of a class file.
#[derive(Clone, Copy)]
pub(crate) enum Part {
    /// The magic number, or the version, and the like.
    Head(&'static str),
    /// A constant, by its index.
    Constant(u16),
    /// A field or method, which begins at this place.
    Member {
        is_method: bool,
        at: u64,
        inner: Inner,
    },
    /// An attribute of the class, which begins at this place.
    Attribute(u64),
    /// What is behind the last attribute.
    Behind,
}

/// A part of a field or method.
#[derive(Clone, Copy)]
pub(crate) enum Inner {
    /// The access flags, the name and the descriptor.
    Head,
    /// The count of attributes.
    Count,
    /// An attribute, which begins at this place.
    Attribute(u64),
    /// The limits of a Code attribute.
    Limits,
    /// The code, which begins at this place.
    Code(u64),
    /// The count of the exception table.
    Handlers,
    /// An entry of the exception table, by its number.
    Handler(u16),
    /// An attribute of a Code attribute, which begins at this place.
    OfCode(u64),
}

/// The part that a place lies in.
pub(crate) fn part_of(bytes: &[u8], at: u64) -> Part {
    let mut walk = Walk {
        bytes,
        cursor: Cursor::new(bytes, 0),
        at,
        part: Part::Head("the magic number"),
    };
    let _ = walk.file();
    walk.part
}

// A walk over the parts up to the one that a place lies in. Its methods answer None once they are behind that place, or where
// the bytes end.
#[derive(Drop)]
struct Walk<'a> {
    bytes: &'a [u8],
    cursor: Cursor<'a>,
    at: u64,
    part: Part,
}

impl Walk<'_> {
    fn file(&mut self) -> Option<()> {
        self.take(4)?;
        self.part = Part::Head("the version");
        self.take(4)?;
        self.pool()?;
        self.head()?;
        self.members(false)?;
        self.members(true)?;
        self.class_attributes()?;
        self.part = Part::Behind;
        Some(())
    }

    fn pool(&mut self) -> Option<()> {
        self.part = Part::Head("the count of the constant pool");
        let count = self.u2()?;
        let mut is_second = false;
        for index in 1..count {
            if is_second {
                is_second = false;
            } else {
                self.part = Part::Constant(index);
                is_second = self.constant()?;
            }
        }
        Some(())
    }

    // Whether a constant takes two indices.
    fn constant(&mut self) -> Option<bool> {
        let tag = self.u1()?;
        match tag {
            1 => {
                let length = self.u2()?;
                self.take(usize::from(length))?;
            }
            7 | 8 | 16 => self.take(2)?,
            15 => self.take(3)?,
            3 | 4 | 9 | 10 | 11 | 12 | 18 => self.take(4)?,
            5 | 6 => self.take(8)?,
            _ => return None,
        }
        Some(tag == 5 || tag == 6)
    }

    fn head(&mut self) -> Option<()> {
        self.part = Part::Head("the access flags of the class");
        self.take(2)?;
        self.part = Part::Head("the class's own name (this_class)");
        self.take(2)?;
        self.part = Part::Head("the superclass (super_class)");
        self.take(2)?;
        self.part = Part::Head("the interfaces");
        let count = self.u2()?;
        self.take(usize::from(count) * 2)
    }

    fn members(&mut self, is_method: bool) -> Option<()> {
        self.part = Part::Head(if is_method {
            "the count of methods"
        } else {
            "the count of fields"
        });
        let count = self.u2()?;
        for _ in 0..count {
            let at = self.cursor.at();
            self.member(is_method, at)?;
        }
        Some(())
    }

    fn member(&mut self, is_method: bool, at: u64) -> Option<()> {
        let inner = |inner: Inner| Part::Member {
            is_method,
            at,
            inner,
        };
        self.part = inner(Inner::Head);
        self.take(6)?;
        self.part = inner(Inner::Count);
        let count = self.u2()?;
        for _ in 0..count {
            self.attribute(is_method, at)?;
        }
        Some(())
    }

    fn attribute(&mut self, is_method: bool, at: u64) -> Option<()> {
        let start = self.cursor.at();
        self.part = Part::Member {
            is_method,
            at,
            inner: Inner::Attribute(start),
        };
        let name = self.u2()?;
        let length = self.u4()?;
        if is_method && utf8_at(self.bytes, name) == Some(b"Code") {
            self.code(at)
        } else {
            self.take(length as usize)
        }
    }

    fn enter(&mut self, at: u64, inner: Inner) {
        self.part = Part::Member {
            is_method: true,
            at,
            inner,
        };
    }

    // What is in a Code attribute of the method that begins at a place.
    fn code(&mut self, at: u64) -> Option<()> {
        self.enter(at, Inner::Limits);
        self.take(4)?;
        let length = self.u4()?;
        let start = self.cursor.at();
        self.enter(at, Inner::Code(start));
        self.take(length as usize)?;
        self.enter(at, Inner::Handlers);
        let count = self.u2()?;
        for number in 0..count {
            self.enter(at, Inner::Handler(number));
            self.take(8)?;
        }
        let attributes = self.u2()?;
        for _ in 0..attributes {
            let start = self.cursor.at();
            self.enter(at, Inner::OfCode(start));
            self.skip_attribute()?;
        }
        Some(())
    }

    fn class_attributes(&mut self) -> Option<()> {
        self.part = Part::Head("the count of the class's attributes");
        let count = self.u2()?;
        for _ in 0..count {
            self.part = Part::Attribute(self.cursor.at());
            self.skip_attribute()?;
        }
        Some(())
    }

    fn skip_attribute(&mut self) -> Option<()> {
        self.take(2)?;
        let length = self.u4()?;
        self.take(length as usize)
    }

    fn u1(&mut self) -> Option<u8> {
        let number = self.cursor.u1().ok()?;
        self.goes_on()?;
        Some(number)
    }

    fn u2(&mut self) -> Option<u16> {
        let number = self.cursor.u2().ok()?;
        self.goes_on()?;
        Some(number)
    }

    fn u4(&mut self) -> Option<u32> {
        let number = self.cursor.u4().ok()?;
        self.goes_on()?;
        Some(number)
    }

    fn take(&mut self, count: usize) -> Option<()> {
        self.cursor.bytes(count).ok()?;
        self.goes_on()
    }

    // None behind the place that is looked for.
    fn goes_on(&self) -> Option<()> {
        if self.cursor.at() > self.at {
            None
        } else {
            Some(())
        }
    }
}
