//! The constant pool.
ghost use Rattle.std.specs.Prelude.{◌≡◌, ◌↔◌, ◌+◌, ◌<◌, ◌≤◌, [], ◌∷◌, ◌++◌, length, IfOk, OnOk, OnErr, IsTrue};
ghost use Rattle.std.specs.Option.{option_copied};
ghost use Rattle.class_model.specs.Pool.{constant_at, entries_of, IsPool};

use crate::copies::copy_items;
use crate::memory::NoMemory;
use crate::text::Text;
use std::alloc::Global;
use std::marker::Model;

/// A constant (JVM Specification SE 8, 4.4), a variant for each tag. A `u16` is an index of the pool,
/// but for the first of `InvokeDynamic`, which is one of the bootstrap methods.
#[derive(PartialEq, Eq, Hash, Debug)]
pub enum Const {
    Utf8(Text),
    Integer(i32),
    /// The bits of a float.
    Float(u32),
    Long(i64),
    /// The bits of a double.
    Double(u64),
    /// The name of a class or the descriptor of an array.
    Class(u16),
    String(u16),
    /// A class, and a name with a descriptor.
    Fieldref(u16, u16),
    Methodref(u16, u16),
    InterfaceMethodref(u16, u16),
    NameAndType(u16, u16),
    /// The kind of a method handle, and a reference.
    MethodHandle(u8, u16),
    MethodType(u16),
    /// A bootstrap method, and a name with a descriptor.
    InvokeDynamic(u16, u16),
}

// Written out: a derived drop would be spelled out, field by field, in each function that drops one, and be proved there.
impl Drop for Const {
    fn drop(self) {
        match self {
            Const::Utf8(_) => {}
            Const::Integer(_) => {}
            Const::Float(_) => {}
            Const::Long(_) => {}
            Const::Double(_) => {}
            Const::Class(_) => {}
            Const::String(_) => {}
            Const::Fieldref(_, _) => {}
            Const::Methodref(_, _) => {}
            Const::InterfaceMethodref(_, _) => {}
            Const::NameAndType(_, _) => {}
            Const::MethodHandle(_, _) => {}
            Const::MethodType(_) => {}
            Const::InvokeDynamic(_, _) => {}
        }
    }
}

impl Const {
    /// How many indices it takes: a long or double takes two.
    pub fn units(&self) -> u16
        ensures { result ≡ length (entries_of self.now) }
    {
        match self {
            Const::Long(_) | Const::Double(_) => 2,
            _ => 1,
        }
    }

    /// Whether another constant has the same value: what `==` answers, said of the values. A float or double is
    /// compared by its bits.
    pub fn is_same(&self, other: &Const) -> bool
        ensures { IsTrue result ↔ (self.now ≡ other.now) }
    {
        self == other
    }

    /// An equal constant, which shares the bytes of a text.
    pub fn copy(&self) -> Result<Const, NoMemory>
        ensures { IfOk result (λ copy. copy ≡ self.now) }
    {
        Ok(match self {
            Const::Utf8(text) => Const::Utf8(text.copy()?),
            Const::Integer(number) => Const::Integer(*number),
            Const::Float(bits) => Const::Float(*bits),
            Const::Long(number) => Const::Long(*number),
            Const::Double(bits) => Const::Double(*bits),
            Const::Class(name) => Const::Class(*name),
            Const::String(text) => Const::String(*text),
            Const::Fieldref(class, member) => Const::Fieldref(*class, *member),
            Const::Methodref(class, member) => Const::Methodref(*class, *member),
            Const::InterfaceMethodref(class, member) => Const::InterfaceMethodref(*class, *member),
            Const::NameAndType(name, descriptor) => Const::NameAndType(*name, *descriptor),
            Const::MethodHandle(kind, reference) => Const::MethodHandle(*kind, *reference),
            Const::MethodType(descriptor) => Const::MethodType(*descriptor),
            Const::InvokeDynamic(bootstrap, member) => Const::InvokeDynamic(*bootstrap, *member),
        })
    }
}

/// A constant pool (JVM Specification SE 8, 4.1 and 4.4). Contracts see the constants by index; index 0
/// has none, nor has the second index of a long or double.
pub struct Pool {
    // from index 1 on
    entries: Vec<Option<Const>>,
}

// Written out: a derived drop would be spelled out, field by field, in each function that drops one, and be proved there.
impl Drop for Pool {
    fn drop(self) {
        let Pool { entries: _ } = self;
    }
}

impl Model for Pool {
    ghost use Rattle.std.specs.Prelude.{◌∷◌, None};
    ghost use Rattle.class_model.specs.Pool.{Constants, IsPool};

    ghost Value = { Constants };

    ghost view = { λ pool. None ∷ pool.entries.items };

    ghost invariant = { λ pool. IsPool (None ∷ pool.entries.items) };
}

impl Pool {
    /// The pool of count 1, which has no constant.
    pub fn new(alloc: Global) -> Self
        ensures { result ≡ None ∷ [] }
    {
        Pool {
            entries: Vec::new(alloc),
        }
    }

    /// Appends a constant, at one index or two. Where memory runs out, the pool stays as it was.
    pub fn push(&mut self, value: Const) -> Result<(), NoMemory>
        requires { length self.old + length (entries_of value) ≤ 65535 }
        ensures ok { OnOk result (self.new ≡ self.old ++ entries_of value) }
        ensures err { OnErr result (self.new ≡ self.old) }
    {
        let is_wide = value.units() == 2;
        self.entries.reserve(2)?;
        self.entries.push(Some(value))?;
        if is_wide {
            self.entries.push(None)?;
        }
        Ok(())
    }

    /// The constant at an index, if one is there.
    pub fn get(&self, index: u16) -> Option<&Const>
        ensures { option_copied result ≡ constant_at self.now index }
    {
        let entries = self.entries.as_slice();
        if index == 0 {
            return None;
        }
        match entries.get(usize::from(index) - 1) {
            Some(entry) => entry.as_ref(),
            None => None,
        }
    }

    /// An equal pool, which shares the bytes of texts.
    pub fn copy(&self, alloc: Global) -> Result<Pool, NoMemory>
        ensures { IfOk result (λ copy. copy ≡ self.now) }
    {
        Ok(Pool {
            entries: copy_items(alloc, self.entries.as_slice())?,
        })
    }

    /// The count that a class file states: one more than its last index.
    pub fn count(&self) -> u16
        ensures count { result ≡ length self.now }
        ensures positive { 1 ≤ result }
        ensures pool { IsPool self.now }
    {
        (self.entries.len() + 1) as u16
    }
}
