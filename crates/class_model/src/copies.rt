//! Copies of values. A copy is equal to the value and shares the bytes of its texts; lists are copied item by item. The one
//! error is `NoMemory`, where memory runs out.
ghost use Rattle.std.specs.Prelude.{◌≡◌, IfOk};

use crate::class_file::{Attr, ClassFile, CodePart, Field, InnerAttr, Method};
use crate::descriptor::{Descriptor, FieldType};
use crate::instr::Instr;
use crate::list::ListOf;
use crate::memory::NoMemory;
use crate::pool::Const;
use std::alloc::Global;

/// A value that is copied as an item of a list.
pub(crate) trait Item: Drop {
    fn copy_item(&self, alloc: Global) -> Result<Self, NoMemory>
        ensures { IfOk result (λ copy. copy ≡ self.now) };
}

impl Item for Option<Const> {
    fn copy_item(&self, _: Global) -> Result<Self, NoMemory> {
        Ok(match self {
            Some(constant) => Some(constant.copy()?),
            None => None,
        })
    }
}

impl Item for FieldType {
    fn copy_item(&self, _: Global) -> Result<Self, NoMemory> {
        self.copy()
    }
}

impl Item for InnerAttr {
    fn copy_item(&self, alloc: Global) -> Result<Self, NoMemory> {
        self.copy(alloc)
    }
}

impl Item for Attr {
    fn copy_item(&self, alloc: Global) -> Result<Self, NoMemory> {
        self.copy(alloc)
    }
}

impl Item for Field {
    fn copy_item(&self, alloc: Global) -> Result<Self, NoMemory> {
        self.copy(alloc)
    }
}

impl Item for Method {
    fn copy_item(&self, alloc: Global) -> Result<Self, NoMemory> {
        self.copy(alloc)
    }
}

// Copies of items.
pub(crate) fn copy_items<T: Item>(alloc: Global, items: &[T]) -> Result<Vec<T>, NoMemory>
    ensures { IfOk result (λ copy. copy.items ≡ items.now) }
{
    let mut copy = Vec::with_capacity(alloc, items.len())?;
    for item in items {
        copy.push(item.copy_item(alloc)?)?;
    }
    Ok(copy)
}

// The same list of copies of its items.
fn copy_list<T: Item>(alloc: Global, list: &ListOf<T>) -> Result<ListOf<T>, NoMemory>
    ensures { IfOk result (λ copy. copy ≡ list.now) }
{
    Ok(ListOf::from_vec(copy_items(alloc, list.as_slice())?))
}

// The same list, of numbers or what else is copied byte by byte.
fn copy_plain<T: Copy + Drop>(alloc: Global, list: &ListOf<T>) -> Result<ListOf<T>, NoMemory>
    ensures { IfOk result (λ copy. copy ≡ list.now) }
{
    Ok(ListOf::from_vec(Vec::from_slice(alloc, list.as_slice())?))
}

impl FieldType {
    /// An equal type, which shares the bytes of a name.
    pub fn copy(&self) -> Result<FieldType, NoMemory>
        ensures { IfOk result (λ copy. copy ≡ self.now) }
    {
        Ok(match self {
            FieldType::Byte => FieldType::Byte,
            FieldType::Char => FieldType::Char,
            FieldType::Short => FieldType::Short,
            FieldType::Bool => FieldType::Bool,
            FieldType::Int => FieldType::Int,
            FieldType::Long => FieldType::Long,
            FieldType::Float => FieldType::Float,
            FieldType::Double => FieldType::Double,
            FieldType::Named(name) => FieldType::Named(name.copy()?),
        })
    }
}

impl Descriptor {
    /// An equal descriptor, which shares the bytes of names.
    pub fn copy(&self, alloc: Global) -> Result<Descriptor, NoMemory>
        ensures { IfOk result (λ copy. copy ≡ self.now) }
    {
        let params = copy_list(alloc, &self.params)?;
        let result = match &self.result {
            Some(field_type) => Some(field_type.copy()?),
            None => None,
        };
        Ok(Descriptor { params, result })
    }
}

impl Instr {
    /// An equal instruction.
    pub fn copy(&self, alloc: Global) -> Result<Instr, NoMemory>
        ensures { IfOk result (λ copy. copy ≡ self.now) }
    {
        Ok(match self {
            Instr::Nop => Instr::Nop,
            Instr::Const(value) => Instr::Const(*value),
            Instr::Ldc(index) => Instr::Ldc(*index),
            Instr::Ldc2(index) => Instr::Ldc2(*index),
            Instr::Load(kind, local) => Instr::Load(*kind, *local),
            Instr::Store(kind, local) => Instr::Store(*kind, *local),
            Instr::Iinc(local, by) => Instr::Iinc(*local, *by),
            Instr::ArrayLoad(opcode) => Instr::ArrayLoad(*opcode),
            Instr::ArrayStore(opcode) => Instr::ArrayStore(*opcode),
            Instr::Shuffle(opcode) => Instr::Shuffle(*opcode),
            Instr::Pure(opcode) => Instr::Pure(*opcode),
            Instr::Divide(opcode) => Instr::Divide(*opcode),
            Instr::FloatAsk(opcode) => Instr::FloatAsk(*opcode),
            Instr::If(opcode, to) => Instr::If(*opcode, *to),
            Instr::If2(opcode, to) => Instr::If2(*opcode, *to),
            Instr::IfSame(opcode, to) => Instr::IfSame(*opcode, *to),
            Instr::IfNull(opcode, to) => Instr::IfNull(*opcode, *to),
            Instr::Goto(to) => Instr::Goto(*to),
            Instr::Table {
                low,
                other,
                targets,
            } => Instr::Table {
                low: *low,
                other: *other,
                targets: copy_plain(alloc, targets)?,
            },
            Instr::Lookup { other, pairs } => Instr::Lookup {
                other: *other,
                pairs: copy_plain(alloc, pairs)?,
            },
            Instr::Return(kind) => Instr::Return(*kind),
            Instr::GetStatic(field) => Instr::GetStatic(*field),
            Instr::PutStatic(field) => Instr::PutStatic(*field),
            Instr::GetField(field) => Instr::GetField(*field),
            Instr::PutField(field) => Instr::PutField(*field),
            Instr::Invoke(opcode, method, count) => Instr::Invoke(*opcode, *method, *count),
            Instr::Dynamic(call) => Instr::Dynamic(*call),
            Instr::New(class) => Instr::New(*class),
            Instr::NewArray(code) => Instr::NewArray(*code),
            Instr::NewRefArray(class) => Instr::NewRefArray(*class),
            Instr::NewMulti(class, dimensions) => Instr::NewMulti(*class, *dimensions),
            Instr::Length => Instr::Length,
            Instr::Throw => Instr::Throw,
            Instr::Cast(class) => Instr::Cast(*class),
            Instr::InstanceOf(class) => Instr::InstanceOf(*class),
            Instr::Enter => Instr::Enter,
            Instr::Leave => Instr::Leave,
        })
    }
}

impl InnerAttr {
    /// An equal attribute.
    pub fn copy(&self, alloc: Global) -> Result<InnerAttr, NoMemory>
        ensures { IfOk result (λ copy. copy ≡ self.now) }
    {
        Ok(InnerAttr {
            name: self.name,
            bytes: copy_plain(alloc, &self.bytes)?,
        })
    }
}

impl CodePart {
    /// Equal parts of a Code attribute.
    pub fn copy(&self, alloc: Global) -> Result<CodePart, NoMemory>
        ensures { IfOk result (λ copy. copy ≡ self.now) }
    {
        Ok(CodePart {
            max_stack: self.max_stack,
            max_locals: self.max_locals,
            code: copy_plain(alloc, &self.code)?,
            handlers: copy_plain(alloc, &self.handlers)?,
            attrs: copy_list(alloc, &self.attrs)?,
        })
    }
}

impl Attr {
    /// An equal attribute.
    pub fn copy(&self, alloc: Global) -> Result<Attr, NoMemory>
        ensures { IfOk result (λ copy. copy ≡ self.now) }
    {
        Ok(match self {
            Attr::Raw { name, bytes } => Attr::Raw {
                name: *name,
                bytes: copy_plain(alloc, bytes)?,
            },
            Attr::Code { name, part } => Attr::Code {
                name: *name,
                part: part.copy(alloc)?,
            },
        })
    }
}

impl Field {
    /// An equal field.
    pub fn copy(&self, alloc: Global) -> Result<Field, NoMemory>
        ensures { IfOk result (λ copy. copy ≡ self.now) }
    {
        Ok(Field {
            flags: self.flags,
            name: self.name,
            desc: self.desc,
            attrs: copy_list(alloc, &self.attrs)?,
        })
    }
}

impl Method {
    /// An equal method.
    pub fn copy(&self, alloc: Global) -> Result<Method, NoMemory>
        ensures { IfOk result (λ copy. copy ≡ self.now) }
    {
        Ok(Method {
            flags: self.flags,
            name: self.name,
            desc: self.desc,
            attrs: copy_list(alloc, &self.attrs)?,
        })
    }
}

impl ClassFile {
    /// An equal class file, which shares the bytes of the texts in its pool.
    pub fn copy(&self, alloc: Global) -> Result<ClassFile, NoMemory>
        ensures { IfOk result (λ copy. copy ≡ self.now) }
    {
        Ok(ClassFile {
            major: self.major,
            minor: self.minor,
            pool: self.pool.copy(alloc)?,
            flags: self.flags,
            this_class: self.this_class,
            super_class: self.super_class,
            interfaces: copy_plain(alloc, &self.interfaces)?,
            fields: copy_list(alloc, &self.fields)?,
            methods: copy_list(alloc, &self.methods)?,
            attrs: copy_list(alloc, &self.attrs)?,
        })
    }
}
