//! The body of a method: what its code says, made once (JVM Specification SE 8, 4.7.3 and 4.7.4).
ghost use Rattle.std.specs.Prelude.{◌≡◌, List, length, Ok, IfOk};
ghost use Rattle.std.specs.Option.{option_copied};
ghost use Rattle.class_model.specs.Checks.{AllHold};
ghost use Rattle.class_model.specs.Descriptors.{SpellsDescriptor};
ghost use Rattle.class_model.specs.Instructions.{decoded};
ghost use Rattle.class_model.specs.Methods.{home_of};
ghost use Rattle.class_model.specs.Stated.{stated_in};
ghost use Rattle.class_model.specs.declared.instr.Placed.{Placed};
ghost use Rattle.code_bytes.specs.Codes.{IsReadMethod};
ghost use Rattle.code_bytes.specs.Decoding.{decoding_checks};
ghost use Rattle.member_link.specs.CodedMethods.{descriptor_text, entry, placed_at, stated, stated_at};
ghost use Rattle.member_link.specs.Inner.BodyParts.{AreIndexed, IsStart};

use crate::stated::{Decoded, StatedFrames, frames_in};
use class_model::{
    ClassFile, CodePart, Descriptor, Frame, Method, NoMemory, OffsetIndex, Placed, PlacedFrameList,
    PlacedList,
};
use code_bytes::{entry_frame, instructions_of, method_descriptor};
use std::alloc::Global;
use std::marker::Model;

// The instructions of a method, each found by its offset in constant time.
#[derive(Drop)]
struct IndexedInstrs {
    instrs: PlacedList,
    index: OffsetIndex,
}

// What the code of a method begins with: the frame, and the method's descriptor, which it is made from.
struct Start {
    entry: Frame,
    descriptor: Descriptor,
}

// Written out: what is derived would stand in each function that drops one, field by field, and be proved there.
impl Drop for Start {
    fn drop(self) {
        let Start {
            entry: _,
            descriptor: _,
        } = self;
    }
}

/// The body of a method with code: its instructions and the frames that it states, each found by its offset in constant
/// time, the frame that it begins with, and the method's descriptor. Contracts see the method, its code and its class file.
pub struct MethodBody<'a> {
    class: &'a ClassFile,
    method: &'a Method,
    part: &'a CodePart,
    code: IndexedInstrs,
    stated: StatedFrames,
    start: Start,
}

// Written out: what is derived would stand in each function that drops one, field by field, and be proved there.
impl Drop for MethodBody<'_> {
    fn drop(self) {
        let MethodBody {
            class: _,
            method: _,
            part: _,
            code: _,
            stated: _,
            start: _,
        } = self;
    }
}

impl<'a> Model for MethodBody<'a> {
    ghost use Rattle.member_link.specs.Inner.BodyParts.{IsBody};
    ghost use Rattle.member_link.specs.CodedMethods.{CodedMethod};

    ghost Value = { CodedMethod };

    ghost view = { λ body.
        record { class = body.class.now; method = body.method.now; part = body.part.now } };

    ghost invariant = { λ body.
        IsBody (record { class = body.class.now; method = body.method.now; part = body.part.now })
        body.code body.stated body.start };
}

impl<'a> MethodBody<'a> {
    /// That of a method whose Code attribute has this content, of a class file that was read.
    ///
    /// # Errors
    /// `NoMemory`, where memory runs out.
    pub fn new(
        alloc: Global,
        class: &'a ClassFile,
        method: &'a Method,
        part: &'a CodePart,
    ) -> Result<Self, NoMemory>
        requires method { IsReadMethod class.now.pool method.now }
        requires code { AllHold (decoding_checks part.now.code) }
        ensures { IfOk result
            (λ body. body ≡ record { class = class.now; method = method.now; part = part.now }) }
    {
        let start = start_of(alloc, class, method, part)?;
        let code = indexed(alloc, part)?;
        let decoded = Decoded {
            class,
            method,
            part,
            instrs: &code.instrs,
            entry: &start.entry,
        };
        let stated = StatedFrames::of(alloc, &decoded)?;
        Ok(MethodBody {
            class,
            method,
            part,
            code,
            stated,
            start,
        })
    }

    /// Its class file.
    pub fn class(&self) -> &'a ClassFile
        ensures { result.now ≡ self.now.class }
    {
        self.class
    }

    /// The method itself.
    pub fn method(&self) -> &'a Method
        ensures { result.now ≡ self.now.method }
    {
        self.method
    }

    /// The content of its Code attribute.
    pub fn part(&self) -> &'a CodePart
        ensures { result.now ≡ self.now.part }
    {
        self.part
    }

    /// The length of its code, in bytes.
    pub fn code_len(&self) -> u32
        ensures { result ≡ length self.now.part.code }
    {
        self.part.code.len() as u32
    }

    /// Its instructions, by offset.
    pub fn instructions(&self) -> &PlacedList
        ensures { decoded self.now.part.code ≡ Ok result.now }
    {
        &self.code.instrs
    }

    /// The instruction at an offset, in bytes, if one starts there.
    pub fn instruction_at(&self, at: u32) -> Option<&Placed>
        ensures { (instrs : List Placed)
            × (decoded self.now.part.code ≡ Ok instrs)
            × (option_copied result ≡ placed_at instrs at) }
    {
        self.code.instrs.get(self.code.index.find(u64::from(at))?)
    }

    /// The frames that it states, by offset.
    pub fn stated(&self) -> &PlacedFrameList
        ensures { result.now ≡ stated self.now }
    {
        self.stated.frames()
    }

    /// The frame that is stated for an offset, in bytes, if one is.
    pub fn stated_at(&self, offset: u32) -> Option<&Frame>
        ensures { option_copied result ≡ stated_at self.now offset }
    {
        self.stated.at(offset)
    }

    /// The frame that the code begins with.
    pub fn entry(&self) -> &Frame
        ensures { result.now ≡ entry self.now }
    {
        &self.start.entry
    }

    /// The method's descriptor.
    pub fn descriptor(&self) -> &Descriptor
        ensures { SpellsDescriptor (descriptor_text self.now) result.now }
    {
        &self.start.descriptor
    }
}

/// The frames that the code of a method states, of a class file that was read, where these are its instructions.
///
/// # Errors
/// `NoMemory`, where memory runs out.
pub(crate) fn frames_of(
    alloc: Global,
    class: &ClassFile,
    method: &Method,
    part: &CodePart,
    instrs: &PlacedList,
) -> Result<PlacedFrameList, NoMemory>
    requires method { IsReadMethod class.now.pool method.now }
    requires instrs { decoded part.now.code ≡ Ok instrs.now }
    ensures { IfOk result (λ frames.
        frames ≡ stated_in (home_of class.now) method.now part.now part.now.attrs) }
{
    let start = start_of(alloc, class, method, part)?;
    let code = Decoded {
        class,
        method,
        part,
        instrs,
        entry: &start.entry,
    };
    frames_in(alloc, &code, part.attrs.as_slice())
}

// What the code of a method begins with, of a class file that was read.
fn start_of(
    alloc: Global,
    class: &ClassFile,
    method: &Method,
    part: &CodePart,
) -> Result<Start, NoMemory>
    requires { IsReadMethod class.now.pool method.now }
    ensures { IfOk result (IsStart
        (record { class = class.now; method = method.now; part = part.now })) }
{
    let Some(text) = class.pool.utf8(method.desc) else {
        unreachable!()
    };
    let descriptor = method_descriptor(alloc, text, method.flags)?;
    let entry = entry_frame(alloc, class, method, part, descriptor.params.as_slice())?;
    Ok(Start { entry, descriptor })
}

// The instructions of a method's code, with their index.
fn indexed(alloc: Global, part: &CodePart) -> Result<IndexedInstrs, NoMemory>
    requires { AllHold (decoding_checks part.now.code) }
    ensures { IfOk result (AreIndexed part.now.code) }
{
    let instrs = instructions_of(alloc, part.code.as_slice())?;
    let index = OffsetIndex::of(alloc, instrs.as_slice())?;
    Ok(IndexedInstrs { instrs, index })
}
