//! What is known of a folder once its methods are decided.
ghost use Rattle.std.specs.Prelude.{◌≡◌, ◌++◌, [], ◌∷◌, IfOk, OnOk};
ghost use Rattle.class_rewrite.specs.Inner.Deciding.{decided_for, line_for, method_for};
ghost use Rattle.class_rewrite.specs.Rewriting.Folders.{with_part};

use crate::outcome::{FieldAt, FieldAtList, Outcome, RewrittenMethod};
use crate::report::{Line, Report};
use class_model::{
    Attr, AttrList, CodePart, ListOf, Method, MethodAt, MethodList, NoMemory, Pool, Text, TextList,
};
use flow_code::Reason;
use std::alloc::Global;

/// What is written of a class, but for what the whole folder decides: its constant pool and methods.
#[derive(Drop)]
pub(crate) struct Draft {
    pub(crate) pool: Pool,
    pub(crate) methods: MethodList,
}

/// The lines of methods, and what the codes of those that are rewritten ask of the folder: the classes whose objects they make, and the
/// fields whose flags are cleared.
#[derive(Drop)]
pub(crate) struct Decided {
    pub(crate) report: Report,
    pub(crate) made: TextList,
    pub(crate) finals: FieldAtList,
    pub(crate) privates: FieldAtList,
}

impl Decided {
    /// Nothing yet.
    pub(crate) fn new(alloc: Global) -> Self
        ensures report { result.report ≡ [] }
        ensures made { result.made ≡ [] }
        ensures finals { result.finals ≡ [] }
        ensures privates { result.privates ≡ [] }
    {
        Decided {
            report: ListOf::new(alloc),
            made: ListOf::new(alloc),
            finals: ListOf::new(alloc),
            privates: ListOf::new(alloc),
        }
    }

    /// Adds what becomes of a method.
    pub(crate) fn add(&mut self, at: MethodAt, outcome: &Outcome) -> Result<(), NoMemory>
        ensures { OnOk result (self.new ≡ decided_for at outcome.now self.old) }
    {
        match outcome {
            Outcome::Kept(reason) => self.report.push(kept_line(at, *reason)),
            Outcome::Rewritten(method) => self.add_rewritten(at, method),
        }
    }

    // Adds what is written of a method that is rewritten.
    fn add_rewritten(&mut self, at: MethodAt, method: &RewrittenMethod) -> Result<(), NoMemory>
        ensures { OnOk result (self.new ≡ decided_for at (Outcome.Rewritten method.now) self.old) }
    {
        self.report.push(rewritten_line(at, method))?;
        add_texts(&mut self.made, method.made.as_slice())?;
        add_fields(&mut self.finals, method.finals.as_slice())?;
        add_fields(&mut self.privates, method.privates.as_slice())
    }
}

// The line of a method that is kept.
fn kept_line(at: MethodAt, reason: Reason) -> Line
    ensures { result ≡ line_for at (Outcome.Kept reason) }
{
    Line {
        at,
        reason,
        sites: 0,
        news: 0,
        enters: 0,
        bytes: 0,
    }
}

// The line of a method that is rewritten.
fn rewritten_line(at: MethodAt, method: &RewrittenMethod) -> Line
    ensures { result ≡ line_for at (Outcome.Rewritten method.now) }
{
    Line {
        at,
        reason: Reason::Rewritten,
        sites: method.sites,
        news: method.news,
        enters: method.enters,
        bytes: method.bytes,
    }
}

// Appends equal texts, which share their bytes.
fn add_texts(texts: &mut TextList, more: &[Text]) -> Result<(), NoMemory>
    ensures { OnOk result (texts.new ≡ texts.old ++ more.now) }
{
    for text in more {
        texts.push(text.copy()?)?;
    }
    Ok(())
}

// Appends the numbers of fields.
fn add_fields(fields: &mut FieldAtList, more: &[FieldAt]) -> Result<(), NoMemory>
    ensures { OnOk result (fields.new ≡ fields.old ++ more.now) }
{
    for field in more {
        fields.push(*field)?;
    }
    Ok(())
}

/// What is written of a method.
pub(crate) fn method_of(
    alloc: Global,
    method: &Method,
    outcome: &Outcome,
) -> Result<Method, NoMemory>
    ensures { IfOk result (λ written. written ≡ method_for outcome.now method.now) }
{
    match outcome {
        Outcome::Kept(_) => method.copy(alloc),
        Outcome::Rewritten(rewritten) => with_code(alloc, method, &rewritten.part),
    }
}

// A method with another code.
fn with_code(alloc: Global, method: &Method, part: &CodePart) -> Result<Method, NoMemory>
    ensures { IfOk result (λ written.
        written ≡ record method.now { attrs = with_part part.now method.now.attrs }) }
{
    Ok(Method {
        flags: method.flags,
        name: method.name,
        desc: method.desc,
        attrs: attrs_with(alloc, method.attrs.as_slice(), part)?,
    })
}

// Attributes, with another content of Code.
fn attrs_with(alloc: Global, attrs: &[Attr], part: &CodePart) -> Result<AttrList, NoMemory>
    ensures { IfOk result (λ written. written ≡ with_part part.now attrs.now) }
{
    let mut written = ListOf::new(alloc);
    for attr in attrs {
        written.push(attr_with(alloc, attr, part)?)?;
    }
    Ok(written)
}

// An attribute, with another content if it is Code.
fn attr_with(alloc: Global, attr: &Attr, part: &CodePart) -> Result<Attr, NoMemory>
    ensures { IfOk result (λ written. with_part part.now (attr.now ∷ []) ≡ written ∷ []) }
{
    match attr {
        Attr::Raw { .. } => attr.copy(alloc),
        Attr::Code { name, .. } => Ok(Attr::Code {
            name: *name,
            part: part.copy(alloc)?,
        }),
    }
}
