//! The descriptors of the calls of a method's code (JVM Specification SE 8, 4.3.3): one that several
//! calls name is parsed once.
ghost use Rattle.std.specs.Prelude.{◌≡◌, IfOk, IfSome};
ghost use Rattle.type_rules.specs.Inner.ParsedCalls.{DescribesMember, IsParsedAt, member_of};

use class_model::{Const, Descriptor, Instr, NameFault, NoMemory, Placed, Pool, parse_descriptor};
use std::alloc::Global;
use std::marker::Model;

/// A descriptor that was parsed, and the index of its text.
#[derive(Drop)]
pub(crate) struct CallDescriptor {
    text: u16,
    parsed: Descriptor,
}

/// The descriptors that more than one call of a method's code names. Contracts see the pool.
#[derive(Drop)]
pub(crate) struct CallDescriptors<'a> {
    pool: &'a Pool,
    // by the indices of their texts, which increase
    found: Vec<CallDescriptor>,
}

impl<'a> Model for CallDescriptors<'a> {
    ghost use Rattle.std.specs.List.{AllByRecursion};
    ghost use Rattle.class_model.specs.Pool.{Constants};
    ghost use Rattle.type_rules.specs.Inner.ParsedCalls.{IsFound};

    ghost Value = { Constants };

    ghost view = { λ calls. calls.pool.now };

    ghost invariant = { λ calls. AllByRecursion (IsFound calls.pool.now) calls.found.items };
}

impl<'a> CallDescriptors<'a> {
    /// Those of instructions of a class file with this pool.
    pub(crate) fn of(alloc: Global, pool: &'a Pool, instrs: &[Placed]) -> Result<Self, NoMemory>
        ensures { IfOk result (λ calls. calls ≡ pool.now) }
    {
        let texts = called_texts(alloc, pool, instrs)?;
        let mut calls = CallDescriptors {
            pool,
            found: Vec::new(alloc),
        };
        calls.parse_repeated(alloc, texts.as_slice())?;
        Ok(calls)
    }

    // Parses each of these texts, which are sorted, that stands there more than once.
    fn parse_repeated(&mut self, alloc: Global, texts: &[u16]) -> Result<(), NoMemory>
        ensures { self.new ≡ self.old }
    {
        let mut before = 0;
        for text in texts {
            if *text == before && !self.is_last(*text) {
                self.parse(alloc, *text)?;
            }
            before = *text;
        }
        Ok(())
    }

    // Whether the text at an index was parsed last.
    fn is_last(&self, text: u16) -> bool {
        match self.found.last() {
            Some(found) => found.text == text,
            None => false,
        }
    }

    // Parses the descriptor at an index, if a text is there that is one.
    fn parse(&mut self, alloc: Global, text: u16) -> Result<(), NoMemory>
        ensures { self.new ≡ self.old }
    {
        let Some(desc) = self.pool.utf8(text) else {
            return Ok(());
        };
        match parse_descriptor(alloc, desc) {
            Ok(parsed) => self.keep(text, parsed),
            Err(NameFault::BadName) => Ok(()),
            Err(NameFault::NoMemory) => Err(NoMemory),
        }
    }

    // Keeps the descriptor of the text at an index.
    fn keep(&mut self, text: u16, parsed: Descriptor) -> Result<(), NoMemory>
        requires { IsParsedAt self.old text parsed }
        ensures { self.new ≡ self.old }
    {
        self.found.push(CallDescriptor { text, parsed })?;
        Ok(())
    }

    // The descriptor of the text at an index, if it was parsed.
    fn find(&self, text: u16) -> Option<&Descriptor>
        ensures { IfSome result (λ parsed. IsParsedAt self.now text parsed.now) }
    {
        let place = self.found.partition_point(|found| found.text < text);
        let found = self.found.get(place)?;
        if found.text == text {
            Some(&found.parsed)
        } else {
            None
        }
    }

    /// The descriptor of the NameAndType constant at an index, if it was parsed.
    pub(crate) fn of_member(&self, member: u16) -> Option<&Descriptor>
        ensures { IfSome result (λ parsed. DescribesMember self.now member parsed.now) }
    {
        let (_, text) = self.pool.name_and_type(member)?;
        self.find(text)
    }
}

// The indices of the texts of the descriptors that calls name, sorted, one for each call.
fn called_texts(alloc: Global, pool: &Pool, instrs: &[Placed]) -> Result<Vec<u16>, NoMemory> {
    let mut texts = Vec::new(alloc);
    for placed in instrs {
        if let Some(text) = called_text(pool, &placed.instr) {
            texts.push(text)?;
        }
    }
    texts.sort_unstable();
    Ok(texts)
}

// The index of the text of the descriptor that an instruction names, if it is a call.
fn called_text(pool: &Pool, instr: &Instr) -> Option<u16> {
    let (Instr::Invoke(_, index, _) | Instr::Dynamic(index)) = instr else {
        return None;
    };
    let (_, text) = pool.name_and_type(member_of(pool.get(*index)?)?)?;
    Some(text)
}

/// The index of the NameAndType constant of a constant that calls name.
pub(crate) fn member_of(constant: &Const) -> Option<u16>
    ensures { result ≡ member_of constant.now }
{
    match constant {
        Const::Methodref(_, member)
        | Const::InterfaceMethodref(_, member)
        | Const::InvokeDynamic(_, member) => Some(*member),
        _ => None,
    }
}
