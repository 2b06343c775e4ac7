//! Field constructors.
ghost use Rattle.std.specs.Prelude.{◌≡◌, IfOk, bytes_eq};
ghost use Rattle.std.specs.List.{list_any};
ghost use Rattle.class_model.specs.ModifiedUtf8.{IsModifiedUtf8};
ghost use Rattle.class_model.specs.Names.{init};
ghost use Rattle.class_tree.specs.Names.{is_member};
ghost use Rattle.field_constructors.specs.Inner.ConstructorWords.{IsFitting, IsFreeConstructor, IsOpened, descriptor_of, is_taken};

use class_model::{Header, INIT, NoMemory, Text};
use std::alloc::Global;

const MOST_DIMENSIONS: usize = 8;

const MAX_TEXT: usize = 65_535;

/// The descriptor of the field constructor of a class with fields of these descriptors, where method handles refer to its
/// instance initialisers of these descriptors; none where it may have no field constructor.
pub(crate) fn constructor(
    alloc: Global,
    class: &Header,
    fields: &[Text],
    handles: &[Text],
) -> Result<Option<Text>, NoMemory>
    ensures { IfOk result (IsFreeConstructor class.now fields.now handles.now) }
{
    for dimensions in 1..MOST_DIMENSIONS + 1 {
        let desc = constructor_descriptor(alloc, fields, dimensions)?;
        if !is_taken(class, handles, desc.as_slice()) {
            return fitting(alloc, desc.as_slice());
        }
    }
    Ok(None)
}

// The text of these bytes, if they are few enough.
fn fitting(alloc: Global, bytes: &[u8]) -> Result<Option<Text>, NoMemory>
    requires { IsModifiedUtf8 bytes.now }
    ensures { IfOk result (IsFitting bytes.now) }
{
    if bytes.len() > MAX_TEXT {
        return Ok(None);
    }
    Ok(Some(Text::of_text(alloc, bytes)?))
}

// Whether a class declares an instance initialiser of a descriptor, or a method handle refers to one.
fn is_taken(class: &Header, handles: &[Text], desc: &[u8]) -> bool
    ensures { result ≡ is_taken class.now handles.now desc.now }
{
    declares_init(class, desc) || is_one_of(handles, desc)
}

// Whether a class declares an instance initialiser of a descriptor.
fn declares_init(class: &Header, desc: &[u8]) -> bool
    ensures { result ≡ list_any (is_member init desc.now) class.now.methods }
{
    let methods = class.methods.as_slice();
    methods.iter().any(|method| INIT == method.name.bytes() && desc == method.desc.bytes())
}

// Whether a descriptor is one of these.
fn is_one_of(texts: &[Text], desc: &[u8]) -> bool
    ensures { result ≡ list_any (bytes_eq desc.now) texts.now }
{
    texts.iter().any(|text| desc == text.bytes())
}

// The descriptor of the constructor of fields with these descriptors, and of an array of so many dimensions.
fn constructor_descriptor(
    alloc: Global,
    fields: &[Text],
    dimensions: usize,
) -> Result<Vec<u8>, NoMemory>
    ensures same { IfOk result (λ desc. desc.items ≡ descriptor_of fields.now dimensions) }
    ensures text { IfOk result (λ desc. IsModifiedUtf8 desc.items) }
{
    let mut desc = opened(alloc, fields)?;
    for _ in 0..dimensions {
        desc.push(b'[')?;
    }
    desc.extend_from_slice(b"Z)V")?;
    Ok(desc)
}

// What it begins with: these descriptors behind a parenthesis.
fn opened(alloc: Global, fields: &[Text]) -> Result<Vec<u8>, NoMemory>
    ensures { IfOk result (λ desc. IsOpened fields.now desc.items) }
{
    let mut desc = Vec::new(alloc);
    desc.push(b'(')?;
    for field in fields {
        desc.extend_from_slice(field.bytes())?;
    }
    Ok(desc)
}
