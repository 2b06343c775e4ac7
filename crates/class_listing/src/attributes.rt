//! The lines of attributes.
ghost use Rattle.std.specs.Prelude.{◌≡◌, ◌∷◌, [], ◌++◌, decimal, OnOk};
ghost use Rattle.std.specs.List.{flat_map, AllByRecursion};
ghost use Rattle.class_model.specs.Checks.{AllHold};
ghost use Rattle.code_bytes.specs.Codes.{HasInstrs};
ghost use Rattle.code_bytes.specs.Decoding.{decoding_checks};
ghost use Rattle.script_text.specs.Characters.{line_feed};
ghost use Rattle.class_listing.specs.Inner.ListingTexts.{attr_text, attrs_text, code_text, handler_text, inner_attr_text, part_text};
ghost use Rattle.class_listing.specs.Lines.{code_line, line_text};
ghost use Rattle.class_listing.specs.Operations.{hex_word};

use crate::instructions::push_instructions;
use crate::words::{push_hex_word, push_index, push_named};
use class_model::{Attr, CodePart, Handler, InnerAttr, NoMemory};
use std::alloc::Global;

/// Appends the lines of attributes.
pub(crate) fn push_attributes(
    alloc: Global,
    out: &mut Vec<u8>,
    attrs: &[Attr],
) -> Result<(), NoMemory>
    requires { AllByRecursion HasInstrs attrs.now }
    ensures { OnOk result (out.new.items ≡ out.old.items ++ attrs_text attrs.now) }
{
    for attr in attrs {
        push_attribute(alloc, out, attr)?;
    }
    Ok(())
}

/// Appends the lines of an attribute.
fn push_attribute(alloc: Global, out: &mut Vec<u8>, attr: &Attr) -> Result<(), NoMemory>
    requires { HasInstrs attr.now }
    ensures { OnOk result (out.new.items ≡ out.old.items ++ attr_text attr.now) }
{
    match attr {
        Attr::Raw { name, bytes } => push_raw(out, b"attr ", *name, bytes.as_slice()),
        Attr::Code { name, part } => push_code(alloc, out, *name, part),
    }
}

/// Appends the line of an attribute that is kept as bytes.
fn push_raw(out: &mut Vec<u8>, front: &[u8], name: u16, bytes: &[u8]) -> Result<(), NoMemory>
    ensures { OnOk result (out.new.items ≡ out.old.items
        ++ (front.now ++ (decimal name ++ (32 ∷ (hex_word bytes.now ++ line_feed ∷ []))))) }
{
    push_named(out, front, name)?;
    out.push(b' ')?;
    push_hex_word(out, bytes)?;
    out.push(b'\n')?;
    Ok(())
}

/// Appends the lines of a Code attribute (JVM Specification SE 8, 4.7.3).
fn push_code(alloc: Global, out: &mut Vec<u8>, name: u16, part: &CodePart) -> Result<(), NoMemory>
    requires { AllHold (decoding_checks part.now.code) }
    ensures { OnOk result (out.new.items ≡ out.old.items ++ code_text name part.now) }
{
    push_code_line(out, name, part.max_stack, part.max_locals)?;
    push_instructions(alloc, out, part.code.as_slice())?;
    push_handlers(out, part.handlers.as_slice())?;
    push_inner_attributes(out, part.attrs.as_slice())?;
    out.extend_from_slice(b"endcode\n")?;
    Ok(())
}

/// Appends the first line of a Code attribute.
fn push_code_line(
    out: &mut Vec<u8>,
    name: u16,
    max_stack: u16,
    max_locals: u16,
) -> Result<(), NoMemory>
    ensures { OnOk result
        (out.new.items ≡ out.old.items ++ line_text (code_line name max_stack max_locals)) }
{
    push_named(out, b"code ", name)?;
    push_named(out, b" stack=", max_stack)?;
    push_named(out, b" locals=", max_locals)?;
    out.push(b'\n')?;
    Ok(())
}

/// Appends a line for each entry of an exception table.
fn push_handlers(out: &mut Vec<u8>, handlers: &[Handler]) -> Result<(), NoMemory>
    ensures { OnOk result
        (out.new.items ≡ out.old.items ++ flat_map handler_text handlers.now) }
{
    for handler in handlers {
        push_handler(out, *handler)?;
    }
    Ok(())
}

/// Appends the line of an entry of an exception table.
fn push_handler(out: &mut Vec<u8>, handler: Handler) -> Result<(), NoMemory>
    ensures { OnOk result (out.new.items ≡ out.old.items ++ handler_text handler) }
{
    push_named(out, b"range ", handler.start)?;
    push_index(out, handler.end)?;
    push_index(out, handler.at)?;
    push_index(out, handler.catch_type)?;
    out.push(b'\n')?;
    Ok(())
}

/// Appends a line for each attribute of a Code attribute.
fn push_inner_attributes(out: &mut Vec<u8>, attrs: &[InnerAttr]) -> Result<(), NoMemory>
    ensures { OnOk result
        (out.new.items ≡ out.old.items ++ flat_map inner_attr_text attrs.now) }
{
    for attr in attrs {
        push_inner_attribute(out, attr)?;
    }
    Ok(())
}

/// Appends the line of an attribute of a Code attribute.
fn push_inner_attribute(out: &mut Vec<u8>, attr: &InnerAttr) -> Result<(), NoMemory>
    ensures { OnOk result (out.new.items ≡ out.old.items ++ inner_attr_text attr.now) }
{
    push_raw(out, b"inner ", attr.name, attr.bytes.as_slice())
}
