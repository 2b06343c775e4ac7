//! The listing of a class file.
ghost use Rattle.std.specs.Prelude.{◌≡◌, ◌++◌, IfOk, OnOk};
ghost use Rattle.std.specs.List.{flat_map, AllByRecursion};
ghost use Rattle.code_bytes.specs.Codes.{HasInstrs};
ghost use Rattle.class_listing.specs.Inner.ListingTexts.{interface_text, tail_text};
ghost use Rattle.class_listing.specs.Lines.{class_line, line_text};
ghost use Rattle.class_listing.specs.Listings.{HasCodes, listing};

use crate::attributes::push_attributes;
use crate::constants::push_constants;
use crate::members::{push_fields, push_flags, push_methods};
use crate::words::push_named;
use class_model::{Attr, ByteList, ClassFile, ListOf, NoMemory};
use std::alloc::Global;

/// The listing of a class file, each code of which `decode` accepts: a line for each of its parts, in the order of the file.
///
/// # Errors
///
/// `NoMemory` where memory runs out.
pub fn list_class(alloc: Global, class: &ClassFile) -> Result<ByteList, NoMemory>
    requires { HasCodes class.now }
    ensures { IfOk result (λ text. text ≡ listing class.now) }
{
    let mut out = Vec::new(alloc);
    push_class(alloc, &mut out, class)?;
    Ok(ListOf::from_vec(out))
}

/// Appends the listing of a class file.
fn push_class(alloc: Global, out: &mut Vec<u8>, class: &ClassFile) -> Result<(), NoMemory>
    requires { HasCodes class.now }
    ensures { OnOk result (out.new.items ≡ out.old.items ++ listing class.now) }
{
    push_class_line(out, class)?;
    push_constants(out, &class.pool)?;
    push_interfaces(out, class.interfaces.as_slice())?;
    push_fields(alloc, out, class.fields.as_slice())?;
    push_methods(alloc, out, class.methods.as_slice())?;
    push_tail(alloc, out, class.attrs.as_slice())?;
    out.extend_from_slice(b"end\n")?;
    Ok(())
}

/// Appends the first line.
fn push_class_line(out: &mut Vec<u8>, class: &ClassFile) -> Result<(), NoMemory>
    ensures { OnOk result (out.new.items ≡ out.old.items ++ line_text (class_line class.now.major
        class.now.minor class.now.flags class.now.this_class class.now.super_class)) }
{
    push_named(out, b"class ", class.major)?;
    push_named(out, b".", class.minor)?;
    push_flags(out, class.flags)?;
    push_named(out, b" this=", class.this_class)?;
    push_named(out, b" super=", class.super_class)?;
    out.push(b'\n')?;
    Ok(())
}

/// Appends a line for each interface.
fn push_interfaces(out: &mut Vec<u8>, interfaces: &[u16]) -> Result<(), NoMemory>
    ensures { OnOk result
        (out.new.items ≡ out.old.items ++ flat_map interface_text interfaces.now) }
{
    for interface in interfaces {
        push_named(out, b"interface ", *interface)?;
        out.push(b'\n')?;
    }
    Ok(())
}

/// Appends the attributes of the class behind `tail`, if it has any.
fn push_tail(alloc: Global, out: &mut Vec<u8>, attrs: &[Attr]) -> Result<(), NoMemory>
    requires { AllByRecursion HasInstrs attrs.now }
    ensures { OnOk result (out.new.items ≡ out.old.items ++ tail_text attrs.now) }
{
    if !attrs.is_empty() {
        out.extend_from_slice(b"tail\n")?;
        push_attributes(alloc, out, attrs)?;
    }
    Ok(())
}
